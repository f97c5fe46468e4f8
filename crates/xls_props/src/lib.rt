//! The property streams of a workbook file: titles, authors, dates and custom properties. The
//! project directory of `xls_vba` is handed on.
#![tactic(auto)]

mod bytes;
mod custom;
mod entries;
mod moments;
mod names;
mod properties;
mod section;
mod texts;
mod values;

pub use moments::filetime_to_iso8601;
pub use properties::{WorkbookProperties, workbook_properties_of};
pub use xls_vba::{Module, Reference, VbaError, VbaPart, VbaProject};
