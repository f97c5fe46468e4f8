//! The defined names of a workbook, by the Lbl records of its globals.
#![tactic(auto)]

mod fields;
mod kinds;
mod names;

pub use fields::name_formula;
pub use kinds::{NameKinds, kinds_text};
pub use names::{DefinedName, DefinedNames, name_bytes, scope_of, shown_name};
