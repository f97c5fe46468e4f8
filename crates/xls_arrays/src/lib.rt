//! What a workbook's stream holds, counted and put into arrays that the caller owns.
#![tactic(auto)]

mod cells;
mod decoding;
mod faults;
mod formulas;
mod items;
mod laws;
mod laying;
mod numbers;
mod options;
mod parts;
mod reading;
mod refusal;
mod refusal_laws;
mod refusal_texts;
mod regions;
mod rooms;
mod serials;
mod sheets;
mod shown;
mod streams;
mod telling;
mod values;
mod whole;

pub use decoding::refusal_of;
pub use faults::{Fault, fault_of, plain};
pub use items::{CellItem, FormulaItem, NameItem, RegionItem, SheetItem, Sizes, Span};
pub use laws::arrays_are_reported;
pub use laying::refuse_bytes;
pub use numbers::form_of;
pub use options::{Options, options_of};
pub use reading::{answer, measure, read, read_shown};
pub use refusal::{Chain, Refusal};
pub use refusal_laws::refusals_are_reported;
pub use refusal_texts::sentence_of;
pub use rooms::{plus, put, put_bytes};
pub use serials::serial;
pub use streams::stream;
pub use telling::fault_text;
