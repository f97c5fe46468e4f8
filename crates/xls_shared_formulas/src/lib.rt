//! The formulas of a sheet that more than one cell has: shared formulas, array formulas and data tables, by the records of
//! its part; and where a cell's tokens point to one of them.
#![tactic(auto)]

mod contents;
mod fields;
mod found;
mod laws;
mod sheet;
mod start;
pub mod types;
mod walk;

pub use contents::{Contents, FormulaBytes, TableInput, TableInputs, contents_of, split_tokens};
pub use fields::{CellPlace, CellRange, FormulaKind};
pub use found::RangeFormula;
pub use laws::tokens_find;
pub use sheet::{RangeLines, SheetFormulas};
pub use start::{FormulaStart, read_start};
pub use walk::RangeFormulas;
