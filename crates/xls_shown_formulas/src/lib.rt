//! The formulas of a workbook as Excel shows them: those of cells, of arrays and data tables, and of defined names.
#![tactic(auto)]

mod book;
mod buffer;
mod inputs;
mod sheet;
mod texts;

pub use book::ShownBook;
pub use buffer::ShownBuffer;
pub use sheet::{ShownSheet, place_in};
