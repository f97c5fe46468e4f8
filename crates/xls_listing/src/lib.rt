//! What a workbook holds, line by line, written to a sink as people read it, as JSON, or exact.
#![tactic(auto)]

mod cells;
mod forms;
mod formulas;
mod laws;
mod lines;
mod listing;
mod merges;
mod readings;
mod refs;
mod sheets;
mod values;

pub use forms::FormBuffer;
pub use formulas::write_formula_list;
pub use laws::{exact_is_given, recorded_is_dump};
pub use lines::{BookLine, LineForm};
pub use listing::write_listing;
pub use readings::CellReading;
pub use refs::write_ref_list;
pub use sheets::write_sheet_list;
