//! What `xls` writes of a file: the text of a command over the workbook that the file holds, or why there is none.
#![tactic(auto)]

mod answer;
mod beside;
mod check;
mod damaged;
mod failure;
mod hidden_cells;
mod hidden_parts;
mod lines;
mod options;
mod remake;
mod stream;
mod tables;

pub use answer::Answer;
pub use damaged::damaged_things;
pub use failure::{Failure, Missing};
pub use hidden_cells::hidden_cells_at;
pub use hidden_parts::{HiddenParts, skipped_at, skipped_parts};
pub use lines::write_lines;
pub use options::options_of;
pub use stream::{view_of, write_file, write_stream, write_workbook};
pub use tables::{chosen, write_sheet_at};
