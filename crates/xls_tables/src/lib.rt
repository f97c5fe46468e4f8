//! The cells of a sheet as CSV that people read, row by row, and the names of files for sheets.
#![tactic(auto)]

mod file_names;
mod gathered;
mod table;

pub use file_names::{file_name, names_differ};
pub use table::write_table;
