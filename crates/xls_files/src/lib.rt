//! What the program `xls` reads and writes by: a host of files, their paths, and a queue of files and folders.
#![tactic(auto)]

mod host;
mod output;
mod paths;
mod queue;

pub use host::{Host, Kind, Listed, Name, Place, Reason, place_of};
pub use output::begin;
pub use paths::{file_path, folder_of, is_workbook, joined, names_of};
pub use queue::{Next, Queue};
