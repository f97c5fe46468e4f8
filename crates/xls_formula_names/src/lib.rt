//! How Excel writes the names of sheets, books and commands in the text of a formula.
#![tactic(auto)]

mod appends;
mod books;
mod commands;
mod links;
mod paths;
mod quotes;
mod sheets;
mod signs;
mod starts;
mod tables;

pub use books::{push_book, push_file};
pub use commands::command_name;
pub use links::{Link, push_link};
pub use paths::Path;
pub use quotes::needs_quotes;
pub use sheets::{Sheets, push_name, push_quoted, push_sheets};
pub use tables::built_in_name;
