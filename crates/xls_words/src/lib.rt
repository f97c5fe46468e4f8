//! The words of the command line of `xls`: which command, of which files, and how.
#![tactic(auto)]

mod displayed;
mod grammar;
mod parse;
mod plain;
mod request;
mod word;

pub use displayed::Displayed;
pub use grammar::VERSION;
pub use parse::request_of;
pub use request::{Command, Files, Folder, Passwords, Request};
pub use word::Word;
