//! What a workbook has beside its values, line by line, written to a sink: what is hidden in its sheets, their
//! comments and links, how their cells look, and the other workbooks that it refers to.
#![tactic(auto)]

mod books;
mod checked;
mod comments;
mod counting;
mod damaged;
mod hidden;
mod lines;
mod links;
mod parts;
mod sheets;
mod styles;
mod topics;

pub use books::write_books;
pub use checked::{checked_globals, read_globals_of};
pub use comments::write_comments;
pub use damaged::count_damaged;
pub use hidden::write_hidden;
pub use links::write_links;
pub use parts::{SheetPart, part_at, read_parts};
pub use styles::write_styles;
pub use topics::{Topic, write_beside};
