//! Which other workbooks, programs and added functions a workbook refers to, by the records of its globals.
#![tactic(auto)]

mod books;
mod cites;
mod cursor;
mod damage;
mod entries;
mod links;
mod marked;
mod names;
mod outside;
mod paths;
mod sheet_refs;
mod sup_books;
mod texts;
pub mod types;

pub use books::{Book, Linked, kind_word};
pub use cursor::Cursor;
pub use damage::{Damage, DamagedRecord, Flaw};
pub use entries::{Entry, read_entries};
pub use links::{OtherBooks, Outside};
pub use marked::{Marked, read_text};
pub use names::{short_text, text_at};
pub use outside::Cited;
pub use sheet_refs::split_path;
pub use sup_books::read_texts;

#[cfg(test)]
mod tests;
