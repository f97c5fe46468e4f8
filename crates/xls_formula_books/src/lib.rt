//! What formulas as Excel shows them call other sheets, other workbooks and names.
#![tactic(auto)]

mod books;
mod early_names;
mod early_prefixes;
mod extern_names;
mod here;
mod lists;
mod names;
mod own;
mod paths;
mod places;
mod prefixes;
mod sheet_refs;
mod sources;
mod sup_books;
mod texts;

pub use books::FormulaBooks;
pub use extern_names::ExternName;
pub use here::Here;
pub use names::name_number;
pub use places::SheetPlace;
pub use sources::{Kind, Source};
