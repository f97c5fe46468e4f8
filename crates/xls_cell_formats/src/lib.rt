//! Cells under their number formats: which code a cell has, what its number is under it, and how it is shown.
#![tactic(auto)]

mod contents;
mod doubles;
mod formats;
mod kept;
mod numbers;
mod places;

pub use contents::push_content;
pub use doubles::bits_of;
pub use formats::CellFormats;
pub use numbers::{class_under, numeric_under, push_number};
