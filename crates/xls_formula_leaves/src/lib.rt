//! The leaves in the text of a formula as Excel shows it: cells and areas, constants, constant arrays.
#![tactic(auto)]

mod appends;
mod areas;
mod arrays;
mod places;
mod strings;
mod words;

pub use areas::{push_area, push_cell};
pub use arrays::push_array;
pub use places::{Place, placed};
pub use strings::push_string;
pub use words::{bool_text, error_text, operator_text, push_int, push_number};
