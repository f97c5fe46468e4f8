//! Which rows and columns of a sheet can't be seen, and how many cells stand in them.
#![tactic(auto)]

mod seen;
mod sight;

pub use seen::{is_cell_hidden, is_column_hidden, is_row_hidden};
pub use sight::Sight;
