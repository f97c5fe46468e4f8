//! Dense ranges of cells, for every type of cells; and the cells of a sheet in order of their positions.
#![tactic(auto)]

mod error;
mod grid;
mod iters;
pub mod laws;
mod moves;
mod range;
mod sorted;
mod sparse;

pub use error::RangeError;
pub use iters::{Cells, Rows, UsedCells};
pub use range::Range;
pub use sorted::{Numbered, Settled, Unsettled, sorted_cells};
