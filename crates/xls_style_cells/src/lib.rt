//! The cells of a sheet that have a format, in order, each with its XF index; and the formatting runs of their texts.
#![tactic(auto)]

mod ascent;
mod cells;
mod fields;
mod marked;
mod places;
mod records;
mod runs;
mod tables;
pub mod types;
mod walk;

pub use cells::{SheetStyles, StyleCells};
pub use records::{CellRuns, StyleCell};
pub use runs::{Run, Runs};
pub use tables::StringRuns;

#[cfg(test)]
mod tests;
