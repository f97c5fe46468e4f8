//! Which cells of a sheet have formulas, and where the records with their tokens stand.
#![tactic(auto)]

mod ascent;
mod contents;
mod order;
mod place;
mod places;
mod walk;

pub use contents::formula_contents;
pub use place::FormulaPlace;
pub use places::{FormulaPlaceIter, FormulaPlaces};
