//! Tests of the formulas of ranges of cells, and of defined names.
#![tactic(auto)]

#[cfg(test)]
mod names;
#[cfg(test)]
mod ranges;
