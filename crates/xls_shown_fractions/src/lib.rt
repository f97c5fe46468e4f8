//! Fractions as Excel shows them under a number format.
#![tactic(auto)]

mod needs;
mod ratios;
mod roles;
mod texts;

pub use needs::{Fraction, read_fraction};
pub use texts::push_fraction;
