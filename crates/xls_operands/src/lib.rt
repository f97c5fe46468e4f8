//! The texts of a formula's operands, on a stack: what tokens append, put before and join.
#![tactic(auto)]

mod appended;
mod buffer;
mod prefixes;

pub use appended::Appended;
pub use buffer::Operands;
