//! The cells that formulas as Excel shows them cite.
#![tactic(auto)]

mod citation;
mod citations;
mod citing;
mod items;
mod keys;
mod laws;
mod letters;
mod sheet;
mod spelled;
mod steps;
mod walk;

pub use citation::Citation;
pub use citations::Citations;
pub use citing::Citing;
pub use laws::spelled_anywhere;
