//! Values as Excel shows them under a number format's code.
#![tactic(auto)]

mod formats;
mod numbers;
mod sections;

pub use formats::ShownFormat;
