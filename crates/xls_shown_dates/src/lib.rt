//! Dates and times as Excel shows them under a number format.
#![tactic(auto)]

mod clocks;
mod fields;
mod laws;
mod moments;
mod texts;

pub use clocks::{Clock, read_clock};
pub use fields::Field;
pub use laws::one_moment;
pub use moments::{Moment, Precision, moment_of};
pub use texts::push_moment;
