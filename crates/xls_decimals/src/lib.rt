//! Numbers, dates, times of day and durations as people read them, appended to a text that is used
//! again.
#![tactic(auto)]

mod decimals;
mod durations;
mod fractions;
mod laws;
mod moments;
mod numbers;
mod short_texts;

pub use decimals::{push_decimal, push_double};
pub use durations::{is_span, push_duration};
pub use laws::dates_differ;
pub use moments::{is_moment, push_date, push_date_or_duration};
pub use numbers::push_number;
