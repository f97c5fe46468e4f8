//! Laws of what Excel shows of a number.
#![tactic(auto)]

mod decimals;
mod fractions;
mod general;

pub use decimals::shows_decimals;
pub use fractions::{
    fractions_are_in_lowest_terms, fractions_keep_their_denominator, fractions_keep_their_places,
};
pub use general::{general_shows_ten_digits, general_shows_whole_numbers};
