//! Doubles rounded to 15 significant decimal digits, as Excel shows and stores them.
#![tactic(auto)]

mod decimals;
mod doubles;
mod formula_numbers;
mod laws;
mod limbs;

pub use decimals::{
    Decimal, Rounded, at_place, magnitude, places, short_over_ten_to, times_at_place,
};
pub use doubles::to_15_digits;
pub use formula_numbers::{push_formula_number, push_parts, push_scientific, without_zeros, zeros};
pub use laws::halves_up;
