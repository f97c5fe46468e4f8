//! Numbers as Excel shows them under a number format.
#![tactic(auto)]

mod exponent;
mod general;
mod laws;
mod number;
mod parts;
mod plain;
mod shown;

pub use exponent::{Exponent, push_exponent, read_exponent};
pub use general::{push_general, push_general_double};
pub use laws::shows_whole_numbers;
pub use number::{Number, is_zero, size};
pub use plain::{Plain, Seen, read_plain};
pub use shown::{append_place, push_plain};
