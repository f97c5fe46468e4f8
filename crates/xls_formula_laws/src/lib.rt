//! Laws of the texts of formulas.
#![tactic(auto)]

mod laws;

pub use laws::{shared_are_alike, texts_agree, tokens_agree};
