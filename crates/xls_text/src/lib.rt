//! Texts of a stream: code pages and 16-bit units.
#![tactic(auto)]

mod append;
mod encoding;
mod error;
mod laws;
mod single;
mod units;

pub use append::{push_units, text_of_units};
pub use encoding::XlsEncoding;
pub use error::CfbError;
pub use laws::{one_utf8_reading, one_utf16_reading};
