//! Lines of text that are gathered before they are written.
#![tactic(auto)]

mod buffer;
mod days;
mod field;
mod head;
mod put;
mod short;

pub use buffer::Buffer;
pub use days::{digit, put_day, put_two_digits};
pub use field::Field;
pub use put::{put_cell, put_line, write_line};
pub use short::Short;
