//! Logical lists: put together entry by entry, or read from a stream, and written as canonical streams.
#![tactic(auto)]

mod entry;
mod error;
mod fill;
mod kept;
mod laws;
mod length;
mod logical;
mod read;
mod table;
mod units;
mod whole;
mod write;

pub use error::LayError;
pub use laws::{
    canonical_carries, canonical_equality, canonical_opens, opens_again, written_again,
};
pub use length::{TOO_LONG, canonical_length};
pub use logical::Logical;
pub use read::logical_of;
pub use write::{write_stream, write_workbook};
