//! What the calls of a range refuse.

use thiserror::Error;

/// Why a range was not made, or not changed.
#[derive(Debug, Drop, Error)]
pub enum RangeError {
    /// The end stands before the start, or a position before the start of its range.
    #[error("invalid range bounds")]
    Bounds,
    /// Height times width does not fit a `usize`.
    #[error("range too large")]
    TooLarge,
    /// There is not enough memory.
    #[error("Out of memory")]
    Memory,
}
