//! Why a list isn't written.

ghost use Rattle.std.specs.Prelude.{◌≡◌};
ghost use Rattle.xls_lay.specs.declared.error.LayError.TheVariants.{Memory};

use std::alloc::{AllocError, AllocFailed};
use std::fmt;

/// Why the canonical stream of a list isn't written.
#[derive(Clone, Copy, Debug, PartialEq, Eq)]
pub enum LayError {
    /// The stream would have `found` bytes, or that many at least where `found` is 2^64 - 1. Offsets of 32
    /// bits reach fewer than 2^32.
    TooLong { found: u64 },
    /// Memory ran out.
    Memory,
}

impl From<AllocError> for LayError {
    ghost from_gives = { λ _ e. e ≡ Memory };

    fn from(_: AllocError) -> Self {
        LayError::Memory
    }
}

impl<T: Drop> From<AllocFailed<T>> for LayError {
    ghost from_gives = { λ _ e. e ≡ Memory };

    fn from(_: AllocFailed<T>) -> Self {
        LayError::Memory
    }
}

impl fmt::Display for LayError {
    ghost use Rattle.std.specs.Prelude.{Some};
    ghost use Rattle.xls_lay.specs.ErrorText.{error_text};

    ghost output = { λ e. Some (error_text e) };

    fn fmt<W: fmt::Write>(&self, f: &mut fmt::Formatter<W>) -> fmt::Result {
        match self {
            LayError::TooLong { found } => write!(f, "Workbook of {found} bytes is too long"),
            LayError::Memory => f.write_str("Out of memory"),
        }
    }
}
