//! Why no entries are read.

ghost use Rattle.std.specs.Prelude.{◌≡◌};
ghost use Rattle.example_rows.specs.declared.error.LedgerError.TheVariants.{Book, Rows, Memory};

use std::alloc::{AllocError, AllocFailed};
use std::error::Error;
use std::fmt;
use xls_biff::XlsError;
use xls_rows::DeError;

/// Why no entries are read.
#[derive(Debug, Drop)]
pub enum LedgerError {
    /// The stream is refused, or no sheet has the name.
    Book(XlsError),
    /// A column isn't there, or a row is no entry.
    Rows(DeError),
    /// Memory ran out.
    Memory,
}

impl From<XlsError> for LedgerError {
    ghost from_gives = { λ error e. e ≡ Book error };

    fn from(error: XlsError) -> Self {
        LedgerError::Book(error)
    }
}

impl From<DeError> for LedgerError {
    ghost from_gives = { λ error e. e ≡ Rows error };

    fn from(error: DeError) -> Self {
        LedgerError::Rows(error)
    }
}

impl From<AllocError> for LedgerError {
    ghost from_gives = { λ _ e. e ≡ Memory };

    fn from(_: AllocError) -> Self {
        LedgerError::Memory
    }
}

impl<T: Drop> From<AllocFailed<T>> for LedgerError {
    ghost from_gives = { λ _ e. e ≡ Memory };

    fn from(_: AllocFailed<T>) -> Self {
        LedgerError::Memory
    }
}

impl fmt::Display for LedgerError {
    fn fmt<W: fmt::Write>(&self, f: &mut fmt::Formatter<W>) -> fmt::Result {
        match self {
            LedgerError::Book(error) => write!(f, "{error}"),
            LedgerError::Rows(error) => write!(f, "{error}"),
            LedgerError::Memory => f.write_str("Out of memory"),
        }
    }
}

impl Error for LedgerError {}
