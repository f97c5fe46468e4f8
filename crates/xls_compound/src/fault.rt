//! What can be wrong with a directory, and the texts of that.

use std::alloc::{AllocError, AllocFailed};
use std::error::Error;
use std::fmt;

/// What is wrong with a directory, with the number of the entry where it is.
#[derive(Clone, Copy, Debug, PartialEq, Eq)]
pub enum DirectoryFault {
    /// The directory has no whole entry, or the first is no root.
    NoRoot,
    /// An entry leads to this number, which the directory doesn't have.
    Missing { number: u32 },
    /// Two ways lead to this entry.
    Twice { number: u32 },
    /// An entry below the root is no storage (01) and no stream (02).
    Kind { number: u32, kind: u8 },
    /// The name takes an odd number of bytes, fewer than 2 or more than 64.
    NameSize { number: u32, size: u16 },
}

impl fmt::Display for DirectoryFault {
    ghost use Rattle.std.specs.Prelude.{Some};
    ghost use Rattle.xls_compound.specs.DirectoryErrors.{fault_text};

    ghost output = { λ fault. Some (fault_text fault) };

    fn fmt<W: fmt::Write>(&self, f: &mut fmt::Formatter<W>) -> fmt::Result {
        match self {
            DirectoryFault::NoRoot => write!(f, "The directory has no root entry"),
            DirectoryFault::Missing { number } => {
                write!(
                    f,
                    "The directory has no entry {number}, which another leads to"
                )
            }
            DirectoryFault::Twice { number } => {
                write!(f, "Two ways lead to directory entry {number}")
            }
            DirectoryFault::Kind { number, kind } => {
                write!(f, "Directory entry {number} has the unknown type {kind}")
            }
            DirectoryFault::NameSize { number, size } => {
                write!(
                    f,
                    "The name of directory entry {number} has the wrong length {size}"
                )
            }
        }
    }
}

/// Why a directory isn't read.
#[derive(Clone, Copy, Debug, PartialEq, Eq)]
pub enum DirectoryError {
    /// The first fault of its bytes.
    Fault(DirectoryFault),
    /// Memory ran out.
    Memory,
}

impl fmt::Display for DirectoryError {
    ghost use Rattle.std.specs.Prelude.{Some};
    ghost use Rattle.xls_compound.specs.DirectoryErrors.{error_text};

    ghost output = { λ error. Some (error_text error) };

    fn fmt<W: fmt::Write>(&self, f: &mut fmt::Formatter<W>) -> fmt::Result {
        match self {
            DirectoryError::Fault(fault) => write!(f, "{fault}"),
            DirectoryError::Memory => write!(f, "Out of memory"),
        }
    }
}

impl Error for DirectoryError {}

impl From<DirectoryFault> for DirectoryError {
    ghost use Rattle.std.specs.Prelude.{◌≡◌};
    ghost use Rattle.xls_compound.specs.declared.fault.DirectoryError.TheVariants.{Fault};

    ghost from_gives = { λ fault e. e ≡ Fault fault };

    fn from(fault: DirectoryFault) -> DirectoryError {
        DirectoryError::Fault(fault)
    }
}

impl From<AllocError> for DirectoryError {
    ghost use Rattle.std.specs.Prelude.{◌≡◌};
    ghost use Rattle.xls_compound.specs.declared.fault.DirectoryError.TheVariants.{Memory};

    ghost from_gives = { λ _ e. e ≡ Memory };

    fn from(_error: AllocError) -> DirectoryError {
        DirectoryError::Memory
    }
}

impl<T: Drop> From<AllocFailed<T>> for DirectoryError {
    ghost use Rattle.std.specs.Prelude.{◌≡◌};
    ghost use Rattle.xls_compound.specs.declared.fault.DirectoryError.TheVariants.{Memory};

    ghost from_gives = { λ _ e. e ≡ Memory };

    fn from(_error: AllocFailed<T>) -> DirectoryError {
        DirectoryError::Memory
    }
}
