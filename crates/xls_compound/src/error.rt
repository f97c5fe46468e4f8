//! Why a file isn't opened, or a stream isn't read.

use crate::DirectoryFault;
use std::alloc::{AllocError, AllocFailed};
use std::error::Error;
use std::fmt;
use xls_sectors::SectorFault;

/// Why a compound file isn't opened, or one of its streams isn't read. Each prints a sentence that says
/// where.
#[derive(Debug, Drop)]
pub enum CompoundError {
    /// The header, the DIFAT or the FAT.
    Tables(SectorFault),
    /// The chain of the directory.
    DirectoryChain(SectorFault),
    /// The directory.
    Directory(DirectoryFault),
    /// The chain of the mini FAT.
    MiniFat(SectorFault),
    /// The chain of the mini stream.
    MiniStream(SectorFault),
    /// The chain of a stream.
    Stream {
        /// The name of the stream.
        name: String,
        /// What is wrong with its chain.
        fault: SectorFault,
    },
    /// Memory ran out.
    Memory,
}

impl fmt::Display for CompoundError {
    ghost use Rattle.std.specs.Prelude.{Some};
    ghost use Rattle.xls_compound.specs.Errors.{error_text};

    ghost output = { λ error. Some (error_text error) };

    fn fmt<W: fmt::Write>(&self, f: &mut fmt::Formatter<W>) -> fmt::Result {
        match self {
            CompoundError::Tables(fault) => write!(f, "{fault}"),
            CompoundError::DirectoryChain(fault) => write!(f, "The directory: {fault}"),
            CompoundError::Directory(fault) => write!(f, "{fault}"),
            CompoundError::MiniFat(fault) => write!(f, "The mini FAT: {fault}"),
            CompoundError::MiniStream(fault) => write!(f, "The mini stream: {fault}"),
            CompoundError::Stream { name, fault } => write!(f, "Stream {name}: {fault}"),
            CompoundError::Memory => write!(f, "Out of memory"),
        }
    }
}

impl Error for CompoundError {}

impl From<AllocError> for CompoundError {
    ghost use Rattle.std.specs.Prelude.{◌≡◌};
    ghost use Rattle.xls_compound.specs.declared.error.CompoundError.TheVariants.{Memory};

    ghost from_gives = { λ _ e. e ≡ Memory };

    fn from(_error: AllocError) -> CompoundError {
        CompoundError::Memory
    }
}

impl<T: Drop> From<AllocFailed<T>> for CompoundError {
    ghost use Rattle.std.specs.Prelude.{◌≡◌};
    ghost use Rattle.xls_compound.specs.declared.error.CompoundError.TheVariants.{Memory};

    ghost from_gives = { λ _ e. e ≡ Memory };

    fn from(_error: AllocFailed<T>) -> CompoundError {
        CompoundError::Memory
    }
}
