//! Why a file gives no workbook.

use crate::kind::FileKind;
use std::alloc::AllocError;
use std::error::Error;
use std::fmt;
use xls_compound::CompoundError;

/// Why a file gives no workbook.
#[derive(Debug, Drop)]
pub enum FileFault {
    /// It is neither a compound file nor a workbook's stream.
    Kind(FileKind),
    /// It is a damaged compound file.
    Compound(CompoundError),
    /// A compound file without the stream `Workbook` or `Book`.
    NoWorkbook,
    /// Memory ran out.
    Memory,
}

impl fmt::Display for FileFault {
    ghost use Rattle.std.specs.Prelude.{Some};
    ghost use Rattle.xls_container.specs.Texts.{fault_text};

    ghost output = { λ fault. Some (fault_text fault) };

    fn fmt<W: fmt::Write>(&self, f: &mut fmt::Formatter<W>) -> fmt::Result {
        match self {
            FileFault::Kind(kind) => write!(f, "no workbook: {kind}"),
            FileFault::Compound(error) => write!(f, "a damaged compound file: {error}"),
            FileFault::NoWorkbook => write!(f, "it has no stream Workbook or Book"),
            FileFault::Memory => write!(f, "Out of memory"),
        }
    }
}

impl Error for FileFault {}

impl From<AllocError> for FileFault {
    ghost use Rattle.std.specs.Prelude.{◌≡◌};
    ghost use Rattle.xls_container.specs.declared.fault.FileFault.TheVariants.{Memory};

    ghost from_gives = { λ _ e. e ≡ Memory };

    fn from(_error: AllocError) -> FileFault {
        FileFault::Memory
    }
}

impl From<CompoundError> for FileFault {
    ghost use Rattle.std.specs.Prelude.{◌≡◌};
    ghost use Rattle.xls_container.specs.Files.{fault_of};

    ghost from_gives = { λ error e. e ≡ fault_of error };

    fn from(error: CompoundError) -> FileFault {
        match error {
            CompoundError::Memory => FileFault::Memory,
            error => FileFault::Compound(error),
        }
    }
}
