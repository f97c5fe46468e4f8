//! Why the macro project of a file isn't read.

use std::alloc::AllocError;
use std::error::Error;
use std::fmt;
use xls_container::FileFault;
use xls_vba::{OvbaError, VbaError};

/// Why the macro project of a file isn't read. Each prints what it holds.
#[derive(Debug, Drop)]
pub enum ProjectFault {
    /// The chain of its directory has a fault.
    File(FileFault),
    /// The compression of its directory has a fault.
    Compression(OvbaError),
    /// Its directory has a fault.
    Directory(VbaError),
    /// Memory ran out.
    Memory,
}

impl fmt::Display for ProjectFault {
    ghost use Rattle.std.specs.Prelude.{Some};
    ghost use Rattle.xls_documents.specs.Texts.{fault_text};

    ghost output = { λ fault. Some (fault_text fault) };

    fn fmt<W: fmt::Write>(&self, f: &mut fmt::Formatter<W>) -> fmt::Result {
        match self {
            ProjectFault::File(fault) => write!(f, "{fault}"),
            ProjectFault::Compression(error) => write!(f, "{error}"),
            ProjectFault::Directory(error) => write!(f, "{error}"),
            ProjectFault::Memory => write!(f, "Out of memory"),
        }
    }
}

impl Error for ProjectFault {}

impl From<AllocError> for ProjectFault {
    ghost use Rattle.std.specs.Prelude.{◌≡◌};
    ghost use Rattle.xls_documents.specs.declared.fault.ProjectFault.TheVariants.{Memory};

    ghost from_gives = { λ _ e. e ≡ Memory };

    fn from(_error: AllocError) -> ProjectFault {
        ProjectFault::Memory
    }
}

impl From<FileFault> for ProjectFault {
    ghost use Rattle.std.specs.Prelude.{◌≡◌};
    ghost use Rattle.xls_documents.specs.MacroDirectory.{of_file};

    ghost from_gives = { λ fault e. e ≡ of_file fault };

    fn from(fault: FileFault) -> ProjectFault {
        match fault {
            FileFault::Memory => ProjectFault::Memory,
            fault => ProjectFault::File(fault),
        }
    }
}

impl From<OvbaError> for ProjectFault {
    ghost use Rattle.std.specs.Prelude.{◌≡◌};
    ghost use Rattle.xls_documents.specs.MacroDirectory.{of_compression};

    ghost from_gives = { λ error e. e ≡ of_compression error };

    fn from(error: OvbaError) -> ProjectFault {
        match error {
            OvbaError::Memory => ProjectFault::Memory,
            error => ProjectFault::Compression(error),
        }
    }
}

impl From<VbaError> for ProjectFault {
    ghost use Rattle.std.specs.Prelude.{◌≡◌};
    ghost use Rattle.xls_documents.specs.MacroDirectory.{of_directory};

    ghost from_gives = { λ error e. e ≡ of_directory error };

    fn from(error: VbaError) -> ProjectFault {
        match error {
            VbaError::Memory => ProjectFault::Memory,
            error => ProjectFault::Directory(error),
        }
    }
}
