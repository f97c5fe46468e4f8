//! Why the source of a module isn't read.

ghost use Rattle.std.specs.Prelude.{◌≡◌};
ghost use Rattle.xls_macros.specs.Macros.{is_memory};

use std::alloc::AllocError;
use std::error::Error;
use std::fmt;
use xls_compound::CompoundError;
use xls_vba::OvbaError;

/// Why the source of a module isn't read.
#[derive(Debug, Drop)]
pub enum ModuleFault {
    /// The storage of the project has no stream of this name.
    NoStream(String),
    /// The chain of its stream has a fault.
    Stream(CompoundError),
    /// The source begins past the end of its stream, or its compression has a fault.
    Compression(OvbaError),
    /// Memory ran out.
    Memory,
}

impl ModuleFault {
    /// Whether memory ran out.
    pub(crate) fn is_memory(&self) -> bool
        ensures { result ≡ is_memory self.now }
    {
        match self {
            ModuleFault::Memory => true,
            ModuleFault::NoStream(_) | ModuleFault::Stream(_) | ModuleFault::Compression(_) =>
                false,
        }
    }
}

impl fmt::Display for ModuleFault {
    ghost use Rattle.std.specs.Prelude.{Some};
    ghost use Rattle.xls_macros.specs.Texts.{fault_text};

    ghost output = { λ fault. Some (fault_text fault) };

    fn fmt<W: fmt::Write>(&self, f: &mut fmt::Formatter<W>) -> fmt::Result {
        match self {
            ModuleFault::NoStream(name) => {
                write!(f, "the project has no stream of its name, {name}")
            }
            ModuleFault::Stream(error) => write!(f, "{error}"),
            ModuleFault::Compression(error) => write!(f, "{error}"),
            ModuleFault::Memory => write!(f, "Out of memory"),
        }
    }
}

impl Error for ModuleFault {}

impl From<AllocError> for ModuleFault {
    ghost use Rattle.std.specs.Prelude.{◌≡◌};
    ghost use Rattle.xls_macros.specs.declared.fault.ModuleFault.TheVariants.{Memory};

    ghost from_gives = { λ _ e. e ≡ Memory };

    fn from(_error: AllocError) -> ModuleFault {
        ModuleFault::Memory
    }
}

impl From<OvbaError> for ModuleFault {
    ghost use Rattle.std.specs.Prelude.{◌≡◌};
    ghost use Rattle.xls_macros.specs.Macros.{of_compression};

    ghost from_gives = { λ error e. e ≡ of_compression error };

    fn from(error: OvbaError) -> ModuleFault {
        match error {
            OvbaError::Memory => ModuleFault::Memory,
            error => ModuleFault::Compression(error),
        }
    }
}
