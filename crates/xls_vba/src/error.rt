//! Refusals of a project directory, and their texts.

use std::alloc::{AllocError, AllocFailed};
use std::fmt;
use xls_text::CfbError;

/// A part of a directory whose number is unknown. Prints `token in reference control`, `check id`,
/// `module typ` or `record id`.
#[derive(Clone, Copy, Debug, PartialEq, Eq)]
pub enum VbaPart {
    /// The second number of a control reference.
    ReferenceControl,
    /// The number that begins a reference item.
    CheckId,
    /// The number that says which kind a module is.
    ModuleKind,
    /// A number among the last ones of a module.
    RecordId,
}

impl fmt::Display for VbaPart {
    ghost use Rattle.std.specs.Prelude.{Some};
    ghost use Rattle.xls_vba.specs.Errors.{part_text};

    ghost output = { λ part. Some (part_text part) };

    fn fmt<W: fmt::Write>(&self, f: &mut fmt::Formatter<W>) -> fmt::Result {
        match self {
            VbaPart::ReferenceControl => write!(f, "token in reference control"),
            VbaPart::CheckId => write!(f, "check id"),
            VbaPart::ModuleKind => write!(f, "module typ"),
            VbaPart::RecordId => write!(f, "record id"),
        }
    }
}

/// Why a directory isn't read, or a module isn't given.
#[derive(Debug, Drop)]
pub enum VbaError {
    /// The bytes end early.
    Truncated,
    /// A part has a number that it can't have.
    Unknown {
        /// The part.
        typ: VbaPart,
        /// The number that was found.
        val: u16,
    },
    /// A record of another number than the one that has to stand there.
    InvalidRecordId {
        /// The number that has to stand there.
        expected: u16,
        /// The number that was found.
        found: u16,
    },
    /// A libid without any `#`.
    LibId,
    /// The code page isn't read.
    Cfb(CfbError),
    /// No module has this name.
    ModuleNotFound(String),
    /// Memory ran out.
    Memory,
}

impl fmt::Display for VbaError {
    ghost use Rattle.std.specs.Prelude.{Some};
    ghost use Rattle.xls_vba.specs.Errors.{vba_error_text};

    ghost output = { λ error. Some (vba_error_text error) };

    fn fmt<W: fmt::Write>(&self, f: &mut fmt::Formatter<W>) -> fmt::Result {
        match self {
            VbaError::Truncated => write!(f, "Unexpected end of directory"),
            VbaError::Unknown { typ, val } => write!(f, "Unknown {typ} '{val:X}'"),
            VbaError::InvalidRecordId { expected, found } => {
                write!(
                    f,
                    "Invalid record id: expecting {expected:X} found {found:X}"
                )
            }
            VbaError::LibId => write!(f, "Unexpected libid format"),
            VbaError::Cfb(error) => write!(f, "Cfb error: {error}"),
            VbaError::ModuleNotFound(name) => write!(f, "Cannot find module '{name}'"),
            VbaError::Memory => write!(f, "Out of memory"),
        }
    }
}

impl From<CfbError> for VbaError {
    ghost use Rattle.std.specs.Prelude.{◌≡◌};
    ghost use Rattle.xls_vba.specs.declared.error.VbaError.TheVariants.{Cfb};

    ghost from_gives = { λ error e. e ≡ Cfb error };

    fn from(error: CfbError) -> VbaError {
        VbaError::Cfb(error)
    }
}

impl From<AllocError> for VbaError {
    ghost use Rattle.std.specs.Prelude.{◌≡◌};
    ghost use Rattle.xls_vba.specs.declared.error.VbaError.TheVariants.{Memory};

    ghost from_gives = { λ _ e. e ≡ Memory };

    fn from(_error: AllocError) -> VbaError {
        VbaError::Memory
    }
}

impl<T: Drop> From<AllocFailed<T>> for VbaError {
    ghost use Rattle.std.specs.Prelude.{◌≡◌};
    ghost use Rattle.xls_vba.specs.declared.error.VbaError.TheVariants.{Memory};

    ghost from_gives = { λ _ e. e ≡ Memory };

    fn from(_error: AllocFailed<T>) -> VbaError {
        VbaError::Memory
    }
}
