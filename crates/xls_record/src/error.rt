//! Why a stream is refused.

ghost use Rattle.std.specs.Prelude.{◌≡◌, ◌↔◌, IsTrue};
ghost use Rattle.xls_record.specs.declared.error.XlsError.TheVariants.{Memory, Cfb};

use std::alloc::{AllocError, AllocFailed};
use std::fmt;
use xls_stream::Part;
use xls_text::CfbError;

/// Why a workbook stream, or a part of it, is refused.
#[derive(Debug, PartialEq, Eq, Drop)]
pub enum XlsError {
    /// A read of the source failed.
    Io,
    /// Memory ran out.
    Memory,
    /// The stream has more than `limit` bytes.
    TooLarge {
        limit: u64,
    },
    /// A sheet has more than `limit` cells.
    TooManyCells {
        limit: u64,
    },
    /// A code page isn't read.
    Cfb(CfbError),
    /// The workbook is encrypted.
    Password,
    /// The part `typ` has `found` bytes, and needs `expected` at least.
    Len {
        expected: usize,
        found: usize,
        typ: Part,
    },
    /// The byte `val` of the part `typ` has no meaning.
    Unrecognized {
        typ: Part,
        val: u8,
    },
    /// The stream ends inside this part.
    EoStream(Part),
    /// A string of the string table ends inside its runs or its extension.
    ContinueRecordTooShort,
    /// A token of a formula has too few operands.
    StackLen,
    /// The tokens of a formula leave `stack_size` values, and not one.
    InvalidFormula {
        stack_size: usize,
    },
    /// No function has this index.
    IfTab(usize),
    /// No attribute of a formula has this number.
    Etpg(u8),
    /// No number format has this identifier.
    InvalidFormat {
        ifmt: u16,
    },
    /// No sheet has this name.
    WorksheetNotFound(String),
}

impl XlsError {
    /// Whether memory ran out. Every other refusal hangs on the input.
    pub fn is_memory(&self) -> bool
        ensures { IsTrue result ↔ (self.now ≡ Memory) }
    {
        matches!(self, XlsError::Memory)
    }
}

impl From<AllocError> for XlsError {
    ghost from_gives = { λ _ e. e ≡ Memory };

    fn from(_: AllocError) -> Self {
        XlsError::Memory
    }
}

impl<T: Drop> From<AllocFailed<T>> for XlsError {
    ghost from_gives = { λ _ e. e ≡ Memory };

    fn from(_: AllocFailed<T>) -> Self {
        XlsError::Memory
    }
}

impl From<CfbError> for XlsError {
    ghost from_gives = { λ error e. e ≡ Cfb error };

    fn from(error: CfbError) -> Self {
        XlsError::Cfb(error)
    }
}

impl fmt::Display for XlsError {
    ghost use Rattle.std.specs.Prelude.{Some};
    ghost use Rattle.xls_record.specs.ErrorText.{error_text};

    ghost output = { λ e. Some (error_text e) };

    fn fmt<W: fmt::Write>(&self, f: &mut fmt::Formatter<W>) -> fmt::Result {
        match self {
            XlsError::Io => f.write_str("I/O error"),
            XlsError::Memory => f.write_str("Out of memory"),
            XlsError::TooLarge { limit } => write!(f, "Stream larger than {limit} bytes"),
            XlsError::TooManyCells { limit } => write!(f, "Sheet with more than {limit} cells"),
            XlsError::Cfb(error) => write!(f, "Cfb error: {error}"),
            XlsError::Password => f.write_str("Workbook is password protected"),
            XlsError::Len {
                expected,
                found,
                typ,
            } => write!(
                f,
                "Invalid {typ} length, expected at least {expected}, found {found}"
            ),
            XlsError::Unrecognized { typ, val } => write!(f, "Unrecognized {typ}: 0x{val:X}"),
            XlsError::EoStream(part) => write!(f, "End of stream '{part}'"),
            XlsError::ContinueRecordTooShort => {
                f.write_str("Continued record too short while reading extended string")
            }
            XlsError::StackLen => f.write_str("Invalid stack length"),
            XlsError::InvalidFormula { stack_size } => {
                write!(f, "Invalid formula (stack size: {stack_size})")
            }
            XlsError::IfTab(index) => write!(f, "Invalid iftab {index:X}"),
            XlsError::Etpg(number) => write!(f, "Invalid etpg {number:X}"),
            XlsError::InvalidFormat { ifmt } => write!(f, "Invalid ifmt value: '{ifmt}'"),
            XlsError::WorksheetNotFound(name) => write!(f, "Worksheet '{name}' not found"),
        }
    }
}
