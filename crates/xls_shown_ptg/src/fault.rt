//! Why a formula isn't spelled.

ghost use Rattle.std.specs.Prelude.{◌≡◌};
ghost use Rattle.xls_record.specs.declared.error.XlsError.TheVariants.{Memory};
ghost use Rattle.xls_shown_ptg.specs.declared.fault.Fault.TheVariants.{Xls};

use std::alloc::AllocError;
use std::fmt;
use xls_record::XlsError;

/// Why a formula isn't spelled.
#[derive(Debug, PartialEq, Eq, Drop)]
pub enum Fault {
    /// What other readings refuse as well, and want of memory.
    Xls(XlsError),
    /// 18: a label that stands for no area (eptg).
    Eptg(u8),
    /// A constant array (PtgExtraArray) has `found` bytes left, and needs `expected` at least.
    ExtraArray { expected: usize, found: usize },
    /// No value of a constant array has this kind (SerAr).
    SerAr(u8),
    /// 01 (PtgExp): no formula of a range that holds the cell stands at this cell.
    NoFormula { row: u16, column: u16 },
    /// 02 (PtgTbl): no table that holds the cell stands at this cell.
    NoTable { row: u16, column: u16 },
    /// 02 (PtgTbl) has `found` bytes, and needs `expected` at least.
    Tbl { expected: usize, found: usize },
}

impl From<XlsError> for Fault {
    ghost from_gives = { λ error fault. fault ≡ Xls error };

    fn from(error: XlsError) -> Self {
        Fault::Xls(error)
    }
}

impl From<AllocError> for Fault {
    ghost from_gives = { λ _ fault. fault ≡ Xls Memory };

    fn from(_: AllocError) -> Self {
        Fault::Xls(XlsError::Memory)
    }
}

impl fmt::Display for Fault {
    ghost use Rattle.std.specs.Prelude.{Some};
    ghost use Rattle.xls_shown_ptg.specs.FaultText.{fault_text};

    ghost output = { λ fault. Some (fault_text fault) };

    fn fmt<W: fmt::Write>(&self, f: &mut fmt::Formatter<W>) -> fmt::Result {
        match self {
            Fault::Xls(error) => write!(f, "{error}"),
            Fault::Eptg(kind) => write!(f, "Unrecognized eptg: 0x{kind:X}"),
            Fault::ExtraArray { expected, found } => write!(
                f,
                "Invalid PtgExtraArray length, expected at least {expected}, found {found}"
            ),
            Fault::SerAr(kind) => write!(f, "Unrecognized SerAr: 0x{kind:X}"),
            Fault::NoFormula { row, column } => write!(f, "No formula at ({row}, {column})"),
            Fault::NoTable { row, column } => write!(f, "No table at ({row}, {column})"),
            Fault::Tbl { expected, found } => write!(
                f,
                "Invalid PtgTbl length, expected at least {expected}, found {found}"
            ),
        }
    }
}
