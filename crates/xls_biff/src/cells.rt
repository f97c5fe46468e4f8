//! What the cell records of a sheet have in common.

ghost use Rattle.std.specs.Prelude.{◌≡◌, ◌≤◌, Some, length, slice_get};
ghost use Rattle.std.specs.Option.{option_copied};
ghost use Rattle.xls_record.specs.Reading.{Exactly};
ghost use Rattle.xls_biff.specs.Cells.{cell_error, position_at};

use crate::fields::u16_at;
use xls_bytes::read_u16;
use xls_data::{CellErrorType, CellFormat};
use xls_strings::{Part, XlsError};

/// The row and the column that begin a cell record.
#[inline(always)]
pub(crate) fn position_of(body: &[u8]) -> (u32, u32)
    requires { 4 ≤ length body.now }
    ensures { result ≡ position_at body.now }
{
    let row = read_u16(body);
    let column = u16_at(body, 2);
    (u32::from(row), u32::from(column))
}

/// The row and the column that begin the body of a cell record, both counted from 0; `None` only for fewer
/// than 4 bytes. Takes no memory.
#[inline(always)]
pub fn cell_position(body: &[u8]) -> Option<(u32, u32)>
    ensures { 4 ≤ length body.now → result ≡ Some (position_at body.now) }
{
    if body.len() < 4 {
        return None;
    }
    Some(position_of(body))
}

/// The class of an XF index; none where the classes end before it.
#[inline(always)]
pub(crate) fn class_of(formats: &[CellFormat], xf: u16) -> Option<&CellFormat>
    ensures { option_copied result ≡ slice_get formats.now xf }
{
    formats.get(usize::from(xf))
}

/// The error value of a code, BErr of [MS-XLS], as cells and formulas have it. `Unrecognized` for the
/// code of none. Takes no memory.
pub fn error_of_code(code: u8) -> Result<CellErrorType, XlsError>
    ensures { Exactly (λ e. e) result (cell_error code) }
{
    match code {
        0x00 => Ok(CellErrorType::Null),
        0x07 => Ok(CellErrorType::Div0),
        0x0F => Ok(CellErrorType::Value),
        0x17 => Ok(CellErrorType::Ref),
        0x1D => Ok(CellErrorType::Name),
        0x24 => Ok(CellErrorType::Num),
        0x2A => Ok(CellErrorType::NA),
        0x2B => Ok(CellErrorType::GettingData),
        _ => Err(XlsError::Unrecognized {
            typ: Part::CellError,
            val: code,
        }),
    }
}
