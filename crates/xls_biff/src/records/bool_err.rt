//! BoolErr.

ghost use Rattle.xls_record.specs.Reading.{Exactly};
ghost use Rattle.xls_biff.specs.Cells.{cell_entry_of};
ghost use Rattle.xls_biff.specs.Records.BoolErr.{bes_content, bes_entry, bes_value, bool_err_at};

use crate::cells::{error_of_code, position_of};
use xls_data::{Cell, CellErrorType, Data};
use xls_strings::{Part, XlsError, need};

/// The value of a BoolErr record, Bes of [MS-XLS].
#[derive(Clone, Copy)]
pub enum Bes {
    /// A truth value.
    Bool(bool),
    /// An error value.
    Error(CellErrorType),
}

/// A truth value, or the error value of a code.
#[inline(always)]
fn bes_of(byte: u8, is_error: u8) -> Result<Bes, XlsError>
    ensures { Exactly bes_value result (bes_content byte is_error) }
{
    match is_error {
        0 => Ok(Bes::Bool(byte != 0)),
        1 => Ok(Bes::Error(error_of_code(byte)?)),
        _ => Err(XlsError::Unrecognized {
            typ: Part::FError,
            val: is_error,
        }),
    }
}

/// Where the cell of a BoolErr record's body stands, and its value: row, column, XF index, a byte, and
/// whether it is the code of an error value. `Len` for fewer than 8 bytes; `Unrecognized` where byte 7 is
/// neither 0 nor 1, and for the code of no error value. Takes no memory.
#[inline(always)]
pub fn read_bool_err(r: &[u8]) -> Result<((u32, u32), Bes), XlsError>
    ensures { Exactly bes_entry result (bool_err_at r.now) }
{
    need(r, 8, Part::BoolErr)?;
    let value = bes_of(r[6], r[7])?;
    Ok((position_of(r), value))
}

/// The cell of a BoolErr record's body, as `read_bool_err` reads it. Takes no memory.
#[inline]
pub fn parse_bool_err(r: &[u8]) -> Result<Cell<Data>, XlsError>
    ensures { Exactly cell_entry_of result (bool_err_at r.now) }
{
    let (position, value) = read_bool_err(r)?;
    let value = match value {
        Bes::Bool(truth) => Data::Bool(truth),
        Bes::Error(error) => Data::Error(error),
    };
    Ok(Cell::new(position, value))
}
