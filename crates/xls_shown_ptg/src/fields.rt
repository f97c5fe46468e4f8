//! The fields of a token, and the refusals of one.

ghost use Rattle.std.specs.Prelude.{◌≡◌, ◌≤◌, ◌+◌, length};
ghost use Rattle.xls_bytes.specs.Numbers.{twos_complement};
ghost use Rattle.xls_ptg.specs.Corners.{corner_of, early_corner_of};
ghost use Rattle.xls_ptg.specs.Fields.{word_at};
ghost use Rattle.xls_shown_ptg.specs.Reading.{short, unknown};

use crate::fault::Fault;
use xls_ptg::Corner;
use xls_record::{Part, XlsError};

/// A token that is too short.
pub(crate) fn short(expected: usize, found: usize) -> Fault
    ensures { result ≡ short expected found }
{
    Fault::Xls(XlsError::Len {
        expected,
        found,
        typ: Part::Ptg,
    })
}

/// A token that isn't known.
pub(crate) fn unknown(ptg: u8) -> Fault
    ensures { result ≡ unknown ptg }
{
    Fault::Xls(XlsError::Unrecognized {
        typ: Part::Ptg,
        val: ptg,
    })
}

/// A row, and a column word (ColRelU): the column in 14 bits, colRelative and rowRelative.
pub(crate) fn corner_of(row: u16, column: u16) -> Corner
    ensures { result ≡ corner_of row column }
{
    Corner {
        row,
        column: column % 0x4000,
        is_row_relative: column / 0x8000 == 1,
        is_column_relative: column / 0x4000 % 2 == 1,
    }
}

/// The form before BIFF8: a row word, the row in 14 bits and two flags, and a column.
pub(crate) fn early_corner_of(row: u16, column: u8) -> Corner
    ensures { result ≡ early_corner_of row column }
{
    Corner {
        row: row % 0x4000,
        column: u16::from(column),
        is_row_relative: row / 0x8000 == 1,
        is_column_relative: row / 0x4000 % 2 == 1,
    }
}
