//! Cells by offsets from a place.

ghost use Rattle.std.specs.Prelude.{◌≡◌, ◌<◌, ◌≤◌};
ghost use Rattle.xls_formula_leaves.specs.Cells.{moved, placed, row_count};

use xls_ptg::Corner;
use xls_record::{Biff, is_biff8};

/// The cell from which offsets count, by its row and column from 0.
#[derive(Clone, Copy, Debug, PartialEq, Eq)]
pub struct Place {
    pub row: u16,
    pub column: u16,
}

/// How many rows a sheet has.
pub(crate) fn row_count(biff: Biff) -> u32
    ensures exact { result ≡ row_count biff }
    ensures some { (0 < result) × (result ≤ 65536) }
{
    if is_biff8(biff) { 0x10000 } else { 0x4000 }
}

fn moved(is_relative: bool, from: u16, n: u16, count: u32) -> u16
    requires { (0 < count) × (count ≤ 65536) }
    ensures { result ≡ moved is_relative from n count }
{
    if is_relative {
        ((u32::from(from) + u32::from(n)) % count) as u16
    } else {
        n
    }
}

/// The cell of a token whose relative row and column are offsets from a place (PtgRefN, PtgAreaN, and the cells of a
/// defined name), modulo the rows and the 256 columns of a sheet.
pub fn placed(biff: Biff, place: Place, corner: Corner) -> Corner
    ensures { result ≡ placed biff place corner }
{
    Corner {
        row: moved(
            corner.is_row_relative,
            place.row,
            corner.row,
            row_count(biff),
        ),
        column: moved(
            corner.is_column_relative,
            place.column,
            corner.column,
            0x100,
        ),
        ..corner
    }
}
