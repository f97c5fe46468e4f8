//! Dimensions.

ghost use Rattle.std.specs.Prelude.{◌≡◌};
ghost use Rattle.xls_record.specs.Reading.{Exactly};
ghost use Rattle.xls_biff.specs.Records.Dimensions.{bounds, dimensions_at};

use crate::fields::{u16_at, u32_at};
use xls_data::Dimensions;
use xls_strings::{Part, XlsError};

/// The bounds by the first row, the row after the last, and likewise the columns.
fn bounds_of(row: u32, below: u32, column: u32, following: u32) -> Dimensions
    ensures { result ≡ bounds row below column following }
{
    let first = if column > 255 || following < column {
        0
    } else {
        column
    };
    let start = (row, first);
    let end = if below > 0 && following > 0 {
        (below - 1, following - 1)
    } else {
        start
    };
    Dimensions::new(start, end)
}

/// The bounds of a Dimensions record's body of 10, 14 or 16 bytes: the first row, the row after the
/// last, the first column and the column after the last. A first column that passes 255 or the
/// column after the last is 0; without a row or a column the bounds end where they start. `Len` for
/// every other length. Takes no memory.
pub fn parse_dimensions(r: &[u8]) -> Result<Dimensions, XlsError>
    ensures { Exactly (λ d. d) result (dimensions_at r.now) }
{
    if r.len() == 10 {
        let row = u32::from(u16_at(r, 0));
        let below = u32::from(u16_at(r, 2));
        let column = u32::from(u16_at(r, 4));
        return Ok(bounds_of(row, below, column, u32::from(u16_at(r, 6))));
    }
    if r.len() == 14 || r.len() == 16 {
        let column = u32::from(u16_at(r, 8));
        let following = u32::from(u16_at(r, 10));
        return Ok(bounds_of(u32_at(r, 0), u32_at(r, 4), column, following));
    }
    Err(XlsError::Len {
        expected: 14,
        found: r.len(),
        typ: Part::Dimensions,
    })
}
