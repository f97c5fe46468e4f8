//! Number.

ghost use Rattle.std.specs.Prelude.{◌≡◌, List, Bool, slice_get};
ghost use Rattle.xls_data.specs.Formatted.{formatted_number};
ghost use Rattle.xls_data.specs.Numeric.{numeric_content};
ghost use Rattle.xls_dates.specs.declared.formats.CellFormat.{CellFormat};
ghost use Rattle.xls_record.specs.Reading.{Exactly};
ghost use Rattle.xls_biff.specs.Cells.{cell_entry_of};
ghost use Rattle.xls_biff.specs.Records.Number.{number_at, number_entry};

use crate::cells::{class_of, position_of};
use crate::fields::{bits_at, u16_at};
use xls_data::{Cell, CellFormat, Data, Number, Numeric};
use xls_strings::{Part, XlsError, need};

/// The value of a double by its bits, which stays in the form `Bits`. The class is that of the XF index, and
/// `Other` where `formats` ends before it. Takes no memory.
#[inline(always)]
pub fn value_of_bits(bits: u64, xf: u16, formats: &[CellFormat], is_1904: bool) -> Numeric
    ensures { numeric_content result ≡ formatted_number (slice_get formats.now xf) (Number.Bits bits) is_1904 }
{
    Numeric::of_number(Number::Bits(bits), class_of(formats, xf), is_1904)
}

/// A Number record: where it stands, its XF index, and the 64 bits of its double.
#[derive(Clone, Copy)]
pub struct NumberCell {
    pub position: (u32, u32),
    pub xf: u16,
    pub bits: u64,
}

impl NumberCell {
    /// Its value, as `value_of_bits` says.
    #[inline(always)]
    pub fn value(&self, formats: &[CellFormat], is_1904: bool) -> Numeric
        ensures { (self.now.position, numeric_content result) ≡ number_entry formats.now is_1904 self.now }
    {
        value_of_bits(self.bits, self.xf, formats, is_1904)
    }
}

/// What a Number record's body holds: row, column, XF index and a double. `Len` for fewer than 14 bytes.
/// Takes no memory.
#[inline(always)]
pub fn read_number(r: &[u8]) -> Result<NumberCell, XlsError>
    ensures { (formats : List CellFormat) (is_1904 : Bool) →
        Exactly (number_entry formats is_1904) result (number_at formats is_1904 r.now) }
{
    need(r, 14, Part::Number)?;
    Ok(NumberCell {
        position: position_of(r),
        xf: u16_at(r, 4),
        bits: bits_at(r, 6),
    })
}

/// The cell of a Number record's body, as `read_number` reads it. Takes no memory.
#[inline]
pub fn parse_number(r: &[u8], formats: &[CellFormat], is_1904: bool) -> Result<Cell<Data>, XlsError>
    ensures { Exactly cell_entry_of result (number_at formats.now is_1904 r.now) }
{
    let cell = read_number(r)?;
    let value = cell.value(formats, is_1904);
    Ok(Cell::new(cell.position, value.into_data()))
}
