//! Cells and formulas that are lent from a stream.

ghost use Rattle.std.specs.Prelude.{◌≡◌};
ghost use Rattle.xls_biff.specs.Cells.{numeric_entry};
ghost use Rattle.xls_biff.specs.Records.BoolErr.{bes_entry, bes_value};
ghost use Rattle.xls_view.specs.Formats.{with_format};
ghost use Rattle.xls_view.specs.Values.{bare_entry, formatted_entry, lent_content};

use xls_biff::{Bes, Biff};
use xls_data::{CellErrorType, Numeric};
use xls_text::XlsEncoding;

/// A string of a record that isn't decoded, and how it is.
#[derive(Clone, Copy)]
pub struct EncodedText<'v> {
    /// The string as it stands in the record, from its count on.
    pub string: &'v [u8],
    pub page: XlsEncoding,
    pub version: Biff,
}

/// The value of a cell, which owns nothing.
#[derive(Clone, Copy)]
pub enum CellValue<'v> {
    /// A number, or a date or duration.
    Number(Numeric),
    /// A truth value.
    Bool(bool),
    /// An error value.
    Error(CellErrorType),
    /// A text of the string table.
    Shared(&'v str),
    /// A text in the record itself.
    Encoded(EncodedText<'v>),
    /// Nothing, the blank.
    Empty,
}

/// A cell: row and column from 0, its XF index, and its value.
#[derive(Clone, Copy)]
pub struct SheetCell<'v> {
    pub row: u32,
    pub column: u32,
    /// Which XF record of the globals formats it, counted from 0 (ixfe). A text that a String record gives a
    /// formula has that of the Formula record.
    pub xf: u16,
    pub value: CellValue<'v>,
}

/// A cell without its XF index.
#[derive(Clone, Copy)]
pub(crate) struct BareCell<'v> {
    pub(crate) position: (u32, u32),
    pub(crate) value: CellValue<'v>,
}

/// A formula: row and column from 0, and its tokens, with their length before them.
#[derive(Clone, Copy)]
pub struct FormulaCell<'v> {
    pub row: u32,
    pub column: u32,
    pub rgce: &'v [u8],
}

impl<'v> BareCell<'v> {
    /// With its XF index.
    #[inline(always)]
    pub(crate) fn with_format(self, xf: u16) -> SheetCell<'v>
        ensures { formatted_entry result ≡ with_format (bare_entry self.entry) xf }
    {
        let (row, column) = self.position;
        SheetCell {
            row,
            column,
            xf,
            value: self.value,
        }
    }
}

/// The cell of a number that was read from a record.
#[inline(always)]
pub(crate) fn number_cell<'v>(read: ((u32, u32), Numeric)) -> BareCell<'v>
    ensures { bare_entry result ≡ numeric_entry read }
{
    let (position, value) = read;
    BareCell {
        position,
        value: CellValue::Number(value),
    }
}

/// The value of a truth value or an error value.
#[inline(always)]
fn bes_value<'v>(value: Bes) -> CellValue<'v>
    ensures { lent_content result ≡ bes_value value }
{
    match value {
        Bes::Bool(truth) => CellValue::Bool(truth),
        Bes::Error(error) => CellValue::Error(error),
    }
}

/// The cell of a truth value or an error value that was read from a record.
#[inline(always)]
pub(crate) fn bes_cell<'v>(read: ((u32, u32), Bes)) -> BareCell<'v>
    ensures { bare_entry result ≡ bes_entry read }
{
    let (position, value) = read;
    BareCell {
        position,
        value: bes_value(value),
    }
}
