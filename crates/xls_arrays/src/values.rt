//! The value of a cell as an item of the array.

ghost use Rattle.std.specs.Prelude.{◌≡◌};
ghost use Rattle.xls_cell_formats.specs.Doubles.{bits_of};
ghost use Rattle.xls_arrays.specs.Numbers.{number_form};
ghost use Rattle.xls_arrays.specs.Values.{error_code, form_in, content_kind, value_in};
ghost use Rattle.xls_view.specs.Values.{lent_content};

use crate::items::{CellItem, Span};
use crate::numbers::form_of;
use xls_cell_formats::bits_of;
use xls_data::{CellErrorType, Number, Numeric};
use xls_view::CellValue;

/// The code of an error value in BIFF, [MS-XLS] BErr.
fn error_code(error: CellErrorType) -> u64
    ensures { result ≡ error_code error }
{
    match error {
        CellErrorType::Null => 0x00,
        CellErrorType::Div0 => 0x07,
        CellErrorType::Value => 0x0F,
        CellErrorType::Ref => 0x17,
        CellErrorType::Name => 0x1D,
        CellErrorType::Num => 0x24,
        CellErrorType::NA => 0x2A,
        CellErrorType::GettingData => 0x2B,
    }
}

/// The item with a number of a kind.
#[inline]
fn number_item(item: CellItem, kind: u32, number: Number) -> CellItem
    ensures { result ≡ record item { kind = kind; form = number_form number; value = bits_of number } }
{
    CellItem {
        kind,
        form: form_of(number),
        value: bits_of(number),
        ..item
    }
}

/// The item of a cell whose text, if it has one, was laid there.
#[inline]
pub(crate) fn cell_item(row: u32, column: u32, value: &CellValue<'_>, text: Span) -> CellItem
    ensures { result ≡ record {
      row = row;
      column = column;
      kind = content_kind (lent_content value.now);
      form = form_in (lent_content value.now);
      value = value_in text.offset (lent_content value.now);
      length = text.length;
    } }
{
    let blank = CellItem {
        row,
        column,
        kind: 0,
        form: 0,
        value: 0,
        length: text.length,
    };
    match value {
        CellValue::Number(Numeric::Int(n)) => number_item(blank, 9, Number::Whole(*n)),
        CellValue::Number(Numeric::Float(number)) => number_item(blank, 1, *number),
        CellValue::Number(Numeric::DateTime(number, _)) => number_item(blank, 2, *number),
        CellValue::Number(Numeric::TimeDelta(number, _)) => number_item(blank, 3, *number),
        CellValue::Bool(truth) => CellItem {
            kind: 4,
            value: u64::from(*truth),
            ..blank
        },
        CellValue::Error(error) => CellItem {
            kind: 5,
            value: error_code(*error),
            ..blank
        },
        CellValue::Empty => blank,
        CellValue::Shared(_) | CellValue::Encoded(_) => CellItem {
            kind: 6,
            value: text.offset,
            ..blank
        },
    }
}
