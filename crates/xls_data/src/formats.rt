//! The values of numbers under the classes of their formats.

ghost use Rattle.std.specs.Prelude.{◌≡◌};
ghost use Rattle.std.specs.Option.{option_copied};
ghost use Rattle.xls_data.specs.Data.{content_of};
ghost use Rattle.xls_data.specs.Refs.{ref_content_of};
ghost use Rattle.xls_data.specs.Formatted.{formatted_number, formatted_whole};

use crate::{CellFormat, Data, DataRef, Number, Numeric};

/// The value of a whole number under a class: an int, or a date or duration of that number. No
/// class is `Other`. Takes no memory.
pub fn format_excel_i64(value: i64, format: Option<&CellFormat>, is_1904: bool) -> Data
    ensures { content_of result ≡ formatted_whole (option_copied format.entry) value is_1904 }
{
    Numeric::of_i64(value, format, is_1904).into_data()
}

/// The value of a number under a class: a float, or a date or duration of that number. No class
/// is `Other`. Takes no memory.
pub fn format_excel_number(value: Number, format: Option<&CellFormat>, is_1904: bool) -> Data
    ensures { content_of result ≡ formatted_number (option_copied format.entry) value is_1904 }
{
    Numeric::of_number(value, format, is_1904).into_data()
}

/// What `format_excel_i64` gives, as a value that borrows no text. Takes no memory.
pub fn format_excel_i64_ref(
    value: i64,
    format: Option<&CellFormat>,
    is_1904: bool,
) -> DataRef<'static>
    ensures { ref_content_of result ≡ formatted_whole (option_copied format.entry) value is_1904 }
{
    Numeric::of_i64(value, format, is_1904).into_ref()
}

/// What `format_excel_number` gives, as a value that borrows no text. Takes no memory.
pub fn format_excel_number_ref(
    value: Number,
    format: Option<&CellFormat>,
    is_1904: bool,
) -> DataRef<'static>
    ensures { ref_content_of result ≡ formatted_number (option_copied format.entry) value is_1904 }
{
    Numeric::of_number(value, format, is_1904).into_ref()
}
