//! A number under a format.

ghost use Rattle.std.specs.Prelude.{◌≡◌, Some, OnOk, OnErr};
ghost use Rattle.std.specs.String.{string_bytes};
ghost use Rattle.std.specs.Str.{chars};
ghost use Rattle.xls_data.specs.Numeric.{numeric_content};
ghost use Rattle.xls_shown.specs.Shown.{Gains};
ghost use Rattle.xls_cell_formats.specs.Numbers.{IsInDecimal, IsNumberShown, class_in_range, class_under, content_of_number, content_under, format_of_class, number_in};

use crate::doubles::{bits_of, is_finite};
use std::alloc::AllocError;
use xls_data::{CellFormat, Number, Numeric};
use xls_decimals::{is_moment, is_span, push_decimal};
use xls_number_formats::{Class, class_of};
use xls_shown::ShownFormat;

fn format_of_class(class: Class) -> CellFormat
    ensures { result ≡ format_of_class class }
{
    match class {
        Class::Number => CellFormat::Other,
        Class::Date => CellFormat::DateTime,
        Class::Elapsed => CellFormat::TimeDelta,
    }
}

/// Whether a number is a date, a duration or a number under a format: the section of the code that applies to it
/// decides. Takes no memory.
pub fn class_under(format: &ShownFormat<'_>, number: Number) -> CellFormat
    ensures { result ≡ class_under format.now number }
{
    format_of_class(format.class(bits_of(number)))
}

/// The class of a number that a code shows as one of this class: a date that none is, and a duration out of range are
/// plain numbers.
fn class_in_range(class: CellFormat, number: Number, is_1904: bool) -> CellFormat
    ensures { result ≡ class_in_range class number is_1904 }
{
    match class {
        CellFormat::DateTime if !is_moment(number, is_1904) => CellFormat::Other,
        CellFormat::TimeDelta if !is_span(number) => CellFormat::Other,
        class => class,
    }
}

/// A number of a class, in either date system.
fn numeric_of(class: CellFormat, number: Number, is_1904: bool) -> Numeric
    ensures { numeric_content result ≡ content_of_number class number is_1904 }
{
    match number {
        Number::Whole(n) => Numeric::of_i64(n, Some(&class), is_1904),
        _ => Numeric::of_number(number, Some(&class), is_1904),
    }
}

/// The number of a value.
fn number_of(value: Numeric) -> Number
    ensures { number_in (numeric_content value) ≡ Some result }
{
    match value {
        Numeric::Int(n) => Number::Whole(n),
        Numeric::Float(number) => number,
        Numeric::DateTime(number, _) => number,
        Numeric::TimeDelta(number, _) => number,
    }
}

/// A number, whatever class it was given, with the class that it has under a format, in the 1900 or the 1904 date
/// system. Takes no memory.
pub fn numeric_under(format: &ShownFormat<'_>, value: Numeric, is_1904: bool) -> Numeric
    ensures { numeric_content result ≡ content_under format.now is_1904 (numeric_content value) }
{
    let number = number_of(value);
    let class = class_in_range(class_under(format, number), number, is_1904);
    numeric_of(class, number, is_1904)
}

/// The same under a format's code.
pub(crate) fn numeric_under_code(code: &str, value: Numeric, is_1904: bool) -> Numeric
    ensures { numeric_content result ≡ content_under (chars code.now) is_1904 (numeric_content value) }
{
    let number = number_of(value);
    let class = format_of_class(class_of(code, bits_of(number)));
    numeric_of(class_in_range(class, number, is_1904), number, is_1904)
}

/// Appends a number in decimal.
fn push_in_decimal(number: Number, text: &mut String) -> Result<(), AllocError>
    ensures ok { OnOk result (Gains (IsInDecimal number) (chars (string_bytes text.old)) (chars (string_bytes text.new))) }
    ensures err { OnErr result (string_bytes text.new ≡ string_bytes text.old) }
{
    push_decimal(number, text)
}

/// Appends what a format shows of a number, in the 1900 or the 1904 date system; one that is no finite number is
/// written as `push_decimal` does. Only running out of memory refuses, and then the text is as it was.
pub fn push_number(
    format: &ShownFormat<'_>,
    number: Number,
    is_1904: bool,
    text: &mut String,
) -> Result<(), AllocError>
    ensures ok { OnOk result (Gains (IsNumberShown format.now is_1904 number)
        (chars (string_bytes text.old)) (chars (string_bytes text.new))) }
    ensures err { OnErr result (string_bytes text.new ≡ string_bytes text.old) }
{
    let bits = bits_of(number);
    if is_finite(bits) {
        return format.push(bits, is_1904, text);
    }
    push_in_decimal(number, text)
}
