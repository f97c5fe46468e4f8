//! The field of a number, made from its end to its beginning. It calls for no quotes.

ghost use Rattle.std.specs.Prelude.{◌≡◌, ◌++◌, ◌+◌, ◌≤◌, length, OnOk};
ghost use Rattle.csv.specs.Writing.{default_writer, field_text};
ghost use Rattle.xls_data.specs.Numeric.{numeric_content};
ghost use Rattle.xls_csv.specs.Dates as dates;
ghost use Rattle.xls_csv.specs.Fields.{field, displayed_date};

use crate::dates::day_of;
use std::alloc::AllocError;
use xls_data::{ExcelDateTime, ExcelDateTimeType, Numeric};
use xls_lines::{Short, put_day};

/// Puts the field of a date before a text: its day, if it is shown as one, or its number.
fn put_date(text: &mut Short, date: ExcelDateTime)
    requires { length text.old + 24 ≤ 96 }
    ensures puts { text.new ≡ displayed_date date (dates.day_of date) ++ text.old }
    ensures room { length text.new ≤ length text.old + 24 }
{
    match day_of(date) {
        Some(day) => put_day(day, date.has_1904_epoch(), text),
        None => text.put_number(date.number()),
    }
}

/// Puts the field of a number before a text.
#[inline(always)]
fn put_numeric(text: &mut Short, number: Numeric)
    requires { length text.old + 24 ≤ 96 }
    ensures puts { text.new ≡ field (numeric_content number) ++ text.old }
    ensures room { length text.new ≤ length text.old + 24 }
{
    match number {
        Numeric::Int(n) => text.put_int(n),
        Numeric::Float(number) => text.put_number(number),
        Numeric::DateTime(number, is_1904) => {
            let date = ExcelDateTime::new(number, ExcelDateTimeType::DateTime, is_1904);
            put_date(text, date);
        }
        Numeric::TimeDelta(number, _) => text.put_number(number),
    }
}

/// Appends the field of a number.
#[inline(always)]
pub(crate) fn push_number(bytes: &mut Vec<u8>, number: Numeric) -> Result<(), AllocError>
    ensures { OnOk result (bytes.new.items ≡ bytes.old.items ++ field_text default_writer (field (numeric_content number))) }
{
    let mut text = Short::new();
    put_numeric(&mut text, number);
    bytes.extend_from_slice(text.as_slice())
}
