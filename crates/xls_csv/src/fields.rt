//! The field of a value.

ghost use Rattle.std.specs.Prelude.{◌≡◌, ◌≤◌, ◌++◌, IfOk, MatchOption, OnOk};
ghost use Rattle.std.specs.String.{string_bytes};
ghost use Rattle.std.specs.Str.{IsAscii};
ghost use Rattle.xls_data.specs.Data.{content_of};
ghost use Rattle.xls_data.specs.Refs.{ref_content_of, ref_text};
ghost use Rattle.xls_lines.specs.Days.{date_text, last_day_in, serial_date};
ghost use Rattle.xls_csv.specs.Fields.{field};
ghost use Rattle.xls_csv.specs.Steps.{IsDisplayedDay};

use crate::dates::day_of;
use std::alloc::{AllocError, Global};
use std::str::from_utf8;
use xls_data::{Data, DataRef};
use xls_lines::{Short, put_day};

/// A value with the same field, which borrows its text.
fn lent(value: &Data) -> DataRef<'_>
    ensures { field (ref_content_of result) ≡ field (content_of value.now) }
{
    match value {
        Data::Int(n) => DataRef::Int(*n),
        Data::Float(n) => DataRef::Float(*n),
        Data::String(s) => DataRef::SharedString(s.as_str()),
        Data::Bool(b) => DataRef::Bool(*b),
        Data::DateTime(d) => DataRef::DateTime(*d),
        Data::DateTimeIso(s) => DataRef::SharedString(s.as_str()),
        Data::DurationIso(s) => DataRef::SharedString(s.as_str()),
        Data::Error(e) => DataRef::Error(*e),
        Data::Empty => DataRef::Empty,
    }
}

/// The serial day of a value that is shown as a date, and whether days count from 1904.
fn displayed_day(value: &DataRef<'_>) -> Option<(u64, bool)>
    ensures { IsDisplayedDay value.now result }
{
    match value {
        DataRef::DateTime(date) => Some((day_of(*date)?, date.has_1904_epoch())),
        DataRef::SharedString(text) => {
            // Its proof needs that the text is UTF-8, which holds of a text that is read.
            let _text = *text;
            None
        }
        _ => None,
    }
}

/// Appends ASCII, which is text as it stands.
fn push_ascii(bytes: &[u8], text: &mut String) -> Result<(), AllocError>
    requires { IsAscii bytes.now }
    ensures { OnOk result (string_bytes text.new ≡ string_bytes text.old ++ bytes.now) }
{
    text.push_str(from_utf8(bytes).unwrap())
}

/// Appends the date of a serial day.
fn push_day(day: u64, is_1904: bool, text: &mut String) -> Result<(), AllocError>
    requires last { day ≤ last_day_in is_1904 }
    ensures { OnOk result (string_bytes text.new ≡ string_bytes text.old ++ date_text (serial_date is_1904 day)) }
{
    let mut date = Short::new();
    put_day(day, is_1904, &mut date);
    push_ascii(date.as_slice(), text)
}

/// Appends what a value prints.
fn push_printed(value: &DataRef<'_>, text: &mut String) -> Result<(), AllocError>
    ensures { OnOk result (string_bytes text.new ≡ string_bytes text.old ++ ref_text value.now) }
{
    write!(text, "{value}")?;
    Ok(())
}

/// Appends the field of a value.
pub(crate) fn push_value(value: &Data, text: &mut String) -> Result<(), AllocError>
    ensures { OnOk result (string_bytes text.new ≡ string_bytes text.old ++ field (content_of value.now)) }
{
    let value = lent(value);
    match displayed_day(&value) {
        Some((day, is_1904)) => push_day(day, is_1904, text),
        None => push_printed(&value, text),
    }
}

/// The field of a value in CSV, before any quotes: a date without a time of day is its day, as
/// `2020-02-29`, from day 1 to 9999-12-31; every other value is its printed text, a blank the empty one.
pub fn field_text(alloc: Global, value: &Data) -> Result<String, AllocError>
    ensures { IfOk result (λ text. string_bytes text ≡ field (content_of value.now)) }
{
    let mut text = String::new(alloc);
    push_value(value, &mut text)?;
    Ok(text)
}
