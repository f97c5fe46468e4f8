//! Whole rows of CSV.

ghost use Rattle.std.specs.Prelude.{◌≡◌, ◌++◌, length, OnOk, OnErr};
ghost use Rattle.std.specs.String.{string_bytes};
ghost use Rattle.xls_output.specs.Added.{AddsText};
ghost use Rattle.xls_readable.specs.Growth.{GrowsText};
ghost use Rattle.xls_output.specs.Each.{Concatenates};
ghost use Rattle.xls_readable.specs.Csv.{IsRow, IsJoined, IsSeparated};

use crate::delimited::{Delimiter, end_row, push_field, push_separator};
use crate::values::Value;
use std::alloc::AllocError;

// Appends a delimiter and the field of a value.
fn push_separated(
    value: &Value<'_>,
    delimiter: Delimiter,
    room: &mut String,
    buf: &mut String,
) -> Result<(), AllocError>
    ensures ok { OnOk result (AddsText (IsSeparated delimiter value.now)
        (string_bytes buf.old) (string_bytes buf.new)) }
    ensures grown { GrowsText (string_bytes buf.old) (string_bytes buf.new) }
{
    push_separator(delimiter, buf)?;
    push_field(value, delimiter, room, buf)
}

// Appends the fields of some values, each after a delimiter.
fn push_others(
    values: &[Value<'_>],
    delimiter: Delimiter,
    room: &mut String,
    buf: &mut String,
) -> Result<(), AllocError>
    ensures ok { OnOk result (AddsText (Concatenates (IsSeparated delimiter) values.now)
        (string_bytes buf.old) (string_bytes buf.new)) }
    ensures grown { GrowsText (string_bytes buf.old) (string_bytes buf.new) }
{
    for value in values {
        push_separated(value, delimiter, room, buf)?;
    }
    Ok(())
}

// Appends the fields of some values, with a delimiter between two.
fn push_fields(
    values: &[Value<'_>],
    delimiter: Delimiter,
    room: &mut String,
    buf: &mut String,
) -> Result<(), AllocError>
    ensures ok { OnOk result (AddsText (IsJoined delimiter values.now)
        (string_bytes buf.old) (string_bytes buf.new)) }
    ensures grown { GrowsText (string_bytes buf.old) (string_bytes buf.new) }
{
    match values.split_first() {
        Some((first, others)) => {
            push_field(first, delimiter, room, buf)?;
            push_others(others, delimiter, room, buf)
        }
        None => Ok(()),
    }
}

// As `push_row`, but an error may leave a part of the row.
fn append_row(
    values: &[Value<'_>],
    delimiter: Delimiter,
    room: &mut String,
    buf: &mut String,
) -> Result<(), AllocError>
    ensures ok { OnOk result (AddsText (IsRow delimiter values.now) (string_bytes buf.old) (string_bytes buf.new)) }
    ensures grown { GrowsText (string_bytes buf.old) (string_bytes buf.new) }
{
    let start = buf.len();
    push_fields(values, delimiter, room, buf)?;
    end_row(start, buf)
}

/// Appends the row of some values, with its end. Only running out of memory refuses, and then `buf` is as
/// it was.
pub fn push_row(
    values: &[Value<'_>],
    delimiter: Delimiter,
    room: &mut String,
    buf: &mut String,
) -> Result<(), AllocError>
    ensures ok { OnOk result (AddsText (IsRow delimiter values.now) (string_bytes buf.old) (string_bytes buf.new)) }
    ensures err { OnErr result (string_bytes buf.new ≡ string_bytes buf.old) }
{
    let before = buf.len();
    let done = append_row(values, delimiter, room, buf);
    if done.is_err() {
        buf.truncate(before);
    }
    done
}
