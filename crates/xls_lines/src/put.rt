//! Lines that are put into a writer.

ghost use Rattle.std.specs.Prelude.{◌≡◌, ◌++◌, ◌+◌, ◌≤◌, [], length, Some, IfSome, OnOk, codes};
ghost use Rattle.std.specs.List.{flat_map};
ghost use Rattle.std.specs.Fmt.{decimal};
ghost use Rattle.xls_dates.specs.Numbers.{number_text};
ghost use Rattle.xls_output.specs.Gathering.{Delivers};
ghost use Rattle.xls_lines.specs.Lines.{field_text, filled_line, tabbed, tabbed_field};
ghost use Rattle.xls_output.specs.Output.{Puts, output};

use crate::buffer::{Buffer, gather, gather_line};
use crate::field::{Field, printed};
use crate::head::Head;
use crate::short::Short;
use std::alloc::Global;
use xls_data::Number;
use xls_output::{Sink, Stop, Writer};

/// The number that a field prints, if it is one.
fn number_in(field: Field<'_>) -> Option<Number>
    ensures { IfSome result (λ n. field_text field.entry ≡ number_text n) }
{
    match field {
        Field::Int(n) => Some(Number::Whole(n)),
        Field::Fraction(n) => Some(n),
        _ => None,
    }
}

/// How long a text is, at most, that is put into its line at once.
const SHORT: usize = 42;

/// Puts all of a cell's line that stands before its text: its row, its column and its kind.
fn put_head(head: &mut Head, line: &mut Short, row: u32, column: u32, kind: &str)
    requires kind { length kind.now ≤ 5 }
    requires room { length line.old ≤ SHORT + 1 }
    ensures { line.new ≡ codes "cell" ++ (tabbed (decimal row) ++ (tabbed (decimal column)
        ++ (tabbed kind.now ++ (codes "\t" ++ line.old)))) }
{
    line.put_byte(b'\t');
    line.put_word(kind.as_bytes());
    line.put_byte(b'\t');
    line.put_digits(u64::from(column));
    head.put(row, line);
}

/// Puts some bytes.
#[inline(always)]
fn put<K: Sink>(out: &mut Writer<'_, K, Buffer>, bytes: &[u8]) -> Result<(), Stop>
    ensures { Puts (output K.state out.old) (output K.state out.new) bytes.now result }
{
    let buffer = &mut *out.buffer;
    gather(&mut buffer.piece, out.sink, bytes)
}

/// Puts a text as it is.
fn put_str<K: Sink>(out: &mut Writer<'_, K, Buffer>, text: &str) -> Result<(), Stop>
    ensures { Puts (output K.state out.old) (output K.state out.new) text.now result }
{
    put(out, text.as_bytes())
}

/// Puts what a field prints.
fn put_value<K: Sink>(out: &mut Writer<'_, K, Buffer>, field: Field<'_>) -> Result<(), Stop>
    ensures { Puts (output K.state out.old) (output K.state out.new) (field_text field.entry) result }
{
    let buffer = &mut *out.buffer;
    let text = printed(field, &mut buffer.printed)?;
    gather(&mut buffer.piece, out.sink, text.as_bytes())
}

/// Puts a field, after a tab.
fn put_field<K: Sink>(out: &mut Writer<'_, K, Buffer>, field: Field<'_>) -> Result<(), Stop>
    ensures { Puts (output K.state out.old) (output K.state out.new) (tabbed_field field.entry) result }
{
    put_str(out, "\t")?;
    put_value(out, field)?;
    Ok(())
}

/// Puts fields, each after a tab.
fn put_fields<K: Sink>(out: &mut Writer<'_, K, Buffer>, fields: &[Field<'_>]) -> Result<(), Stop>
    ensures { Puts (output K.state out.old) (output K.state out.new) (flat_map tabbed_field fields.now) result }
{
    for field in fields {
        put_field(out, *field)?;
    }
    Ok(())
}

/// Puts a line: a word, and fields after it.
pub fn put_line<K: Sink>(
    out: &mut Writer<'_, K, Buffer>,
    word: &str,
    fields: &[Field<'_>],
) -> Result<(), Stop>
    ensures { Puts (output K.state out.old) (output K.state out.new)
        (word.now ++ (flat_map tabbed_field fields.now ++ codes "\n")) result }
{
    put_str(out, word)?;
    put_fields(out, fields)?;
    put_str(out, "\n")?;
    Ok(())
}

/// Puts the line of a cell with a number, all at once.
fn put_number_cell<K: Sink>(
    out: &mut Writer<'_, K, Buffer>,
    row: u32,
    column: u32,
    kind: &str,
    number: Number,
) -> Result<(), Stop>
    requires { length kind.now ≤ 5 }
    ensures { Puts (output K.state out.old) (output K.state out.new)
        (filled_line row column (Some (kind.now, number_text number))) result }
{
    let mut line = Short::new();
    line.put_byte(b'\n');
    line.put_number(number);
    let buffer = &mut *out.buffer;
    put_head(&mut buffer.head, &mut line, row, column, kind);
    put(out, line.as_slice())
}

/// Puts the line of a cell with what it prints, all at once where that is short.
fn put_other_cell<K: Sink>(
    out: &mut Writer<'_, K, Buffer>,
    row: u32,
    column: u32,
    kind: &str,
    displayed: Field<'_>,
) -> Result<(), Stop>
    requires { length kind.now ≤ 5 }
    ensures { Puts (output K.state out.old) (output K.state out.new)
        (filled_line row column (Some (kind.now, field_text displayed.entry))) result }
{
    let buffer = &mut *out.buffer;
    let text = printed(displayed, &mut buffer.printed)?.as_bytes();
    let mut line = Short::new();
    if text.len() <= SHORT {
        line.put_byte(b'\n');
        line.put_word(text);
        put_head(&mut buffer.head, &mut line, row, column, kind);
        return gather(&mut buffer.piece, out.sink, line.as_slice());
    }
    put_head(&mut buffer.head, &mut line, row, column, kind);
    gather_line(&mut buffer.piece, out.sink, line.as_slice(), text)
}

/// Puts the line of a cell: its row, its column, the word for its kind, and what it prints.
pub fn put_cell<K: Sink>(
    out: &mut Writer<'_, K, Buffer>,
    row: u32,
    column: u32,
    kind: &str,
    displayed: Field<'_>,
) -> Result<(), Stop>
    requires { length kind.now ≤ 5 }
    ensures { Puts (output K.state out.old) (output K.state out.new)
        (filled_line row column (Some (kind.now, field_text displayed.entry))) result }
{
    match number_in(displayed) {
        Some(number) => put_number_cell(out, row, column, kind, number),
        None => put_other_cell(out, row, column, kind, displayed),
    }
}

/// Writes one line: a word, and fields after it.
pub fn write_line<K: Sink>(
    alloc: Global,
    sink: &mut K,
    word: &str,
    fields: &[Field<'_>],
) -> Result<(), Stop>
    ensures { Delivers (K.state sink.old) (K.state sink.new)
        (word.now ++ (flat_map tabbed_field fields.now ++ codes "\n")) result }
{
    let mut buffer = Buffer::new(alloc);
    let mut out = Writer::new(&mut buffer, sink);
    put_line(&mut out, word, fields)?;
    out.finish()?;
    Ok(())
}
