//! The fields of a line, and lines of them as text.

ghost use Rattle.std.specs.Prelude.{◌≡◌, ◌++◌, map, OnOk, OnErr};
ghost use Rattle.std.specs.Fmt.{decimal};
ghost use Rattle.std.specs.String.{string_bytes};
ghost use Rattle.xls_output.specs.Added.{AddsText};
ghost use Rattle.xls_readable.specs.Growth.{GrowsText};
ghost use Rattle.xls_output.specs.Each.{Concatenates};
ghost use Rattle.xls_readable.specs.Items.{IsItemText, IsTabbed, IsTextLine, item_of, named_of};

use crate::exact_lines::push_exact_item;
use std::alloc::AllocError;
use xls_bytes::push_escaped;
use xls_data::{CellErrorType, ExcelDateTime, Number};
use xls_decimals::{push_date_or_duration, push_decimal};

/// What a field of a line holds.
#[derive(Drop)]
pub enum Field<'a> {
    /// A word, as it is.
    Word(&'a str),
    /// A text.
    Text(&'a str),
    /// A row, a column or a count.
    Count(u64),
    /// A whole number.
    Int(i64),
    /// A number.
    Number(Number),
    /// A truth value.
    Truth(bool),
    /// A date or a duration.
    Moment(ExcelDateTime),
    /// An error value.
    Failure(CellErrorType),
    /// What isn't known: nothing, and `null` in JSON.
    Unknown,
}

impl<'a> Field<'a> {
    /// The same once more, which borrows what this does.
    pub(crate) fn again(&self) -> Field<'a>
        ensures { item_of result ≡ item_of self.now }
    {
        match self {
            Field::Word(word) => Field::Word(word),
            Field::Text(text) => Field::Text(text),
            Field::Count(n) => Field::Count(*n),
            Field::Int(n) => Field::Int(*n),
            Field::Number(n) => Field::Number(*n),
            Field::Truth(b) => Field::Truth(*b),
            Field::Moment(d) => Field::Moment(*d),
            Field::Failure(e) => Field::Failure(*e),
            Field::Unknown => Field::Unknown,
        }
    }
}

/// A field with its name.
#[derive(Drop)]
pub struct Member<'a> {
    pub name: &'a str,
    pub field: Field<'a>,
}

// Appends a count.
pub(crate) fn push_count(n: u64, buf: &mut String) -> Result<(), AllocError>
    ensures ok { OnOk result (string_bytes buf.new ≡ string_bytes buf.old ++ decimal n) }
    ensures err { OnErr result (string_bytes buf.new ≡ string_bytes buf.old) }
{
    let mut digits = itoa::Buffer::new();
    buf.push_str(digits.format(n))
}

// Appends the text of a field.
pub(crate) fn push_item(
    field: &Field<'_>,
    room: &mut String,
    buf: &mut String,
) -> Result<(), AllocError>
    ensures ok { OnOk result (AddsText (IsItemText (item_of field.now))
        (string_bytes buf.old) (string_bytes buf.new)) }
    ensures err { OnErr result (string_bytes buf.new ≡ string_bytes buf.old) }
{
    match field {
        Field::Number(n) => push_decimal(*n, buf),
        Field::Moment(moment) => push_date_or_duration(*moment, buf),
        other => push_exact_item(other, buf),
    }
}

// Appends the text of a field after a tab.
fn push_tabbed(member: &Member<'_>, room: &mut String, buf: &mut String) -> Result<(), AllocError>
    ensures ok { OnOk result (AddsText (IsTabbed (named_of member.now))
        (string_bytes buf.old) (string_bytes buf.new)) }
    ensures grown { GrowsText (string_bytes buf.old) (string_bytes buf.new) }
{
    buf.push('\t')?;
    push_item(&member.field, room, buf)
}

// Appends the texts of fields, each after a tab.
fn push_all_tabbed(
    members: &[Member<'_>],
    room: &mut String,
    buf: &mut String,
) -> Result<(), AllocError>
    ensures ok { OnOk result (AddsText (Concatenates IsTabbed (map named_of members.now))
        (string_bytes buf.old) (string_bytes buf.new)) }
    ensures grown { GrowsText (string_bytes buf.old) (string_bytes buf.new) }
{
    for member in members {
        push_tabbed(member, room, buf)?;
    }
    Ok(())
}

// As `push_text_line`, but an error may leave a part of the line.
fn append_text_line(
    word: &str,
    members: &[Member<'_>],
    room: &mut String,
    buf: &mut String,
) -> Result<(), AllocError>
    ensures ok { OnOk result (AddsText (IsTextLine word.now (map named_of members.now))
        (string_bytes buf.old) (string_bytes buf.new)) }
    ensures grown { GrowsText (string_bytes buf.old) (string_bytes buf.new) }
{
    buf.push_str(word)?;
    push_all_tabbed(members, room, buf)?;
    buf.push('\n')?;
    Ok(())
}

/// Appends a line of text: a word, and fields after it, each after a tab. What has to be printed first is
/// printed into `room`, whose text is lost. Only running out of memory refuses, and then `buf` is as it was.
pub fn push_text_line(
    word: &str,
    members: &[Member<'_>],
    room: &mut String,
    buf: &mut String,
) -> Result<(), AllocError>
    ensures ok { OnOk result (AddsText (IsTextLine word.now (map named_of members.now))
        (string_bytes buf.old) (string_bytes buf.new)) }
    ensures err { OnErr result (string_bytes buf.new ≡ string_bytes buf.old) }
{
    let before = buf.len();
    let done = append_text_line(word, members, room, buf);
    if done.is_err() {
        buf.truncate(before);
    }
    done
}
