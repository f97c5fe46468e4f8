//! Exact lines, in which a number is as the workbook has it.

ghost use Rattle.std.specs.Prelude.{◌≡◌, ◌++◌, map, OnOk, OnErr};
ghost use Rattle.std.specs.List.{flat_map};
ghost use Rattle.std.specs.String.{string_bytes};
ghost use Rattle.xls_readable.specs.Growth.{GrowsText};
ghost use Rattle.xls_readable.specs.Items.{exact_line, exact_tabbed, exact_text, item_of, named_of};

use crate::items::{Field, Member, push_count};
use crate::values::{failure_text, push_int};
use std::alloc::AllocError;
use xls_bytes::push_escaped;
use xls_decimals::push_number;

// Appends the exact text of a field.
pub(crate) fn push_exact_item(field: &Field<'_>, buf: &mut String) -> Result<(), AllocError>
    ensures ok { OnOk result (string_bytes buf.new ≡ string_bytes buf.old ++ exact_text (item_of field.now)) }
    ensures err { OnErr result (string_bytes buf.new ≡ string_bytes buf.old) }
{
    match field {
        Field::Word(word) => buf.push_str(word),
        Field::Text(text) => push_escaped(text, buf),
        Field::Count(n) => push_count(*n, buf),
        Field::Int(n) => push_int(*n, buf),
        Field::Number(n) => push_number(*n, buf),
        Field::Truth(true) => buf.push_str("true"),
        Field::Truth(false) => buf.push_str("false"),
        Field::Moment(moment) => push_number(moment.number(), buf),
        Field::Failure(failure) => buf.push_str(failure_text(*failure)),
        Field::Unknown => Ok(()),
    }
}

// Appends the exact text of a field after a tab.
fn push_exact_tabbed(member: &Member<'_>, buf: &mut String) -> Result<(), AllocError>
    ensures ok { OnOk result (string_bytes buf.new ≡ string_bytes buf.old ++ exact_tabbed (named_of member.now)) }
    ensures grown { GrowsText (string_bytes buf.old) (string_bytes buf.new) }
{
    buf.push('\t')?;
    push_exact_item(&member.field, buf)
}

// Appends the exact texts of fields, each after a tab.
fn push_all_exact(members: &[Member<'_>], buf: &mut String) -> Result<(), AllocError>
    ensures ok { OnOk result (string_bytes buf.new
        ≡ string_bytes buf.old ++ flat_map exact_tabbed (map named_of members.now)) }
    ensures grown { GrowsText (string_bytes buf.old) (string_bytes buf.new) }
{
    for member in members {
        push_exact_tabbed(member, buf)?;
    }
    Ok(())
}

// As `push_exact_line`, but an error may leave a part of the line.
fn append_exact_line(word: &str, members: &[Member<'_>], buf: &mut String) -> Result<(), AllocError>
    ensures ok { OnOk result (string_bytes buf.new
        ≡ string_bytes buf.old ++ exact_line word.now (map named_of members.now)) }
    ensures grown { GrowsText (string_bytes buf.old) (string_bytes buf.new) }
{
    buf.push_str(word)?;
    push_all_exact(members, buf)?;
    buf.push('\n')?;
    Ok(())
}

/// Appends an exact line: a word, and fields after it, each after a tab, with numbers as the workbook has
/// them. Only running out of memory refuses, and then `buf` is as it was.
pub fn push_exact_line(
    word: &str,
    members: &[Member<'_>],
    buf: &mut String,
) -> Result<(), AllocError>
    ensures ok { OnOk result (string_bytes buf.new
        ≡ string_bytes buf.old ++ exact_line word.now (map named_of members.now)) }
    ensures err { OnErr result (string_bytes buf.new ≡ string_bytes buf.old) }
{
    let before = buf.len();
    let done = append_exact_line(word, members, buf);
    if done.is_err() {
        buf.truncate(before);
    }
    done
}
