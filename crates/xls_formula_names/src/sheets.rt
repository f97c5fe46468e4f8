//! What stands before the `!` of a reference to other sheets.

ghost use Rattle.std.specs.Prelude.{◌≡◌, ◌++◌, OnOk, OnErr};
ghost use Rattle.std.specs.Str.{chars};
ghost use Rattle.std.specs.String.{string_bytes};
ghost use Rattle.xls_formula_names.specs.Prefixes.{in_quotes, named, quoted, name_text, sheets_text, sheets_need_quotes, sheets_prefix};

use crate::appends::push_parts;
use crate::quotes::needs_quotes;
use std::alloc::AllocError;

/// The sheets that a reference names.
#[derive(Clone, Copy, Debug)]
pub enum Sheets<'a> {
    /// None that is there: `#REF`.
    Gone,
    /// The sheet of this name.
    One(&'a str),
    /// All from one sheet to another, in their order: `First:Last`.
    Range(&'a str, &'a str),
}

/// Appends a text between apostrophes, each apostrophe in it twice. Only running out of memory refuses, and then `out` is as it was.
pub fn push_quoted(text: &str, out: &mut String) -> Result<(), AllocError>
    ensures ok { OnOk result (chars (string_bytes out.new) ≡ chars (string_bytes out.old) ++ quoted (chars text.now)) }
    ensures err { OnErr result (string_bytes out.new ≡ string_bytes out.old) }
{
    push_parts(&[text], true, out)
}

/// Appends a name by itself, between apostrophes where it needs them. Only running out of memory refuses, and then `out` is as it was.
pub fn push_name(name: &str, out: &mut String) -> Result<(), AllocError>
    ensures ok { OnOk result (chars (string_bytes out.new) ≡ chars (string_bytes out.old) ++ name_text (chars name.now)) }
    ensures err { OnErr result (string_bytes out.new ≡ string_bytes out.old) }
{
    push_parts(&[name], needs_quotes(name), out)
}

// Whether one of the names needs quotes.
pub(crate) fn need_quotes(sheets: Sheets<'_>) -> bool
    ensures { result ≡ sheets_need_quotes (named sheets.entry) }
{
    match sheets {
        Sheets::Gone => false,
        Sheets::One(name) => needs_quotes(name),
        Sheets::Range(first, last) => needs_quotes(first) || needs_quotes(last),
    }
}

/// Appends the prefix of a reference to sheets of this workbook, without the `!`: `Sheet`, `First:Last`, between apostrophes where one of
/// them needs quotes, or `#REF`. Only running out of memory refuses, and then `out` is as it was.
pub fn push_sheets(sheets: Sheets<'_>, out: &mut String) -> Result<(), AllocError>
    ensures ok { OnOk result (chars (string_bytes out.new) ≡ chars (string_bytes out.old) ++ sheets_prefix (named sheets.entry)) }
    ensures err { OnErr result (string_bytes out.new ≡ string_bytes out.old) }
{
    let is_quoted = need_quotes(sheets);
    match sheets {
        Sheets::Gone => out.push_str("#REF"),
        Sheets::One(name) => push_parts(&[name], is_quoted, out),
        Sheets::Range(first, last) => push_parts(&[first, ":", last], is_quoted, out),
    }
}
