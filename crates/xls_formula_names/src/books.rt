//! What stands before the `!` of a reference to another workbook.

ghost use Rattle.std.specs.Prelude.{◌≡◌, ◌||◌, ◌++◌, OnOk, OnErr};
ghost use Rattle.std.specs.Str.{chars};
ghost use Rattle.std.specs.String.{string_bytes};
ghost use Rattle.xls_formula_names.specs.Prefixes.{is_nothing, named, sheets_need_quotes, book_needs_quotes, file_prefix, book_prefix};

use crate::appends::push_parts;
use crate::quotes::needs_quotes;
use crate::sheets::{Sheets, need_quotes};
use std::alloc::AllocError;
use xls_bytes::first_char;

fn is_empty(text: &str) -> bool
    ensures { result ≡ is_nothing (chars text.now) }
{
    first_char(text).is_none()
}

// Whether a prefix needs quotes for its folder or its file.
fn book_needs_quotes(dir: &str, file: &str) -> bool
    ensures { result ≡ book_needs_quotes (chars dir.now) (chars file.now) }
{
    !is_empty(dir) || needs_quotes(file)
}

fn needs_quotes_with(dir: &str, file: &str, sheets: Sheets<'_>) -> bool
    ensures { result ≡ (book_needs_quotes (chars dir.now) (chars file.now) || sheets_need_quotes (named sheets.entry)) }
{
    book_needs_quotes(dir, file) || need_quotes(sheets)
}

/// Appends the path of another workbook alone, as before the `!` of a name of that book: `FILE`, or `'DIR\FILE'` where there is a folder.
/// `dir` ends with its separator. Only running out of memory refuses, and then `out` is as it was.
pub fn push_file(dir: &str, file: &str, out: &mut String) -> Result<(), AllocError>
    ensures ok { OnOk result (chars (string_bytes out.new)
        ≡ chars (string_bytes out.old) ++ file_prefix (chars dir.now) (chars file.now)) }
    ensures err { OnErr result (string_bytes out.new ≡ string_bytes out.old) }
{
    push_parts(&[dir, file], book_needs_quotes(dir, file), out)
}

/// Appends the prefix of a reference to sheets of another workbook, without the `!`: `DIR[FILE]Sheet`, `DIR[FILE]First:Last`, or `DIR[FILE]#REF`,
/// between apostrophes where there is a folder, or the file or a sheet needs quotes. `dir` ends with its separator. Only running out of memory
/// refuses, and then `out` is as it was.
pub fn push_book(
    dir: &str,
    file: &str,
    sheets: Sheets<'_>,
    out: &mut String,
) -> Result<(), AllocError>
    ensures ok { OnOk result (chars (string_bytes out.new)
        ≡ chars (string_bytes out.old) ++ book_prefix (chars dir.now) (chars file.now) (named sheets.entry)) }
    ensures err { OnErr result (string_bytes out.new ≡ string_bytes out.old) }
{
    let is_quoted = needs_quotes_with(dir, file, sheets);
    match sheets {
        Sheets::Gone => push_parts(&[dir, "[", file, "]", "#REF"], is_quoted, out),
        Sheets::One(name) => push_parts(&[dir, "[", file, "]", name], is_quoted, out),
        Sheets::Range(first, last) => {
            push_parts(&[dir, "[", file, "]", first, ":", last], is_quoted, out)
        }
    }
}
