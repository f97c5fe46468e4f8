//! What BIFF8 refers to: SupBook records.

ghost use Rattle.std.specs.Prelude.{◌≡◌, ◌≤◌, length, IfOk};
ghost use Rattle.std.specs.Str.{chars};
ghost use Rattle.xls_other_books.specs.Strings as strings;
ghost use Rattle.xls_formula_books.specs.SupBooks as specs;
ghost use Rattle.xls_formula_books.specs.Sources.{source_view};

use crate::paths::path_source;
use crate::sources::{Kind, Source, bare};
use std::alloc::{AllocError, Global};
use xls_bytes::read_u16;
use xls_other_books::types::{ADDED_FUNCTIONS, THIS_WORKBOOK};
use xls_other_books::{Cursor, Marked, read_text, read_texts};

/// What a path and so many sheets behind it refer to.
fn read_linked(
    alloc: Global,
    count: u16,
    path: &str,
    text: &mut Marked<'_>,
) -> Result<Source, AllocError>
    ensures source { IfOk result (λ s. source_view s ≡ specs.linked (chars path.now) (strings.texts_at count text.old.marks)) }
    ensures kept { text.new.behind ≡ text.old.behind }
{
    let mut source = path_source(alloc, path)?;
    let (sheets, _is_whole) = read_texts(alloc, count, text)?;
    source.sheets = sheets;
    Ok(source)
}

/// What a path, which may not be there, and so many sheets behind it refer to.
fn read_strings(alloc: Global, count: u16, text: &mut Marked<'_>) -> Result<Source, AllocError>
    ensures source { IfOk result (λ s. source_view s ≡ specs.by_strings count (strings.string_at text.old.marks)) }
    ensures kept { text.new.behind ≡ text.old.behind }
{
    match read_text(alloc, text)? {
        Some(path) => read_linked(alloc, count, path.as_str(), text),
        None => Ok(bare(alloc, Kind::Nothing)),
    }
}

/// What a SupBook refers to whose body has four bytes or more.
fn read_long(alloc: Global, body: &[u8], text: &mut Marked<'_>) -> Result<Source, AllocError>
    requires { 4 ≤ length body.now }
    ensures source { IfOk result (λ s. source_view s ≡ specs.by_count body.now text.old.marks) }
    ensures kept { text.new.behind ≡ text.old.behind }
{
    match read_u16(&body[2..]) {
        THIS_WORKBOOK => Ok(bare(alloc, Kind::This)),
        ADDED_FUNCTIONS => Ok(bare(alloc, Kind::Functions)),
        _ => read_strings(alloc, read_u16(body), text),
    }
}

/// What a SupBook and the Continue records behind it refer to, and the records behind these.
pub(crate) fn read_sup_book<'a>(
    alloc: Global,
    body: &'a [u8],
    records: Cursor<'a>,
) -> Result<(Source, Cursor<'a>), AllocError>
    ensures source { IfOk result (λ x. source_view x.0 ≡ specs.sup_book body.entry.now (strings.continues records.entry)) }
    ensures behind { IfOk result (λ x. x.1 ≡ strings.past_continues records.entry) }
{
    if body.len() < 4 {
        let source = bare(alloc, Kind::Nothing);
        return Ok((source, Marked::new(&[], records).into_records()));
    }
    let (_, strings) = body.split_at(2);
    let mut text = Marked::new(strings, records);
    let source = read_long(alloc, body, &mut text)?;
    Ok((source, text.into_records()))
}
