//! What is referred to before BIFF8: ExternSheet records.

ghost use Rattle.std.specs.Prelude.{◌≡◌, ◌++◌, ◌∷◌, [], ◌≤◌, length, IfOk, OnOk};
ghost use Rattle.std.specs.Str.{chars};
ghost use Rattle.xls_strings.specs.Texts.{text_of};
ghost use Rattle.xls_formula_books.specs.SheetRefs as specs;
ghost use Rattle.xls_formula_books.specs.Sources as sources;
ghost use Rattle.xls_formula_books.specs.Sources.{source_view};

use crate::paths::other_source;
use crate::sources::{Kind, Source, bare, workbook};
use crate::texts::{copied, no_text, push_text};
use std::alloc::{AllocError, Global};
use xls_bytes::split_at_first;
use xls_formula_names::Path;
use xls_other_books::{short_text, split_path, text_at};
use xls_record::Biff;
use xls_text::XlsEncoding;

/// What is referred to, with this sheet alone.
fn with_sheet(alloc: Global, source: Source, sheet: String) -> Result<Source, AllocError>
    ensures { IfOk result (λ s. source_view s ≡ specs.with_sheet (text_of sheet) (source_view source)) }
{
    let mut source = source;
    let mut sheets = Vec::new(alloc);
    sheets.push(sheet)?;
    source.sheets = sheets;
    Ok(source)
}

/// The workbook of a folder, a file and a sheet.
fn sheet_of(alloc: Global, dir: &str, file: &str, sheet: &str) -> Result<Source, AllocError>
    ensures { IfOk result (λ s. source_view s
        ≡ specs.with_sheet (chars sheet.now) (sources.workbook (chars dir.now) (chars file.now))) }
{
    let book = workbook(alloc, copied(alloc, dir)?, copied(alloc, file)?);
    with_sheet(alloc, book, copied(alloc, sheet)?)
}

/// The workbook of a path, whose file stands in brackets before a sheet.
fn workbook_of(alloc: Global, path: Path) -> Result<Source, AllocError>
    ensures { IfOk result (λ s. source_view s ≡ specs.workbook_of (text_of path.dir, text_of path.file)) }
{
    let mut whole = copied(alloc, &path.dir)?;
    push_text(&path.file, &mut whole)?;
    match split_path(&whole) {
        Some((dir, file, sheet)) => sheet_of(alloc, dir, file, sheet),
        None => Ok(workbook(alloc, path.dir, path.file)),
    }
}

/// What a path refers to.
fn early_source(alloc: Global, path: &str) -> Result<Source, AllocError>
    ensures { IfOk result (λ s. source_view s ≡ specs.early_source (chars path.now)) }
{
    if let Some(source) = other_source(alloc, path)? {
        return Ok(source);
    }
    workbook_of(alloc, Path::read(alloc, path)?)
}

/// A text behind 01.
fn coded(alloc: Global, rest: &str) -> Result<String, AllocError>
    ensures { IfOk result (λ text. text_of text ≡ specs.coded (chars rest.now)) }
{
    let mut text = no_text(alloc);
    push_start(&mut text)?;
    push_text(rest, &mut text)?;
    Ok(text)
}

/// Appends 01.
#[tactic(auto, unfolding(std::specs::Prelude::chars))]
fn push_start(out: &mut String) -> Result<(), AllocError>
    ensures { OnOk result (text_of out.new ≡ text_of out.old ++ 1 ∷ []) }
{
    push_text("\u{1}", out)
}

/// What a stored path refers to: from 01 on, where it has one.
fn stored_source(alloc: Global, path: &str) -> Result<Source, AllocError>
    ensures { IfOk result (λ s. source_view s ≡ specs.stored_source (chars path.now)) }
{
    match split_at_first(path, '\u{1}') {
        Some((_, rest)) => early_source(alloc, coded(alloc, rest)?.as_str()),
        None => early_source(alloc, path),
    }
}

/// A sheet of this workbook, by its name of so many bytes.
fn sheet_source(
    alloc: Global,
    encoding: &XlsEncoding,
    name: &[u8],
    count: u8,
) -> Result<Source, AllocError>
    ensures { IfOk result (λ s. source_view s ≡ specs.sheet_source encoding.now name.now count) }
{
    let name = text_at(alloc, encoding, name, usize::from(count), None)?;
    with_sheet(alloc, bare(alloc, Kind::Sheet), name)
}

/// What an ExternSheet of two bytes or more refers to.
fn read_long(alloc: Global, encoding: &XlsEncoding, body: &[u8]) -> Result<Source, AllocError>
    requires { 2 ≤ length body.now }
    ensures { IfOk result (λ s. source_view s ≡ specs.by_first encoding.now body.now) }
{
    match body[1] {
        2 => Ok(bare(alloc, Kind::Own)),
        3 => {
            let (_, name) = body.split_at(2);
            sheet_source(alloc, encoding, name, body[0])
        }
        4 => Ok(bare(alloc, Kind::This)),
        0x3A if body[0] == 1 => Ok(bare(alloc, Kind::Functions)),
        _ => {
            let path = short_text(alloc, Biff::Biff5, encoding, body)?;
            stored_source(alloc, &path)
        }
    }
}

/// What an ExternSheet refers to.
pub(crate) fn sheet_ref(
    alloc: Global,
    encoding: &XlsEncoding,
    body: &[u8],
) -> Result<Source, AllocError>
    ensures { IfOk result (λ s. source_view s ≡ specs.sheet_ref encoding.now body.now) }
{
    if body.len() < 2 || body[0] == 0 {
        return Ok(bare(alloc, Kind::Nothing));
    }
    read_long(alloc, encoding, body)
}
