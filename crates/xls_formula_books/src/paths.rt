//! What a path refers to.

ghost use Rattle.std.specs.Prelude.{◌≡◌, IfOk};
ghost use Rattle.std.specs.Str.{chars};
ghost use Rattle.xls_formula_books.specs.Paths as specs;
ghost use Rattle.xls_formula_books.specs.Sources.{source_view};

use crate::sources::{Kind, Source, bare, program, workbook};
use std::alloc::{AllocError, Global};
use xls_bytes::first_char;
use xls_formula_names::{Link, Path};

/// The character that a text has alone.
fn alone(text: &str) -> Option<char>
    ensures { result ≡ specs.alone (chars text.now) }
{
    let (first, rest) = first_char(text)?;
    match first_char(rest) {
        Some(_) => None,
        None => Some(first),
    }
}

/// What a path of one character refers to.
fn kind_of(c: char) -> Option<Kind>
    ensures { result ≡ specs.kind_of c }
{
    if c == '\u{0}' || c == '\u{2}' {
        return Some(Kind::This);
    }
    if c == ' ' {
        return Some(Kind::Functions);
    }
    None
}

/// What a path stands for that isn't another workbook's.
fn kind_alone(path: &str) -> Option<Kind>
    ensures { result ≡ specs.kind_alone (chars path.now) }
{
    match alone(path) {
        Some(c) => kind_of(c),
        None => None,
    }
}

/// What a path refers to, if that isn't another workbook.
pub(crate) fn other_source(alloc: Global, path: &str) -> Result<Option<Source>, AllocError>
    ensures { IfOk result (λ found. specs.source_if found ≡ specs.other_source (chars path.now)) }
{
    if let Some(kind) = kind_alone(path) {
        return Ok(Some(bare(alloc, kind)));
    }
    match Link::read(alloc, path)? {
        Some(link) => Ok(Some(program(alloc, link.app, link.topic))),
        None => Ok(None),
    }
}

/// What a path refers to.
pub(crate) fn path_source(alloc: Global, path: &str) -> Result<Source, AllocError>
    ensures { IfOk result (λ s. source_view s ≡ specs.path_source (chars path.now)) }
{
    if let Some(source) = other_source(alloc, path)? {
        return Ok(source);
    }
    let Path { dir, file } = Path::read(alloc, path)?;
    Ok(workbook(alloc, dir, file))
}
