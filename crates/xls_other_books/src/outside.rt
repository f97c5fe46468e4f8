//! What formulas cite of other workbooks and programs.

ghost use Rattle.std.specs.Prelude.{◌≡◌, ◌++◌, [], ◌∷◌, IfOk, OnOk, map};
ghost use Rattle.std.specs.Option.{option_map};
ghost use Rattle.std.specs.Str.{chars};
ghost use Rattle.xls_strings.specs.Texts.{text_of};
ghost use Rattle.xls_other_books.specs.Books.{book_view, books_view};
ghost use Rattle.xls_other_books.specs.Names.{name_view};
ghost use Rattle.xls_other_books.specs.Outside as outside;
ghost use Rattle.xls_other_books.specs.Outside.{cited_if, cited_view, cited_views};

use crate::books::{Book, Linked};
use crate::cites::Cite;
use crate::damage::Damage;
use crate::entries::Entry;
use crate::texts::{copied, is_same, no_text, push_char, push_text};
use std::alloc::{AllocError, Global};

/// What a formula cites: the path of a workbook or the name of a program, and a sheet, or two with a colon between
/// them, or a name. Empty is what isn't there.
#[derive(Debug, Drop)]
pub struct Cited<'s> {
    pub book: &'s str,
    pub sheet: String,
    pub name: &'s str,
}

/// Whether formulas can cite it: a workbook or a program.
fn is_outside(linked: Linked) -> bool
    ensures { result ≡ outside.is_outside linked }
{
    matches!(linked, Linked::Book | Linked::Program)
}

/// The sheet of a number.
fn sheet_at(book: &Book, number: u16) -> Option<&str>
    ensures { option_map (λ text. chars text.now) result ≡ outside.sheet_at (book_view book.now) number }
{
    match book.sheets.get(usize::from(number)) {
        Some(sheet) => Some(sheet.as_str()),
        None => None,
    }
}

/// The last sheet, if it isn't the first.
fn last_at(book: &Book, entry: Entry) -> Option<&str>
    ensures { option_map (λ text. chars text.now) result ≡ outside.last_at (book_view book.now) entry }
{
    if entry.first == entry.last {
        return None;
    }
    sheet_at(book, entry.last)
}

/// The text of a first and perhaps a last sheet.
fn range_text(alloc: Global, first: &str, last: Option<&str>) -> Result<String, AllocError>
    ensures { IfOk result (λ text. text_of text ≡ outside.range_text (chars first.now) (option_map (λ l. chars l.now) last.entry)) }
{
    let mut text = copied(alloc, first)?;
    if let Some(last) = last {
        push_char(':', &mut text)?;
        push_text(last, &mut text)?;
    }
    Ok(text)
}

/// The text of the sheets of an entry.
fn sheets_text(alloc: Global, book: &Book, entry: Entry) -> Result<String, AllocError>
    ensures { IfOk result (λ text. text_of text ≡ outside.sheets_text (book_view book.now) entry) }
{
    match sheet_at(book, entry.first) {
        Some(first) => range_text(alloc, first, last_at(book, entry)),
        None => Ok(no_text(alloc)),
    }
}

/// No text.
fn nothing() -> &'static str
    ensures { chars result.now ≡ [] }
{
    ""
}

/// A name, or nothing where its record is damaged.
fn told(name: &Result<String, Damage>) -> &str
    ensures { chars result.now ≡ outside.told (name_view name.now) }
{
    match name {
        Ok(name) => name.as_str(),
        Err(_) => nothing(),
    }
}

/// The name behind so many others.
fn name_behind(book: &Book, count: usize) -> &str
    ensures { chars result.now ≡ outside.name_behind (book_view book.now) count }
{
    match book.names.get(count) {
        Some(name) => told(name),
        None => nothing(),
    }
}

/// The name of a number from 1.
fn name_at(book: &Book, number: u16) -> &str
    ensures { chars result.now ≡ outside.name_at (book_view book.now) number }
{
    if number == 0 {
        return nothing();
    }
    name_behind(book, usize::from(number) - 1)
}

/// What is cited of a book through an entry.
fn cited_in<'s>(
    alloc: Global,
    book: &'s Book,
    entry: Entry,
    name: Option<u16>,
) -> Result<Cited<'s>, AllocError>
    ensures { IfOk result (λ cited. cited_view cited ≡ outside.cited_in (book_view book.now) entry name) }
{
    match name {
        Some(number) => Ok(Cited {
            book: book.path.as_str(),
            sheet: no_text(alloc),
            name: name_at(book, number),
        }),
        None => Ok(Cited {
            book: book.path.as_str(),
            sheet: sheets_text(alloc, book, entry)?,
            name: nothing(),
        }),
    }
}

/// What is cited through an entry, if that is of a book.
fn cited_through<'s>(
    alloc: Global,
    books: &'s [Book],
    entry: Entry,
    name: Option<u16>,
) -> Result<Option<Cited<'s>>, AllocError>
    ensures { IfOk result (λ found. cited_if found ≡ outside.cited_through (books_view books.now) entry name) }
{
    match books.get(usize::from(entry.book)) {
        Some(book) if is_outside(book.linked) => Ok(Some(cited_in(alloc, book, entry, name)?)),
        _ => Ok(None),
    }
}

/// What a token of BIFF8 cites outside.
pub(crate) fn cited_by<'s>(
    alloc: Global,
    books: &'s [Book],
    entries: &[Entry],
    cite: Cite,
) -> Result<Option<Cited<'s>>, AllocError>
    ensures { IfOk result (λ found. cited_if found ≡ outside.cited_by (books_view books.now) entries.now cite) }
{
    match entries.get(usize::from(cite.reference)) {
        Some(entry) => cited_through(alloc, books, *entry, cite.name),
        None => Ok(None),
    }
}

/// The first sheet of a book, if it has one.
fn first_sheet(alloc: Global, book: &Book) -> Result<String, AllocError>
    ensures { IfOk result (λ text. text_of text ≡ outside.first_sheet (book_view book.now)) }
{
    match sheet_at(book, 0) {
        Some(sheet) => copied(alloc, sheet),
        None => Ok(no_text(alloc)),
    }
}

/// What is cited of the reference behind so many others, before BIFF8.
fn cited_behind<'s>(
    alloc: Global,
    refs: &'s [Book],
    count: usize,
) -> Result<Option<Cited<'s>>, AllocError>
    ensures { IfOk result (λ found. cited_if found ≡ outside.cited_behind (books_view refs.now) count) }
{
    match refs.get(count) {
        Some(book) if is_outside(book.linked) => Ok(Some(Cited {
            book: book.path.as_str(),
            sheet: first_sheet(alloc, book)?,
            name: nothing(),
        })),
        _ => Ok(None),
    }
}

/// What a token cites outside before BIFF8.
pub(crate) fn cited_before<'s>(
    alloc: Global,
    refs: &'s [Book],
    cite: Cite,
) -> Result<Option<Cited<'s>>, AllocError>
    ensures { IfOk result (λ found. cited_if found ≡ outside.cited_before (books_view refs.now) cite) }
{
    if cite.reference == 0 || cite.reference >= 0x8000 {
        return Ok(None);
    }
    cited_behind(alloc, refs, usize::from(cite.reference) - 1)
}

fn is_equal(a: &Cited<'_>, b: &Cited<'_>) -> bool
    ensures { result ≡ outside.is_equal (cited_view a.now) (cited_view b.now) }
{
    is_same(a.book, b.book)
        && is_same(a.sheet.as_str(), b.sheet.as_str())
        && is_same(a.name, b.name)
}

fn is_among(cited: &Cited<'_>, found: &[Cited<'_>]) -> bool
    ensures { result ≡ outside.is_among (cited_view cited.now) (cited_views found.now) }
{
    'found: for other in found {
        if is_equal(cited, other) {
            return true;
        }
    }
    false
}

/// Puts what is cited behind others, if it isn't among them.
pub(crate) fn add_new<'s>(
    found: &mut Vec<Cited<'s>>,
    cited: Option<Cited<'s>>,
) -> Result<(), AllocError>
    ensures { OnOk result (cited_views found.new.items ≡ outside.with_new (cited_views found.old.items) (cited_if cited.entry)) }
{
    if let Some(cited) = cited {
        if !is_among(&cited, found) {
            found.push(cited)?;
        }
    }
    Ok(())
}
