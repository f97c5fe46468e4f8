//! What is linked before BIFF8: ExternSheet records.

ghost use Rattle.std.specs.Prelude.{◌≡◌, ◌++◌, None, map, IfOk, OnOk};
ghost use Rattle.std.specs.Option.{option_map};
ghost use Rattle.std.specs.Str.{chars};
ghost use Rattle.xls_parts.specs.PartRecords.{globals_records, placed_of};
ghost use Rattle.xls_strings.specs.Texts.{text_of};
ghost use Rattle.xls_other_books.specs.Books.{book_view, books_view, view_if};
ghost use Rattle.xls_other_books.specs.Paths as paths;
ghost use Rattle.xls_other_books.specs.SheetRefs as sheet_refs;
ghost use Rattle.xls_other_books.specs.SheetRefs.{Joins};

use crate::books::{Book, Linked, is_book};
use crate::damage::{Damage, DamagedRecord, Flaw};
use crate::names::short_text;
use crate::paths::{Target, target_of};
use crate::texts::{copied, is_same, no_text, push_text};
use std::alloc::{AllocError, Global};
use xls_bytes::{first_char, split_at_first};
use xls_parts::{GlobalsRecords, PartRecord};
use xls_record::Biff;
use xls_stream::types::EXTERN_SHEET;
use xls_text::XlsEncoding;

/// One without path, sheet and names.
fn bare(alloc: Global, linked: Linked, damage: Option<Damage>) -> Book
    ensures { book_view result ≡ sheet_refs.bare linked damage }
{
    Book {
        linked,
        path: no_text(alloc),
        topic: no_text(alloc),
        sheets: Vec::new(alloc),
        names: Vec::new(alloc),
        damage,
    }
}

/// An ExternSheet that is damaged.
fn damaged(alloc: Global, offset: u64, flaw: Flaw) -> Book
    ensures { book_view result ≡ sheet_refs.damaged offset flaw }
{
    let damage = Damage {
        record_name: DamagedRecord::ExternSheet,
        offset,
        flaw,
    };
    bare(alloc, Linked::Nothing, Some(damage))
}

/// The sheets of a name: none of an empty one.
fn sheets_of(alloc: Global, sheet: &str) -> Result<Vec<String>, AllocError>
    ensures { IfOk result (λ sheets. map text_of sheets.items ≡ sheet_refs.sheets_of (chars sheet.now)) }
{
    let mut sheets = Vec::new(alloc);
    if first_char(sheet).is_some() {
        sheets.push(copied(alloc, sheet)?)?;
    }
    Ok(sheets)
}

/// The workbook of a path, the name of whose file stands in brackets before a sheet.
fn book_in(alloc: Global, folder: &str, file: &str, sheet: &str) -> Result<Book, AllocError>
    ensures { IfOk result (λ book. book_view book ≡ sheet_refs.book_in (chars folder.now) (chars file.now) (chars sheet.now)) }
{
    let mut path = copied(alloc, folder)?;
    push_text(file, &mut path)?;
    Ok(Book {
        linked: Linked::Book,
        path,
        topic: no_text(alloc),
        sheets: sheets_of(alloc, sheet)?,
        names: Vec::new(alloc),
        damage: None,
    })
}

/// The folder, the file in brackets and the sheet behind it; none where there are no brackets. Takes no memory.
pub fn split_path(path: &str) -> Option<(&str, &str, &str)>
    ensures { option_map sheet_refs.parts_view result ≡ sheet_refs.split_path (chars path.now) }
{
    let (folder, rest) = split_at_first(path, '[')?;
    let (file, sheet) = split_at_first(rest, ']')?;
    Some((folder, file, sheet))
}

/// The workbook of a path that isn't coded any more.
fn book_of(alloc: Global, path: &str) -> Result<Book, AllocError>
    ensures { IfOk result (λ book. book_view book ≡ sheet_refs.book_of (chars path.now)) }
{
    match split_path(path) {
        Some((folder, file, sheet)) => book_in(alloc, folder, file, sheet),
        None => book_in(alloc, path, "", ""),
    }
}

/// What a path tells.
fn linked_by(alloc: Global, target: Target) -> Result<Book, AllocError>
    ensures { IfOk result (λ book. book_view book ≡ sheet_refs.linked_by (paths.target_view target)) }
{
    if is_book(target.linked) {
        return book_of(alloc, target.path.as_str());
    }
    Ok(Book {
        linked: target.linked,
        path: target.path,
        topic: target.topic,
        sheets: Vec::new(alloc),
        names: Vec::new(alloc),
        damage: None,
    })
}

/// What an ExternSheet with this first byte of its name links.
fn ref_by(alloc: Global, encoding: &XlsEncoding, body: &[u8], first: u8) -> Result<Book, AllocError>
    ensures { IfOk result (λ book. book_view book ≡ sheet_refs.ref_by encoding.now body.now first) }
{
    match first {
        0 | 2 | 3 | 4 => Ok(bare(alloc, Linked::Nothing, None)),
        0x3A => Ok(bare(alloc, Linked::Functions, None)),
        _ => {
            let path = short_text(alloc, Biff::Biff5, encoding, body)?;
            let target = target_of(alloc, path.as_str())?;
            linked_by(alloc, target)
        }
    }
}

/// What an ExternSheet links.
fn ref_of(alloc: Global, encoding: &XlsEncoding, r: &PartRecord<'_>) -> Result<Book, AllocError>
    ensures { IfOk result (λ book. book_view book ≡ sheet_refs.ref_of encoding.now (placed_of r.now)) }
{
    if r.body.is_empty() {
        return Ok(damaged(alloc, r.offset, Flaw::Empty));
    }
    if r.body.len() < 2 || r.body[0] == 0 {
        return Ok(damaged(alloc, r.offset, Flaw::Nameless));
    }
    ref_by(alloc, encoding, r.body, r.body[1])
}

/// Whether two records are of one path.
fn goes_on(last: &Book, next: &Book) -> bool
    ensures { result ≡ sheet_refs.goes_on (book_view last.now) (book_view next.now) }
{
    is_book(last.linked) && is_book(next.linked) && is_same(last.path.as_str(), next.path.as_str())
}

/// Puts some sheets behind others.
fn add_sheets(sheets: &mut Vec<String>, more: Vec<String>) -> Result<(), AllocError>
    ensures { OnOk result (map text_of sheets.new.items ≡ map text_of sheets.old.items ++ map text_of more.items) }
{
    'sheets: for sheet in more {
        sheets.push(sheet)?;
    }
    Ok(())
}

/// The last book with the sheets of one more, or, where that is another, that one, behind it.
fn join(books: &mut Vec<Book>, last: Option<Book>, next: Book) -> Result<Book, AllocError>
    ensures { IfOk result (λ book.
        Joins (books_view books.old.items) (view_if last) (book_view next) (books_view books.new.items) (book_view book)) }
{
    let Some(mut book) = last else {
        return Ok(next);
    };
    if goes_on(&book, &next) {
        add_sheets(&mut book.sheets, next.sheets)?;
        return Ok(book);
    }
    books.push(book)?;
    Ok(next)
}

/// What the ExternSheet records of the globals link, in order, those of one path in sequence as one.
pub(crate) fn read_sheet_refs(
    alloc: Global,
    stream: &[u8],
    encoding: &XlsEncoding,
) -> Result<Vec<Book>, AllocError>
    ensures { IfOk result (λ books.
        books_view books.items ≡ sheet_refs.grouped None (sheet_refs.refs encoding.now (globals_records stream.now))) }
{
    let mut books = Vec::new(alloc);
    let mut last: Option<Book> = None;
    'records: for r in GlobalsRecords::new(stream) {
        if r.typ == EXTERN_SHEET {
            let next = ref_of(alloc, encoding, &r)?;
            last = Some(join(&mut books, last, next)?);
        }
    }
    if let Some(book) = last {
        books.push(book)?;
    }
    Ok(books)
}

/// What each ExternSheet record of the globals links.
pub(crate) fn read_refs(
    alloc: Global,
    stream: &[u8],
    encoding: &XlsEncoding,
) -> Result<Vec<Book>, AllocError>
    ensures { IfOk result (λ books. books_view books.items ≡ sheet_refs.refs encoding.now (globals_records stream.now)) }
{
    let mut books = Vec::new(alloc);
    'records: for r in GlobalsRecords::new(stream) {
        if r.typ == EXTERN_SHEET {
            books.push(ref_of(alloc, encoding, &r)?)?;
        }
    }
    Ok(books)
}
