//! All that a workbook links, and what its formulas cite of it.

ghost use Rattle.std.specs.Prelude.{◌≡◌, [], IfOk, map};
ghost use Rattle.std.specs.Option.{option_map};
ghost use Rattle.xls_parts.specs.PartRecords.{globals_records, placed_of};
ghost use Rattle.xls_other_books.specs.Books.{books_view};
ghost use Rattle.xls_other_books.specs.Formulas as formulas;
ghost use Rattle.xls_other_books.specs.Formulas.{formula_view, outside_if};
ghost use Rattle.xls_other_books.specs.Links as links;
ghost use Rattle.xls_other_books.specs.Outside.{cited_if, cited_views};

use crate::books::Book;
use crate::cites::{Cite, read_cites};
use crate::entries::{Entry, read_entries};
use crate::outside::{Cited, add_new, cited_before, cited_by};
use crate::sheet_refs::{read_refs, read_sheet_refs};
use crate::sup_books::read_sup_books;
use std::alloc::{AllocError, Global};
use std::marker::Model;
use xls_parts::PartRecord;
use xls_ptg::word_at;
use xls_record::{Biff, is_biff8};
use xls_stream::types::FORMULA;
use xls_text::XlsEncoding;

/// What a workbook links, with each path and name once (before BIFF8 those of ExternSheet twice), and six bytes for each
/// entry of ExternSheet.
///
/// Contracts see what is linked, and by what formulas cite it.
#[derive(Drop)]
pub struct OtherBooks {
    version: Biff,
    books: Vec<Book>,
    entries: Vec<Entry>,
    refs: Vec<Book>,
}

impl Model for OtherBooks {
    ghost use Rattle.xls_other_books.specs.Books.{books_view};
    ghost use Rattle.xls_other_books.specs.Links.{Links};

    ghost Value = { Links };

    ghost view = { λ s. record {
      version = s.version;
      books = books_view s.books.items;
      entries = s.entries.items;
      refs = books_view s.refs.items;
    } };
}

/// What a formula of a sheet cites of other workbooks and programs, each once, from left to right.
#[derive(Debug, Drop)]
pub struct Outside<'s> {
    pub row: u16,
    pub column: u16,
    pub cited: Vec<Cited<'s>>,
}

/// A formula: its cell and its tokens.
#[derive(Clone, Copy)]
struct Formula<'a> {
    row: u16,
    column: u16,
    tokens: &'a [u8],
}

/// At most so many bytes at the start.
fn first_bytes(bytes: &[u8], count: usize) -> &[u8]
    ensures { result.now ≡ formulas.first_bytes bytes.now count }
{
    if count > bytes.len() {
        return bytes;
    }
    let (first, _) = bytes.split_at(count);
    first
}

/// The formula of a record, if it is a Formula of 22 bytes or more, [MS-XLS] 2.4.127.
fn formula_at<'a>(r: &PartRecord<'a>) -> Option<Formula<'a>>
    ensures { option_map formula_view result ≡ formulas.formula_at (placed_of r.now) }
{
    if r.typ != FORMULA || r.body.len() < 22 {
        return None;
    }
    let (_, tokens) = r.body.split_at(22);
    Some(Formula {
        row: word_at(r.body, 0),
        column: word_at(r.body, 2),
        tokens: first_bytes(tokens, usize::from(word_at(r.body, 20))),
    })
}

/// What the records of the globals link, under a version and a page.
fn read_books(
    alloc: Global,
    stream: &[u8],
    version: Biff,
    encoding: &XlsEncoding,
) -> Result<Vec<Book>, AllocError>
    ensures { IfOk result (λ books. books_view books.items ≡ links.books_of version encoding.now (globals_records stream.now)) }
{
    if is_biff8(version) {
        read_sup_books(alloc, stream, encoding)
    } else {
        read_sheet_refs(alloc, stream, encoding)
    }
}

/// The entries by which formulas of BIFF8 cite.
fn entries_if(alloc: Global, stream: &[u8], version: Biff) -> Result<Vec<Entry>, AllocError>
    ensures { IfOk result (λ found. found.items ≡ links.entries_if version (globals_records stream.now)) }
{
    if is_biff8(version) {
        read_entries(alloc, stream)
    } else {
        Ok(Vec::new(alloc))
    }
}

/// The records by which formulas cite before BIFF8.
fn refs_if(
    alloc: Global,
    stream: &[u8],
    version: Biff,
    encoding: &XlsEncoding,
) -> Result<Vec<Book>, AllocError>
    ensures { IfOk result (λ books. books_view books.items ≡ links.refs_if version encoding.now (globals_records stream.now)) }
{
    if is_biff8(version) {
        Ok(Vec::new(alloc))
    } else {
        read_refs(alloc, stream, encoding)
    }
}

impl OtherBooks {
    /// What the globals that a workbook's stream begins with link, under a version and a page: of BIFF8 what each SupBook
    /// does ([MS-XLS] 2.4.271), with the names behind it, before BIFF8 what the ExternSheet records do. Refused where
    /// memory runs out.
    pub fn read(
        alloc: Global,
        stream: &[u8],
        version: Biff,
        encoding: &XlsEncoding,
    ) -> Result<OtherBooks, AllocError>
        ensures { IfOk result (λ other. other ≡ links.links_of version encoding.now (globals_records stream.now)) }
    {
        Ok(OtherBooks {
            version,
            books: read_books(alloc, stream, version, encoding)?,
            entries: entries_if(alloc, stream, version)?,
            refs: refs_if(alloc, stream, version, encoding)?,
        })
    }

    /// What is linked, in the order of the stream.
    pub fn books(&self) -> &[Book]
        ensures { books_view result.now ≡ self.now.books }
    {
        &self.books
    }

    /// What a token cites outside.
    fn cited<'s>(&'s self, alloc: Global, cite: Cite) -> Result<Option<Cited<'s>>, AllocError>
        ensures { IfOk result (λ found. cited_if found ≡ formulas.cited self.now cite) }
    {
        if is_biff8(self.version) {
            cited_by(alloc, &self.books, &self.entries, cite)
        } else {
            cited_before(alloc, &self.refs, cite)
        }
    }

    /// What tokens cite outside, each once.
    fn all_cited<'s>(&'s self, alloc: Global, cites: &[Cite]) -> Result<Vec<Cited<'s>>, AllocError>
        ensures { IfOk result (λ found. cited_views found.items ≡ formulas.all_cited self.now cites.now) }
    {
        let mut found = Vec::new(alloc);
        'cites: for cite in cites {
            add_new(&mut found, self.cited(alloc, *cite)?)?;
        }
        Ok(found)
    }

    /// What the formula of a record of a sheet cites of other workbooks and programs; none of a record that is no
    /// Formula of 22 bytes or more. Keeps what one formula cites. Refused where memory runs out.
    pub fn outside<'s>(
        &'s self,
        alloc: Global,
        r: &PartRecord<'_>,
    ) -> Result<Option<Outside<'s>>, AllocError>
        ensures { IfOk result (λ found. outside_if found ≡ formulas.outside_of self.now (placed_of r.now)) }
    {
        let Some(formula) = formula_at(r) else {
            return Ok(None);
        };
        let cites = read_cites(alloc, self.version, formula.tokens)?;
        Ok(Some(Outside {
            row: formula.row,
            column: formula.column,
            cited: self.all_cited(alloc, &cites)?,
        }))
    }
}
