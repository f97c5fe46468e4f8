//! What BIFF8 links: SupBook records, with the names behind them.

ghost use Rattle.std.specs.Prelude.{◌≡◌, ◌≤◌, IfOk, length};
ghost use Rattle.std.specs.Str.{chars};
ghost use Rattle.xls_parts.specs.PartRecords.{globals_records, placed_of};
ghost use Rattle.xls_other_books.specs.Books.{books_view};
ghost use Rattle.xls_other_books.specs.Paths as paths;
ghost use Rattle.xls_other_books.specs.Strings as strings;
ghost use Rattle.xls_other_books.specs.SupBooks as sup_books;
ghost use Rattle.xls_other_books.specs.SupBooks.{ReadsBook, ReadsTexts, head_view};

use crate::books::{Book, Linked, is_nothing};
use crate::cursor::Cursor;
use crate::damage::{Damage, DamagedRecord, Flaw};
use crate::marked::{Marked, read_next_text, read_text};
use crate::names::read_names;
use crate::paths::target_of;
use crate::texts::no_text;
use crate::types::{ADDED_FUNCTIONS, SUP_BOOK, THIS_WORKBOOK};
use std::alloc::{AllocError, Global};
use xls_bytes::read_u16;
use xls_parts::PartRecord;
use xls_text::XlsEncoding;

/// What a SupBook and its Continue records say.
#[derive(Drop)]
struct Head {
    linked: Linked,
    path: String,
    topic: String,
    sheets: Vec<String>,
    flaw: Option<Flaw>,
}

/// One without path and sheets.
fn bare(alloc: Global, linked: Linked, flaw: Option<Flaw>) -> Head
    ensures { head_view result ≡ sup_books.bare linked flaw }
{
    Head {
        linked,
        path: no_text(alloc),
        topic: no_text(alloc),
        sheets: Vec::new(alloc),
        flaw,
    }
}

/// The texts of so many strings, and whether all were there. Only running out of memory refuses.
pub fn read_texts(
    alloc: Global,
    count: u16,
    text: &mut Marked<'_>,
) -> Result<(Vec<String>, bool), AllocError>
    ensures texts { IfOk result (λ x. ReadsTexts count text.old.marks x.0.items x.1) }
    ensures kept { text.new.behind ≡ text.old.behind }
{
    let mut texts = Vec::new(alloc);
    let mut left = count;
    'strings: while left > 0 {
        let Some(next) = read_next_text(alloc, text)? else {
            return Ok((texts, false));
        };
        texts.push(next)?;
        left -= 1;
    }
    Ok((texts, true))
}

/// The flaw of names that aren't all there.
fn flaw_unless(is_whole: bool) -> Option<Flaw>
    ensures { result ≡ sup_books.flaw_unless is_whole }
{
    if is_whole {
        None
    } else {
        Some(Flaw::NamesMissing)
    }
}

/// What a path and the sheets behind it say.
fn read_linked(
    alloc: Global,
    count: u16,
    path: &str,
    text: &mut Marked<'_>,
) -> Result<Head, AllocError>
    ensures head { IfOk result (λ head.
        head_view head ≡ sup_books.linked_head (paths.target_of (chars path.now)) (strings.texts_at count text.old.marks)) }
    ensures kept { text.new.behind ≡ text.old.behind }
{
    let target = target_of(alloc, path)?;
    let (sheets, is_whole) = read_texts(alloc, count, text)?;
    if is_nothing(target.linked) {
        return Ok(bare(alloc, Linked::Nothing, flaw_unless(is_whole)));
    }
    Ok(Head {
        linked: target.linked,
        path: target.path,
        topic: target.topic,
        sheets,
        flaw: flaw_unless(is_whole),
    })
}

/// What path and sheets say, that many sheets.
fn read_strings(alloc: Global, count: u16, text: &mut Marked<'_>) -> Result<Head, AllocError>
    ensures head { IfOk result (λ head. head_view head ≡ sup_books.strings_head count (strings.string_at text.old.marks)) }
    ensures kept { text.new.behind ≡ text.old.behind }
{
    match read_text(alloc, text)? {
        Some(path) => read_linked(alloc, count, path.as_str(), text),
        None => Ok(bare(alloc, Linked::Nothing, Some(Flaw::NamesMissing))),
    }
}

/// What a SupBook says whose body has four bytes or more.
fn read_long(alloc: Global, body: &[u8], text: &mut Marked<'_>) -> Result<Head, AllocError>
    requires { 4 ≤ length body.now }
    ensures head { IfOk result (λ head. head_view head ≡ sup_books.long_head body.now text.old.marks) }
    ensures kept { text.new.behind ≡ text.old.behind }
{
    match read_u16(&body[2..]) {
        THIS_WORKBOOK => Ok(bare(alloc, Linked::Nothing, None)),
        ADDED_FUNCTIONS => Ok(bare(alloc, Linked::Functions, None)),
        _ => read_strings(alloc, read_u16(body), text),
    }
}

/// What a SupBook and the Continue records behind it say, and the records behind these.
fn read_head<'a>(
    alloc: Global,
    body: &'a [u8],
    records: Cursor<'a>,
) -> Result<(Head, Cursor<'a>), AllocError>
    ensures head { IfOk result (λ x. head_view x.0 ≡ sup_books.head_of body.entry.now (strings.continues records.entry)) }
    ensures behind { IfOk result (λ x. x.1 ≡ strings.past_continues records.entry) }
{
    if body.len() < 4 {
        let flaw = Flaw::Short {
            least: 4,
            found: body.len(),
        };
        let head = bare(alloc, Linked::Nothing, Some(flaw));
        return Ok((head, Marked::new(&[], records).into_records()));
    }
    let (_, strings) = body.split_at(2);
    let mut text = Marked::new(strings, records);
    let head = read_long(alloc, body, &mut text)?;
    Ok((head, text.into_records()))
}

/// The damage of a SupBook with this flaw.
fn damage_of(offset: u64, flaw: Option<Flaw>) -> Option<Damage>
    ensures { result ≡ sup_books.damage_of offset flaw }
{
    match flaw {
        Some(flaw) => Some(Damage {
            record_name: DamagedRecord::SupBook,
            offset,
            flaw,
        }),
        None => None,
    }
}

/// What a SupBook links, with the names behind it, and the records from the next SupBook on.
fn read_book<'a>(
    alloc: Global,
    encoding: &XlsEncoding,
    r: &PartRecord<'a>,
    records: Cursor<'a>,
) -> Result<(Book, Cursor<'a>), AllocError>
    ensures { IfOk result (λ x. ReadsBook encoding.now (placed_of r.now) records.entry x.0 x.1) }
{
    let (head, mut left) = read_head(alloc, r.body, records)?;
    let is_wanted = !is_nothing(head.linked);
    let names = read_names(alloc, encoding, is_wanted, &mut left)?;
    let book = Book {
        linked: head.linked,
        path: head.path,
        topic: head.topic,
        sheets: head.sheets,
        names,
        damage: damage_of(r.offset, head.flaw),
    };
    Ok((book, left))
}

/// What the SupBook records of the globals link, in order.
pub(crate) fn read_sup_books(
    alloc: Global,
    stream: &[u8],
    encoding: &XlsEncoding,
) -> Result<Vec<Book>, AllocError>
    ensures { IfOk result (λ books. books_view books.items ≡ sup_books.sup_books encoding.now (globals_records stream.now)) }
{
    let mut books = Vec::new(alloc);
    let mut records = Cursor::new(stream);
    'records: while let Some(r) = records.take() {
        if r.typ == SUP_BOOK {
            let (book, left) = read_book(alloc, encoding, &r, records)?;
            books.push(book)?;
            records = left;
        }
    }
    Ok(books)
}
