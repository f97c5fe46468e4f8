//! The lines of other workbooks, and of the formulas that cite them.

ghost use Rattle.std.specs.Prelude.{◌≡◌, ◌∷◌, [], IfOk, map};
ghost use Rattle.std.specs.List.{flat_map};
ghost use Rattle.xls_open.specs.Globals.{listed_of};
ghost use Rattle.xls_other_books.specs.Books.{book_view, books_view};
ghost use Rattle.xls_other_books.specs.Formulas.{outside_of};
ghost use Rattle.xls_other_books.specs.Names.{name_view};
ghost use Rattle.xls_other_books.specs.Outside.{cited_view, cited_views};
ghost use Rattle.xls_other_books.specs.Texts.{kind_text};
ghost use Rattle.xls_other_books.specs.declared.books.Linked.{Linked as LinkedKind};
ghost use Rattle.xls_output.specs.Each.{DeliversEach, text_output};
ghost use Rattle.xls_parts.specs.PartRecords.{placed_of};
ghost use Rattle.xls_strings.specs.Texts.{text_of};
ghost use Rattle.xls_beside.specs.Books as specs;
ghost use Rattle.xls_beside.specs.Books.{books_lines};
ghost use Rattle.xls_beside.specs.Damaged.{at_most_counted, damaged_among};
ghost use Rattle.xls_beside.specs.Lines.{IsLineText, PutsLines};

use crate::counting::counted;
use crate::lines::{
    DamagePlace, count_member, lent_member, put_damaged, put_line, text_member, word_member,
};
use crate::parts::{SheetPart, part_at};
use crate::sheets::{Tells, put_listed};
use std::alloc::{AllocError, Global};
use xls_open::{Globals, Listed};
use xls_other_books::{Book, Cited, Damage, Linked, OtherBooks, kind_word};
use xls_output::{OutputText, Sink, Stop, Writer};
use xls_parts::{PartRecord, PartRecords};
use xls_readable::Form;
use xls_record::Biff;
use xls_text::XlsEncoding;

/// Puts the line of a workbook or a program; none for what is neither.
fn put_linked<K: Sink>(
    form: Form,
    out: &mut Writer<'_, K, OutputText>,
    book: &Book,
) -> Result<(), Stop>
    ensures { PutsLines form (specs.book_if (kind_text (book_view book.now).linked) (book_view book.now))
        (text_output K.state out.old) (text_output K.state out.new) result }
{
    let Some(kind) = kind_word(book.linked) else {
        return Ok(());
    };
    let members = [
        word_member("kind", kind),
        text_member("path", &book.path),
        text_member("topic", &book.topic),
    ];
    put_line(form, out, "book", &members)
}

/// Puts the line of a sheet or a name.
fn put_named<K: Sink>(
    form: Form,
    out: &mut Writer<'_, K, OutputText>,
    word: &str,
    name: &String,
) -> Result<(), Stop>
    ensures { PutsLines form (specs.named word.now (text_of name.now) ∷ [])
        (text_output K.state out.old) (text_output K.state out.new) result }
{
    put_line(form, out, word, &[text_member("name", name)])
}

/// Puts the lines of the sheets of a workbook.
fn put_book_sheets<K: Sink>(
    form: Form,
    out: &mut Writer<'_, K, OutputText>,
    sheets: &[String],
) -> Result<(), Stop>
    ensures { PutsLines form (map specs.book_sheet (map text_of sheets.now))
        (text_output K.state out.old) (text_output K.state out.new) result }
{
    for name in sheets {
        put_named(form, out, "book_sheet", name)?;
    }
    Ok(())
}

/// The word for a name of what is linked.
fn name_word(linked: Linked) -> &'static str
    ensures { result.now ≡ specs.name_word linked }
{
    match linked {
        Linked::Functions => "function",
        Linked::Nothing | Linked::Book | Linked::Program => "book_name",
    }
}

/// Puts the line of a damaged record of the globals.
fn put_damage<K: Sink>(
    form: Form,
    alloc: Global,
    out: &mut Writer<'_, K, OutputText>,
    damage: &Damage,
) -> Result<(), Stop>
    ensures { PutsLines form (specs.damaged_record damage.now ∷ [])
        (text_output K.state out.old) (text_output K.state out.new) result }
{
    let name = format!(in alloc; "{}", damage.record_name)?;
    let why = format!(in alloc; "{}", damage.flaw)?;
    let place = DamagePlace {
        offset: damage.offset,
        row: None,
        column: None,
    };
    put_damaged(form, out, name.as_str(), place, why.as_str())
}

/// Puts the line of a name, or of a damaged ExternName.
fn put_name<K: Sink>(
    form: Form,
    alloc: Global,
    out: &mut Writer<'_, K, OutputText>,
    linked: Linked,
    name: &Result<String, Damage>,
) -> Result<(), Stop>
    ensures { PutsLines form (specs.book_name linked (name_view name.now) ∷ [])
        (text_output K.state out.old) (text_output K.state out.new) result }
{
    match name {
        Ok(name) => put_named(form, out, name_word(linked), name),
        Err(damage) => put_damage(form, alloc, out, damage),
    }
}

/// Puts the lines of the names of what is linked.
fn put_names<K: Sink>(
    form: Form,
    alloc: Global,
    out: &mut Writer<'_, K, OutputText>,
    linked: Linked,
    names: &[Result<String, Damage>],
) -> Result<(), Stop>
    ensures { PutsLines form (map (specs.book_name linked) (map name_view names.now))
        (text_output K.state out.old) (text_output K.state out.new) result }
{
    for name in names {
        put_name(form, alloc, out, linked, name)?;
    }
    Ok(())
}

/// Puts what is wrong with the record of what is linked, if anything is.
fn put_damage_if<K: Sink>(
    form: Form,
    alloc: Global,
    out: &mut Writer<'_, K, OutputText>,
    damage: Option<Damage>,
) -> Result<(), Stop>
    ensures { PutsLines form (specs.damage_if damage) (text_output K.state out.old) (text_output K.state out.new) result }
{
    match damage {
        Some(damage) => put_damage(form, alloc, out, &damage),
        None => Ok(()),
    }
}

/// Puts the lines of what is linked.
fn put_book<K: Sink>(
    form: Form,
    alloc: Global,
    out: &mut Writer<'_, K, OutputText>,
    book: &Book,
) -> Result<(), Stop>
    ensures { PutsLines form (specs.book_lines (book_view book.now))
        (text_output K.state out.old) (text_output K.state out.new) result }
{
    put_linked(form, out, book)?;
    put_book_sheets(form, out, &book.sheets)?;
    put_names(form, alloc, out, book.linked, &book.names)?;
    put_damage_if(form, alloc, out, book.damage)
}

/// Puts the lines of all that is linked, in order.
fn put_books<K: Sink>(
    form: Form,
    alloc: Global,
    out: &mut Writer<'_, K, OutputText>,
    books: &[Book],
) -> Result<(), Stop>
    ensures { PutsLines form (flat_map specs.book_lines (books_view books.now))
        (text_output K.state out.old) (text_output K.state out.new) result }
{
    for book in books {
        put_book(form, alloc, out, book)?;
    }
    Ok(())
}

/// Puts the line of something that the formula of a cell cites.
fn put_cited<K: Sink>(
    form: Form,
    out: &mut Writer<'_, K, OutputText>,
    row: u16,
    column: u16,
    cited: &Cited<'_>,
) -> Result<(), Stop>
    ensures { PutsLines form (specs.cited_line row column (cited_view cited.now) ∷ [])
        (text_output K.state out.old) (text_output K.state out.new) result }
{
    let members = [
        count_member("row", u64::from(row)),
        count_member("column", u64::from(column)),
        lent_member("book", cited.book),
        text_member("sheet", &cited.sheet),
        lent_member("name", cited.name),
    ];
    put_line(form, out, "outside", &members)
}

/// Puts the lines of all that the formula of a cell cites.
fn put_all_cited<K: Sink>(
    form: Form,
    out: &mut Writer<'_, K, OutputText>,
    row: u16,
    column: u16,
    cited: &[Cited<'_>],
) -> Result<(), Stop>
    ensures { PutsLines form (map (specs.cited_line row column) (cited_views cited.now))
        (text_output K.state out.old) (text_output K.state out.new) result }
{
    for next in cited {
        put_cited(form, out, row, column, next)?;
    }
    Ok(())
}

/// Puts the lines of all that the formula of a record cites, if it has one.
fn put_outside<K: Sink>(
    form: Form,
    alloc: Global,
    out: &mut Writer<'_, K, OutputText>,
    other: &OtherBooks,
    r: &PartRecord<'_>,
) -> Result<(), Stop>
    ensures { PutsLines form (specs.outside_lines (outside_of other.now (placed_of r.now)))
        (text_output K.state out.old) (text_output K.state out.new) result }
{
    match other.outside(alloc, r)? {
        Some(outside) => put_all_cited(form, out, outside.row, outside.column, &outside.cited),
        None => Ok(()),
    }
}

/// Puts the lines of all that the formulas of some records cite, in order.
fn put_records<K: Sink>(
    form: Form,
    alloc: Global,
    out: &mut Writer<'_, K, OutputText>,
    other: &OtherBooks,
    records: PartRecords<'_>,
) -> Result<(), Stop>
    ensures { PutsLines form (flat_map (λ r. specs.outside_lines (outside_of other.now r)) records.entry)
        (text_output K.state out.old) (text_output K.state out.new) result }
{
    for r in records {
        put_outside(form, alloc, out, other, &r)?;
    }
    Ok(())
}

/// The formulas of the sheets of a stream, by what they can cite.
#[derive(Clone, Copy, Drop)]
struct SheetFormulas<'a> {
    stream: &'a [u8],
    other: &'a OtherBooks,
}

impl<'a> Tells for SheetFormulas<'a> {
    ghost use Rattle.xls_beside.specs.Books.{outside_in};

    ghost lines = { λ s. outside_in s.other.now s.stream.now };

    fn put<K: Sink>(
        &self,
        form: Form,
        alloc: Global,
        out: &mut Writer<'_, K, OutputText>,
        part: SheetPart,
    ) -> Result<(), Stop> {
        let bytes = part_at(self.stream, part.offset);
        let records = PartRecords::new(bytes, part.offset as u64);
        put_records(form, alloc, out, self.other, records)
    }
}

/// Puts the lines of all that is linked, and those of sheets, by the version in force and the list of the sheets.
fn put_linked_and_sheets<K: Sink>(
    form: Form,
    alloc: Global,
    out: &mut Writer<'_, K, OutputText>,
    other: &OtherBooks,
    stream: &[u8],
    version: Biff,
    listed: &[Listed],
) -> Result<(), Stop>
    ensures { PutsLines form (specs.linked_lines other.now version (map listed_of listed.now) stream.now)
        (text_output K.state out.old) (text_output K.state out.new) result }
{
    put_books(form, alloc, out, other.books())?;
    let formulas = SheetFormulas { stream, other };
    put_listed(form, alloc, out, &formulas, stream, version, listed)
}

/// Puts the same, by the version and the page in force.
fn put_all<K: Sink>(
    form: Form,
    alloc: Global,
    out: &mut Writer<'_, K, OutputText>,
    stream: &[u8],
    version: Biff,
    page: XlsEncoding,
    listed: &[Listed],
) -> Result<(), Stop>
    ensures { PutsLines form (books_lines version page (map listed_of listed.now) stream.now)
        (text_output K.state out.old) (text_output K.state out.new) result }
{
    let other = OtherBooks::read(alloc, stream, version, &page)?;
    put_linked_and_sheets(form, alloc, out, &other, stream, version, listed)
}

/// Writes the other workbooks and programs that a workbook refers to, by its stream and its globals, and what its
/// formulas cite of them. First, in the order of the stream, what the globals link: each workbook and program with its
/// kind, path and topic (`book`), its sheets (`book_sheet`) and names (`book_name`), each added function (`function`),
/// and what is damaged (`damaged`). Then for each sheet in workbook order its line `sheet`, and behind it, of each
/// formula in the last sheet of its name, from left to right and each once, what it cites: row, column, book, sheet and
/// name (`outside`). At a refusal of the sink, or where memory runs out, a prefix of these lines was written. Beside
/// the globals each path and name is held (before BIFF8 twice), six bytes for each entry of ExternSheet, a part's place
/// for each sheet, and what one formula cites.
pub fn write_books<K: Sink>(
    alloc: Global,
    sink: &mut K,
    form: Form,
    stream: &[u8],
    globals: &Globals,
) -> Result<(), Stop>
    ensures { DeliversEach (IsLineText form)
        (books_lines globals.now.version globals.now.page globals.now.sheets stream.now)
        (K.state sink.old) (K.state sink.new) result }
{
    let mut buffer = OutputText::new(alloc);
    let mut out = Writer::new(&mut buffer, sink);
    put_all(
        form,
        alloc,
        &mut out,
        stream,
        globals.version,
        globals.page,
        &globals.listed,
    )?;
    out.finish()
}

/// How many lines `damaged` a name of what is linked has: 1 or 0.
fn name_damaged(name: &Result<String, Damage>) -> u64
    ensures { (linked : LinkedKind) → result ≡ damaged_among (specs.book_name linked (name_view name.now) ∷ []) }
{
    match name {
        Ok(_) => 0,
        Err(_) => 1,
    }
}

/// How many of the names of what is linked are damaged.
fn names_damaged(names: &[Result<String, Damage>]) -> u64
    ensures { (linked : LinkedKind) → result
        ≡ at_most_counted (damaged_among (map (specs.book_name linked) (map name_view names.now))) }
{
    let mut count: u64 = 0;
    for name in names {
        count = counted(count, name_damaged(name));
    }
    count
}

/// How many lines `damaged` the record of what is linked has: 1 or 0.
fn record_damaged(damage: Option<Damage>) -> u64
    ensures { result ≡ damaged_among (specs.damage_if damage) }
{
    match damage {
        Some(_) => 1,
        None => 0,
    }
}

/// How many records of what is linked are damaged: its own, and those of its names.
fn book_damaged(book: &Book) -> u64
    ensures { result ≡ at_most_counted (damaged_among (specs.book_lines (book_view book.now))) }
{
    counted(names_damaged(&book.names), record_damaged(book.damage))
}

/// How many records are damaged of all that is linked.
fn books_damaged(books: &[Book]) -> u64
    ensures { result ≡ at_most_counted (damaged_among (flat_map specs.book_lines (books_view books.now))) }
{
    let mut count: u64 = 0;
    for book in books {
        count = counted(count, book_damaged(book));
    }
    count
}

/// How many records of the globals that link something are damaged; 2^64 - 1 where they are more. What formulas cite isn't
/// read: no line `damaged` tells of it.
pub(crate) fn damaged_books(
    alloc: Global,
    stream: &[u8],
    globals: &Globals,
) -> Result<u64, AllocError>
    ensures { IfOk result (λ n. n
        ≡ at_most_counted (damaged_among (books_lines globals.now.version globals.now.page globals.now.sheets stream.now))) }
{
    let other = OtherBooks::read(alloc, stream, globals.version, &globals.page)?;
    Ok(books_damaged(other.books()))
}
