//! The other workbooks, programs and added functions that a workbook refers to.

ghost use Rattle.std.specs.Prelude.{◌≡◌, [], IfErr, OnOk, encode_utf8_all, map};
ghost use Rattle.std.specs.List.{fold};
ghost use Rattle.xls_other_books.specs.Books.{book_view, books_view};
ghost use Rattle.xls_other_books.specs.Names.{name_view};
ghost use Rattle.xls_strings.specs.Texts.{text_of};
ghost use Rattle.xls_beside_arrays.specs.Arrays.{with_two};
ghost use Rattle.xls_beside_arrays.specs.Books as specs;
ghost use Rattle.xls_beside_arrays.specs.Books.{AreBooks, FillsBooks, with_book, with_damage_if, with_damaged, with_linked};
ghost use Rattle.xls_beside_arrays.specs.Books.{with_name, with_sheet};
ghost use Rattle.xls_beside_arrays.specs.Filled.{KeepsRooms, Lays};
ghost use Rattle.xls_beside_arrays.specs.Opened.{LaysHeld, RefusesBook};

use crate::damage::{Damaged, lay_damage};
use crate::ending::end;
use crate::items::{BookItem, Counts, DamageItem};
use crate::opening::open;
use crate::rooms::{NOTHING, Rooms, lay_item, lay_string, lay_text};
use std::alloc::{AllocError, Global};
use xls_arrays::{Fault, Options, Refusal, Span};
use xls_other_books::types::{EXTERN_NAME, SUP_BOOK};
use xls_other_books::{Book, Damage, DamagedRecord, Linked, OtherBooks};
use xls_stream::types::EXTERN_SHEET;

/// The kind of a sheet of a workbook.
const SHEET: u32 = 2;

/// The kind of a workbook or a program, as a number; none for what is neither.
fn linked_number(linked: Linked) -> Option<u32>
    ensures { result ≡ specs.linked_number linked }
{
    match linked {
        Linked::Nothing | Linked::Functions => None,
        Linked::Book => Some(0),
        Linked::Program => Some(1),
    }
}

/// The kind of a name of what is linked.
fn name_number(linked: Linked) -> u32
    ensures { result ≡ specs.name_number linked }
{
    match linked {
        Linked::Functions => 4,
        Linked::Nothing | Linked::Book | Linked::Program => 3,
    }
}

/// The item of a kind whose texts were laid there.
fn book_item(kind: u32, path: Span, topic: Span) -> BookItem
    ensures { result ≡ specs.book_item kind path topic }
{
    BookItem {
        path,
        topic,
        kind,
        reserved: 0,
    }
}

/// Lays a path or a name, and a topic.
fn lay_topic(
    rooms: &mut Rooms<'_, BookItem>,
    kind: u32,
    path: &String,
    topic: &String,
) -> Result<(), AllocError>
    ensures same { KeepsRooms rooms.old rooms.new }
    ensures ok { OnOk result (Lays rooms.old rooms.new
        (with_two (specs.book_item kind) (encode_utf8_all (text_of path.now)) (encode_utf8_all (text_of topic.now)))) }
{
    let path = lay_string(rooms, path)?;
    let topic = lay_string(rooms, topic)?;
    lay_item(rooms, book_item(kind, path, topic))
}

/// Lays a name.
fn lay_named(rooms: &mut Rooms<'_, BookItem>, kind: u32, name: &String) -> Result<(), AllocError>
    ensures same { KeepsRooms rooms.old rooms.new }
    ensures ok { OnOk result (Lays rooms.old rooms.new (with_two (specs.book_item kind) (encode_utf8_all (text_of name.now)) [])) }
{
    let path = lay_string(rooms, name)?;
    let topic = lay_text(rooms, "")?;
    lay_item(rooms, book_item(kind, path, topic))
}

/// Lays a workbook or a program; what is neither has no item.
fn lay_linked(rooms: &mut Rooms<'_, BookItem>, book: &Book) -> Result<(), AllocError>
    ensures same { KeepsRooms rooms.old rooms.new }
    ensures ok { OnOk result (Lays rooms.old rooms.new
        (λ a. with_linked (specs.linked_number (book_view book.now).linked) a (book_view book.now))) }
{
    match linked_number(book.linked) {
        Some(kind) => lay_topic(rooms, kind, &book.path, &book.topic),
        None => Ok(()),
    }
}

/// Lays the sheets of a workbook.
fn lay_sheets(rooms: &mut Rooms<'_, BookItem>, sheets: &[String]) -> Result<(), AllocError>
    ensures same { KeepsRooms rooms.old rooms.new }
    ensures ok { OnOk result (Lays rooms.old rooms.new (λ a. fold with_sheet a (map text_of sheets.now))) }
{
    for name in sheets {
        lay_named(rooms, SHEET, name)?;
    }
    Ok(())
}

/// The type of a damaged record.
fn record_number(record_name: DamagedRecord) -> u16
    ensures { result ≡ specs.record_number record_name }
{
    match record_name {
        DamagedRecord::SupBook => SUP_BOOK,
        DamagedRecord::ExternName => EXTERN_NAME,
        DamagedRecord::ExternSheet => EXTERN_SHEET,
    }
}

/// Which record is damaged; it stands in no cell.
fn damaged_of(damage: &Damage) -> Damaged
    ensures { result ≡ specs.damaged_of damage.now }
{
    Damaged {
        record_type: record_number(damage.record_name),
        offset: damage.offset,
        row: None,
        column: None,
    }
}

/// Lays a damaged record.
fn lay_damaged(
    alloc: Global,
    rooms: &mut Rooms<'_, BookItem>,
    damage: &Damage,
) -> Result<(), AllocError>
    ensures same { KeepsRooms rooms.old rooms.new }
    ensures ok { OnOk result (Lays rooms.old rooms.new (λ a. with_damaged a damage.now)) }
{
    let why = format!(in alloc; "{}", damage.flaw)?;
    lay_damage(rooms, damaged_of(damage), why.as_str())
}

/// Lays a name, or a damaged ExternName.
fn lay_name(
    alloc: Global,
    rooms: &mut Rooms<'_, BookItem>,
    linked: Linked,
    name: &Result<String, Damage>,
) -> Result<(), AllocError>
    ensures same { KeepsRooms rooms.old rooms.new }
    ensures ok { OnOk result (Lays rooms.old rooms.new (λ a. with_name linked a (name_view name.now))) }
{
    match name {
        Ok(name) => lay_named(rooms, name_number(linked), name),
        Err(damage) => lay_damaged(alloc, rooms, damage),
    }
}

/// Lays the names of what is linked.
fn lay_names(
    alloc: Global,
    rooms: &mut Rooms<'_, BookItem>,
    linked: Linked,
    names: &[Result<String, Damage>],
) -> Result<(), AllocError>
    ensures same { KeepsRooms rooms.old rooms.new }
    ensures ok { OnOk result (Lays rooms.old rooms.new (λ a. fold (with_name linked) a (map name_view names.now))) }
{
    for name in names {
        lay_name(alloc, rooms, linked, name)?;
    }
    Ok(())
}

/// Lays what is wrong with the record of what is linked, if anything is.
fn lay_damage_if(
    alloc: Global,
    rooms: &mut Rooms<'_, BookItem>,
    damage: Option<Damage>,
) -> Result<(), AllocError>
    ensures same { KeepsRooms rooms.old rooms.new }
    ensures ok { OnOk result (Lays rooms.old rooms.new (λ a. with_damage_if damage a)) }
{
    match damage {
        Some(damage) => lay_damaged(alloc, rooms, &damage),
        None => Ok(()),
    }
}

/// Lays what is linked, its sheets, its names, and what is wrong with its record.
fn lay_book(alloc: Global, rooms: &mut Rooms<'_, BookItem>, book: &Book) -> Result<(), AllocError>
    ensures same { KeepsRooms rooms.old rooms.new }
    ensures ok { OnOk result (Lays rooms.old rooms.new (λ a. with_book a (book_view book.now))) }
{
    lay_linked(rooms, book)?;
    lay_sheets(rooms, &book.sheets)?;
    lay_names(alloc, rooms, book.linked, &book.names)?;
    lay_damage_if(alloc, rooms, book.damage)
}

/// Lays all that is linked, in order.
fn lay_items(
    alloc: Global,
    rooms: &mut Rooms<'_, BookItem>,
    books: &[Book],
) -> Result<(), AllocError>
    ensures same { KeepsRooms rooms.old rooms.new }
    ensures ok { OnOk result (Lays rooms.old rooms.new (λ a. fold with_book a (books_view books.now))) }
{
    for book in books {
        lay_book(alloc, rooms, book)?;
    }
    Ok(())
}

/// Lays all that the globals of a stream link.
fn lay_books(
    alloc: Global,
    rooms: &mut Rooms<'_, BookItem>,
    stream: &[u8],
    options: &Options,
) -> Result<(), Refusal>
    ensures same { KeepsRooms rooms.old rooms.new }
    ensures ok { OnOk result (LaysHeld (AreBooks options.now stream.now) rooms.old rooms.new) }
    ensures err { IfErr result (RefusesBook options.now stream.now) }
{
    let globals = open(alloc, stream, options)?;
    let other = OtherBooks::read(alloc, stream, globals.version, &globals.page)?;
    lay_items(alloc, rooms, other.books())?;
    Ok(())
}

/// Fills arrays with the other workbooks and the programs that a workbook refers to, in the order of the stream, behind each
/// its sheets and then its names, and with added functions; and with the damaged records that would say so, that of a
/// SupBook behind those of its names. `counts` and the answer are as of `read_hidden_runs`; no sheet is asked for.
pub fn read_books(
    alloc: Global,
    stream: &[u8],
    options: &Options,
    books: &mut [BookItem],
    damages: &mut [DamageItem],
    texts: &mut [u8],
    counts: &mut Counts,
    fault: &mut Fault,
) -> u32
    ensures { FillsBooks options.now stream.now
        (record { items = books.new; damages = damages.new; texts = texts.new }) counts.new fault.new result }
{
    let mut rooms = Rooms {
        items: books,
        damages,
        texts,
        laid: NOTHING,
    };
    let done = lay_books(alloc, &mut rooms, stream, options);
    end(done, &rooms, counts, fault)
}
