//! What the formulas of a sheet cite of other workbooks and programs.

ghost use Rattle.std.specs.Prelude.{◌≡◌, IfErr, OnOk, map};
ghost use Rattle.std.specs.List.{fold};
ghost use Rattle.xls_other_books.specs.Formulas.{outside_of};
ghost use Rattle.xls_other_books.specs.Outside.{cited_view, cited_views};
ghost use Rattle.xls_parts.specs.PartRecords.{placed_of};
ghost use Rattle.xls_beside_arrays.specs.Filled.{KeepsRooms, Lays};
ghost use Rattle.xls_beside_arrays.specs.Opened.{LaysHeld, RefusesSheet, things_if};
ghost use Rattle.xls_beside_arrays.specs.Outside as specs;
ghost use Rattle.xls_beside_arrays.specs.Outside.{AreOutside, FillsOutside, cited_in, outside_in, with_cited, with_outside};

use crate::ending::end;
use crate::items::{Counts, OutsideItem};
use crate::opening::{OpenedSheet, open_sheet};
use crate::rooms::{NOTHING, Rooms, lay_item, lay_lent, lay_string};
use std::alloc::{AllocError, Global};
use xls_arrays::{Fault, Options, Refusal, Span};
use xls_beside::{SheetPart, part_at};
use xls_other_books::{Cited, OtherBooks};
use xls_parts::{PartRecord, PartRecords};

/// The item of what the formula of a cell cites, whose texts were laid there.
fn outside_item(row: u16, column: u16, book: Span, sheet: Span, name: Span) -> OutsideItem
    ensures { result ≡ specs.outside_item row column book sheet name }
{
    OutsideItem {
        row: u32::from(row),
        column: u32::from(column),
        book,
        sheet,
        name,
    }
}

/// Lays something that the formula of a cell cites.
fn lay_cited(
    rooms: &mut Rooms<'_, OutsideItem>,
    row: u16,
    column: u16,
    cited: &Cited<'_>,
) -> Result<(), AllocError>
    ensures same { KeepsRooms rooms.old rooms.new }
    ensures ok { OnOk result (Lays rooms.old rooms.new (λ a. with_cited row column a (cited_view cited.now))) }
{
    let book = lay_lent(rooms, cited.book)?;
    let sheet = lay_string(rooms, &cited.sheet)?;
    let name = lay_lent(rooms, cited.name)?;
    lay_item(rooms, outside_item(row, column, book, sheet, name))
}

/// Lays all that the formula of a cell cites.
fn lay_all_cited(
    rooms: &mut Rooms<'_, OutsideItem>,
    row: u16,
    column: u16,
    cited: &[Cited<'_>],
) -> Result<(), AllocError>
    ensures same { KeepsRooms rooms.old rooms.new }
    ensures ok { OnOk result (Lays rooms.old rooms.new (λ a. fold (with_cited row column) a (cited_views cited.now))) }
{
    for next in cited {
        lay_cited(rooms, row, column, next)?;
    }
    Ok(())
}

/// Lays all that the formula of a record cites, if it has one.
fn lay_outside(
    alloc: Global,
    rooms: &mut Rooms<'_, OutsideItem>,
    other: &OtherBooks,
    r: &PartRecord<'_>,
) -> Result<(), AllocError>
    ensures same { KeepsRooms rooms.old rooms.new }
    ensures ok { OnOk result (Lays rooms.old rooms.new (λ a. with_outside a (outside_of other.now (placed_of r.now)))) }
{
    match other.outside(alloc, r)? {
        Some(outside) => lay_all_cited(rooms, outside.row, outside.column, &outside.cited),
        None => Ok(()),
    }
}

/// Lays all that the formulas of some records cite, in order.
fn lay_records(
    alloc: Global,
    rooms: &mut Rooms<'_, OutsideItem>,
    other: &OtherBooks,
    records: PartRecords<'_>,
) -> Result<(), AllocError>
    ensures same { KeepsRooms rooms.old rooms.new }
    ensures ok { OnOk result (Lays rooms.old rooms.new (λ a. fold with_outside a (map (outside_of other.now) records.entry))) }
{
    for r in records {
        lay_outside(alloc, rooms, other, &r)?;
    }
    Ok(())
}

/// Lays all that the formulas in a part of the stream cite.
fn lay_in_part(
    alloc: Global,
    rooms: &mut Rooms<'_, OutsideItem>,
    other: &OtherBooks,
    stream: &[u8],
    part: SheetPart,
) -> Result<(), AllocError>
    ensures same { KeepsRooms rooms.old rooms.new }
    ensures ok { OnOk result (Lays rooms.old rooms.new (λ a. fold with_outside a (cited_in other.now stream.now part))) }
{
    let bytes = part_at(stream, part.offset);
    let records = PartRecords::new(bytes, part.offset as u64);
    lay_records(alloc, rooms, other, records)
}

/// Likewise in the part of a sheet, if it has one.
fn lay_part(
    alloc: Global,
    rooms: &mut Rooms<'_, OutsideItem>,
    stream: &[u8],
    sheet: &OpenedSheet,
) -> Result<(), AllocError>
    ensures same { KeepsRooms rooms.old rooms.new }
    ensures ok { OnOk result (Lays rooms.old rooms.new
        (λ a. fold with_outside a (things_if (outside_in sheet.now.globals stream.now) sheet.now.part))) }
{
    let Some(part) = sheet.part else {
        return Ok(());
    };
    let globals = &sheet.globals;
    let other = OtherBooks::read(alloc, stream, globals.version, &globals.page)?;
    lay_in_part(alloc, rooms, &other, stream, part)
}

/// Lays all that the formulas of the sheet that is asked for cite.
fn lay_sheet(
    alloc: Global,
    rooms: &mut Rooms<'_, OutsideItem>,
    stream: &[u8],
    options: &Options,
) -> Result<(), Refusal>
    ensures same { KeepsRooms rooms.old rooms.new }
    ensures ok { OnOk result (LaysHeld (AreOutside options.now stream.now) rooms.old rooms.new) }
    ensures err { IfErr result (RefusesSheet options.now stream.now) }
{
    let sheet = open_sheet(alloc, stream, options)?;
    lay_part(alloc, rooms, stream, &sheet)?;
    Ok(())
}

/// Fills arrays with what the formulas of one sheet cite of other workbooks and programs: in the order of the stream, of one
/// formula from left to right and each once. The sheet, `counts` and the answer are as of `read_hidden_runs`.
pub fn read_outside(
    alloc: Global,
    stream: &[u8],
    options: &Options,
    outside: &mut [OutsideItem],
    texts: &mut [u8],
    counts: &mut Counts,
    fault: &mut Fault,
) -> u32
    ensures { FillsOutside options.now stream.now outside.new texts.new counts.new fault.new result }
{
    let mut rooms = Rooms {
        items: outside,
        damages: &mut [],
        texts,
        laid: NOTHING,
    };
    let done = lay_sheet(alloc, &mut rooms, stream, options);
    end(done, &rooms, counts, fault)
}
