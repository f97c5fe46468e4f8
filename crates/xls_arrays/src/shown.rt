//! What Excel shows of the cells of a sheet.

ghost use Rattle.std.specs.Prelude.{◌≡◌, ◌<◌, [], IfErr, IfOk, OnOk, length, slice_get};
ghost use Rattle.std.specs.Str.{chars};
ghost use Rattle.std.specs.String.{string_bytes};
ghost use Rattle.xls_shown.specs.Shown.{Gains};
ghost use Rattle.xls_view.specs.Values.{formatted_entry};
ghost use Rattle.xls_arrays.specs.Arrays.{Arrays, empty};
ghost use Rattle.xls_arrays.specs.Filled.{KeepsRooms, RoomsHold};
ghost use Rattle.xls_arrays.specs.Held.{RefusesStream};
ghost use Rattle.xls_arrays.specs.Laying.{MissesIndex};
ghost use Rattle.xls_arrays.specs.Shown.{IsCellShown, IsShownHeld, LaysShown, LaysShownCell, cells_in};

use crate::Refusal;
use crate::items::{CellItem, Span};
use crate::laying::refuse_bytes;
use crate::options::{Options, options_of};
use crate::rooms::{Rooms, lay_cell_item, lay_text};
use std::alloc::{AllocError, Global};
use xls_cell_formats::CellFormats;
use xls_formula::NumberStyle;
use xls_view::{FormattedCells, SheetCell, TextBuffer, View};

/// Puts what Excel shows of a cell into a text that is used again.
fn put_shown(
    room: &mut String,
    decoded: &mut TextBuffer,
    formats: &CellFormats<'_>,
    cell: SheetCell<'_>,
) -> Result<(), AllocError>
    ensures { OnOk result (Gains (IsCellShown formats.now (formatted_entry cell.entry).1) [] (chars (string_bytes room.new))) }
{
    room.clear();
    let value = decoded.value_of(cell.value)?;
    formats.push_shown(cell.xf, &value, room)
}

/// The item of a cell that holds the text there.
fn text_item(row: u32, column: u32, text: Span) -> CellItem
    ensures { result ≡ record { row = row; column = column; kind = 6; form = 0; value = text.offset; length = text.length } }
{
    CellItem {
        row,
        column,
        kind: 6,
        form: 0,
        value: text.offset,
        length: text.length,
    }
}

/// Lays what is shown of a cell.
fn lay_shown_cell(
    rooms: &mut Rooms<'_>,
    room: &mut String,
    decoded: &mut TextBuffer,
    formats: &CellFormats<'_>,
    cell: SheetCell<'_>,
) -> Result<(), AllocError>
    ensures same { KeepsRooms rooms.old rooms.new }
    ensures ok { OnOk result (LaysShownCell formats.now (formatted_entry cell.entry) rooms.old rooms.new) }
{
    put_shown(room, decoded, formats, cell)?;
    let text = lay_text(rooms, room.as_str())?;
    lay_cell_item(rooms, text_item(cell.row, cell.column, text))
}

/// Lays what is shown of each of these cells.
fn lay_shown_cells(
    alloc: Global,
    rooms: &mut Rooms<'_>,
    formats: &CellFormats<'_>,
    cells: FormattedCells<'_>,
) -> Result<(), AllocError>
    ensures same { KeepsRooms rooms.old rooms.new }
    ensures ok { OnOk result (LaysShown formats.now cells.entry rooms.old rooms.new) }
{
    let mut room = String::new(alloc);
    let mut decoded = TextBuffer::new(alloc);
    for cell in cells {
        lay_shown_cell(rooms, &mut room, &mut decoded, formats, cell)?;
    }
    Ok(())
}

/// Likewise of the cells of the sheet at an index.
fn lay_shown_content(
    alloc: Global,
    rooms: &mut Rooms<'_>,
    view: &View<'_>,
    n: usize,
) -> Result<(), AllocError>
    ensures same { KeepsRooms rooms.old rooms.new }
    ensures ok { OnOk result (LaysShown view.now (cells_in (slice_get view.now.formatted n)) rooms.old rooms.new) }
{
    match view.sheet_at(n) {
        Some(sheet) => {
            let formats = CellFormats::new(alloc, view)?;
            let cells = sheet.formatted()?;
            lay_shown_cells(alloc, rooms, &formats, cells.iter())
        }
        None => Ok(()),
    }
}

/// Likewise of the sheet of an index, if the workbook has it.
fn lay_shown_sheet(
    alloc: Global,
    rooms: &mut Rooms<'_>,
    view: &View<'_>,
    index: u64,
) -> Result<(), Refusal>
    ensures same { KeepsRooms rooms.old rooms.new }
    ensures there { OnOk result (index < length view.now.book.sheets) }
    ensures ok { OnOk result (LaysShown view.now (cells_in (slice_get view.now.formatted index)) rooms.old rooms.new) }
    ensures err { IfErr result (MissesIndex view.now.book index) }
{
    if index >= view.sheets().len() as u64 {
        return Err(Refusal::NoSheet(index));
    }
    lay_shown_content(alloc, rooms, view, index as usize)?;
    Ok(())
}

/// Lays what is shown of the cells of the sheet that is asked for, and says whether days count from 1904.
pub(crate) fn lay_shown(
    alloc: Global,
    rooms: &mut Rooms<'_>,
    stream: &[u8],
    options: &Options,
) -> Result<bool, Refusal>
    requires { options.now.which ≡ 1 }
    ensures same { KeepsRooms rooms.old rooms.new }
    ensures ok { IfOk result (λ is_1904. RoomsHold rooms.old empty
        → (a : Arrays) × IsShownHeld options.now stream.now is_1904 a × RoomsHold rooms.new a) }
    ensures err { IfErr result (RefusesStream options.now stream.now) }
{
    refuse_bytes(stream, options)?;
    let reader = options_of(alloc, options)?;
    let view = View::new(alloc, stream, &reader, NumberStyle::Bits)?;
    lay_shown_sheet(alloc, rooms, &view, options.sheet)?;
    Ok(view.has_1904_epoch())
}
