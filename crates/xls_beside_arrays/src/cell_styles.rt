//! Which style each cell of a sheet has.

ghost use Rattle.std.specs.Prelude.{◌≡◌, IfErr, OnOk};
ghost use Rattle.std.specs.List.{fold};
ghost use Rattle.xls_style_cells.specs.Places.{cell_given};
ghost use Rattle.xls_beside_arrays.specs.CellStyles as specs;
ghost use Rattle.xls_beside_arrays.specs.CellStyles.{AreCellStyles, FillsCellStyles, cells_in, with_cell_style};
ghost use Rattle.xls_beside_arrays.specs.Filled.{KeepsRooms, Lays};
ghost use Rattle.xls_beside_arrays.specs.Opened.{LaysHeld, RefusesSheet, things_if};

use crate::ending::end;
use crate::items::{CellStyleItem, Counts};
use crate::opening::{OpenedSheet, open_sheet};
use crate::rooms::{NOTHING, Rooms, lay_item};
use std::alloc::{AllocError, Global};
use xls_arrays::{Fault, Options, Refusal};
use xls_beside::part_at;
use xls_style_cells::{SheetStyles, StyleCell, StyleCells};

/// The item of a cell.
fn cell_style_item(cell: &StyleCell<'_>) -> CellStyleItem
    ensures { result ≡ specs.cell_style_item (cell_given cell.now) }
{
    CellStyleItem {
        row: cell.row,
        column: cell.column,
        style: cell.xf,
        reserved: 0,
    }
}

/// Lays a cell.
fn lay_cell(rooms: &mut Rooms<'_, CellStyleItem>, cell: &StyleCell<'_>) -> Result<(), AllocError>
    ensures same { KeepsRooms rooms.old rooms.new }
    ensures ok { OnOk result (Lays rooms.old rooms.new (λ a. with_cell_style a (cell_given cell.now))) }
{
    lay_item(rooms, cell_style_item(cell))
}

/// Lays all cells, in order.
fn lay_items(
    rooms: &mut Rooms<'_, CellStyleItem>,
    cells: StyleCells<'_, '_>,
) -> Result<(), AllocError>
    ensures same { KeepsRooms rooms.old rooms.new }
    ensures ok { OnOk result (Lays rooms.old rooms.new (λ a. fold with_cell_style a cells.entry)) }
{
    for cell in cells {
        lay_cell(rooms, &cell)?;
    }
    Ok(())
}

/// Lays the cells in the part of a sheet, if it has one.
fn lay_part(
    alloc: Global,
    rooms: &mut Rooms<'_, CellStyleItem>,
    stream: &[u8],
    sheet: &OpenedSheet,
) -> Result<(), AllocError>
    ensures same { KeepsRooms rooms.old rooms.new }
    ensures ok { OnOk result (Lays rooms.old rooms.new
        (λ a. fold with_cell_style a (things_if (cells_in sheet.now.globals stream.now) sheet.now.part))) }
{
    let Some(part) = sheet.part else {
        return Ok(());
    };
    let bytes = part_at(stream, part.offset);
    let globals = &sheet.globals;
    let found = SheetStyles::read(alloc, bytes, globals.version)?;
    lay_items(rooms, found.cells())
}

/// Lays the cells of the sheet that is asked for.
fn lay_sheet(
    alloc: Global,
    rooms: &mut Rooms<'_, CellStyleItem>,
    stream: &[u8],
    options: &Options,
) -> Result<(), Refusal>
    ensures same { KeepsRooms rooms.old rooms.new }
    ensures ok { OnOk result (LaysHeld (AreCellStyles options.now stream.now) rooms.old rooms.new) }
    ensures err { IfErr result (RefusesSheet options.now stream.now) }
{
    let sheet = open_sheet(alloc, stream, options)?;
    lay_part(alloc, rooms, stream, &sheet)?;
    Ok(())
}

/// Fills an array with the style of each cell of one sheet that has a record, blank cells among them, by row and column: the
/// index of its XF, which is that of `read_styles`. The sheet, `counts` and the answer are as of `read_hidden_runs`.
pub fn read_cell_styles(
    alloc: Global,
    stream: &[u8],
    options: &Options,
    cells: &mut [CellStyleItem],
    counts: &mut Counts,
    fault: &mut Fault,
) -> u32
    ensures { FillsCellStyles options.now stream.now cells.new counts.new fault.new result }
{
    let mut rooms = Rooms {
        items: cells,
        damages: &mut [],
        texts: &mut [],
        laid: NOTHING,
    };
    let done = lay_sheet(alloc, &mut rooms, stream, options);
    end(done, &rooms, counts, fault)
}
