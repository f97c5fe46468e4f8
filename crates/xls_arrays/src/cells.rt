//! The cells of a sheet.

ghost use Rattle.std.specs.Prelude.{OnOk, map};
ghost use Rattle.xls_view.specs.Values.{cell_entry};
ghost use Rattle.xls_arrays.specs.Arrays.{laid, with_cell_laid};
ghost use Rattle.xls_arrays.specs.Classed.{classed_entry};
ghost use Rattle.xls_arrays.specs.Filled.{KeepsRooms, Lays};

use crate::rooms::{Rooms, lay_cell_item, lay_text};
use crate::values::cell_item;
use std::alloc::{AllocError, Global};
use xls_cell_formats::CellFormats;
use xls_view::{FormattedCells, SheetCell, TextBuffer};

/// Lays a cell, whose text is decoded in `buffer`.
fn lay_cell(
    rooms: &mut Rooms<'_>,
    buffer: &mut TextBuffer,
    cell: SheetCell<'_>,
) -> Result<(), AllocError>
    ensures same { KeepsRooms rooms.old rooms.new }
    ensures ok { OnOk result (Lays rooms.old rooms.new (λ a. with_cell_laid a (cell_entry cell.entry))) }
{
    let text = lay_text(rooms, buffer.text_of(&cell.value)?)?;
    lay_cell_item(rooms, cell_item(cell.row, cell.column, &cell.value, text))
}

/// Lays cells, whose numbers are what the codes of the cells say.
pub(crate) fn lay_cells(
    alloc: Global,
    rooms: &mut Rooms<'_>,
    formats: &CellFormats<'_>,
    cells: FormattedCells<'_>,
) -> Result<(), AllocError>
    ensures same { KeepsRooms rooms.old rooms.new }
    ensures ok { OnOk result (Lays rooms.old rooms.new
        (λ a. laid with_cell_laid a (map (classed_entry formats.now) cells.entry))) }
{
    let mut buffer = TextBuffer::new(alloc);
    for cell in cells {
        lay_cell(rooms, &mut buffer, formats.classed(cell))?;
    }
    Ok(())
}
