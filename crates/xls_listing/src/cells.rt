//! The cells of a sheet.

ghost use Rattle.std.specs.Prelude.{◌≡◌, map};
ghost use Rattle.std.specs.List.{flat_map};
ghost use Rattle.xls_view.specs.Values.{formatted_entry};
ghost use Rattle.xls_view.specs.Displayed.{sheet_view_of};
ghost use Rattle.xls_listing.specs.Listing.{PutsLines, cell_lines, lines_of_cells, listed_cell, listed_sheet};

use crate::lines::LineForm;
use crate::readings::CellReader;
use crate::values::shown;
use std::alloc::Global;
use xls_output::{Sink, Stop, Writer};
use xls_view::{FormattedCells, SheetCell, TextBuffer, ViewSheet};

/// Memory for the texts of one cell: the one that is decoded, and the one that is shown.
#[derive(Drop)]
struct CellTexts {
    decoded: TextBuffer,
    shown: String,
}

/// Puts the line of a cell.
#[inline(always)]
fn put_cell<K: Sink, F: LineForm>(
    form: &F,
    out: &mut Writer<'_, K, F::Buffer>,
    texts: &mut CellTexts,
    reader: &CellReader<'_>,
    cell: SheetCell<'_>,
) -> Result<(), Stop>
    ensures { PutsLines K.state F.Buffer.kept (F.is_text form.now) (cell_lines (listed_cell reader.now (formatted_entry cell.entry)))
        out.old out.new result }
{
    let SheetCell {
        row,
        column,
        xf,
        value,
    } = reader.cell(cell);
    let value = texts.decoded.value_of(value)?;
    match shown(&value) {
        Some((kind, field)) => {
            let text = reader.shown(xf, &value, &mut texts.shown)?;
            form.put_cell(out, (row, column), kind, &field, text)
        }
        None => Ok(()),
    }
}

/// Puts the lines of a sheet's cells.
fn put_cells<K: Sink, F: LineForm>(
    alloc: Global,
    form: &F,
    out: &mut Writer<'_, K, F::Buffer>,
    reader: &CellReader<'_>,
    cells: FormattedCells<'_>,
) -> Result<(), Stop>
    ensures { PutsLines K.state F.Buffer.kept (F.is_text form.now) (lines_of_cells (map (listed_cell reader.now) cells.entry))
        out.old out.new result }
{
    let mut texts = CellTexts {
        decoded: TextBuffer::new(alloc),
        shown: String::new(alloc),
    };
    for cell in cells {
        put_cell(form, out, &mut texts, reader, cell)?;
    }
    Ok(())
}

/// Puts the lines of the cells that a sheet shows.
pub(crate) fn put_displayed_cells<K: Sink, F: LineForm>(
    alloc: Global,
    form: &F,
    out: &mut Writer<'_, K, F::Buffer>,
    reader: &CellReader<'_>,
    sheet: &ViewSheet<'_>,
) -> Result<(), Stop>
    ensures { PutsLines K.state F.Buffer.kept (F.is_text form.now)
        (lines_of_cells (listed_sheet reader.now (sheet_view_of sheet.now) sheet.now.formatted).cells)
        out.old out.new result }
{
    let cells = sheet.formatted()?;
    put_cells(alloc, form, out, reader, cells.iter())
}
