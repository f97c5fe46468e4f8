//! The dense box of a sheet's cells as CSV.

ghost use Rattle.std.specs.Prelude.{◌≡◌, ◌+◌, ◌≤◌, ◌^◌, Bool, Some, map};
ghost use Rattle.xls_range.specs.Positions.{IsAscending};
ghost use Rattle.xls_view.specs.Formats.{FormattedCell};
ghost use Rattle.xls_csv.specs.Dense.{box_of};
ghost use Rattle.std.specs.Option.{option_copied};
ghost use Rattle.xls_tables.specs.Rows.{form_fields};
ghost use Rattle.xls_tables.specs.Tables.{DeliversTable, byte_order_mark, seen_table, table_box, table_walk};

use crate::gathered::{Gathered, TableForm};
use std::alloc::Global;
use xls_cell_formats::CellFormats;
use xls_csv::{Ahead, BoxBuffer, Extent, extent_of, put_seen_box};
use xls_hidden::HiddenSheet;
use xls_output::{Sink, Stop, Writer};
use xls_readable::{Origin, Table};
use xls_view::FormattedSheet;

/// The box of a table of cells.
fn box_from(origin: Origin, cells: &FormattedSheet<'_>) -> Extent
    ensures exact { result ≡ table_box origin (box_of cells.now) }
    ensures rows { result.top + result.height ≤ 2 ^ 32 }
    ensures columns { result.left + result.width ≤ 2 ^ 32 }
{
    let extent = extent_of(cells);
    match origin {
        Origin::Box => extent,
        Origin::A1 => extent.from_a1(),
    }
}

/// Writes what is gathered, the byte order mark if there is one, and the rows of these cells.
fn write_box<K: Sink, B: BoxBuffer>(
    buffer: &mut B,
    sink: &mut K,
    form: B::Form,
    origin: Origin,
    formats: &CellFormats<'_>,
    hidden: Option<&HiddenSheet<'_>>,
    cells: &FormattedSheet<'_>,
) -> Result<(), Stop>
    ensures { (is_marked : Bool) → B.kept buffer.old ≡ byte_order_mark is_marked
        → DeliversTable (B.fields form (Some formats.now)) is_marked (table_walk (option_copied hidden.entry) origin cells.now)
        (K.state sink.old) (K.state sink.new) result }
{
    let mut out = Writer::new(buffer, sink);
    let extent = box_from(origin, cells);
    put_seen_box(
        &mut out,
        Ahead::new(cells.iter()),
        extent,
        form,
        Some(formats),
        hidden,
    )?;
    out.finish()?;
    Ok(())
}

/// Writes the rows of these cells.
fn write_rows<K: Sink>(
    alloc: Global,
    sink: &mut K,
    table: &Table,
    formats: &CellFormats<'_>,
    hidden: Option<&HiddenSheet<'_>>,
    cells: &FormattedSheet<'_>,
) -> Result<(), Stop>
    ensures { DeliversTable (form_fields table.now.style table.now.delimiter formats.now) table.now.begins_with_mark
        (table_walk (option_copied hidden.entry) table.now.origin cells.now) (K.state sink.old) (K.state sink.new) result }
{
    let mut gathered = Gathered::new(alloc);
    gathered.push_mark(table.begins_with_mark)?;
    let form = TableForm {
        style: table.style,
        delimiter: table.delimiter,
    };
    write_box(
        &mut gathered,
        sink,
        form,
        table.origin,
        formats,
        hidden,
        cells,
    )
}

/// Writes the dense box of a sheet's cells as CSV: a row for each row of the smallest box that holds them all, or of
/// that from A1 on, a field for each column, empty where no cell stands. The field of a cell is its value, whose number
/// is a date, a duration or a number as the cell's number format says, or what Excel shows of it. With a mark, the bytes
/// EF BB BF stand first, by which spreadsheets take the text for UTF-8. Where what is hidden in the sheet is given, rows
/// that can't be seen are left out, and of each row the fields of such columns. Whether the table is exact plays no part.
/// At most 64 KiB and one field are gathered; the box is never made. Only a write that fails, or running out of memory,
/// stops it.
pub fn write_table<K: Sink>(
    alloc: Global,
    sink: &mut K,
    table: &Table,
    formats: &CellFormats<'_>,
    hidden: Option<&HiddenSheet<'_>>,
    cells: &FormattedSheet<'_>,
) -> Result<(), Stop>
    ensures walk { DeliversTable (form_fields table.now.style table.now.delimiter formats.now) table.now.begins_with_mark
        (table_walk (option_copied hidden.entry) table.now.origin cells.now) (K.state sink.old) (K.state sink.new) result }
    ensures dense { IsAscending (map (λ (c : FormattedCell). c.0) cells.now)
        → DeliversTable (form_fields table.now.style table.now.delimiter formats.now) table.now.begins_with_mark
        (seen_table (option_copied hidden.entry) table.now.origin cells.now) (K.state sink.old) (K.state sink.new) result }
{
    write_rows(alloc, sink, table, formats, hidden, cells)
}
