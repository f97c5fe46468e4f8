//! The CSV of a sheet's cells, field by field.

ghost use Rattle.std.specs.Prelude.{map};
ghost use Rattle.xls_biff.specs.Cells.{CellEntry};
ghost use Rattle.xls_range.specs.Positions.{IsAscending};
ghost use Rattle.xls_data.specs.Content.{nothing};
ghost use Rattle.xls_output.specs.Gathering.{Delivers};
ghost use Rattle.xls_csv.specs.Dense.{sheet_csv};
ghost use Rattle.xls_csv.specs.Text.{rows_csv};
ghost use Rattle.xls_csv.specs.Walk.{walk_rows};

use crate::ahead::Ahead;
use crate::boxes::put_box;
use crate::extent::extent_of;
use crate::gathered::Gathered;
use std::alloc::Global;
use xls_output::{Sink, Stop, Writer};
use xls_view::SheetCells;

/// Writes the rows of these cells.
fn write_walk<K: Sink>(alloc: Global, sink: &mut K, cells: &SheetCells<'_>) -> Result<(), Stop>
    ensures { Delivers (K.state sink.old) (K.state sink.new) (rows_csv (walk_rows nothing cells.now)) result }
{
    let mut gathered = Gathered::new(alloc);
    let mut out = Writer::new(&mut gathered, sink);
    let sheet = cells.formatted();
    let extent = extent_of(sheet);
    put_box(&mut out, Ahead::new(sheet.iter()), extent, (), None)?;
    out.finish()?;
    Ok(())
}

/// Writes the dense box of a sheet's cells as CSV: a row for each row of the smallest box that holds them
/// all, a field for each column, empty where no cell stands. The header row of the options plays no part. At
/// most 64 KiB and one field are gathered; neither the box nor a row is ever made. Only a write that fails,
/// or running out of memory, stops it.
pub fn write_rows<K: Sink>(alloc: Global, sink: &mut K, cells: &SheetCells<'_>) -> Result<(), Stop>
    ensures walk_rows { Delivers (K.state sink.old) (K.state sink.new) (rows_csv (walk_rows nothing cells.now)) result }
    ensures dense { IsAscending (map (λ (c : CellEntry). c.0) cells.now)
        → Delivers (K.state sink.old) (K.state sink.new) (sheet_csv cells.now) result }
{
    write_walk(alloc, sink, cells)
}
