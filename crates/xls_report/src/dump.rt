//! The dump of a workbook, and its sheets alone.

ghost use Rattle.xls_output.specs.Gathering.{Delivers};
ghost use Rattle.xls_listing.specs.Listing.{dump_lines, exact_lines, sheet_lines};

use crate::exact::ExactLines;
use std::alloc::Global;
use xls_listing::{CellReading, write_listing, write_sheet_list};
use xls_output::{Sink, Stop};
use xls_view::View;

/// Writes the dump: the date system, the defined names, and for each sheet in workbook order its line
/// and those of its cells, of its formulas and of its merged regions. Beside what the view takes for a
/// sheet, one piece of text is held, and the text of one cell or formula.
pub fn write_report<K: Sink>(alloc: Global, sink: &mut K, view: &View<'_>) -> Result<(), Stop>
    ensures { Delivers (K.state sink.old) (K.state sink.new) (exact_lines (dump_lines view.now.book)) result }
{
    write_listing(alloc, sink, &ExactLines, CellReading::Recorded, view)
}

/// Writes the lines of the sheets alone, in workbook order.
pub fn write_sheets<K: Sink>(alloc: Global, sink: &mut K, view: &View<'_>) -> Result<(), Stop>
    ensures { Delivers (K.state sink.old) (K.state sink.new) (exact_lines (sheet_lines view.now.book)) result }
{
    write_sheet_list(alloc, sink, &ExactLines, view)
}
