//! All that a workbook holds.

ghost use Rattle.std.specs.Prelude.{◌≡◌, ◌∷◌, [], map, slice_get};
ghost use Rattle.xls_open.specs.Workbook.{name_texts};
ghost use Rattle.xls_view.specs.Displayed.{sheet_view_of};
ghost use Rattle.xls_listing.specs.Listing.{PutsLines, each_sheet, lines_by, lines_of_sheet, listed_lines, listed_sheet, listed_sheets, name_line, displayed_at};
ghost use Rattle.xls_output.specs.Each.{DeliversEach};

use crate::cells::put_displayed_cells;
use crate::formulas::put_displayed_formulas;
use crate::lines::{BookLine, LineForm};
use crate::merges::put_merges;
use crate::readings::{CellReader, CellReading};
use crate::sheets::put_sheet;
use std::alloc::Global;
use xls_output::{Sink, Stop, Writer};
use xls_view::{FormulaBuffer, View, ViewSheet};

/// Puts the line of a defined name.
fn put_name<K: Sink, F: LineForm>(
    form: &F,
    out: &mut Writer<'_, K, F::Buffer>,
    name: &(String, String),
) -> Result<(), Stop>
    ensures { PutsLines K.state F.Buffer.kept (F.is_text form.now) (name_line (name_texts name.now) ∷ [])
        out.old out.new result }
{
    let (name, text) = name;
    let line = BookLine::Name {
        name: name.as_str(),
        text: text.as_str(),
    };
    form.put_line(out, line)
}

/// Puts the lines of defined names.
fn put_names<K: Sink, F: LineForm>(
    form: &F,
    out: &mut Writer<'_, K, F::Buffer>,
    names: &[(String, String)],
) -> Result<(), Stop>
    ensures { PutsLines K.state F.Buffer.kept (F.is_text form.now) (map (λ n. name_line (name_texts n)) names.now)
        out.old out.new result }
{
    for name in names {
        put_name(form, out, name)?;
    }
    Ok(())
}

/// Puts the lines of what a sheet shows.
fn put_displayed<K: Sink, F: LineForm>(
    alloc: Global,
    form: &F,
    out: &mut Writer<'_, K, F::Buffer>,
    reader: &CellReader<'_>,
    sheet: &ViewSheet<'_>,
) -> Result<(), Stop>
    ensures { PutsLines K.state F.Buffer.kept (F.is_text form.now)
        (lines_of_sheet (listed_sheet reader.now (sheet_view_of sheet.now) sheet.now.formatted))
        out.old out.new result }
{
    put_displayed_cells(alloc, form, out, reader, sheet)?;
    let mut texts = FormulaBuffer::new(alloc);
    put_displayed_formulas(form, out, &mut texts, sheet)?;
    put_merges(form, out, sheet.merges())
}

/// Puts the lines of what the sheet at an index shows.
fn put_displayed_at<K: Sink, F: LineForm>(
    alloc: Global,
    form: &F,
    out: &mut Writer<'_, K, F::Buffer>,
    reader: &CellReader<'_>,
    view: &View<'_>,
    n: usize,
) -> Result<(), Stop>
    ensures { PutsLines K.state F.Buffer.kept (F.is_text form.now)
        (displayed_at lines_of_sheet (slice_get (listed_sheets reader.now view.now.book.contents view.now.formatted) n))
        out.old out.new result }
{
    match view.sheet_at(n) {
        Some(sheet) => put_displayed(alloc, form, out, reader, &sheet),
        None => Ok(()),
    }
}

/// Puts the sheets in workbook order, each with what it shows.
fn put_all_sheets<K: Sink, F: LineForm>(
    alloc: Global,
    form: &F,
    out: &mut Writer<'_, K, F::Buffer>,
    reader: &CellReader<'_>,
    view: &View<'_>,
) -> Result<(), Stop>
    ensures { PutsLines K.state F.Buffer.kept (F.is_text form.now)
        (each_sheet lines_of_sheet view.now.book.sheets (listed_sheets reader.now view.now.book.contents view.now.formatted))
        out.old out.new result }
{
    let sheets = view.sheets();
    for i in 0..sheets.len() {
        put_sheet(form, out, &sheets[i])?;
        put_displayed_at(alloc, form, out, reader, view, i)?;
    }
    Ok(())
}

/// Puts the date system, the defined names, and the sheets with what they show.
fn put_book_by<K: Sink, F: LineForm>(
    alloc: Global,
    form: &F,
    out: &mut Writer<'_, K, F::Buffer>,
    reader: &CellReader<'_>,
    view: &View<'_>,
) -> Result<(), Stop>
    ensures { PutsLines K.state F.Buffer.kept (F.is_text form.now) (lines_by reader.now view.now)
        out.old out.new result }
{
    let is_1904 = view.has_1904_epoch();
    form.put_line(out, BookLine::Dates { is_1904 })?;
    put_names(form, out, view.defined_names())?;
    put_all_sheets(alloc, form, out, reader, view)
}

/// Likewise, the cells read so.
fn put_book<K: Sink, F: LineForm>(
    alloc: Global,
    form: &F,
    out: &mut Writer<'_, K, F::Buffer>,
    reading: CellReading,
    view: &View<'_>,
) -> Result<(), Stop>
    ensures { PutsLines K.state F.Buffer.kept (F.is_text form.now) (listed_lines reading view.now)
        out.old out.new result }
{
    let reader = CellReader::new(alloc, reading, view)?;
    put_book_by(alloc, form, out, &reader, view)
}

/// Writes all that a workbook holds: the line of the date system, those of the defined names, and for each
/// sheet in workbook order its line and those of its cells, read so, of its formulas whose text isn't empty and of
/// its merged regions. A blank has no line. Beside what the view takes for a sheet, one piece of text is
/// held, and the texts of one cell or formula.
pub fn write_listing<K: Sink, F: LineForm>(
    alloc: Global,
    sink: &mut K,
    form: &F,
    reading: CellReading,
    view: &View<'_>,
) -> Result<(), Stop>
    ensures { DeliversEach (F.is_text form.now) (listed_lines reading view.now)
        (K.state sink.old) (K.state sink.new) result }
{
    let mut buffer = F::buffer(alloc);
    let mut out = Writer::new(&mut buffer, sink);
    put_book(alloc, form, &mut out, reading, view)?;
    out.finish()
}
