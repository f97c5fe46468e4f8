//! The formulas of the sheets.

ghost use Rattle.std.specs.Prelude.{◌≡◌, ◌∷◌, [], map, slice_get};
ghost use Rattle.std.specs.Str.{chars};
ghost use Rattle.xls_meaning.specs.SheetTable.{nonempty_formulas};
ghost use Rattle.xls_view.specs.Formulas.{text_entry};
ghost use Rattle.xls_view.specs.Displayed.{sheet_view_of};
ghost use Rattle.xls_view.specs.Walking.{formula_seen};
ghost use Rattle.xls_listing.specs.Listing.{PutsLines, each_sheet, formula_line, formula_lines, lines_of_formulas, displayed_at};
ghost use Rattle.xls_output.specs.Each.{DeliversEach};

use crate::lines::{BookLine, LineForm};
use crate::sheets::put_sheet;
use std::alloc::Global;
use xls_output::{Sink, Stop, Writer};
use xls_view::{FormulaBuffer, FormulaCell, SheetFormulas, View, ViewSheet};

/// Puts the line of a formula.
fn put_formula<K: Sink, F: LineForm>(
    form: &F,
    out: &mut Writer<'_, K, F::Buffer>,
    row: u32,
    column: u32,
    text: &str,
) -> Result<(), Stop>
    ensures { PutsLines K.state F.Buffer.kept (F.is_text form.now) (formula_line ((row, column), chars text.now) ∷ [])
        out.old out.new result }
{
    form.put_line(out, BookLine::Formula { row, column, text })
}

/// Puts the line of a formula, unless its text is empty.
fn put_displayed_formula<K: Sink, F: LineForm>(
    form: &F,
    out: &mut Writer<'_, K, F::Buffer>,
    row: u32,
    column: u32,
    text: &str,
) -> Result<(), Stop>
    ensures { PutsLines K.state F.Buffer.kept (F.is_text form.now)
        (map formula_line (nonempty_formulas (((row, column), chars text.now) ∷ [])))
        out.old out.new result }
{
    if text.is_empty() {
        return Ok(());
    }
    put_formula(form, out, row, column, text)
}

/// Puts the line of a formula of a sheet, unless its text is empty.
fn put_formula_of<K: Sink, F: LineForm>(
    form: &F,
    out: &mut Writer<'_, K, F::Buffer>,
    texts: &mut FormulaBuffer,
    formulas: &SheetFormulas<'_>,
    formula: FormulaCell<'_>,
) -> Result<(), Stop>
    ensures { PutsLines K.state F.Buffer.kept (F.is_text form.now)
        (map formula_line (nonempty_formulas (text_entry formulas.now.context (formula_seen formula.entry) ∷ [])))
        out.old out.new result }
{
    let text = formulas.text_in(texts, formula)?;
    put_displayed_formula(form, out, formula.row, formula.column, text)
}

/// Puts the lines of a sheet's formulas.
fn put_formulas<K: Sink, F: LineForm>(
    form: &F,
    out: &mut Writer<'_, K, F::Buffer>,
    texts: &mut FormulaBuffer,
    formulas: &SheetFormulas<'_>,
) -> Result<(), Stop>
    ensures { PutsLines K.state F.Buffer.kept (F.is_text form.now)
        (map formula_line (nonempty_formulas (map (text_entry formulas.now.context) formulas.now.left)))
        out.old out.new result }
{
    for formula in formulas.iter() {
        put_formula_of(form, out, texts, formulas, formula)?;
    }
    Ok(())
}

/// Puts the lines of the formulas that a sheet shows.
pub(crate) fn put_displayed_formulas<K: Sink, F: LineForm>(
    form: &F,
    out: &mut Writer<'_, K, F::Buffer>,
    texts: &mut FormulaBuffer,
    sheet: &ViewSheet<'_>,
) -> Result<(), Stop>
    ensures { PutsLines K.state F.Buffer.kept (F.is_text form.now) (lines_of_formulas (sheet_view_of sheet.now))
        out.old out.new result }
{
    let formulas = sheet.formulas()?;
    put_formulas(form, out, texts, &formulas)
}

/// Puts the lines of the formulas of the sheet at an index.
fn put_formulas_at<K: Sink, F: LineForm>(
    form: &F,
    out: &mut Writer<'_, K, F::Buffer>,
    texts: &mut FormulaBuffer,
    view: &View<'_>,
    n: usize,
) -> Result<(), Stop>
    ensures { PutsLines K.state F.Buffer.kept (F.is_text form.now) (displayed_at lines_of_formulas (slice_get view.now.book.contents n))
        out.old out.new result }
{
    match view.sheet_at(n) {
        Some(sheet) => put_displayed_formulas(form, out, texts, &sheet),
        None => Ok(()),
    }
}

/// Puts the sheets in workbook order, each with its formulas.
fn put_all_formulas<K: Sink, F: LineForm>(
    form: &F,
    out: &mut Writer<'_, K, F::Buffer>,
    texts: &mut FormulaBuffer,
    view: &View<'_>,
) -> Result<(), Stop>
    ensures { PutsLines K.state F.Buffer.kept (F.is_text form.now)
        (each_sheet lines_of_formulas view.now.book.sheets view.now.book.contents)
        out.old out.new result }
{
    let sheets = view.sheets();
    for i in 0..sheets.len() {
        put_sheet(form, out, &sheets[i])?;
        put_formulas_at(form, out, texts, view, i)?;
    }
    Ok(())
}

/// Writes the line of each sheet in workbook order, and after it those of its formulas whose text isn't
/// empty. Beside what the view takes for a sheet, one piece of text is held, and the text of one formula.
pub fn write_formula_list<K: Sink, F: LineForm>(
    alloc: Global,
    sink: &mut K,
    form: &F,
    view: &View<'_>,
) -> Result<(), Stop>
    ensures { DeliversEach (F.is_text form.now) (formula_lines view.now.book)
        (K.state sink.old) (K.state sink.new) result }
{
    let mut buffer = F::buffer(alloc);
    let mut out = Writer::new(&mut buffer, sink);
    let mut texts = FormulaBuffer::new(alloc);
    put_all_formulas(form, &mut out, &mut texts, view)?;
    out.finish()
}
