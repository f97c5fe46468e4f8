//! The cells that the formulas of a workbook cite.

ghost use Rattle.std.specs.Prelude.{◌≡◌, ◌∷◌, [], map, slice_get, unwrap_or};
ghost use Rattle.std.specs.List.{flat_map};
ghost use Rattle.std.specs.Str.{chars};
ghost use Rattle.xls_refs.specs.Views.{cited_in, each_cited, lent_citation_of, sheets_cited};
ghost use Rattle.xls_listing.specs.Listing.{PutsLines, ref_line, ref_lines, displayed_at};
ghost use Rattle.xls_output.specs.Each.{DeliversEach};

use crate::lines::{BookLine, LineForm};
use std::alloc::Global;
use xls_biff::Strings;
use xls_data::Dimensions;
use xls_output::{Sink, Stop, Writer};
use xls_refs::{CitedCells, CitedFormula, SheetCites, cites_of_sheet};
use xls_view::View;

/// The name at an index, and the empty text where there is none.
fn name_of(names: &Strings, sheet: usize) -> &str
    ensures { chars result.now ≡ unwrap_or (slice_get names.now sheet) [] }
{
    match names.get(sheet) {
        Some(name) => name,
        None => "",
    }
}

/// The name of the sheet on which cited cells stand.
fn sheet_of(cite: CitedCells<'_>) -> &str
    ensures { result.now ≡ cite.entry.on.now }
{
    cite.on
}

/// Puts the line of cells that a formula cites, where the sheets have these names: sheet, row and column of
/// the formula, sheet of the cells, and their corners.
fn put_cite<'x, K: Sink, F: LineForm>(
    form: &F,
    out: &mut Writer<'_, K, F::Buffer>,
    names: &'x Strings,
    cite: CitedCells<'x>,
) -> Result<(), Stop>
    ensures { PutsLines K.state F.Buffer.kept (F.is_text form.now) (ref_line names.now (lent_citation_of cite.entry) ∷ [])
        out.old out.new result }
{
    let name = name_of(names, cite.sheet);
    let sheet = sheet_of(cite);
    let cells = Dimensions {
        start: cite.first,
        end: cite.last,
    };
    let line = BookLine::Ref {
        sheet: name,
        cell: (cite.row, cite.col),
        cited_sheet: sheet,
        cells,
    };
    form.put_line(out, line)
}

/// Puts the line at an index of what a formula cites, if there is one.
fn put_cite_at<K: Sink, F: LineForm>(
    form: &F,
    out: &mut Writer<'_, K, F::Buffer>,
    names: &Strings,
    formula: &CitedFormula<'_>,
    i: usize,
) -> Result<(), Stop>
    ensures { PutsLines K.state F.Buffer.kept (F.is_text form.now) (displayed_at (λ c. ref_line names.now c ∷ []) (slice_get formula.now i))
        out.old out.new result }
{
    match formula.get(i) {
        Some(cite) => put_cite(form, out, names, cite),
        None => Ok(()),
    }
}

/// Puts the lines of all cells that a formula cites.
fn put_cites<K: Sink, F: LineForm>(
    form: &F,
    out: &mut Writer<'_, K, F::Buffer>,
    names: &Strings,
    formula: &CitedFormula<'_>,
) -> Result<(), Stop>
    ensures { PutsLines K.state F.Buffer.kept (F.is_text form.now) (map (ref_line names.now) formula.now)
        out.old out.new result }
{
    for i in 0..formula.len() {
        put_cite_at(form, out, names, formula, i)?;
    }
    Ok(())
}

/// Puts the lines of all cells that the formulas of a sheet cite.
fn put_sheet_refs<K: Sink, F: LineForm>(
    form: &F,
    out: &mut Writer<'_, K, F::Buffer>,
    names: &Strings,
    cites: &SheetCites<'_>,
) -> Result<(), Stop>
    ensures { PutsLines K.state F.Buffer.kept (F.is_text form.now) (map (ref_line names.now) (each_cited cites.now))
        out.old out.new result }
{
    for formula in cites.iter() {
        let formula = formula?;
        put_cites(form, out, names, &formula)?;
    }
    Ok(())
}

/// Puts those of the sheet at an index, if there is one.
fn put_refs_at<K: Sink, F: LineForm>(
    alloc: Global,
    form: &F,
    out: &mut Writer<'_, K, F::Buffer>,
    view: &View<'_>,
    sheet: usize,
) -> Result<(), Stop>
    ensures { PutsLines K.state F.Buffer.kept (F.is_text form.now)
        (displayed_at (λ cites. map (ref_line view.now.context.sheets) (each_cited cites)) (slice_get (sheets_cited view.now) sheet))
        out.old out.new result }
{
    match cites_of_sheet(alloc, view, sheet)? {
        Some(cites) => put_sheet_refs(form, out, view.naming().sheets, &cites),
        None => Ok(()),
    }
}

/// Puts the lines of all cells that are cited, sheet by sheet.
fn put_refs<K: Sink, F: LineForm>(
    alloc: Global,
    form: &F,
    out: &mut Writer<'_, K, F::Buffer>,
    view: &View<'_>,
) -> Result<(), Stop>
    ensures { PutsLines K.state F.Buffer.kept (F.is_text form.now) (ref_lines (cited_in view.now))
        out.old out.new result }
{
    for sheet in 0..view.naming().sheets.len() {
        put_refs_at(alloc, form, out, view, sheet)?;
    }
    Ok(())
}

/// Writes a line for each cell or area that a formula cites: sheet by sheet, of each the formulas by row,
/// then column, and of each formula from left to right.
pub fn write_ref_list<K: Sink, F: LineForm>(
    alloc: Global,
    sink: &mut K,
    form: &F,
    view: &View<'_>,
) -> Result<(), Stop>
    ensures { DeliversEach (F.is_text form.now) (ref_lines (cited_in view.now))
        (K.state sink.old) (K.state sink.new) result }
{
    let mut buffer = F::buffer(alloc);
    let mut out = Writer::new(&mut buffer, sink);
    put_refs(alloc, form, &mut out, view)?;
    out.finish()
}
