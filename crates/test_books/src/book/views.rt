use super::*;
use std::test::*;
use xls_data::{Data, Dimensions};
use xls_formula::NumberStyle;
use xls_view::{
    FormulaBuffer, Merges, SheetCell, SheetCells, SheetFormulas, TextBuffer, View, ViewSheet,
};

// A cell as `row,column=` with a space after it, as `push_sheet` has it.
fn push_cell(alloc: Global, text: &mut String, cell: SheetCell<'_>) -> Result<(), AllocError> {
    let mut decoded = TextBuffer::new(alloc);
    let (row, column) = (cell.row, cell.column);
    let value = Data::from_ref(alloc, decoded.value_of(cell.value)?)?;
    write!(text, "{row},{column}={value:?} ")?;
    Ok(())
}

fn push_cells(alloc: Global, text: &mut String, cells: &SheetCells<'_>) -> Result<(), AllocError> {
    for cell in cells.iter() {
        push_cell(alloc, text, cell)?;
    }
    text.push_str("|")
}

// An opened workbook leaves out a formula whose text is empty.
fn push_formulas(
    alloc: Global,
    text: &mut String,
    formulas: &SheetFormulas<'_>,
) -> Result<(), AllocError> {
    let mut texts = FormulaBuffer::new(alloc);
    for formula in formulas.iter() {
        let (row, column) = (formula.row, formula.column);
        let reported = formulas.text_in(&mut texts, formula)?;
        if !reported.is_empty() {
            write!(text, "{row},{column}={reported} ")?;
        }
    }
    text.push_str("|")
}

fn push_region(text: &mut String, region: Dimensions) -> Result<(), AllocError> {
    write!(text, "{region:?} ")?;
    Ok(())
}

// How the sheets of a view are asked for.
#[derive(Clone, Copy, Debug)]
enum Way {
    // Cells, formulas and regions apart, by the sheet's index.
    Apart,
    // Likewise by its name.
    Named,
    // The sheet once.
    Whole,
}

fn push_regions(text: &mut String, regions: Option<Merges<'_>>) -> Result<(), AllocError> {
    if let Some(regions) = regions {
        for region in regions {
            push_region(text, region)?;
        }
    }
    Ok(())
}

fn push_apart(
    alloc: Global,
    text: &mut String,
    view: &View<'_>,
    n: usize,
) -> Result<(), AllocError> {
    if let Some(cells) = view.cells_at(n)? {
        push_cells(alloc, text, &cells)?;
    }
    if let Some(formulas) = view.formulas_at(n)? {
        push_formulas(alloc, text, &formulas)?;
    }
    push_regions(text, view.merges_at(n))
}

fn push_named(
    alloc: Global,
    text: &mut String,
    view: &View<'_>,
    name: &str,
) -> Result<(), AllocError> {
    if let Some(cells) = view.cells_named(name)? {
        push_cells(alloc, text, &cells)?;
    }
    if let Some(formulas) = view.formulas_named(name)? {
        push_formulas(alloc, text, &formulas)?;
    }
    push_regions(text, view.merges_named(name))
}

fn push_whole(alloc: Global, text: &mut String, sheet: &ViewSheet<'_>) -> Result<(), AllocError> {
    push_cells(alloc, text, &sheet.cells()?)?;
    push_formulas(alloc, text, &sheet.formulas()?)?;
    push_regions(text, Some(sheet.merges()))
}

// The cells and a bar, the formulas and a bar, and the merged regions of a sheet.
fn push_viewed(
    alloc: Global,
    text: &mut String,
    view: &View<'_>,
    n: usize,
    way: Way,
) -> Result<(), AllocError> {
    match way {
        Way::Apart => push_apart(alloc, text, view, n),
        Way::Named => match view.sheets().get(n) {
            Some(sheet) => push_named(alloc, text, view, sheet.name.as_str()),
            None => Ok(()),
        },
        Way::Whole => match view.sheet_at(n) {
            Some(sheet) => push_whole(alloc, text, &sheet),
            None => Ok(()),
        },
    }
}

fn push_opened(text: &mut String, book: &Xls, n: usize) -> Result<(), AllocError> {
    push_sheet(text, book, n)?;
    if let Some(regions) = book.merges_at(n) {
        for region in regions {
            push_region(text, *region)?;
        }
    }
    Ok(())
}

// What the globals put in force and each of the sheets, of which there are fewer than four.
fn view_text(alloc: Global, view: &View<'_>, way: Way) -> Result<String, AllocError> {
    let classes = view.formats();
    let names = view.defined_names();
    let sheets = view.sheets();
    let mut text = String::new(alloc);
    write!(
        text,
        "{} {classes:?} {names:?} {sheets:?} ",
        view.has_1904_epoch()
    )?;
    for n in 0..4 {
        push_viewed(alloc, &mut text, view, n, way)?;
    }
    Ok(text)
}

fn book_text(alloc: Global, book: &Xls) -> Result<String, AllocError> {
    let classes = book.formats();
    let names = book.defined_names();
    let sheets = book.sheets_metadata();
    let mut text = String::new(alloc);
    write!(
        text,
        "{} {classes:?} {names:?} {sheets:?} ",
        book.has_1904_epoch()
    )?;
    for n in 0..4 {
        push_opened(&mut text, book, n)?;
    }
    Ok(text)
}

fn viewed(alloc: Global, opening: Opening, parts: &[&[u8]], way: Way) -> Result<String, XlsError> {
    let bytes = joined(alloc, parts)?;
    let options = options_of(alloc, opening)?;
    let view = View::new(alloc, &bytes, &options, NumberStyle::Bits)?;
    Ok(view_text(alloc, &view, way)?)
}

fn displayed(alloc: Global, opening: Opening, parts: &[&[u8]]) -> Result<String, XlsError> {
    let book = opened(alloc, opening, parts)?;
    Ok(book_text(alloc, &book)?)
}

// Whether both give the same text, or the same refusal.
fn is_same(alloc: Global, opening: Opening, parts: &[&[u8]], way: Way) -> bool {
    let viewed = viewed(alloc, opening, parts, way);
    match (viewed, displayed(alloc, opening, parts)) {
        (Ok(one), Ok(other)) => one.as_str() == other.as_str(),
        (Err(one), Err(other)) => one == other,
        _ => false,
    }
}

#[test]
fn a_view_shows_what_opening_shows(rt: HostRuntime) {
    let tables = [
        globals::CASES.as_slice(),
        parts::CASES.as_slice(),
        formulas::CASES.as_slice(),
        lookups::CASES.as_slice(),
    ];
    for way in [Way::Apart, Way::Named, Way::Whole] {
        for cases in tables {
            for (shows, opening, parts, _, _) in cases.iter() {
                assert!(rt; is_same(rt.alloc(), *opening, parts, way), "{shows}");
            }
        }
        for (parts, text, _) in crate::csv_rows::SHEETS.iter() {
            assert!(rt; is_same(rt.alloc(), Opening::Plain, parts, way), "{text}");
        }
    }
}
