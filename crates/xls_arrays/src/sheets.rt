//! A sheet with its content, and all sheets of a workbook.

ghost use Rattle.std.specs.Prelude.{◌≡◌, ◌-◌, [], OnOk, slice_get};
ghost use Rattle.xls_data.specs.Sheets.{sheet_content};
ghost use Rattle.xls_view.specs.Displayed.{sheet_view_of};
ghost use Rattle.xls_arrays.specs.Arrays.{sheet_kind_number, laid, visibility_number, with_content, with_sheet};
ghost use Rattle.xls_arrays.specs.Classed.{classed_book, classed_content};
ghost use Rattle.xls_arrays.specs.Filled.{KeepsRooms, Lays};
ghost use Rattle.xls_arrays.specs.Displayed.{content_in, each_with, item_between, no_content};

use crate::cells::lay_cells;
use crate::formulas::lay_formulas;
use crate::items::{SheetItem, Sizes, Span};
use crate::regions::lay_regions;
use crate::rooms::{Rooms, lay_sheet_item, lay_text};
use std::alloc::{AllocError, Global};
use xls_cell_formats::CellFormats;
use xls_data::{Sheet, SheetType, SheetVisible};
use xls_view::{View, ViewSheet};

/// The number of a kind of sheets.
fn kind_number(kind: SheetType) -> u32
    ensures { result ≡ sheet_kind_number kind }
{
    match kind {
        SheetType::WorkSheet => 0,
        SheetType::DialogSheet => 1,
        SheetType::MacroSheet => 2,
        SheetType::ChartSheet => 3,
        SheetType::Vba => 4,
    }
}

/// The number of a visibility.
fn visibility_number(visible: SheetVisible) -> u32
    ensures { result ≡ visibility_number visible }
{
    match visible {
        SheetVisible::Visible => 0,
        SheetVisible::Hidden => 1,
        SheetVisible::VeryHidden => 2,
    }
}

/// Lays what a sheet shows.
fn lay_displayed(
    alloc: Global,
    rooms: &mut Rooms<'_>,
    formats: &CellFormats<'_>,
    sheet: &ViewSheet<'_>,
) -> Result<(), AllocError>
    ensures same { KeepsRooms rooms.old rooms.new }
    ensures ok { OnOk result (Lays rooms.old rooms.new
        (λ a. with_content a (classed_content formats.now (sheet_view_of sheet.now, sheet.now.formatted)))) }
{
    let cells = sheet.formatted()?;
    lay_cells(alloc, rooms, formats, cells.iter())?;
    let formulas = sheet.formulas()?;
    lay_formulas(alloc, rooms, &formulas)?;
    lay_regions(rooms, sheet.merges())
}

/// Lays the content of the sheet at an index.
fn lay_content(
    alloc: Global,
    rooms: &mut Rooms<'_>,
    formats: &CellFormats<'_>,
    n: usize,
) -> Result<(), AllocError>
    ensures same { KeepsRooms rooms.old rooms.new }
    ensures ok { OnOk result (Lays rooms.old rooms.new
        (λ a. with_content a (content_in (slice_get (classed_book formats.now).contents n)))) }
{
    match formats.view().sheet_at(n) {
        Some(sheet) => lay_displayed(alloc, rooms, formats, &sheet),
        None => Ok(()),
    }
}

/// How many items came to a count.
fn added(before: u64, after: u64) -> u64
    ensures { result ≡ after - before }
{
    after.saturating_sub(before)
}

/// The item of a sheet, by what was laid before its content and after it.
fn sheet_item(sheet: &Sheet, name: Span, before: Sizes, after: Sizes) -> SheetItem
    ensures { result ≡ item_between (sheet_content sheet.now) name before after }
{
    SheetItem {
        name,
        first_cell: before.cells,
        cells: added(before.cells, after.cells),
        first_formula: before.formulas,
        formulas: added(before.formulas, after.formulas),
        first_region: before.regions,
        regions: added(before.regions, after.regions),
        kind: kind_number(sheet.typ),
        visibility: visibility_number(sheet.visible),
    }
}

/// Lays a sheet with the content at its index.
pub(crate) fn lay_whole_sheet(
    alloc: Global,
    rooms: &mut Rooms<'_>,
    formats: &CellFormats<'_>,
    sheet: &Sheet,
    n: usize,
) -> Result<(), AllocError>
    ensures same { KeepsRooms rooms.old rooms.new }
    ensures ok { OnOk result (Lays rooms.old rooms.new
        (λ a. with_sheet a (sheet_content sheet.now, content_in (slice_get (classed_book formats.now).contents n)))) }
{
    let before = rooms.laid;
    let name = lay_text(rooms, sheet.name.as_str())?;
    lay_content(alloc, rooms, formats, n)?;
    let after = rooms.laid;
    lay_sheet_item(rooms, sheet_item(sheet, name, before, after))
}

/// Lays a sheet without content.
fn lay_bare_sheet(rooms: &mut Rooms<'_>, sheet: &Sheet) -> Result<(), AllocError>
    ensures same { KeepsRooms rooms.old rooms.new }
    ensures ok { OnOk result (Lays rooms.old rooms.new (λ a. with_sheet a (sheet_content sheet.now, no_content))) }
{
    let before = rooms.laid;
    let name = lay_text(rooms, sheet.name.as_str())?;
    let after = rooms.laid;
    lay_sheet_item(rooms, sheet_item(sheet, name, before, after))
}

/// Lays all sheets with their content.
pub(crate) fn lay_whole_sheets(
    alloc: Global,
    rooms: &mut Rooms<'_>,
    view: &View<'_>,
) -> Result<(), AllocError>
    ensures same { KeepsRooms rooms.old rooms.new }
    ensures ok { OnOk result (Lays rooms.old rooms.new
        (λ a. laid with_sheet a (each_with view.now.book.sheets (classed_book view.now).contents))) }
{
    let formats = CellFormats::new(alloc, view)?;
    let sheets = view.sheets();
    for i in 0..sheets.len() {
        lay_whole_sheet(alloc, rooms, &formats, &sheets[i], i)?;
    }
    Ok(())
}

/// Lays all sheets without content.
pub(crate) fn lay_bare_sheets(rooms: &mut Rooms<'_>, view: &View<'_>) -> Result<(), AllocError>
    ensures same { KeepsRooms rooms.old rooms.new }
    ensures ok { OnOk result (Lays rooms.old rooms.new (λ a. laid with_sheet a (each_with view.now.book.sheets []))) }
{
    let sheets = view.sheets();
    for i in 0..sheets.len() {
        lay_bare_sheet(rooms, &sheets[i])?;
    }
    Ok(())
}
