//! The content of the sheets of a view, collected from its cursors.

ghost use Rattle.std.specs.Prelude.{◌≡◌, IfOk, length, map};
ghost use Rattle.xls_biff.specs.Cells.{CellEntry};
ghost use Rattle.xls_view.specs.Formulas.{text_entry};
ghost use Rattle.xls_view.specs.Displayed.{sheet_view_of};
ghost use Rattle.xls_open.specs.Workbook.{cell_content, formula_content};

use std::alloc::{AllocError, Global};
use std::marker::Model;
use xls_data::{Cell, Data, Dimensions};
use xls_view::{Cells, FormulaBuffer, Merges, SheetFormulas, View, ViewSheet};

/// The cells, the formulas and the merged regions of a sheet.
#[derive(Drop)]
pub(crate) struct Content {
    pub cells: Vec<Cell<Data>>,
    pub formulas: Vec<Cell<String>>,
    pub merges: Vec<Dimensions>,
}

impl Model for Content {
    ghost use Rattle.std.specs.Prelude.{map};
    ghost use Rattle.xls_meaning.specs.Reading.{SheetView};
    ghost use Rattle.xls_open.specs.Workbook.{cell_content, formula_content};

    ghost Value = { SheetView };

    ghost view = { λ c. record {
      cells = map cell_content c.cells.items;
      formulas = map formula_content c.formulas.items;
      merges = c.merges.items;
    } };
}

/// Cells with texts of their own. There is room for so many of them from the start.
fn cells_of(alloc: Global, cells: Cells<'_>, room: usize) -> Result<Vec<Cell<Data>>, AllocError>
    ensures { IfOk result (λ collected. map cell_content collected.items ≡ cells.entry) }
{
    let mut collected = Vec::with_capacity(alloc, room)?;
    for cell in cells {
        let value = cell.value.to_data(alloc)?;
        collected.push(Cell::new((cell.row, cell.column), value))?;
    }
    Ok(collected)
}

/// The texts of formulas.
fn formulas_of(alloc: Global, formulas: &SheetFormulas<'_>) -> Result<Vec<Cell<String>>, AllocError>
    ensures { IfOk result (λ collected. map formula_content collected.items
        ≡ map (text_entry formulas.now.context) formulas.now.left) }
{
    let mut buffer = FormulaBuffer::new(alloc);
    let mut collected = Vec::new(alloc);
    for formula in formulas.iter() {
        let text = formulas.text_in(&mut buffer, formula)?;
        let text = String::from_str(alloc, text)?;
        collected.push(Cell::new((formula.row, formula.column), text))?;
    }
    Ok(collected)
}

/// Regions.
fn merges_of(alloc: Global, merges: Merges<'_>) -> Result<Vec<Dimensions>, AllocError>
    ensures { IfOk result (λ collected. collected.items ≡ merges.entry) }
{
    let mut collected = Vec::new(alloc);
    for region in merges {
        collected.push(region)?;
    }
    Ok(collected)
}

/// What a sheet shows.
fn content_of(alloc: Global, sheet: &ViewSheet<'_>) -> Result<Content, AllocError>
    ensures { IfOk result (λ content. content ≡ sheet_view_of sheet.now) }
{
    let cells = sheet.cells()?;
    let cells = cells_of(alloc, cells.iter(), cells.room())?;
    let formulas = sheet.formulas()?;
    let formulas = formulas_of(alloc, &formulas)?;
    let merges = merges_of(alloc, sheet.merges())?;
    Ok(Content {
        cells,
        formulas,
        merges,
    })
}

/// What each index shows.
pub(crate) fn contents_of(alloc: Global, view: &View<'_>) -> Result<Vec<Content>, AllocError>
    requires { length view.now.book.contents ≡ length view.now.book.sheets }
    ensures { IfOk result (λ contents. contents.items ≡ view.now.book.contents) }
{
    let mut contents = Vec::new(alloc);
    for n in 0..view.sheets().len() {
        if let Some(sheet) = view.sheet_at(n) {
            contents.push(content_of(alloc, &sheet)?)?;
        }
    }
    Ok(contents)
}
