//! The formulas of a sheet.

ghost use Rattle.std.specs.Prelude.{OnOk, map};
ghost use Rattle.std.specs.Str.{chars};
ghost use Rattle.xls_view.specs.Formulas.{text_entry};
ghost use Rattle.xls_view.specs.Walking.{formula_seen};
ghost use Rattle.xls_arrays.specs.Arrays.{laid, with_formula};
ghost use Rattle.xls_arrays.specs.Filled.{KeepsRooms, Lays};

use crate::items::FormulaItem;
use crate::rooms::{Rooms, lay_formula_item, lay_text};
use std::alloc::{AllocError, Global};
use xls_view::{FormulaBuffer, FormulaCell, SheetFormulas};

/// Lays the text of a formula.
fn lay_formula_text(
    rooms: &mut Rooms<'_>,
    row: u32,
    column: u32,
    text: &str,
) -> Result<(), AllocError>
    ensures same { KeepsRooms rooms.old rooms.new }
    ensures ok { OnOk result (Lays rooms.old rooms.new (λ a. with_formula a ((row, column), chars text.now))) }
{
    let text = lay_text(rooms, text)?;
    lay_formula_item(rooms, FormulaItem { row, column, text })
}

/// Lays a formula of a sheet.
fn lay_formula(
    rooms: &mut Rooms<'_>,
    texts: &mut FormulaBuffer,
    formulas: &SheetFormulas<'_>,
    formula: FormulaCell<'_>,
) -> Result<(), AllocError>
    ensures same { KeepsRooms rooms.old rooms.new }
    ensures ok { OnOk result (Lays rooms.old rooms.new
        (λ a. with_formula a (text_entry formulas.now.context (formula_seen formula.entry)))) }
{
    let text = formulas.text_in(texts, formula)?;
    lay_formula_text(rooms, formula.row, formula.column, text)
}

/// Lays the formulas of a sheet.
pub(crate) fn lay_formulas(
    alloc: Global,
    rooms: &mut Rooms<'_>,
    formulas: &SheetFormulas<'_>,
) -> Result<(), AllocError>
    ensures same { KeepsRooms rooms.old rooms.new }
    ensures ok { OnOk result (Lays rooms.old rooms.new
        (λ a. laid with_formula a (map (text_entry formulas.now.context) formulas.now.left))) }
{
    let mut texts = FormulaBuffer::new(alloc);
    for formula in formulas.iter() {
        lay_formula(rooms, &mut texts, formulas, formula)?;
    }
    Ok(())
}
