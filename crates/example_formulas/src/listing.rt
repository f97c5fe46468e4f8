//! The formulas of all sheets.

ghost use Rattle.std.specs.Prelude.{◌≡◌, ◌++◌, IfOk, slice_get};
ghost use Rattle.std.specs.List.{flat_map};
ghost use Rattle.std.specs.String.{string_bytes};
ghost use Rattle.std.specs.Str.{chars};
ghost use Rattle.example_formulas.specs.Lines.{formula_line, lines_at, listing};

use crate::lines::push_line;
use std::alloc::{AllocError, Global};
use xls_book::{Formulas, Reader, Xls};

/// Appends the lines of the formulas of a sheet, in their order.
fn push_sheet(text: &mut String, sheet: &str, formulas: Formulas<'_>) -> Result<(), AllocError>
    ensures { IfOk result (λ _. string_bytes text.new ≡ string_bytes text.old
        ++ flat_map (formula_line (chars sheet.now)) formulas.entry) }
{
    for (row, column, formula) in formulas {
        push_line(text, sheet, row, column, formula)?;
    }
    Ok(())
}

/// Appends the lines of the formulas of the sheet at an index.
fn push_sheet_at(text: &mut String, book: &Xls, i: usize, sheet: &str) -> Result<(), AllocError>
    ensures { IfOk result (λ _. string_bytes text.new ≡ string_bytes text.old
        ++ lines_at (chars sheet.now) (slice_get book.now.contents i)) }
{
    match book.formulas_at(i) {
        Some(formulas) => push_sheet(text, sheet, formulas),
        None => Ok(()),
    }
}

/// The lines of the formulas of all sheets, in the order of the workbook.
pub fn listing_of(alloc: Global, book: &Xls) -> Result<String, AllocError>
    ensures { IfOk result (λ text. string_bytes text ≡ listing book.now.sheets book.now.contents) }
{
    let mut text = String::new(alloc);
    let sheets = book.sheets_metadata();
    for i in 0..sheets.len() {
        push_sheet_at(&mut text, book, i, sheets[i].name.as_str())?;
    }
    Ok(text)
}
