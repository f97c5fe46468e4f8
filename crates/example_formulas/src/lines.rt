//! The line of a formula.

ghost use Rattle.std.specs.Prelude.{◌≡◌, ◌++◌, IfOk};
ghost use Rattle.std.specs.String.{string_bytes};
ghost use Rattle.std.specs.Str.{chars};
ghost use Rattle.example_formulas.specs.Lines.{formula_line};

use std::alloc::AllocError;
use xls_bytes::{push_column, push_escaped};

/// Appends the line of a formula: its sheet, its cell and its text.
pub fn push_line(
    text: &mut String,
    sheet: &str,
    row: u32,
    column: u32,
    formula: &str,
) -> Result<(), AllocError>
    ensures { IfOk result (λ _. string_bytes text.new ≡ string_bytes text.old
        ++ formula_line (chars sheet.now) ((row, column), chars formula.now)) }
{
    push_escaped(sheet, text)?;
    text.push_str("\t")?;
    push_column(column, text)?;
    let number = row as u64 + 1;
    write!(text, "{number}\t")?;
    push_escaped(formula, text)?;
    text.push_str("\n")
}
