//! The text of a data table.

ghost use Rattle.std.specs.Prelude.{◌≡◌, ◌++◌, OnOk};
ghost use Rattle.xls_strings.specs.Texts.{text_of};
ghost use Rattle.xls_shown_formulas.specs.Tables as tables;

use crate::texts::push_text;
use std::alloc::AllocError;
use xls_formula_leaves::push_cell;
use xls_ptg::Corner;
use xls_shared_formulas::{CellPlace, TableInput, TableInputs};

/// A cell as a formula cites it by offsets.
fn relative(at: CellPlace) -> Corner
    ensures { result ≡ tables.relative at }
{
    Corner {
        row: at.row,
        column: at.column,
        is_row_relative: true,
        is_column_relative: true,
    }
}

/// Appends an input, and nothing where the table doesn't have it.
#[tactic(auto, unfolding(std::specs::Prelude::chars))]
fn push_input(input: Option<TableInput>, out: &mut String) -> Result<(), AllocError>
    ensures { OnOk result (text_of out.new ≡ text_of out.old ++ tables.input_if input) }
{
    match input {
        Some(TableInput::Cell(at)) => push_cell(relative(at), out),
        Some(TableInput::Gone) => push_text("#REF!", out),
        None => Ok(()),
    }
}

/// Appends the text of a data table, `TABLE(A1,B1)`.
#[tactic(auto, unfolding(std::specs::Prelude::chars))]
pub(crate) fn push_table(inputs: TableInputs, out: &mut String) -> Result<(), AllocError>
    ensures { OnOk result (text_of out.new ≡ text_of out.old ++ tables.table_text inputs) }
{
    push_text("TABLE(", out)?;
    push_input(inputs.row, out)?;
    push_text(",", out)?;
    push_input(inputs.column, out)?;
    push_text(")", out)
}
