//! Rows, columns and cells that can't be seen.

ghost use Rattle.std.specs.Prelude.{◌≡◌};
ghost use Rattle.xls_hidden_cells.specs.Seen.{is_cell_hidden, is_hidden};

use xls_hidden::HiddenSheet;

/// Whether a row can't be seen, for whatever reason.
#[inline(always)]
pub fn is_row_hidden(hidden: &HiddenSheet<'_>, row: u32) -> bool
    ensures { result ≡ is_hidden hidden.now.rows row }
{
    hidden.row(row).is_some()
}

/// Whether a column can't be seen, for whatever reason.
#[inline(always)]
pub fn is_column_hidden(hidden: &HiddenSheet<'_>, column: u32) -> bool
    ensures { result ≡ is_hidden hidden.now.columns column }
{
    hidden.column(column).is_some()
}

/// Whether a cell stands in a row or in a column that can't be seen.
#[inline(always)]
pub fn is_cell_hidden(hidden: &HiddenSheet<'_>, row: u32, column: u32) -> bool
    ensures { result ≡ is_cell_hidden hidden.now (row, column) }
{
    is_row_hidden(hidden, row) || is_column_hidden(hidden, column)
}
