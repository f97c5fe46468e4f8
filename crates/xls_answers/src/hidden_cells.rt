//! How many cells of a sheet can't be seen.

ghost use Rattle.std.specs.Prelude.{◌≡◌, ◌+◌, ◌-◌, ◌<◌, ◌^◌, if◌then◌else◌, min, IfOk, length};
ghost use Rattle.xls_answers.specs.HiddenCells.{CountsHidden};
ghost use Rattle.xls_beside.specs.Damaged.{at_most_counted};
ghost use Rattle.xls_hidden_cells.specs.Seen.{cells_hidden};

use crate::hidden_parts::HiddenParts;
use std::alloc::{AllocError, Global};
use xls_hidden::HiddenSheet;
use xls_hidden_cells::is_cell_hidden;
use xls_view::{FormattedCells, View};

/// A count, or one more.
fn counted(count: u64, is_more: bool) -> u64
    ensures { result ≡ at_most_counted (count + (if is_more then 1 else 0)) }
{
    if is_more {
        count.saturating_add(1)
    } else {
        count
    }
}

/// How many of these cells stand in rows or columns that can't be seen.
#[tactic(auto, using(crate::proofs::HiddenLemmas::at_most_kept))]
fn count_hidden(hidden: &HiddenSheet<'_>, cells: FormattedCells<'_>) -> u64
    ensures { result ≡ at_most_counted (cells_hidden hidden.now cells.entry) }
{
    let mut count: u64 = 0;
    for cell in cells {
        count = counted(count, is_cell_hidden(hidden, cell.row, cell.column));
    }
    count
}

/// How many cells of the sheet of an index stand in rows or columns that can't be seen; 2^64 - 1 where they are more.
pub fn hidden_cells_at(
    alloc: Global,
    parts: &HiddenParts<'_>,
    view: &View<'_>,
    index: usize,
) -> Result<u64, AllocError>
    requires { index < length view.now.book.sheets }
    ensures { IfOk result (CountsHidden parts.now view.now index) }
{
    let Some(hidden) = parts.at(alloc, view, index)? else {
        return Ok(0);
    };
    match view.sheet_at(index) {
        Some(sheet) => Ok(count_hidden(&hidden, sheet.formatted()?.iter())),
        None => Ok(0),
    }
}
