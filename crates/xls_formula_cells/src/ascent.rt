//! Whether the formulas of a part ascend.

ghost use Rattle.std.specs.Prelude.{◌≡◌, map, None};
ghost use Rattle.xls_range.specs.Positions.{cell_position};
ghost use Rattle.xls_style_cells.specs.Order as order;
ghost use Rattle.xls_formula_cells.specs.Formulas.{entry_of};

use crate::place::FormulaPlace;
use crate::walk::FormulaWalk;

/// Whether the cell of one formula comes before that of another: in an earlier row, or in the same one in an earlier column.
fn precedes(before: FormulaPlace, after: FormulaPlace) -> bool
    ensures { result ≡ order.precedes (entry_of before).0 (entry_of after).0 }
{
    before.row < after.row || before.row == after.row && before.column < after.column
}

/// Whether the cells of formulas ascend strictly: by row and then by column. Takes no memory.
pub(crate) fn is_ascending(formulas: FormulaWalk<'_>) -> bool
    ensures { result ≡ order.ascends None (map cell_position formulas.entry) }
{
    let mut left = formulas;
    let Some(mut last) = left.next() else {
        return true;
    };
    'formulas: while let Some(place) = left.next() {
        if !precedes(last, place) {
            return false;
        }
        last = place;
    }
    true
}
