//! Whether the cells of a part ascend.

ghost use Rattle.std.specs.Prelude.{◌≡◌, map, None};
ghost use Rattle.xls_range.specs.Positions.{Position};
ghost use Rattle.xls_style_cells.specs.Cells.{cell_position};
ghost use Rattle.xls_style_cells.specs.Order as order;

use crate::walk::CellWalk;

/// Whether one position comes before another: in an earlier row, or in the same one in an earlier column.
fn precedes(before: (u32, u32), after: (u32, u32)) -> bool
    ensures { result ≡ order.precedes before after }
{
    if before.0 < after.0 {
        return true;
    }
    before.0 == after.0 && before.1 < after.1
}

/// Whether a position comes after the last one, if there is one.
fn follows(last: Option<(u32, u32)>, position: (u32, u32)) -> bool
    ensures { result ≡ order.follows last position }
{
    match last {
        Some(before) => precedes(before, position),
        None => true,
    }
}

/// Whether the cells ascend strictly: by row and then by column. Takes no memory.
pub(crate) fn is_ascending(cells: CellWalk<'_>) -> bool
    ensures { result ≡ order.ascends None (map cell_position cells.entry) }
{
    let mut last = None;
    'cells: for cell in cells {
        let position = (cell.row, cell.column);
        if !follows(last, position) {
            return false;
        }
        last = Some(position);
    }
    true
}
