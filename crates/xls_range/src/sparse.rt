//! Where cells stand that are given with their positions.

ghost use Rattle.std.specs.Prelude.{◌≡◌, [], MatchOption};
ghost use Rattle.xls_range.specs.Sparse.{AreCorners};

use xls_data::{Cell, CellType};

/// The corners of the smallest box that holds the positions, where there are any.
pub fn corners_of<T: CellType>(cells: &[Cell<T>]) -> Option<((u32, u32), (u32, u32))>
    ensures { MatchOption result (cells.now ≡ [])
        (λ corners. AreCorners cells.now corners.0 corners.1) }
{
    let first = cells.first()?.get_position();
    let (mut top, mut left) = first;
    let (mut bottom, mut right) = first;
    for cell in cells {
        let (row, column) = cell.get_position();
        top = top.min(row);
        left = left.min(column);
        bottom = bottom.max(row);
        right = right.max(column);
    }
    Some(((top, left), (bottom, right)))
}
