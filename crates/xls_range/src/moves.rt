//! Moving the cells of a box into a wider one.

ghost use Rattle.std.specs.Prelude.{◌≡◌, ℕ, ◌+◌, ◌*◌, ◌<◌, ◌≤◌, length, vec_len};
ghost use Rattle.xls_range.specs.Moves.{IsMoved, LeavesOthers};

use std::mem;

/// Moves the cells of a box into the first rows and columns of a wider one.
pub fn move_cells<T>(
    cells: &mut Vec<T>,
    grown: &mut Vec<T>,
    rows: usize,
    columns: usize,
    wide: usize,
)
    requires narrow { columns ≤ wide }
    requires cells { vec_len cells.old ≡ rows * columns }
    requires grown { rows * wide ≤ vec_len grown.old }
    ensures moved { IsMoved columns wide rows 0 cells.old.items grown.new.items }
    ensures others { LeavesOthers rows columns wide grown.old.items grown.new.items }
    ensures len { vec_len grown.new ≡ vec_len grown.old }
{
    for row in 0..rows {
        for column in 0..columns {
            mem::swap(
                &mut cells[row * columns + column],
                &mut grown[row * wide + column],
            );
        }
    }
}
