//! Ranges are equal where their corners are and, by the cells' own `==`, all their cells.

use crate::range::Range;
use xls_data::CellType;

impl<T: CellType> PartialEq for Range<T> {
    ghost use Rattle.std.specs.Cmp.{partial_equiv_from_equiv};
    ghost use Rattle.xls_range.specs.Grid.{grid_eq, grid_eq_equiv};

    ghost eq = { grid_eq T.eq };

    ghost laws = { partial_equiv_from_equiv (grid_eq_equiv T.Eq.laws) };

    fn eq(&self, other: &Range<T>) -> bool {
        self.top == other.top
            && self.left == other.left
            && self.rows == other.rows
            && self.columns == other.columns
            && self.cells == other.cells
    }
}

impl<T: CellType> Eq for Range<T> {
    ghost use Rattle.xls_range.specs.Grid.{grid_eq_equiv};

    ghost laws = { grid_eq_equiv T.Eq.laws };
}
