//! Rows and cells by their numbers, counted from the range's start.

use crate::range::Range;
use std::ops::{Index, IndexMut};
use xls_data::CellType;

impl<T: CellType> Index<(usize, usize)> for Range<T> {
    type Output = T;

    ghost use Rattle.std.specs.Prelude.{◌≡◌, ◌<◌, Some, slice_get};
    ghost use Rattle.xls_range.specs.Grid.{index_of};

    ghost can_index = { λ g i. (i.0 < g.height) × (i.1 < g.width) };

    ghost index_gives = { λ g i x. slice_get g.cells (index_of g i.0 i.1) ≡ Some x };

    fn index(&self, index: (usize, usize)) -> &T {
        &self.cells[index.0 * self.columns + index.1]
    }
}

impl<T: CellType> IndexMut<(usize, usize)> for Range<T> {
    ghost use Rattle.std.specs.Prelude.{◌≡◌, ◌<◌, Some, slice_get};
    ghost use Rattle.std.specs.Borrow.{sem};
    ghost use Rattle.xls_range.specs.Grid.{index_of};
    ghost use Rattle.xls_range.specs.Lends.{lends_cell};

    fn index_mut(&mut self, index: (usize, usize)) -> &mut T
        requires { (index.0 < self.old.height) × (index.1 < self.old.width) }
        ensures* writes_back { sem 𝓛 (lends_cell T.row
            (record { blank_test = T.blank_test }) (record { eq = T.eq })
            self.entry (index_of self.old index.0 index.1) result) }
        ensures value { slice_get self.old.cells (index_of self.old index.0 index.1)
            ≡ Some result.now }
    {
        &mut self.cells[index.0 * self.columns + index.1]
    }
}

impl<T: CellType> Range<T> {
    ghost use Rattle.std.specs.Borrow.{sem};
    ghost use Rattle.std.specs.Prelude.{◌≡◌, ◌<◌, length};
    ghost use Rattle.xls_range.specs.Grid.{row_at};
    ghost use Rattle.xls_range.specs.Lends.{lends_row};

    /// A row of cells, as long as the range is wide.
    #[tactic(auto, using(crate::proofs::GridLemmas::row_length))]
    pub fn row(&self, i: usize) -> &[T]
        requires { i < self.now.height }
        ensures cells { result.now ≡ row_at self.now i }
        ensures len { length result.now ≡ self.now.width }
    {
        let from = i * self.columns;
        &self.cells[from..from + self.columns]
    }

    /// A row of cells, to write.
    pub fn row_mut(&mut self, i: usize) -> &mut [T]
        requires { i < self.old.height }
        ensures* writes_back { sem 𝓛 (lends_row T.row
            (record { blank_test = T.blank_test }) (record { eq = T.eq }) self.entry i result) }
        ensures value { result.now ≡ row_at self.old i }
    {
        let from = i * self.columns;
        let to = from + self.columns;
        self.cells.slice_mut(from..to)
    }
}
