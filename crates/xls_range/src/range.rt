//! A range is empty, or the box of cells between two corners.

mod copies;
mod equality;
mod growth;
mod headers;
mod indexing;
mod sparse;

use crate::error::RangeError;
use crate::grid::{blanks, box_size, cell_of};
use crate::iters::{Cells, Rows, UsedCells};
use std::alloc::Global;
use std::marker::Model;
use xls_data::CellType;

/// A range of cells: empty, or a box with one value for each of its positions. A position is a row
/// and a column, counted from 0; it is absolute, or relative to the range's start.
#[derive(Debug, Drop)]
pub struct Range<T: CellType> {
    top: u32,
    left: u32,
    rows: usize,
    columns: usize,
    cells: Vec<T>,
}

impl<T: CellType> Model for Range<T> {
    ghost use Rattle.xls_range.specs.Grid.{Grid, IsGrid};

    ghost Value = { Grid T };

    ghost view = { λ r. record {
      top = r.top;
      left = r.left;
      height = r.rows;
      width = r.columns;
      cells = r.cells.items;
    } };

    ghost invariant = { λ r. IsGrid r.top r.left r.rows r.columns r.cells.items };
}

impl<T: CellType> Range<T> {
    ghost use Rattle.std.specs.Prelude.{◌≡◌, ◌^◌, ◌≤◌, ◌<◌, ◌*◌, ◌↔◌, true, length, All, IsTrue, IfOk, IsErrOf, option_copied};
    ghost use Rattle.xls_range.specs.Lists.{rows_of, cells_from, used};
    ghost use Rattle.xls_range.specs.Grid.{no_cells, start_of, end_of, cell_at, relative_at, IsRange, IsOfCorners, IsDisordered, AreOrderedCorners, count_between};

    /// A range without cells. It takes no memory.
    pub fn empty(alloc: Global) -> Range<T>
        ensures { result ≡ no_cells }
    {
        Range {
            top: 0,
            left: 0,
            rows: 0,
            columns: 0,
            cells: Vec::new(alloc),
        }
    }

    /// A range of blanks between two corners, both included. `Bounds` where a row or a column of
    /// the start passes that of the end, else `TooLarge` where the cells are 2^64 or more.
    pub fn new(alloc: Global, start: (u32, u32), end: (u32, u32)) -> Result<Range<T>, RangeError>
        ensures bounds { IsErrOf result RangeError.Bounds ↔ IsDisordered start end }
        ensures too_large { IsErrOf result RangeError.TooLarge
            ↔ (AreOrderedCorners start end × (2 ^ 64 ≤ count_between start end)) }
        ensures range { IfOk result (λ r. IsRange r) }
        ensures corners { IfOk result (λ r. IsOfCorners start end r) }
        ensures blank { IfOk result (λ r. All (λ x. T.blank_test x ≡ true) r.cells) }
    {
        let (rows, columns) = box_size(start, end)?;
        let cells = blanks(alloc, rows * columns).map_err(|_| RangeError::Memory)?;
        Ok(Range {
            top: start.0,
            left: start.1,
            rows,
            columns,
            cells,
        })
    }

    /// The first position, where there are cells.
    pub fn start(&self) -> Option<(u32, u32)>
        ensures { result ≡ start_of self.now }
    {
        if self.rows == 0 {
            None
        } else {
            Some((self.top, self.left))
        }
    }

    /// The last position, where there are cells.
    pub fn end(&self) -> Option<(u32, u32)>
        ensures { result ≡ end_of self.now }
    {
        if self.rows == 0 {
            return None;
        }
        let bottom = self.top as usize + self.rows - 1;
        let right = self.left as usize + self.columns - 1;
        Some((bottom as u32, right as u32))
    }

    /// The number of columns, 0 where there are no cells.
    pub fn width(&self) -> usize
        ensures { result ≡ self.now.width }
    {
        self.columns
    }

    /// The number of rows, 0 where there are no cells.
    pub fn height(&self) -> usize
        ensures { result ≡ self.now.height }
    {
        self.rows
    }

    /// Height and width.
    pub fn get_size(&self) -> (usize, usize)
        ensures size { result ≡ (self.now.height, self.now.width) }
        ensures range { IsRange self.now }
    {
        (self.rows, self.columns)
    }

    /// Whether there are no cells.
    pub fn is_empty(&self) -> bool
        ensures { IsTrue result ↔ (self.now ≡ no_cells) }
    {
        self.rows == 0
    }

    /// The cell at an absolute position; `None` exactly outside.
    #[tactic(auto, using(crate::proofs::GridLemmas::cell_inside, crate::proofs::GridLemmas::cell_outside))]
    pub fn get_value(&self, absolute_position: (u32, u32)) -> Option<&T>
        ensures { option_copied result ≡ cell_at self.now absolute_position.0 absolute_position.1 }
    {
        let (row, column) = absolute_position;
        if row < self.top || column < self.left {
            return None;
        }
        let row = (row - self.top) as usize;
        let column = (column - self.left) as usize;
        if row < self.rows && column < self.columns {
            cell_of(&self.cells, row * self.columns + column)
        } else {
            None
        }
    }

    /// The cell at a relative position; `None` exactly outside.
    pub fn get(&self, relative_position: (usize, usize)) -> Option<&T>
        ensures { option_copied result
            ≡ relative_at self.now relative_position.0 relative_position.1 }
    {
        let (row, column) = relative_position;
        if row < self.rows && column < self.columns {
            cell_of(&self.cells, row * self.columns + column)
        } else {
            None
        }
    }

    /// The rows from the top, each as long as the range is wide.
    #[tactic(auto, using(crate::proofs::RowLemmas::rows_count))]
    pub fn rows(&self) -> Rows<'_, T>
        ensures items { result ≡ rows_of self.now.height self.now.width self.now.cells }
        ensures len { length result ≡ self.now.height }
        ensures bound { length result < 2 ^ 64 }
        ensures range { IsRange self.now }
    {
        Rows::new(&self.cells, self.columns, self.rows)
    }

    /// The cells row by row, each with its relative row and column.
    #[tactic(auto, using(crate::proofs::RowLemmas::cells_count))]
    pub fn cells(&self) -> Cells<'_, T>
        ensures items { result ≡ cells_from 0 self.now.width self.now.cells }
        ensures len { length result ≡ self.now.height * self.now.width }
        ensures bound { length result < 2 ^ 64 }
        ensures range { IsRange self.now }
    {
        Cells::new(&self.cells, self.columns)
    }

    /// The cells that are not blank, each with its relative row and column.
    #[tactic(auto, using(crate::proofs::RowLemmas::used_count))]
    pub fn used_cells(&self) -> UsedCells<'_, T>
        ensures items { result ≡ cells_from 0 self.now.width self.now.cells }
        ensures bound { length result < 2 ^ 64 }
        ensures used { length (used T.blank_test result) < 2 ^ 64 }
    {
        UsedCells::new(self.cells())
    }
}
