//! The dense box of cells that are given with their positions.

use crate::error::RangeError;
use crate::range::Range;
use crate::sparse::corners_of;
use std::alloc::{AllocError, Global};
use xls_data::{Cell, CellType};

impl<T: CellType> Range<T> {
    ghost use Rattle.std.specs.Prelude.{◌≡◌, ℕ, ◌*◌, ◌^◌, ◌<◌, true, [], All, map, IfOk, IfErr, OnOk, IsErrOf, MatchOption, ◌↔◌};
    ghost use Rattle.xls_range.specs.Grid.{IsIn, IsSameBox, IsRange, Shows};
    ghost use Rattle.xls_range.specs.Sparse.{last_at, IsAscending, IsDense, IsTooLarge};
    ghost use Rattle.xls_range.specs.Boxes.{IsBlankBox};

    // Writes copies in order, so that of equal positions the last one stays.
    fn place(&mut self, alloc: Global, cells: &[Cell<T>]) -> Result<(), AllocError>
        requires inside { All (λ x. IsIn self.old x.0.0 x.0.1) cells.now }
        requires blank { All (λ x. T.blank_test x ≡ true) self.old.cells }
        ensures same { IsSameBox self.old self.new }
        ensures shows { OnOk result (Shows T.eq T.blank_test
            (λ row column. last_at cells.now (row, column)) self.new) }
    {
        for cell in cells {
            let value = cell.get_value().try_copy(alloc)?;
            self.put_at(cell.get_position(), value);
        }
        Ok(())
    }

    // The range with copies of the cells in it.
    fn filled(mut self, alloc: Global, cells: &[Cell<T>]) -> Result<Range<T>, RangeError>
        requires { IsBlankBox T.blank_test cells.now self }
        ensures range { IfOk result (λ r. IsRange r) }
        ensures dense { IfOk result (λ r. IsDense T.eq T.blank_test cells.now r) }
        ensures memory { IfErr result (λ e. e ≡ RangeError.Memory) }
    {
        if self.place(alloc, cells).is_err() {
            return Err(RangeError::Memory);
        }
        let _ = &self.top;
        Ok(self)
    }

    // Writes the values in order, so that of equal positions the last one stays.
    fn put_all(&mut self, cells: Vec<Cell<T>>)
        requires inside { All (λ x. IsIn self.old x.0.0 x.0.1) cells.items }
        requires blank { All (λ x. T.blank_test x ≡ true) self.old.cells }
        ensures same { IsSameBox self.old self.new }
        ensures shows { Shows T.eq T.blank_test
            (λ row column. last_at cells.items (row, column)) self.new }
    {
        for cell in cells {
            let (position, value) = cell.into_parts();
            self.put_at(position, value);
        }
    }

    // The range with the cells in it.
    fn holding(mut self, cells: Vec<Cell<T>>) -> Range<T>
        requires { IsBlankBox T.blank_test cells.items self }
        ensures range { IsRange result }
        ensures dense { IsDense T.eq T.blank_test cells.items result }
    {
        self.put_all(cells);
        let _ = &self.top;
        self
    }

    // The smallest box that holds the cells, all blank. None where there are no cells.
    fn box_of(alloc: Global, cells: &[Cell<T>]) -> Result<Option<Range<T>>, RangeError>
        ensures bounds { ¬ IsErrOf result RangeError.Bounds }
        ensures too_large { IsErrOf result RangeError.TooLarge ↔ IsTooLarge cells.now }
        ensures blank { IfOk result (λ found. MatchOption found (cells.now ≡ []) (IsBlankBox T.blank_test cells.now)) }
    {
        let Some((start, end)) = corners_of(cells) else {
            return Ok(None);
        };
        match Range::new(alloc, start, end) {
            Ok(range) => Ok(Some(range)),
            Err(error) => Err(error),
        }
    }

    /// The smallest box that holds the cells, with the cell that was given last for each position,
    /// and blanks elsewhere. `TooLarge` where that box has 2^64 cells or more.
    pub fn from_sparse(alloc: Global, cells: Vec<Cell<T>>) -> Result<Range<T>, RangeError>
        ensures bounds { ¬ IsErrOf result RangeError.Bounds }
        ensures too_large { IsErrOf result RangeError.TooLarge ↔ IsTooLarge cells.items }
        ensures fits { (rows columns : ℕ)
            → All (λ x. (x.0.0 < rows) × (x.0.1 < columns)) cells.items
            → rows * columns < 2 ^ 64 → ¬ IsErrOf result RangeError.TooLarge }
        ensures range { IfOk result (λ r. IsRange r) }
        ensures dense { IfOk result (λ r. IsDense T.eq T.blank_test cells.items r) }
    {
        match Range::box_of(alloc, cells.as_slice()) {
            Ok(Some(range)) => Ok(range.holding(cells)),
            Ok(None) => Ok(Range::empty(alloc)),
            Err(error) => Err(error),
        }
    }

    /// The same with copies of cells whose positions ascend strictly, row by row.
    pub fn from_sorted(alloc: Global, cells: &[Cell<T>]) -> Result<Range<T>, RangeError>
        requires { IsAscending (map (λ x. x.0) cells.now) }
        ensures bounds { ¬ IsErrOf result RangeError.Bounds }
        ensures too_large { IsErrOf result RangeError.TooLarge ↔ IsTooLarge cells.now }
        ensures fits { (rows columns : ℕ)
            → All (λ x. (x.0.0 < rows) × (x.0.1 < columns)) cells.now
            → rows * columns < 2 ^ 64 → ¬ IsErrOf result RangeError.TooLarge }
        ensures range { IfOk result (λ r. IsRange r) }
        ensures dense { IfOk result (λ r. IsDense T.eq T.blank_test cells.now r) }
    {
        match Range::box_of(alloc, cells) {
            Ok(Some(range)) => range.filled(alloc, cells),
            Ok(None) => Ok(Range::empty(alloc)),
            Err(error) => Err(error),
        }
    }
}
