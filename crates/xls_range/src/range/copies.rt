//! A part of a range, or a box around it.

use crate::error::RangeError;
use crate::grid::box_size;
use crate::range::Range;
use std::alloc::{AllocError, Global};
use xls_data::CellType;

impl<T: CellType> Range<T> {
    ghost use Rattle.std.specs.Prelude.{◌≡◌, ◌+◌, ◌*◌, ◌^◌, ◌<◌, ◌≤◌, ◌↔◌, IfOk, IsErrOf};
    ghost use Rattle.xls_range.specs.Grid.{cell_at, IsRange, IsOfCorners, IsDisordered, AreOrderedCorners, count_between, IsCopyOf, AreCopies, Shows};

    // What stands for a position elsewhere: a copy of its cell, or a blank.
    fn copy_at(&self, alloc: Global, position: (u32, u32)) -> Result<T, AllocError>
        ensures { IfOk result (λ y.
            IsCopyOf T.eq T.blank_test (cell_at self.now position.0 position.1) y) }
    {
        match self.get_value(position) {
            Some(value) => value.try_copy(alloc),
            None => Ok(T::blank(alloc)),
        }
    }

    // The cells of a box, row by row.
    fn copies(
        &self,
        alloc: Global,
        start: (u32, u32),
        rows: usize,
        columns: usize,
    ) -> Result<Vec<T>, AllocError>
        requires bottom { start.0 + rows ≤ 2 ^ 32 }
        requires right { start.1 + columns ≤ 2 ^ 32 }
        requires fits { rows * columns < 2 ^ 64 }
        ensures { IfOk result (λ v.
            AreCopies T.eq T.blank_test (cell_at self.now) start columns (rows * columns) v.items) }
    {
        let mut cells = Vec::with_capacity(alloc, rows * columns)?;
        for row in 0..rows {
            for column in 0..columns {
                let position = (start.0 + row as u32, start.1 + column as u32);
                cells.push(self.copy_at(alloc, position)?)?;
            }
        }
        Ok(cells)
    }

    /// The range between two corners, both included, with at each position a copy of the cell that
    /// is there, or a blank. `Bounds` and `TooLarge` as for `new`.
    pub fn range(
        &self,
        alloc: Global,
        start: (u32, u32),
        end: (u32, u32),
    ) -> Result<Range<T>, RangeError>
        ensures bounds { IsErrOf result RangeError.Bounds ↔ IsDisordered start end }
        ensures too_large { IsErrOf result RangeError.TooLarge
            ↔ (AreOrderedCorners start end × (2 ^ 64 ≤ count_between start end)) }
        ensures range { IfOk result (λ r. IsRange r) }
        ensures corners { IfOk result (λ r. IsOfCorners start end r) }
        ensures cells { IfOk result (λ r. Shows T.eq T.blank_test (cell_at self.now) r) }
    {
        let (rows, columns) = box_size(start, end)?;
        let cells = self
            .copies(alloc, start, rows, columns)
            .map_err(|_| RangeError::Memory)?;
        Ok(Range {
            top: start.0,
            left: start.1,
            rows,
            columns,
            cells,
        })
    }
}
