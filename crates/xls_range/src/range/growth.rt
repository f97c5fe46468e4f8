//! Writing a cell, also outside the range.

use crate::error::RangeError;
use crate::grid::{blanks, push_blanks};
use crate::moves::move_cells;
use crate::range::Range;
use xls_data::CellType;

impl<T: CellType> Range<T> {
    ghost use Rattle.std.specs.Prelude.{◌≡◌, ℕ, ◌+◌, ◌*◌, ◌^◌, ◌<◌, ◌≤◌, ◌↔◌, IsOk, IsErrOf, OnOk, OnErr, Some, slice_set, ◌==◌, ◌&&◌, if◌then◌else◌};
    ghost use Rattle.xls_range.specs.Grid.{cell_at, IsIn, IsSameBox, IsBeforeStart, IsReachable, grown_count, index_of, with_cell, Grows, Sets};

    // Adds rows of blanks below.
    fn add_rows(&mut self, rows: usize) -> Result<(), RangeError>
        requires rows { self.old.height ≤ rows }
        requires some { 0 < self.old.height }
        requires bottom { self.old.top + rows ≤ 2 ^ 32 }
        ensures bounds { ¬ IsErrOf result RangeError.Bounds }
        ensures too_large { IsErrOf result RangeError.TooLarge ↔ (2 ^ 64 ≤ rows * self.old.width) }
        ensures err { OnErr result (self.new ≡ self.old) }
        ensures ok { OnOk result (Grows T.blank_test self.old self.new rows self.old.width) }
    {
        let Some(size) = rows.checked_mul(self.columns) else {
            return Err(RangeError::TooLarge);
        };
        let more = size - self.cells.len();
        push_blanks(&mut self.cells, more).map_err(|_| RangeError::Memory)?;
        self.rows = rows;
        Ok(())
    }

    // Moves the cells into a wider box, which may be higher too.
    fn widen(&mut self, rows: usize, columns: usize) -> Result<(), RangeError>
        requires rows { self.old.height ≤ rows }
        requires columns { self.old.width ≤ columns }
        requires bottom { self.old.top + rows ≤ 2 ^ 32 }
        requires right { self.old.left + columns ≤ 2 ^ 32 }
        requires some { (0 < rows) × (0 < columns) }
        ensures bounds { ¬ IsErrOf result RangeError.Bounds }
        ensures too_large { IsErrOf result RangeError.TooLarge ↔ (2 ^ 64 ≤ rows * columns) }
        ensures err { OnErr result (self.new ≡ self.old) }
        ensures ok { OnOk result (Grows T.blank_test self.old self.new rows columns) }
    {
        let Some(size) = rows.checked_mul(columns) else {
            return Err(RangeError::TooLarge);
        };
        let mut grown = blanks(*self.cells.allocator(), size).map_err(|_| RangeError::Memory)?;
        move_cells(
            &mut self.cells,
            &mut grown,
            self.rows,
            self.columns,
            columns,
        );
        self.cells = grown;
        self.rows = rows;
        self.columns = columns;
        Ok(())
    }

    // Grows to that many rows and columns.
    fn grow(&mut self, rows: usize, columns: usize) -> Result<(), RangeError>
        requires rows { self.old.height ≤ rows }
        requires columns { self.old.width ≤ columns }
        requires bottom { self.old.top + rows ≤ 2 ^ 32 }
        requires right { self.old.left + columns ≤ 2 ^ 32 }
        requires some { (0 < rows) × (0 < columns) }
        ensures bounds { ¬ IsErrOf result RangeError.Bounds }
        ensures too_large { IsErrOf result RangeError.TooLarge ↔ (2 ^ 64 ≤ rows * columns) }
        ensures err { OnErr result (self.new ≡ self.old) }
        ensures ok { OnOk result (Grows T.blank_test self.old self.new rows columns) }
        ensures same { rows ≡ self.old.height → columns ≡ self.old.width → IsOk result }
    {
        if columns > self.columns {
            return self.widen(rows, columns);
        }
        if rows > self.rows {
            return self.add_rows(rows);
        }
        Ok(())
    }

    // Writes a cell that is there.
    fn put(&mut self, row: usize, column: usize, value: T)
        requires row { row < self.old.height }
        requires column { column < self.old.width }
        ensures { self.new ≡ with_cell self.old (index_of self.old row column) value }
    {
        self.cells[row * self.columns + column] = value;
    }

    // Writes the cell at a position that is there.
    pub(super) fn put_at(&mut self, position: (u32, u32), value: T)
        requires { IsIn self.old position.0 position.1 }
        ensures same { IsSameBox self.old self.new }
        ensures written { (r c : ℕ) → cell_at self.new r c
            ≡ (if (position.0 == r) && (position.1 == c) then Some value else cell_at self.old r c) }
    {
        let row = (position.0 - self.top) as usize;
        let column = (position.1 - self.left) as usize;
        self.put(row, column, value);
    }

    /// Writes a value at an absolute position. The range grows down and right as far as needed,
    /// with blanks in the new cells; an empty one grows from (0, 0). `Bounds` for a position before
    /// the start, `TooLarge` where the cells would be 2^64 or more. A refusal drops the value and
    /// leaves the range as it was. Inside the range it takes no memory.
    pub fn set_value(&mut self, absolute_position: (u32, u32), value: T) -> Result<(), RangeError>
        ensures bounds { IsErrOf result RangeError.Bounds
            ↔ IsBeforeStart self.old absolute_position.0 absolute_position.1 }
        ensures too_large { IsErrOf result RangeError.TooLarge
            ↔ (IsReachable self.old absolute_position.0 absolute_position.1
            × (2 ^ 64 ≤ grown_count self.old absolute_position.0 absolute_position.1)) }
        ensures err { OnErr result (self.new ≡ self.old) }
        ensures ok { OnOk result
            (Sets T.blank_test self.old self.new absolute_position.0 absolute_position.1 value) }

        // A position inside the range is never refused.
        ensures inside { IsIn self.old absolute_position.0 absolute_position.1 → IsOk result }
    {
        let (row, column) = absolute_position;
        if self.rows > 0 && (row < self.top || column < self.left) {
            return Err(RangeError::Bounds);
        }
        let row = (row - self.top) as usize;
        let column = (column - self.left) as usize;
        let rows = self.rows.max(row + 1);
        let columns = self.columns.max(column + 1);
        self.grow(rows, columns)?;
        self.put(row, column, value);
        Ok(())
    }
}
