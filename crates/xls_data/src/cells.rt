//! A value at its position.

ghost use Rattle.std.specs.Prelude.{◌≡◌};

use crate::CellType;
use std::marker::Model;

/// A value and its position, row before column, both counted from 0. Contracts see the pair of
/// position and value.
#[derive(Debug, Drop)]
pub struct Cell<T: CellType> {
    position: (u32, u32),
    value: T,
}

impl<T: CellType> Model for Cell<T> {
    ghost use Rattle.std.specs.Prelude.{ℕ};

    ghost Value = { (ℕ × ℕ) × T };

    ghost view = { λ c. (c.position, c.value) };
}

impl<T: CellType> Cell<T> {
    /// The cell at a position.
    pub fn new(position: (u32, u32), value: T) -> Cell<T>
        ensures { result ≡ (position, value) }
    {
        Cell { position, value }
    }

    /// The row and the column.
    pub fn get_position(&self) -> (u32, u32)
        ensures { result ≡ self.now.0 }
    {
        self.position
    }

    /// The position and the value.
    pub fn into_parts(self) -> ((u32, u32), T)
        ensures { result ≡ self }
    {
        (self.position, self.value)
    }

    /// The value.
    pub fn get_value(&self) -> &T
        ensures { result.now ≡ self.now.1 }
    {
        &self.value
    }
}
