//! A cell in the bytes of a token.

ghost use Rattle.std.specs.Prelude.{◌≡◌};
ghost use Rattle.xls_ptg.specs.Corners.{corner_of, early_corner_of, pinned};

/// A cell by its row and column, counted from 0, each fixed or relative.
#[derive(Clone, Copy, Debug, PartialEq, Eq)]
pub struct Corner {
    pub row: u16,
    pub column: u16,
    pub is_row_relative: bool,
    pub is_column_relative: bool,
}

impl Corner {
    /// A row, and a column word (ColRelU): the column in 14 bits, colRelative and rowRelative.
    pub(crate) fn from_words(row: u16, column: u16) -> Corner
        ensures { result ≡ corner_of row column }
    {
        Corner {
            row,
            column: column % 0x4000,
            is_row_relative: column / 0x8000 == 1,
            is_column_relative: column / 0x4000 % 2 == 1,
        }
    }

    /// The form before BIFF8: a row word, the row in 14 bits and two flags, and a column.
    pub(crate) fn from_early(row: u16, column: u8) -> Corner
        ensures { result ≡ early_corner_of row column }
    {
        Corner {
            row: row % 0x4000,
            column: u16::from(column),
            is_row_relative: row / 0x8000 == 1,
            is_column_relative: row / 0x4000 % 2 == 1,
        }
    }

    /// The cell, with row and column fixed.
    pub fn pinned(self) -> Corner
        ensures { result ≡ pinned self }
    {
        Corner {
            is_row_relative: false,
            is_column_relative: false,
            ..self
        }
    }
}
