//! The values of a sheet.

use std::marker::Model;
use xls_data::{Cell, Data};

/// The values of a sheet: absolute row, absolute column and value, by row, then column. Contracts
/// see the list of those that are left.
#[derive(Drop)]
pub struct Values<'a> {
    cells: &'a [Cell<Data>],
}

impl<'a> Model for Values<'a> {
    ghost use Rattle.std.specs.Prelude.{List, map};
    ghost use Rattle.xls_biff.specs.Cells.{CellEntry};
    ghost use Rattle.xls_open.specs.Workbook.{cell_content};

    ghost Value = { List CellEntry };

    ghost view = { λ v. map cell_content v.cells.now };
}

impl<'a> Iterator for Values<'a> {
    ghost use Rattle.std.specs.Prelude.{length};
    ghost use Rattle.std.specs.Iterator.{at_most};
    ghost use Rattle.xls_book.specs.LookUps.{ValueSteps};

    type Item = (u32, u32, &'a Data);

    ghost next_gives = { ValueSteps };

    ghost remaining = { λ cells. at_most (length cells) };

    fn next(&mut self) -> Option<(u32, u32, &'a Data)> {
        if self.cells.is_empty() {
            return None;
        }
        let (first, rest) = self.cells.split_at(1);
        self.cells = rest;
        let (row, column) = first[0].get_position();
        Some((row, column, first[0].get_value()))
    }
}

impl<'a> Values<'a> {
    ghost use Rattle.std.specs.Prelude.{◌≡◌, map};
    ghost use Rattle.xls_open.specs.Workbook.{cell_content};

    /// The same values, to be gone through once more. Takes no memory.
    pub fn again(&self) -> Values<'a>
        ensures { result ≡ self.now }
    {
        Values { cells: self.cells }
    }

    pub(crate) fn new(cells: &'a [Cell<Data>]) -> Values<'a>
        ensures { result ≡ map cell_content cells.now }
    {
        Values { cells }
    }
}
