//! The cells of a sheet.

ghost use Rattle.std.specs.Prelude.{◌≡◌, map};
ghost use Rattle.xls_range.specs.Bounds.{bounds_of};
ghost use Rattle.xls_view.specs.Formats.{plain};

use crate::formatted::{FormattedCells, FormattedSheet};
use crate::value::SheetCell;
use std::marker::Model;
use xls_data::Dimensions;

/// The cells of a sheet, by row, then column, of those of one position the last. Contracts see the list
/// of them.
#[derive(Drop)]
pub struct SheetCells<'v> {
    sheet: FormattedSheet<'v>,
}

impl<'v> Model for SheetCells<'v> {
    ghost use Rattle.std.specs.Prelude.{List, map};
    ghost use Rattle.xls_biff.specs.Cells.{CellEntry};
    ghost use Rattle.xls_view.specs.Formats.{plain};

    ghost Value = { List CellEntry };

    ghost view = { λ c. map plain c.sheet };
}

impl<'v> SheetCells<'v> {
    /// These cells.
    pub(crate) fn new(sheet: FormattedSheet<'v>) -> SheetCells<'v>
        ensures { result ≡ map plain sheet.entry }
    {
        SheetCells { sheet }
    }

    /// The same cells, of which contracts see the XF indices too. Takes no memory.
    pub fn formatted(&self) -> &FormattedSheet<'v>
        ensures { map plain result.now ≡ self.now }
    {
        &self.sheet
    }

    /// The smallest box that holds the cells, from its first row and column to its last; `None` exactly where
    /// there is no cell. Takes no memory.
    #[tactic(auto, using(crate::proofs::FormatLemmas::bounds_plain))]
    pub fn bounds(&self) -> Option<Dimensions>
        ensures { result ≡ bounds_of self.now }
    {
        self.sheet.bounds()
    }

    /// For how many cells a list of them needs room. No contract rests on it. Takes no memory.
    pub fn room(&self) -> usize {
        self.sheet.room()
    }

    /// The cells in order. Takes no memory.
    pub fn iter(&self) -> Cells<'_>
        ensures { result ≡ self.now }
    {
        Cells {
            cells: self.sheet.iter(),
        }
    }
}

/// The cells of a sheet that are left: each once, by row, then column. Contracts see the list of them.
#[derive(Drop)]
pub struct Cells<'c> {
    cells: FormattedCells<'c>,
}

impl<'c> Model for Cells<'c> {
    ghost use Rattle.std.specs.Prelude.{List, map};
    ghost use Rattle.xls_biff.specs.Cells.{CellEntry};
    ghost use Rattle.xls_view.specs.Formats.{plain};

    ghost Value = { List CellEntry };

    ghost view = { λ c. map plain c.cells };
}

impl<'c> Iterator for Cells<'c> {
    ghost use Rattle.std.specs.Prelude.{length};
    ghost use Rattle.std.specs.Iterator.{at_most};
    ghost use Rattle.xls_view.specs.Walking.{CellSteps};

    type Item = SheetCell<'c>;

    ghost next_gives = { CellSteps };

    ghost remaining = { λ cells. at_most (length cells) };

    #[inline(always)]
    fn next(&mut self) -> Option<SheetCell<'c>> {
        self.cells.next()
    }
}

impl<'c> Cells<'c> {
    ghost use Rattle.std.specs.Prelude.{◌≡◌};

    /// The same cells, to be gone through once more. Takes no memory.
    pub fn again(&self) -> Cells<'c>
        ensures { result ≡ self.now }
    {
        Cells {
            cells: self.cells.again(),
        }
    }
}
