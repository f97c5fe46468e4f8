//! The cells of a sheet, with a look at the next one.

ghost use Rattle.std.specs.Prelude.{◌≡◌};
ghost use Rattle.xls_csv.specs.Walk.{TakesCell};

use std::marker::Model;
use xls_view::{FormattedCells, SheetCell};

/// The cells that are left. Contracts see the list of them, each with its XF index.
#[derive(Drop)]
pub struct Ahead<'c> {
    /// The first of them, and those after it.
    next: Option<SheetCell<'c>>,
    others: FormattedCells<'c>,
}

impl<'c> Model for Ahead<'c> {
    ghost use Rattle.std.specs.Prelude.{List};
    ghost use Rattle.xls_view.specs.Formats.{FormattedCell};
    ghost use Rattle.xls_csv.specs.Walk.{cells_ahead};
    ghost use Rattle.xls_csv.specs.Steps.{IsEnded};

    ghost Value = { List FormattedCell };

    ghost view = { λ a. cells_ahead a.next a.others };

    ghost invariant = { λ a. IsEnded a.next a.others };
}

impl<'c> Ahead<'c> {
    pub fn new(mut cells: FormattedCells<'c>) -> Ahead<'c>
        ensures { result ≡ cells.entry }
    {
        let next = cells.next();
        Ahead {
            next,
            others: cells,
        }
    }

    /// The next cell, if that stands at this position; then it is taken.
    #[inline(always)]
    pub fn take_at(&mut self, row: u64, column: u64) -> Option<SheetCell<'c>>
        ensures { TakesCell self.old row column result self.new }
    {
        let cell = match self.next {
            Some(cell) if u64::from(cell.row) == row && u64::from(cell.column) == column => cell,
            _ => return None,
        };
        self.next = self.others.next();
        Some(cell)
    }
}
