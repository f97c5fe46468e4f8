//! Where the formula of a cell stands, and what it may name.

use std::marker::Model;
use xls_formula_books::{FormulaBooks, Here};
use xls_formula_leaves::Place;
use xls_record::Biff;

/// The formula of a cell, by what it cites cells. Contracts see all of it.
#[derive(Drop)]
pub struct Citing<'a> {
    pub biff: Biff,
    /// The cell, from which offsets in the formulas of names count.
    pub cell: Place,
    /// From where the formula's own offsets count: the cell, and in an array its first one.
    pub place: Place,
    /// What the formula may name, and the number of its sheet.
    pub here: Here<'a>,
    /// The books by which the formulas of names refer: those of the globals.
    pub globals: &'a FormulaBooks,
    /// The workbook's stream, in which the records of names stand.
    pub stream: &'a [u8],
}

impl<'a> Model for Citing<'a> {
    ghost use Rattle.xls_shown_refs.specs.Origins.{Citing as CitingView};

    ghost Value = { CitingView };

    ghost view = { λ c. record {
      biff = c.biff;
      cell = c.cell;
      place = c.place;
      here = c.here;
      globals = c.globals.now;
      stream = c.stream.now;
    } };
}
