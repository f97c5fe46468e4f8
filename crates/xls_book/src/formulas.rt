//! The formulas of a sheet.

ghost use Rattle.xls_book.specs.Steps.{FirstDisplayed, IsFromDisplayed};

use std::marker::Model;
use xls_data::Cell;

/// The formulas of a sheet whose text isn't empty: absolute row, absolute column and text, by row, then
/// column. Contracts see the list of those that are left.
#[derive(Drop)]
pub struct Formulas<'a> {
    cells: &'a [Cell<String>],
}

impl<'a> Model for Formulas<'a> {
    ghost use Rattle.std.specs.Prelude.{List, map};
    ghost use Rattle.xls_meaning.specs.SheetTable.{nonempty_formulas, FormulaEntry};
    ghost use Rattle.xls_open.specs.Workbook.{formula_content};

    ghost Value = { List FormulaEntry };

    ghost view = { λ f. nonempty_formulas (map formula_content f.cells.now) };
}

impl<'a> Iterator for Formulas<'a> {
    ghost use Rattle.std.specs.Prelude.{length};
    ghost use Rattle.std.specs.Iterator.{at_most};
    ghost use Rattle.xls_book.specs.LookUps.{FormulaSteps};

    type Item = (u32, u32, &'a str);

    ghost next_gives = { FormulaSteps };

    ghost remaining = { λ formulas. at_most (length formulas) };

    fn next(&mut self) -> Option<(u32, u32, &'a str)> {
        let (row, column, text, rest) = first_displayed(self.cells)?;
        self.cells = rest;
        Some((row, column, text))
    }
}

/// These cells without those at the start whose text is empty.
#[tactic(auto, using(crate::proofs::DisplayedLemmas::passed))]
fn from_displayed(cells: &[Cell<String>]) -> &[Cell<String>]
    ensures { IsFromDisplayed cells.now result.now }
{
    let mut rest = cells;
    while !rest.is_empty() && rest[0].get_value().is_empty() {
        let (_, following) = rest.split_at(1);
        rest = following;
    }
    rest
}

/// The first of these cells whose text isn't empty: its row, its column and its text, and the cells
/// after it.
#[tactic(auto, using(crate::proofs::DisplayedLemmas::begun))]
fn first_displayed(cells: &[Cell<String>]) -> Option<(u32, u32, &str, &[Cell<String>])>
    ensures { FirstDisplayed cells.now result }
{
    let rest = from_displayed(cells);
    if rest.is_empty() {
        return None;
    }
    let (_, following) = rest.split_at(1);
    let (row, column) = rest[0].get_position();
    Some((row, column, rest[0].get_value().as_str(), following))
}

impl<'a> Formulas<'a> {
    ghost use Rattle.std.specs.Prelude.{◌≡◌, map};
    ghost use Rattle.xls_meaning.specs.SheetTable.{nonempty_formulas};
    ghost use Rattle.xls_open.specs.Workbook.{formula_content};

    pub(crate) fn new(cells: &'a [Cell<String>]) -> Formulas<'a>
        ensures { result ≡ nonempty_formulas (map formula_content cells.now) }
    {
        Formulas { cells }
    }
}
