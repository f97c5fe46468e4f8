//! The formulas of a part in the order of its records.

ghost use Rattle.std.specs.Prelude.{◌≡◌, ◌<◌, ◌+◌, ◌^◌, [], length};
ghost use Rattle.xls_parts.specs.PartRecords.{own_records};
ghost use Rattle.xls_formula_cells.specs.Formulas.{formulas_in};

use crate::place::{FormulaPlace, place_at};
use std::marker::Model;
use xls_parts::PartRecords;

/// The formulas of a part that are left, in the order of its records. Contracts see the list of them.
#[derive(Drop)]
pub(crate) struct FormulaWalk<'a> {
    records: PartRecords<'a>,
}

impl<'a> Model for FormulaWalk<'a> {
    ghost use Rattle.std.specs.Prelude.{List, ℕ};
    ghost use Rattle.xls_range.specs.Positions.{Entry};
    ghost use Rattle.xls_formula_cells.specs.Formulas.{formulas_in};

    ghost Value = { List (Entry ℕ) };

    ghost view = { λ s. formulas_in s.records };
}

impl<'a> FormulaWalk<'a> {
    /// Those of the sheet whose part begins with the first byte, which stands at this offset of the stream.
    pub(crate) fn new(part: &'a [u8], offset: u64) -> FormulaWalk<'a>
        requires { offset + length part.now < 2 ^ 64 }
        ensures { result ≡ formulas_in (own_records offset part.entry.now) }
    {
        FormulaWalk {
            records: PartRecords::new(part, offset),
        }
    }

    /// None.
    #[tactic(auto, using(crate::proofs::OrderLemmas::no_formulas))]
    pub(crate) fn none() -> FormulaWalk<'a>
        ensures { result ≡ [] }
    {
        FormulaWalk::new(&[], 0)
    }
}

impl<'a> Iterator for FormulaWalk<'a> {
    ghost use Rattle.std.specs.Prelude.{length};
    ghost use Rattle.std.specs.Iterator.{at_most};
    ghost use Rattle.xls_parts.specs.Steps.{StepsBy};
    ghost use Rattle.xls_formula_cells.specs.Formulas.{entry_of};

    type Item = FormulaPlace;

    ghost next_gives = { StepsBy entry_of };

    ghost remaining = { λ formulas. at_most (length formulas) };

    fn next(&mut self) -> Option<FormulaPlace> {
        'records: while let Some(r) = self.records.next() {
            if let Some(place) = place_at(&r) {
                return Some(place);
            }
        }
        None
    }
}
