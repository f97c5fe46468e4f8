//! The cells of a sheet part in the order of its records.

ghost use Rattle.std.specs.Prelude.{◌≡◌, ◌++◌, []};
ghost use Rattle.xls_view.specs.SheetContents.{kept_in};
ghost use Rattle.xls_view.specs.Formats.{formatted_after, last_formula, no_formula};
ghost use Rattle.xls_view.specs.Walking.{FormattedSteps, IsSoundPart};

use crate::formats::LastFormula;
use crate::record::first_cell;
use crate::run::Run;
use crate::value::SheetCell;
use std::marker::Model;
use xls_biff::SheetRecords;
use xls_open::Settings;

/// The cells of a part that are left, in the order of its records, none of which has a fault. Contracts see
/// the list of them.
#[derive(Drop)]
pub(crate) struct CellWalk<'c> {
    settings: &'c Settings<'c>,
    records: SheetRecords<'c>,
    last: LastFormula,
    /// The cells of the record that was read last.
    run: Run<'c>,
}

impl<'c> Model for CellWalk<'c> {
    ghost use Rattle.std.specs.Prelude.{◌++◌, List};
    ghost use Rattle.xls_view.specs.SheetContents.{kept_in};
    ghost use Rattle.xls_view.specs.Formats.{FormattedCell, formatted_after, last_formula};
    ghost use Rattle.xls_view.specs.Walking.{IsSoundPart};

    ghost Value = { List FormattedCell };

    ghost view = { λ w. w.run ++ formatted_after w.settings.now (last_formula w.last) (kept_in w.records.0 w.records.1) };

    ghost invariant = { λ w. IsSoundPart w.settings.now w.records };
}

/// The first cell of the records that are left, where this is the last Formula before them; those after it in
/// its record are left in `run`.
#[inline(always)]
fn next_cell<'c>(
    records: &mut SheetRecords<'c>,
    last: &mut LastFormula,
    run: &mut Run<'c>,
    settings: &Settings<'c>,
) -> Option<SheetCell<'c>>
    requires sound { IsSoundPart settings.now records.old }
    requires none { run.old ≡ [] }
    ensures sound { IsSoundPart settings.now records.new }
    ensures passes { FormattedSteps (formatted_after settings.now (last_formula last.old) (kept_in records.old.0 records.old.1)) result
        (run.new ++ formatted_after settings.now (last_formula last.new) (kept_in records.new.0 records.new.1)) }
{
    while let Some(item) = records.next() {
        let record = match item {
            Ok(record) => record,
            Err(_) => return None,
        };
        let before = *last;
        *last = before.after(&record);
        if let Some(cell) = first_cell(&record, before, run, settings) {
            return Some(cell);
        }
    }
    None
}

impl<'c> CellWalk<'c> {
    /// The cells of a part.
    pub(crate) fn new(settings: &'c Settings<'c>, part: &'c [u8]) -> CellWalk<'c>
        requires { IsSoundPart settings.now (part.now, 0) }
        ensures { result ≡ formatted_after settings.entry.now no_formula (kept_in part.entry.now 0) }
    {
        CellWalk {
            settings,
            records: SheetRecords::new(part),
            last: LastFormula::none(),
            run: Run::none(),
        }
    }

    /// No cells.
    #[tactic(auto, using(crate::proofs::WalkLemmas::kept_nothing))]
    pub(crate) fn none(settings: &'c Settings<'c>) -> CellWalk<'c>
        ensures { result ≡ [] }
    {
        CellWalk {
            settings,
            records: SheetRecords::new(&[]),
            last: LastFormula::none(),
            run: Run::none(),
        }
    }

    /// The same cells, to be gone through once more.
    pub(crate) fn again(&self) -> CellWalk<'c>
        ensures { result ≡ self.now }
    {
        CellWalk {
            settings: self.settings,
            records: self.records.again(),
            last: self.last,
            run: self.run.again(),
        }
    }
}

impl<'c> Iterator for CellWalk<'c> {
    ghost use Rattle.std.specs.Prelude.{length};
    ghost use Rattle.std.specs.Iterator.{at_most};
    ghost use Rattle.xls_view.specs.Walking.{FormattedSteps};

    type Item = SheetCell<'c>;

    ghost next_gives = { FormattedSteps };

    ghost remaining = { λ cells. at_most (length cells) };

    #[inline(always)]
    fn next(&mut self) -> Option<SheetCell<'c>> {
        if let Some(cell) = self.run.next() {
            return Some(cell);
        }
        next_cell(
            &mut self.records,
            &mut self.last,
            &mut self.run,
            self.settings,
        )
    }
}
