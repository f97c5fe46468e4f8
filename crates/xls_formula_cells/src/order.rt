//! The formulas of a part by their cells, where they don't ascend.

ghost use Rattle.std.specs.Prelude.{◌≡◌, ◌++◌, ◌∷◌, [], IfOk, OnOk, map};
ghost use Rattle.std.specs.List.{AllByRecursion};
ghost use Rattle.xls_parts.specs.Steps.{StepsBy};
ghost use Rattle.xls_range.specs.Positions.{numbered_entry};
ghost use Rattle.xls_style_cells.specs.Order.{settled};
ghost use Rattle.xls_formula_cells.specs.Formulas.{entry_of};
ghost use Rattle.xls_formula_cells.specs.Held.{IsSmall};

use crate::place::FormulaPlace;
use crate::walk::FormulaWalk;
use std::alloc::{AllocError, Global};
use xls_data::Cell;
use xls_range::{Numbered, Settled, Unsettled};

/// Puts a formula behind those so far.
fn push_place(found: &mut Unsettled<usize>, place: FormulaPlace) -> Result<(), AllocError>
    ensures { OnOk result (found.new ≡ found.old ++ entry_of place ∷ []) }
{
    let position = (u32::from(place.row), u32::from(place.column));
    found.push(Cell::new(position, place.offset as usize))
}

/// Formulas by row and then by column, of those of one cell the last.
pub(crate) fn in_order(
    alloc: Global,
    formulas: FormulaWalk<'_>,
) -> Result<Settled<usize>, AllocError>
    ensures order { IfOk result (λ found. found ≡ settled formulas.entry) }
    ensures small { IfOk result (λ found. AllByRecursion IsSmall found) }
{
    let mut found = Unsettled::with_room(alloc, 0)?;
    'formulas: for place in formulas {
        push_place(&mut found, place)?;
    }
    Ok(found.settled())
}

/// The next of some formulas.
pub(crate) fn next_place(left: &mut &[Numbered<usize>]) -> Option<FormulaPlace>
    requires { AllByRecursion IsSmall (map numbered_entry left.old.now) }
    ensures steps { StepsBy entry_of (map numbered_entry left.old.now) result (map numbered_entry left.new.now) }
    ensures small { AllByRecursion IsSmall (map numbered_entry left.new.now) }
{
    if left.is_empty() {
        return None;
    }
    let (first, rest) = left.split_at(1);
    *left = rest;
    let cell = &first[0].cell;
    let (row, column) = cell.get_position();
    Some(FormulaPlace {
        row: row as u16,
        column: column as u16,
        offset: *cell.get_value() as u64,
    })
}
