//! Formulas of ranges in the order of the cells to which they belong.

ghost use Rattle.std.specs.Prelude.{◌≡◌, ◌∷◌, ◌++◌, [], ℕ, OnOk};
ghost use Rattle.std.specs.List.Sorted.{IsNonDecreasingBy};
ghost use Rattle.xls_shared_formulas.specs.Found.{anchor_number, last_at, number};
ghost use Rattle.xls_shared_formulas.specs.Walking.{HasSameLast};

use crate::fields::{CellPlace, CellRange, FormulaKind};
use std::alloc::AllocError;

/// A formula of a range: what a ShrFmla, Array or Table record holds. 24 bytes.
#[derive(Clone, Copy, Debug, PartialEq, Eq)]
pub struct RangeFormula {
    /// The place of the record's header in the stream.
    pub offset: u64,
    pub kind: FormulaKind,
    pub range: CellRange,
    /// The cell to which it belongs: that of the last Formula record before it. The tokens of the range's cells point to it.
    pub anchor: CellPlace,
}

/// The number of a cell in the order of rows, and in each of columns.
pub(crate) fn number(cell: CellPlace) -> u32
    ensures { result ≡ number cell }
{
    u32::from(cell.row) * 0x10000 + u32::from(cell.column)
}

/// Sorts formulas by their cells; those of one cell keep their order. Only running out of memory refuses.
pub(crate) fn sort(found: &mut Vec<RangeFormula>) -> Result<(), AllocError>
    ensures order { OnOk result (IsNonDecreasingBy anchor_number found.new.items) }
    ensures last { OnOk result (HasSameLast found.old.items found.new.items) }
{
    found.sort_by_key(|formula| number(formula.anchor))?;
    Ok(())
}

/// The last formula of a cell, of some in the order of their cells.
pub(crate) fn last_at(found: &[RangeFormula], anchor: CellPlace) -> Option<RangeFormula>
    requires { IsNonDecreasingBy anchor_number found.now }
    ensures { result ≡ last_at (number anchor) found.now }
{
    let wanted = number(anchor);
    let end = found.partition_point(|formula| number(formula.anchor) <= wanted);
    if end == 0 {
        return None;
    }
    let last = found[end - 1];
    if number(last.anchor) != wanted {
        return None;
    }
    Some(last)
}
