//! What a record says of the cell of a formula.

ghost use Rattle.std.specs.Prelude.{◌≡◌};
ghost use Rattle.std.specs.Option.{option_map};
ghost use Rattle.xls_parts.specs.PartRecords.{placed_of};
ghost use Rattle.xls_formula_cells.specs.Formulas.{entry_of, formula_at};

use xls_parts::PartRecord;
use xls_ptg::word_at;
use xls_stream::types::FORMULA;

/// A cell with a formula, and where its Formula record stands. 16 bytes.
#[derive(Clone, Copy, Debug, PartialEq, Eq)]
pub struct FormulaPlace {
    /// Counted from 0.
    pub row: u16,
    /// Counted from 0.
    pub column: u16,
    /// The place of the record's header in the stream.
    pub offset: u64,
}

/// The cell and the place of a record, if it is a Formula record; none where its row and column aren't there.
pub(crate) fn place_at(r: &PartRecord<'_>) -> Option<FormulaPlace>
    ensures { option_map entry_of result ≡ formula_at (placed_of r.now) }
{
    if r.typ != FORMULA || r.body.len() < 4 {
        return None;
    }
    Some(FormulaPlace {
        row: word_at(r.body, 0),
        column: word_at(r.body, 2),
        offset: r.offset,
    })
}
