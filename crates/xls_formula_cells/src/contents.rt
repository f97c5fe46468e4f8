//! The tokens of a Formula record.

ghost use Rattle.std.specs.Prelude.{◌≡◌};
ghost use Rattle.xls_shown_ptg.specs.Reading.{Exactly};
ghost use Rattle.xls_shared_formulas.specs.Contents.{bytes_view, short};
ghost use Rattle.xls_formula_cells.specs.Contents as contents;

use xls_ptg::word_at;
use xls_record::{Part, XlsError};
use xls_shared_formulas::FormulaBytes;
use xls_shown_ptg::Fault;

/// A part of a record that is too short.
fn short(expected: usize, found: usize, typ: Part) -> Fault
    ensures { result ≡ short typ expected found }
{
    Fault::Xls(XlsError::Len {
        expected,
        found,
        typ,
    })
}

/// The tokens of a formula behind their count of bytes, and the extra bytes behind them.
fn rgce_contents(rgce: &[u8]) -> Result<FormulaBytes<'_>, Fault>
    ensures { Exactly bytes_view result (contents.rgce_contents rgce.now) }
{
    if rgce.len() < 2 {
        return Err(short(2, rgce.len(), Part::Rgce));
    }
    let size = 2 + word_at(rgce, 0) as usize;
    if rgce.len() < size {
        return Err(short(size, rgce.len(), Part::Rgce));
    }
    let (counted, extra) = rgce.split_at(size);
    let (_, tokens) = counted.split_at(2);
    Ok(FormulaBytes { tokens, extra })
}

/// The tokens of a Formula record, by its body with those of its Continue records, and the extra bytes behind them. `Len` where the
/// body ends before them, or inside them: of the tokens it counts the two bytes of their count too. Takes no memory.
pub fn formula_contents(body: &[u8]) -> Result<FormulaBytes<'_>, Fault>
    ensures { Exactly bytes_view result (contents.formula_contents body.now) }
{
    if body.len() < 20 {
        return Err(short(20, body.len(), Part::Formula));
    }
    let (_, rgce) = body.split_at(20);
    rgce_contents(rgce)
}
