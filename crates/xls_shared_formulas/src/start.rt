//! How the tokens of a cell begin.

ghost use Rattle.std.specs.Prelude.{◌≡◌, ◌≤◌, ◌+◌, length};
ghost use Rattle.xls_shared_formulas.specs.Start as start;

use crate::fields::CellPlace;
use xls_ptg::word_at;
use xls_record::{Part, XlsError};
use xls_shown_ptg::Fault;

/// Which formula a cell has.
#[derive(Clone, Copy, Debug, PartialEq, Eq)]
pub enum FormulaStart {
    /// That of its own tokens.
    Own,
    /// 01 (PtgExp): the shared formula or array of this cell.
    Exp(CellPlace),
    /// 02 (PtgTbl): the table of this cell.
    Tbl(CellPlace),
}

/// The cell behind a token's first byte.
fn place_behind(tokens: &[u8]) -> CellPlace
    requires { 5 ≤ length tokens.now }
    ensures { result ≡ start.place_behind tokens.now }
{
    CellPlace {
        row: word_at(tokens, 1),
        column: word_at(tokens, 3),
    }
}

/// Which formula a cell has, by the first of its tokens. A PtgExp or PtgTbl of fewer than four bytes is refused; what stands
/// behind those four isn't read.
pub fn read_start(tokens: &[u8]) -> Result<FormulaStart, Fault>
    ensures { result ≡ start.start_at tokens.now }
{
    if tokens.is_empty() || tokens[0] == 0 || tokens[0] > 2 {
        return Ok(FormulaStart::Own);
    }
    let is_exp = tokens[0] == 1;
    let found = tokens.len() - 1;
    if found < 4 && is_exp {
        return Err(Fault::Xls(XlsError::Len {
            expected: 4,
            found,
            typ: Part::PtgExp,
        }));
    }
    if found < 4 {
        return Err(Fault::Tbl { expected: 4, found });
    }
    let place = place_behind(tokens);
    Ok(if is_exp {
        FormulaStart::Exp(place)
    } else {
        FormulaStart::Tbl(place)
    })
}
