//! Functions: PtgFunc and PtgFuncVar.

ghost use Rattle.std.specs.Prelude.{◌≡◌, ◌≤◌, length, IfOk};
ghost use Rattle.xls_record.specs.Reading.{Exactly};
ghost use Rattle.xls_ptg.specs.FunctionTokens.{func_at, func_var_at};
ghost use Rattle.xls_ptg.specs.Readings.{as_read};

use crate::fields::{short, word_at};
use crate::tokens::Ptg;
use xls_biff::{Part, XlsError};

/// 21 (PtgFunc): an index (iftab).
pub(crate) fn read_func(rest: &[u8]) -> Result<(Ptg<&[u8]>, usize), XlsError>
    ensures exact { Exactly as_read result (func_at rest.now) }
    ensures within { IfOk result (λ x. x.1 ≤ length rest.now) }
{
    if rest.len() < 2 {
        return Err(short(2, rest.len(), Part::Ptg));
    }
    let iftab = word_at(rest, 0);
    Ok((Ptg::Func { iftab }, 2))
}

/// 22 (PtgFuncVar): a count of operands and an index.
pub(crate) fn read_func_var(rest: &[u8]) -> Result<(Ptg<&[u8]>, usize), XlsError>
    ensures exact { Exactly as_read result (func_var_at rest.now) }
    ensures within { IfOk result (λ x. x.1 ≤ length rest.now) }
{
    if rest.len() < 3 {
        return Err(short(3, rest.len(), Part::Ptg));
    }
    let iftab = word_at(rest, 1);
    let count = rest[0];
    Ok((Ptg::FuncVar { count, iftab }, 3))
}
