//! The control tokens that have bytes of their own: PtgExp and PtgElf.

ghost use Rattle.std.specs.Prelude.{◌≡◌, ◌≤◌, length, IfOk};
ghost use Rattle.xls_record.specs.Reading.{Exactly};
ghost use Rattle.xls_ptg.specs.Control.{elf_at, exp_at};
ghost use Rattle.xls_ptg.specs.Readings.{as_read};

use crate::fields::short;
use crate::tokens::Ptg;
use xls_biff::{Part, XlsError};

/// 01 (PtgExp): the cell at which the formula stands isn't read.
pub(crate) fn read_exp(rest: &[u8]) -> Result<(Ptg<&[u8]>, usize), XlsError>
    ensures exact { Exactly as_read result (exp_at rest.now) }
    ensures within { IfOk result (λ x. x.1 ≤ length rest.now) }
{
    if rest.len() < 4 {
        return Err(short(4, rest.len(), Part::PtgExp));
    }
    Ok((Ptg::Exp, 4))
}

/// 18 (PtgElfLel to PtgElfRadicalLel, PtgSxName).
pub(crate) fn read_elf(rest: &[u8]) -> Result<(Ptg<&[u8]>, usize), XlsError>
    ensures exact { Exactly as_read result (elf_at rest.now) }
    ensures within { IfOk result (λ x. x.1 ≤ length rest.now) }
{
    if rest.len() < 5 {
        return Err(short(5, rest.len(), Part::Ptg));
    }
    Ok((Ptg::Elf, 5))
}
