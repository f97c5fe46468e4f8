//! Constants: PtgErr, PtgBool, PtgInt, PtgNum, PtgArray.

ghost use Rattle.std.specs.Prelude.{◌≡◌, ◌≤◌, length, IfOk};
ghost use Rattle.xls_record.specs.Reading.{Exactly};
ghost use Rattle.xls_ptg.specs.Constants.{array_at, bool_at, err_at, err_of, int_at, num_at};
ghost use Rattle.xls_ptg.specs.Readings.{as_read};

use crate::fields::{short, unknown, word_at};
use crate::tokens::Ptg;
use xls_biff::{Part, XlsError, error_of_code};
use xls_bytes::read_bits;
use xls_data::CellErrorType;

/// The error value of a code; of none the part is named BErr.
fn err_of(code: u8) -> Result<CellErrorType, XlsError>
    ensures { Exactly (λ e. e) result (err_of code) }
{
    match error_of_code(code) {
        Ok(error) => Ok(error),
        Err(_) => Err(unknown(Part::BErr, code)),
    }
}

/// 1C (PtgErr).
pub(crate) fn read_err(rest: &[u8]) -> Result<(Ptg<&[u8]>, usize), XlsError>
    ensures exact { Exactly as_read result (err_at rest.now) }
    ensures within { IfOk result (λ x. x.1 ≤ length rest.now) }
{
    if rest.len() < 1 {
        return Err(short(1, rest.len(), Part::Ptg));
    }
    let error = err_of(rest[0])?;
    Ok((Ptg::Err(error), 1))
}

/// 1D (PtgBool).
pub(crate) fn read_bool(rest: &[u8]) -> Result<(Ptg<&[u8]>, usize), XlsError>
    ensures exact { Exactly as_read result (bool_at rest.now) }
    ensures within { IfOk result (λ x. x.1 ≤ length rest.now) }
{
    if rest.len() < 1 {
        return Err(short(1, rest.len(), Part::Ptg));
    }
    Ok((Ptg::Bool(rest[0] != 0), 1))
}

/// 1E (PtgInt).
pub(crate) fn read_int(rest: &[u8]) -> Result<(Ptg<&[u8]>, usize), XlsError>
    ensures exact { Exactly as_read result (int_at rest.now) }
    ensures within { IfOk result (λ x. x.1 ≤ length rest.now) }
{
    if rest.len() < 2 {
        return Err(short(2, rest.len(), Part::Ptg));
    }
    Ok((Ptg::Int(word_at(rest, 0)), 2))
}

/// 1F (PtgNum).
pub(crate) fn read_num(rest: &[u8]) -> Result<(Ptg<&[u8]>, usize), XlsError>
    ensures exact { Exactly as_read result (num_at rest.now) }
    ensures within { IfOk result (λ x. x.1 ≤ length rest.now) }
{
    if rest.len() < 8 {
        return Err(short(8, rest.len(), Part::Ptg));
    }
    Ok((Ptg::Num(read_bits(rest)), 8))
}

/// 20 (PtgArray), whose values stand after the tokens.
pub(crate) fn read_array(rest: &[u8]) -> Result<(Ptg<&[u8]>, usize), XlsError>
    ensures exact { Exactly as_read result (array_at rest.now) }
    ensures within { IfOk result (λ x. x.1 ≤ length rest.now) }
{
    if rest.len() < 7 {
        return Err(short(7, rest.len(), Part::Ptg));
    }
    Ok((Ptg::Array, 7))
}
