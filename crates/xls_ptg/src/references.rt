//! Cells on the formula's own sheet: PtgRef, PtgArea, PtgRefErr, PtgAreaErr.

ghost use Rattle.std.specs.Prelude.{◌≡◌, ◌≤◌, length, IfOk};
ghost use Rattle.xls_record.specs.Reading.{Exactly};
ghost use Rattle.xls_ptg.specs.Readings.{as_read};
ghost use Rattle.xls_ptg.specs.References.{area_at, area_err_at, area_size, early_area_at, ref_token_at, ref_err_at, ref_size};

use crate::corner::Corner;
use crate::fields::{is_biff8, short, word_at};
use crate::tokens::Ptg;
use xls_biff::{Biff, Part, XlsError};

/// How many bytes a PtgRef has.
fn ref_size(biff: Biff) -> usize
    ensures { result ≡ ref_size biff }
{
    if is_biff8(biff) { 4 } else { 3 }
}

/// How many bytes a PtgArea has.
fn area_size(biff: Biff) -> usize
    ensures { result ≡ area_size biff }
{
    if is_biff8(biff) { 8 } else { 6 }
}

/// 24 (PtgRef): a row and a column word, or before BIFF8 a row word and a column.
pub(crate) fn read_ref(rest: &[u8], biff: Biff) -> Result<(Ptg<&[u8]>, usize), XlsError>
    ensures exact { Exactly as_read result (ref_token_at biff rest.now) }
    ensures within { IfOk result (λ x. x.1 ≤ length rest.now) }
{
    if is_biff8(biff) {
        if rest.len() < 4 {
            return Err(short(4, rest.len(), Part::Ptg));
        }
        let corner = Corner::from_words(word_at(rest, 0), word_at(rest, 2));
        return Ok((Ptg::Ref(corner), 4));
    }
    if rest.len() < 3 {
        return Err(short(3, rest.len(), Part::Ptg));
    }
    let corner = Corner::from_early(word_at(rest, 0), rest[2]);
    Ok((Ptg::Ref(corner), 3))
}

/// The area before BIFF8, whose corners are printed with `$`.
fn read_early_area(rest: &[u8]) -> Result<(Ptg<&[u8]>, usize), XlsError>
    ensures exact { Exactly as_read result (early_area_at rest.now) }
    ensures within { IfOk result (λ x. x.1 ≤ length rest.now) }
{
    if rest.len() < 6 {
        return Err(short(6, rest.len(), Part::Ptg));
    }
    let area = Ptg::Area {
        first: Corner::from_early(word_at(rest, 0), rest[4]).pinned(),
        last: Corner::from_early(word_at(rest, 2), rest[5]).pinned(),
    };
    Ok((area, 6))
}

/// 25 (PtgArea): two rows, two columns.
pub(crate) fn read_area(rest: &[u8], biff: Biff) -> Result<(Ptg<&[u8]>, usize), XlsError>
    ensures exact { Exactly as_read result (area_at biff rest.now) }
    ensures within { IfOk result (λ x. x.1 ≤ length rest.now) }
{
    if !is_biff8(biff) {
        return read_early_area(rest);
    }
    if rest.len() < 8 {
        return Err(short(8, rest.len(), Part::Ptg));
    }
    let area = Ptg::Area {
        first: Corner::from_words(word_at(rest, 0), word_at(rest, 4)),
        last: Corner::from_words(word_at(rest, 2), word_at(rest, 6)),
    };
    Ok((area, 8))
}

/// 2A (PtgRefErr).
pub(crate) fn read_ref_err(rest: &[u8], biff: Biff) -> Result<(Ptg<&[u8]>, usize), XlsError>
    ensures exact { Exactly as_read result (ref_err_at biff rest.now) }
    ensures within { IfOk result (λ x. x.1 ≤ length rest.now) }
{
    let size = ref_size(biff);
    if rest.len() < size {
        return Err(short(size, rest.len(), Part::Ptg));
    }
    Ok((Ptg::RefErr, size))
}

/// 2B (PtgAreaErr).
pub(crate) fn read_area_err(rest: &[u8], biff: Biff) -> Result<(Ptg<&[u8]>, usize), XlsError>
    ensures exact { Exactly as_read result (area_err_at biff rest.now) }
    ensures within { IfOk result (λ x. x.1 ≤ length rest.now) }
{
    let size = area_size(biff);
    if rest.len() < size {
        return Err(short(size, rest.len(), Part::Ptg));
    }
    Ok((Ptg::AreaErr, size))
}
