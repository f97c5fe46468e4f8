//! Names: PtgName and PtgNameX.

ghost use Rattle.std.specs.Prelude.{◌≡◌, ◌≤◌, length, IfOk};
ghost use Rattle.xls_record.specs.Reading.{Exactly};
ghost use Rattle.xls_ptg.specs.NameTokens.{name_at, name_x_at, name_x_size};
ghost use Rattle.xls_ptg.specs.Readings.{as_read};

use crate::fields::{is_biff8, short, word_at};
use crate::tokens::Ptg;
use xls_biff::{Biff, Part, XlsError};
use xls_bytes::read_u32;

/// 23 (PtgName): an index of 32 bits, or before BIFF8 of 16 bits.
pub(crate) fn read_name(rest: &[u8], biff: Biff) -> Result<(Ptg<&[u8]>, usize), XlsError>
    ensures exact { Exactly as_read result (name_at biff rest.now) }
    ensures within { IfOk result (λ x. x.1 ≤ length rest.now) }
{
    if is_biff8(biff) {
        if rest.len() < 4 {
            return Err(short(4, rest.len(), Part::Ptg));
        }
        let index = read_u32(rest);
        return Ok((Ptg::Name { index }, 4));
    }
    if rest.len() < 14 {
        return Err(short(14, rest.len(), Part::Ptg));
    }
    let index = u32::from(word_at(rest, 0));
    Ok((Ptg::Name { index }, 14))
}

/// How many bytes a PtgNameX has.
fn name_x_size(biff: Biff) -> usize
    ensures { result ≡ name_x_size biff }
{
    if is_biff8(biff) { 6 } else { 24 }
}

/// 39 and 59 (PtgNameX).
pub(crate) fn read_name_x(rest: &[u8], biff: Biff) -> Result<(Ptg<&[u8]>, usize), XlsError>
    ensures exact { Exactly as_read result (name_x_at biff rest.now) }
    ensures within { IfOk result (λ x. x.1 ≤ length rest.now) }
{
    let size = name_x_size(biff);
    if rest.len() < size {
        return Err(short(size, rest.len(), Part::Ptg));
    }
    Ok((Ptg::NameX, size))
}
