//! PtgStr.

ghost use Rattle.std.specs.Prelude.{◌≡◌, ◌≤◌, ◌+◌, length, IfOk};
ghost use Rattle.xls_record.specs.Reading.{Exactly};
ghost use Rattle.xls_ptg.specs.PtgStr.{early_str_at, no_cch_at, str_token_at};
ghost use Rattle.xls_ptg.specs.Readings.{as_read};

use crate::fields::{is_biff8, short};
use crate::tokens::Ptg;
use xls_biff::{Biff, Part, XlsError, size_of_uncounted};

/// A string without a count (XLUnicodeStringNoCch): whether it has two bytes a unit, and the bytes of
/// so many units.
pub fn split_no_cch(count: u8, bytes: &[u8]) -> Result<(bool, &[u8]), XlsError>
    ensures exact { Exactly (λ x. (x.0, x.1.now)) result (no_cch_at count bytes.now) }
    ensures within { IfOk result (λ x. 1 + length x.1.now ≤ length bytes.now) }
{
    let size = size_of_uncounted(bytes, u16::from(count))?;
    let (string, _) = bytes.split_at(size);
    let (_, units) = string.split_at(1);
    Ok((bytes[0] % 2 == 1, units))
}

/// The string before BIFF8: a count, and bytes in the page.
fn read_early_str(rest: &[u8], cch: u8) -> Result<(Ptg<&[u8]>, usize), XlsError>
    requires { 1 ≤ length rest.now }
    ensures exact { Exactly as_read result (early_str_at cch rest.now) }
    ensures within { IfOk result (λ x. x.1 ≤ length rest.now) }
{
    let size = usize::from(cch);
    if rest.len() < 1 + size {
        return Err(short(1 + size, rest.len(), Part::PtgStr));
    }
    let (_, bytes) = rest.split_at(1);
    let (units, _) = bytes.split_at(size);
    let string = Ptg::Str {
        units,
        cch,
        high_byte: None,
    };
    Ok((string, 1 + size))
}

/// 17 (PtgStr), [MS-XLS] 2.5.198.89: a count byte and a string without a count, or before BIFF8 so
/// many bytes.
pub(crate) fn read_str(rest: &[u8], biff: Biff) -> Result<(Ptg<&[u8]>, usize), XlsError>
    ensures exact { Exactly as_read result (str_token_at biff rest.now) }
    ensures within { IfOk result (λ x. x.1 ≤ length rest.now) }
{
    if rest.len() < 1 {
        return Err(short(1, rest.len(), Part::PtgStr));
    }
    let cch = rest[0];
    if !is_biff8(biff) {
        return read_early_str(rest, cch);
    }
    let (_, string) = rest.split_at(1);
    let (is_wide, units) = split_no_cch(cch, string)?;
    let string = Ptg::Str {
        units,
        cch,
        high_byte: Some(is_wide),
    };
    Ok((string, 2 + units.len()))
}
