//! Bytes taken from the front, one part after the other.

ghost use Rattle.std.specs.Prelude.{◌≡◌, ◌≤◌, IfOk, length, take, drop};
ghost use Rattle.std.specs.Int.{from_be_bytes, w64};
ghost use Rattle.xls_bytes.specs.Numbers.{le};
ghost use Rattle.xls_links.specs.Splitting as splitting;
ghost use Rattle.xls_links.specs.Splitting.{Exactly};

use crate::damage::Flaw;
use xls_bytes::read_usize;

/// So many bytes, and those behind; this flaw where there are fewer.
pub(crate) fn split_bytes(bytes: &[u8], count: usize, flaw: Flaw) -> Result<(&[u8], &[u8]), Flaw>
    ensures exact { Exactly (λ x. (x.0.now, x.1.now)) result (splitting.split_bytes flaw count bytes.now) }
    ensures size { IfOk result (λ x. length x.0.now ≡ count) }
{
    if bytes.len() < count {
        return Err(flaw);
    }
    Ok(bytes.split_at(count))
}

/// A 32-bit number, and the bytes behind it.
pub(crate) fn split_number(bytes: &[u8], flaw: Flaw) -> Result<(usize, &[u8]), Flaw>
    ensures { Exactly (λ x. (x.0, x.1.now)) result (splitting.split_number flaw bytes.now) }
{
    if bytes.len() < 4 {
        return Err(flaw);
    }
    let (_, rest) = bytes.split_at(4);
    Ok((read_usize(bytes), rest))
}

/// A 32-bit count and so many bytes, and those behind.
pub(crate) fn split_counted(bytes: &[u8], flaw: Flaw) -> Result<(&[u8], &[u8]), Flaw>
    ensures { Exactly (λ x. (x.0.now, x.1.now)) result (splitting.split_counted flaw bytes.now) }
{
    let (count, rest) = split_number(bytes, flaw)?;
    split_bytes(rest, count, flaw)
}

/// A 32-bit count and so many units of two bytes, and the bytes behind.
pub(crate) fn split_units(bytes: &[u8], flaw: Flaw) -> Result<(&[u8], &[u8]), Flaw>
    ensures { Exactly (λ x. (x.0.now, x.1.now)) result (splitting.split_units flaw bytes.now) }
{
    let (count, rest) = split_number(bytes, flaw)?;
    if count > rest.len() {
        return Err(flaw);
    }
    split_bytes(rest, 2 * count, flaw)
}
