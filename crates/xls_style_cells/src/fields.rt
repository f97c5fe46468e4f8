//! Numbers at a place of a record, which may be shorter.

ghost use Rattle.std.specs.Prelude.{◌≡◌, ◌<◌, ◌^◌, drop};
ghost use Rattle.xls_style_cells.specs.Fields as fields;

use xls_bytes::{read_u16, read_u32};

/// The bytes behind the first so many; none where there are fewer.
pub(crate) fn bytes_from(bytes: &[u8], count: usize) -> &[u8]
    ensures { result.now ≡ drop count bytes.now }
{
    if bytes.len() < count {
        return &[];
    }
    let (_, rest) = bytes.split_at(count);
    rest
}

/// The 16-bit number at a place; 0 where its bytes aren't there.
pub(crate) fn u16_at(bytes: &[u8], place: usize) -> u16
    ensures { result ≡ fields.u16_at place bytes.now }
{
    let rest = bytes_from(bytes, place);
    if rest.len() < 2 {
        return 0;
    }
    read_u16(rest)
}

/// The 32-bit number at a place; 0 where its bytes aren't there.
pub(crate) fn u32_at(bytes: &[u8], place: usize) -> u32
    ensures { result ≡ fields.u32_at place bytes.now }
{
    let rest = bytes_from(bytes, place);
    if rest.len() < 4 {
        return 0;
    }
    read_u32(rest)
}
