//! Strings in the body of a record.

ghost use Rattle.std.specs.Prelude.{◌≡◌, IfOk};
ghost use Rattle.xls_text.specs.Pages.{string_text};
ghost use Rattle.xls_record.specs.Reading.{Exactly, Gives};
ghost use Rattle.xls_strings.specs.Strings.{short_prefix, short_string_at, string_at, string_prefix};
ghost use Rattle.xls_strings.specs.Texts.{text_of};

use std::alloc::{AllocError, Global};
use xls_bytes::read_u16;
use xls_record::{Biff, XlsError, is_biff8, need};
use xls_stream::Part;
use xls_text::XlsEncoding;

/// The count of a short string, ShortXLUnicodeString, the flag of its width if it has one, and the
/// bytes after them. `Len` where count or flags aren't there. Takes no memory.
pub fn split_short(r: &[u8], biff: Biff) -> Result<(usize, Option<bool>, &[u8]), XlsError>
    ensures { Exactly (λ x. (x.0, x.1, x.2.now)) result (short_prefix biff r.now) }
{
    if is_biff8(biff) {
        need(r, 2, Part::ShortString)?;
        let (prefix, text) = r.split_at(2);
        return Ok((usize::from(prefix[0]), Some(prefix[1] % 2 == 1), text));
    }
    need(r, 1, Part::ShortString)?;
    let (prefix, text) = r.split_at(1);
    Ok((usize::from(prefix[0]), None, text))
}

/// The count of a string, XLUnicodeString, the flag of its width if it has one, and the bytes after
/// them. `Len` where count or flags aren't there. Takes no memory.
pub fn split_string(r: &[u8], biff: Biff) -> Result<(usize, Option<bool>, &[u8]), XlsError>
    ensures { Exactly (λ x. (x.0, x.1, x.2.now)) result (string_prefix biff r.now) }
{
    if is_biff8(biff) {
        if r.len() == 2 && read_u16(r) == 0 {
            return Ok((0, Some(false), &[]));
        }
        need(r, 3, Part::Text)?;
        let (prefix, text) = r.split_at(3);
        return Ok((usize::from(read_u16(r)), Some(prefix[2] % 2 == 1), text));
    }
    need(r, 2, Part::Text)?;
    let (_, text) = r.split_at(2);
    Ok((usize::from(read_u16(r)), None, text))
}

/// The text of at most `len` characters at the start of a stream.
pub(crate) fn decoded(
    alloc: Global,
    encoding: &XlsEncoding,
    stream: &[u8],
    len: usize,
    high_byte: Option<bool>,
) -> Result<String, AllocError>
    ensures { IfOk result (λ t. text_of t ≡ string_text encoding.now high_byte stream.now len) }
{
    let mut text = String::new(alloc);
    encoding.decode_to(stream, len, &mut text, high_byte)?;
    Ok(text)
}

/// The text of a short string, ShortXLUnicodeString ([MS-XLS] 2.5.240): a count byte, in BIFF8 a flags
/// byte, and units, or before BIFF8 bytes in the page. A count that passes the bytes gives the shorter
/// text, without a last half of a unit. `Len` where count or flags aren't there.
pub fn parse_short_string(
    alloc: Global,
    r: &[u8],
    encoding: &XlsEncoding,
    biff: Biff,
) -> Result<String, XlsError>
    ensures { Gives text_of result (short_string_at encoding.now biff r.now) }
{
    let (count, high_byte, text) = split_short(r, biff)?;
    Ok(decoded(alloc, encoding, text, count, high_byte)?)
}

/// The text of a string, XLUnicodeString ([MS-XLS] 2.5.294): two count bytes, in BIFF8 a flags byte,
/// and units, or before BIFF8 bytes in the page. A count that passes the bytes gives the shorter text,
/// without a last half of a unit. `Len` where count or flags aren't there, but for a BIFF8 string of
/// two zero bytes, which is empty.
pub fn parse_string(
    alloc: Global,
    r: &[u8],
    encoding: &XlsEncoding,
    biff: Biff,
) -> Result<String, XlsError>
    ensures { Gives text_of result (string_at encoding.now biff r.now) }
{
    let (count, high_byte, text) = split_string(r, biff)?;
    Ok(decoded(alloc, encoding, text, count, high_byte)?)
}
