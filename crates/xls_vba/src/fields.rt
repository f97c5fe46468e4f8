//! Fields from left to right: each reader gives a field and the bytes after it.

ghost use Rattle.std.specs.Prelude.{◌≡◌, ◌≤◌, ◌+◌, length, IfOk};
ghost use Rattle.xls_vba.specs.Fields.{Gives, bytes_from, skip, u16_from, u32_from, id_from, var_from, rec_from, skip_rec, page_from, skip_4a, information_from, header_from};

use crate::error::VbaError;
use xls_bytes::{read_u16, read_u32};
use xls_text::XlsEncoding;

// The first n bytes.
fn bytes_of(bytes: &[u8], n: usize) -> Result<(&[u8], &[u8]), VbaError>
    ensures exact { Gives (λ x. (x.0.now, x.1.now)) result (bytes_from n bytes.now) }
    ensures shorter { IfOk result (λ x. length x.1.now + n ≤ length bytes.now) }
{
    if bytes.len() < n {
        return Err(VbaError::Truncated);
    }
    Ok(bytes.split_at(n))
}

/// Skips the first n bytes.
#[tactic(auto, unfolding(crate::specs::Fields::skip))]
pub(crate) fn skip(bytes: &[u8], n: usize) -> Result<&[u8], VbaError>
    ensures exact { Gives (λ x. x.now) result (skip n bytes.now) }
    ensures shorter { IfOk result (λ x. length x.now + n ≤ length bytes.now) }
{
    let (_, rest) = bytes_of(bytes, n)?;
    Ok(rest)
}

/// A number of 16 bits.
pub(crate) fn u16_of(bytes: &[u8]) -> Result<(u16, &[u8]), VbaError>
    ensures exact { Gives (λ x. (x.0, x.1.now)) result (u16_from bytes.now) }
    ensures shorter { IfOk result (λ x. length x.1.now + 2 ≤ length bytes.now) }
{
    if bytes.len() < 2 {
        return Err(VbaError::Truncated);
    }
    let (_, rest) = bytes.split_at(2);
    Ok((read_u16(bytes), rest))
}

/// A number of 32 bits.
pub(crate) fn u32_of(bytes: &[u8]) -> Result<(u32, &[u8]), VbaError>
    ensures exact { Gives (λ x. (x.0, x.1.now)) result (u32_from bytes.now) }
    ensures shorter { IfOk result (λ x. length x.1.now + 4 ≤ length bytes.now) }
{
    if bytes.len() < 4 {
        return Err(VbaError::Truncated);
    }
    let (_, rest) = bytes.split_at(4);
    Ok((read_u32(bytes), rest))
}

/// The number of a record.
#[tactic(auto, unfolding(crate::specs::Fields::id_from))]
pub(crate) fn id_of(bytes: &[u8], expected: u16) -> Result<&[u8], VbaError>
    ensures exact { Gives (λ x. x.now) result (id_from expected bytes.now) }
    ensures shorter { IfOk result (λ x. length x.now + 2 ≤ length bytes.now) }
{
    let (found, rest) = u16_of(bytes)?;
    if found != expected {
        return Err(VbaError::InvalidRecordId { expected, found });
    }
    Ok(rest)
}

/// A length and so many bytes.
#[tactic(auto, unfolding(crate::specs::Fields::var_from))]
pub(crate) fn var_of(bytes: &[u8]) -> Result<(&[u8], &[u8]), VbaError>
    ensures exact { Gives (λ x. (x.0.now, x.1.now)) result (var_from bytes.now) }
    ensures shorter { IfOk result (λ x. length x.1.now ≤ length bytes.now) }
{
    let (n, rest) = u32_of(bytes)?;
    bytes_of(rest, n as usize)
}

/// A record: its number, a length and so many bytes.
#[tactic(auto, unfolding(crate::specs::Fields::rec_from))]
pub(crate) fn rec_of(bytes: &[u8], expected: u16) -> Result<(&[u8], &[u8]), VbaError>
    ensures exact { Gives (λ x. (x.0.now, x.1.now)) result (rec_from expected bytes.now) }
    ensures shorter { IfOk result (λ x. length x.1.now ≤ length bytes.now) }
{
    let rest = id_of(bytes, expected)?;
    var_of(rest)
}

/// Skips a record.
#[tactic(auto, unfolding(crate::specs::Fields::skip_rec))]
pub(crate) fn skip_rec(bytes: &[u8], expected: u16) -> Result<&[u8], VbaError>
    ensures exact { Gives (λ x. x.now) result (skip_rec expected bytes.now) }
    ensures shorter { IfOk result (λ x. length x.now ≤ length bytes.now) }
{
    let (_, rest) = rec_of(bytes, expected)?;
    Ok(rest)
}

fn page_of(number: u16) -> Result<XlsEncoding, VbaError>
    ensures { Gives (λ x. x) result (page_from number) }
{
    match XlsEncoding::from_codepage(number) {
        Ok(page) => Ok(page),
        Err(error) => Err(VbaError::Cfb(error)),
    }
}

// Skips the record of the number 004A, which may be left out.
#[tactic(auto, unfolding(crate::specs::Fields::skip_4a))]
fn skip_4a(bytes: &[u8]) -> Result<&[u8], VbaError>
    ensures { Gives (λ x. x.now) result (skip_4a bytes.now) }
{
    let (id, _) = u16_of(bytes)?;
    if id == 0x4A {
        skip(bytes, 10)
    } else {
        Ok(bytes)
    }
}

// Skips the project's name, its two documents and its two help files.
#[tactic(auto, unfolding(crate::specs::Fields::information_from))]
fn information_of(bytes: &[u8]) -> Result<&[u8], VbaError>
    ensures { Gives (λ x. x.now) result (information_from bytes.now) }
{
    let rest = skip_rec(bytes, 0x04)?;
    let rest = skip_rec(rest, 0x05)?;
    let rest = skip_rec(rest, 0x40)?;
    let rest = skip_rec(rest, 0x06)?;
    skip_rec(rest, 0x3D)
}

/// The header: its page.
#[tactic(auto, unfolding(crate::specs::Fields::header_from))]
pub(crate) fn header_of(bytes: &[u8]) -> Result<(XlsEncoding, &[u8]), VbaError>
    ensures { Gives (λ x. (x.0, x.1.now)) result (header_from bytes.now) }
{
    let rest = skip(bytes, 10)?;
    let rest = skip_4a(rest)?;
    let rest = skip(rest, 20)?;
    let rest = skip(rest, 6)?;
    let (number, rest) = u16_of(rest)?;
    let page = page_of(number)?;
    let rest = information_of(rest)?;
    let rest = skip(rest, 32)?;
    let rest = skip_rec(rest, 0x0C)?;
    let rest = skip_rec(rest, 0x3C)?;
    Ok((page, rest))
}
