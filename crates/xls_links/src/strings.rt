//! Texts of a link, each up to its first NUL.

ghost use Rattle.std.specs.Prelude.{◌≡◌, ◌++◌, ◌≤◌, [], None, IfOk, OnOk, length, take, drop, min};
ghost use Rattle.std.specs.Char.Utf16.{utf16_lossy_chars};
ghost use Rattle.std.specs.Str.{chars};
ghost use Rattle.xls_strings.specs.Texts.{text_of};
ghost use Rattle.xls_text.specs.Pages.{units_of, string_text};
ghost use Rattle.xls_links.specs.Strings as strings;
ghost use Rattle.xls_links.specs.Strings.{until_nul, times_above};

use std::alloc::{AllocError, Global};
use xls_bytes::{first_char, read_u16};
use xls_text::{XlsEncoding, text_of_units};

/// The units of two bytes each before the first NUL.
fn units_until_nul(alloc: Global, bytes: &[u8]) -> Result<Vec<u16>, AllocError>
    ensures { IfOk result (λ units. units.items ≡ until_nul (units_of bytes.now)) }
{
    let mut units = Vec::new(alloc);
    let mut rest = bytes;
    'units: while rest.len() >= 2 {
        let (first, after) = rest.split_at(2);
        let unit = read_u16(first);
        if unit == 0 {
            return Ok(units);
        }
        units.push(unit)?;
        rest = after;
    }
    Ok(units)
}

/// All units of two bytes each.
fn all_units(alloc: Global, bytes: &[u8]) -> Result<Vec<u16>, AllocError>
    ensures { IfOk result (λ units. units.items ≡ units_of bytes.now) }
{
    let mut units = Vec::new(alloc);
    let mut rest = bytes;
    'units: while rest.len() >= 2 {
        let (first, after) = rest.split_at(2);
        units.push(read_u16(first))?;
        rest = after;
    }
    Ok(units)
}

/// The text of some units.
fn text_of(alloc: Global, units: &[u16]) -> Result<String, AllocError>
    ensures { IfOk result (λ text. text_of text ≡ utf16_lossy_chars units.now) }
{
    let text = text_of_units(alloc, units)?;
    Ok(text)
}

/// The text of units of two bytes each, up to the first NUL.
pub(crate) fn units_text(alloc: Global, bytes: &[u8]) -> Result<String, AllocError>
    ensures { IfOk result (λ text. text_of text ≡ strings.units_text bytes.now) }
{
    let units = units_until_nul(alloc, bytes)?;
    text_of(alloc, &units)
}

/// The text of all units of two bytes each.
pub(crate) fn whole_text(alloc: Global, bytes: &[u8]) -> Result<String, AllocError>
    ensures { IfOk result (λ text. text_of text ≡ utf16_lossy_chars (units_of bytes.now)) }
{
    let units = all_units(alloc, bytes)?;
    text_of(alloc, &units)
}

/// How many bytes stand before the first NUL.
fn size_until_nul(bytes: &[u8]) -> usize
    ensures size { take result bytes.now ≡ until_nul bytes.now }
    ensures within { result ≤ length bytes.now }
{
    let mut size = 0;
    'bytes: while size < bytes.len() && bytes[size] != 0 {
        size += 1;
    }
    size
}

/// The bytes before the first NUL.
fn bytes_until_nul(bytes: &[u8]) -> &[u8]
    ensures { result.now ≡ until_nul bytes.now }
{
    let (taken, _) = bytes.split_at(size_until_nul(bytes));
    taken
}

/// The text of bytes by the page.
fn decoded(alloc: Global, page: XlsEncoding, bytes: &[u8]) -> Result<String, AllocError>
    ensures { IfOk result (λ text. text_of text ≡ string_text page None bytes.now (length bytes.now)) }
{
    let mut text = String::new(alloc);
    page.decode_to(bytes, bytes.len(), &mut text, None)?;
    Ok(text)
}

/// The text of bytes by the page, up to the first NUL; under page 1200 each is its own character.
pub(crate) fn bytes_text(
    alloc: Global,
    page: XlsEncoding,
    bytes: &[u8],
) -> Result<String, AllocError>
    ensures { IfOk result (λ text. text_of text ≡ strings.bytes_text page bytes.now) }
{
    decoded(alloc, page, bytes_until_nul(bytes))
}

/// The empty text.
pub(crate) fn no_text(alloc: Global) -> String
    ensures { text_of result ≡ [] }
{
    String::new(alloc)
}

/// Appends a text.
pub(crate) fn push_text(text: &mut String, more: &str) -> Result<(), AllocError>
    ensures { OnOk result (text_of text.new ≡ text_of text.old ++ chars more.now) }
{
    text.push_str(more)?;
    Ok(())
}

/// So often `..\`, 256 times at most.
pub(crate) fn above(alloc: Global, count: usize) -> Result<String, AllocError>
    ensures { IfOk result (λ text. text_of text ≡ strings.above count) }
{
    let mut text = no_text(alloc);
    let mut left = count.min(256);
    'times: while left > 0 {
        push_text(&mut text, "..\\")?;
        left -= 1;
    }
    Ok(text)
}

/// Whether a text begins with `\\`.
pub(crate) fn is_unc(text: &str) -> bool
    ensures { result ≡ strings.is_unc (chars text.now) }
{
    match first_char(text) {
        Some((first, rest)) => {
            if first != '\\' {
                return false;
            }
            match first_char(rest) {
                Some((second, _)) => second == '\\',
                None => false,
            }
        }
        None => false,
    }
}
