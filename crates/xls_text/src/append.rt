//! Text at the end of a text. The private functions may stop halfway where memory runs out, and
//! then the text has grown; the public calls cut it back.

ghost use Rattle.std.specs.Prelude.{◌≡◌, ◌++◌, map, IfOk, OnOk, OnErr, ◌<◌, Some, true, false, None};
ghost use Rattle.std.specs.String.{string_bytes};
ghost use Rattle.std.specs.Str.{encode_utf8_all, IsAscii};
ghost use Rattle.std.specs.Str.Lossy.{utf8_lossy};
ghost use Rattle.std.specs.Char.Utf16.{utf16_lossy_chars};
ghost use Rattle.bstr.specs.Utf8.{lossy_chars};
ghost use Rattle.xls_bytes.specs.Growth.{IsGrown};
ghost use Rattle.xls_text.specs.Pages.{units_of, windows_1252, byte_character, decoded};
ghost use Rattle.xls_text.specs.declared.encoding.XlsEncoding.TheVariants.{Utf16};

use crate::single::{character, first_stretch};
use crate::units::{first_char, first_wide_char, text_size};
use std::alloc::{AllocError, Global};
use std::str::from_utf8;

// Units of UTF-16.
fn append_units(units: &[u16], s: &mut String) -> Result<(), AllocError>
    ensures ok { OnOk result (string_bytes s.new
        ≡ string_bytes s.old ++ encode_utf8_all (utf16_lossy_chars units.now)) }
    ensures grown { IsGrown (string_bytes s.old) (string_bytes s.new) }
{
    let mut rest = units;
    'units: while let Some((first, after)) = first_char(rest) {
        s.push(first)?;
        rest = after;
    }
    Ok(())
}

/// Appends the text of 16-bit units: a unit D800 to DBFF followed by DC00 to DFFF is one character,
/// each other surrogate is U+FFFD. Only running out of memory refuses, and then the text is as it
/// was.
pub fn push_units(units: &[u16], s: &mut String) -> Result<(), AllocError>
    ensures ok { OnOk result (string_bytes s.new
        ≡ string_bytes s.old ++ encode_utf8_all (utf16_lossy_chars units.now)) }
    ensures err { OnErr result (string_bytes s.new ≡ string_bytes s.old) }
{
    let before = s.len();
    let done = append_units(units, s);
    if done.is_err() {
        s.truncate(before);
    }
    done
}

/// The text of 16-bit units, by the same rule, allocated once at its size. Only running out of memory
/// refuses.
pub fn text_of_units(alloc: Global, units: &[u16]) -> Result<String, AllocError>
    ensures { IfOk result (λ t. string_bytes t ≡ encode_utf8_all (utf16_lossy_chars units.now)) }
{
    let mut text = String::with_capacity(alloc, text_size(units))?;
    append_units(units, &mut text)?;
    Ok(text)
}

/// Units of two bytes each. A last odd byte is passed over.
pub(crate) fn append_wide(bytes: &[u8], s: &mut String) -> Result<(), AllocError>
    ensures ok { OnOk result (string_bytes s.new
        ≡ string_bytes s.old ++ encode_utf8_all (utf16_lossy_chars (units_of bytes.now))) }
    ensures grown { IsGrown (string_bytes s.old) (string_bytes s.new) }
{
    let mut rest = bytes;
    'units: while let Some((first, after)) = first_wide_char(rest) {
        s.push(first)?;
        rest = after;
    }
    Ok(())
}

/// Units of two bytes each, and U+FFFD for a last odd byte.
pub(crate) fn append_utf16(bytes: &[u8], s: &mut String) -> Result<(), AllocError>
    ensures ok { OnOk result (string_bytes s.new
        ≡ string_bytes s.old ++ encode_utf8_all (decoded Utf16 bytes.now)) }
    ensures grown { IsGrown (string_bytes s.old) (string_bytes s.new) }
{
    append_wide(bytes, s)?;
    if bytes.len() % 2 == 1 {
        s.push('\u{FFFD}')?;
    }
    Ok(())
}

// ASCII is text as it stands.
fn append_ascii(bytes: &[u8], s: &mut String) -> Result<(), AllocError>
    requires { IsAscii bytes.now }
    ensures ok { OnOk result (string_bytes s.new ≡ string_bytes s.old ++ bytes.now) }
    ensures grown { IsGrown (string_bytes s.old) (string_bytes s.new) }
{
    let text = from_utf8(bytes).unwrap();
    s.push_str(text)?;
    Ok(())
}

// Each byte is one character: under page 1252, or else its own number. ASCII stretches go over
// whole.
fn append_single(bytes: &[u8], is_windows_1252: bool, s: &mut String) -> Result<(), AllocError>
    ensures ok { OnOk result (string_bytes s.new ≡ string_bytes s.old
        ++ encode_utf8_all (map (byte_character is_windows_1252) bytes.now)) }
    ensures grown { IsGrown (string_bytes s.old) (string_bytes s.new) }
{
    let mut rest = bytes;
    'stretches: while let Some((ascii, byte, after)) = first_stretch(rest) {
        append_ascii(ascii, s)?;
        s.push(character(byte, is_windows_1252))?;
        rest = after;
    }
    append_ascii(rest, s)
}

/// Each byte is its own character: units of one byte, and page 28591.
pub(crate) fn append_narrow(bytes: &[u8], s: &mut String) -> Result<(), AllocError>
    ensures ok { OnOk result (string_bytes s.new
        ≡ string_bytes s.old ++ encode_utf8_all bytes.now) }
    ensures grown { IsGrown (string_bytes s.old) (string_bytes s.new) }
{
    append_single(bytes, false, s)
}

/// Bytes of page 1252.
pub(crate) fn append_windows_1252(bytes: &[u8], s: &mut String) -> Result<(), AllocError>
    ensures ok { OnOk result (string_bytes s.new
        ≡ string_bytes s.old ++ encode_utf8_all (map windows_1252 bytes.now)) }
    ensures grown { IsGrown (string_bytes s.old) (string_bytes s.new) }
{
    append_single(bytes, true, s)
}

/// Bytes of page 65001.
pub(crate) fn append_utf8(bytes: &[u8], s: &mut String) -> Result<(), AllocError>
    ensures lossy { OnOk result (string_bytes s.new ≡ string_bytes s.old ++ utf8_lossy bytes.now) }
    ensures ok { OnOk result (string_bytes s.new
        ≡ string_bytes s.old ++ encode_utf8_all (lossy_chars bytes.now)) }
    ensures grown { IsGrown (string_bytes s.old) (string_bytes s.new) }
{
    'chunks: for chunk in bytes.utf8_chunks() {
        s.push_str(chunk.valid())?;
        if !chunk.invalid().is_empty() {
            s.push('\u{FFFD}')?;
        }
    }
    Ok(())
}
