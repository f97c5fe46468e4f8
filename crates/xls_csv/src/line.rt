//! A field of a row of CSV, between quotes where it calls for them.

ghost use Rattle.std.specs.Prelude.{◌≡◌, ◌∷◌, ◌++◌, [], false, OnOk};
ghost use Rattle.std.specs.Str.{chars, encode_utf8_all};
ghost use Rattle.csv.specs.Writing.{default_writer, escaped, field_text, needs_byte, needs_quotes, quoted};
ghost use Rattle.xls_data.specs.Data.{bool_text};
ghost use Rattle.xls_data.specs.Errors.{error_text};

use std::alloc::AllocError;
use xls_data::CellErrorType;

/// Whether a byte calls for quotes. Most bytes are above them all.
#[inline(always)]
fn is_special(byte: u8) -> bool
    ensures { result ≡ needs_byte default_writer byte }
{
    if byte > b',' {
        return false;
    }
    matches!(byte, b',' | b'"' | b'\r' | b'\n')
}

/// Whether a field calls for quotes.
fn is_quoted(text: &[u8]) -> bool
    ensures { result ≡ needs_quotes default_writer text.now }
{
    for i in 0..text.len() {
        if is_special(text[i]) {
            return true;
        }
    }
    false
}

/// Appends a byte of a field between quotes: a quote is doubled.
fn push_doubled(bytes: &mut Vec<u8>, byte: u8) -> Result<(), AllocError>
    ensures { OnOk result (bytes.new.items ≡ bytes.old.items ++ escaped default_writer (byte ∷ [])) }
{
    if byte == b'"' {
        return bytes.extend_from_slice(b"\"\"");
    }
    bytes.push(byte)?;
    Ok(())
}

/// Appends a field between quotes.
fn push_quoted(bytes: &mut Vec<u8>, text: &[u8]) -> Result<(), AllocError>
    ensures { OnOk result (bytes.new.items ≡ bytes.old.items ++ quoted default_writer text.now) }
{
    bytes.push(b'"')?;
    for i in 0..text.len() {
        push_doubled(bytes, text[i])?;
    }
    bytes.push(b'"')?;
    Ok(())
}

/// Appends a field, between quotes if it calls for them.
fn push_field(bytes: &mut Vec<u8>, text: &[u8]) -> Result<(), AllocError>
    ensures { OnOk result (bytes.new.items ≡ bytes.old.items ++ field_text default_writer text.now) }
{
    if is_quoted(text) {
        return push_quoted(bytes, text);
    }
    bytes.extend_from_slice(text)
}

/// Appends the field of a text.
pub(crate) fn push_text(bytes: &mut Vec<u8>, text: &str) -> Result<(), AllocError>
    ensures { OnOk result (bytes.new.items ≡ bytes.old.items ++ field_text default_writer (encode_utf8_all (chars text.now))) }
{
    push_field(bytes, text.as_bytes())
}

/// Appends a field that calls for no quotes.
fn push_bare(bytes: &mut Vec<u8>, text: &[u8]) -> Result<(), AllocError>
    requires { needs_quotes default_writer text.now ≡ false }
    ensures { OnOk result (bytes.new.items ≡ bytes.old.items ++ field_text default_writer text.now) }
{
    bytes.extend_from_slice(text)
}

/// Appends the field of a truth value.
pub(crate) fn push_truth(bytes: &mut Vec<u8>, truth: bool) -> Result<(), AllocError>
    ensures { OnOk result (bytes.new.items ≡ bytes.old.items ++ field_text default_writer (bool_text truth)) }
{
    if truth {
        return push_bare(bytes, b"true");
    }
    push_bare(bytes, b"false")
}

/// Appends the field of an error value, which is printed in `room` first.
pub(crate) fn push_error(
    bytes: &mut Vec<u8>,
    room: &mut String,
    error: CellErrorType,
) -> Result<(), AllocError>
    ensures { OnOk result (bytes.new.items ≡ bytes.old.items ++ field_text default_writer (error_text error)) }
{
    room.clear();
    write!(room, "{error}")?;
    push_bare(bytes, room.as_bytes())
}
