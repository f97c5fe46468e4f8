//! The values of properties as texts.

ghost use Rattle.std.specs.Prelude.{◌≡◌, ◌<◌, ◌^◌, IfOk, IfSome, Option};
ghost use Rattle.std.specs.Option.{option_map, unwrap_or};
ghost use Rattle.std.specs.String.{string_bytes};
ghost use Rattle.xls_props.specs.Values.{Value, Plain, value_unless_empty, stored_bool_text, paged_text, bytes_text, units_text, plain_of_type, moment_at, value_at, Shows, ShowsValue, page_in, page_number, field, version_text, app_version};
ghost use Rattle.xls_props.specs.Stored.{stored_value, StoresText};

use crate::bytes::{bytes_at, i16_at, i32_at, u16_at, u32_at, u64_at};
use crate::entries::{Entry, first_of, last_of};
use crate::moments::{is_no_moment, moment_text};
use crate::texts::drop_nuls;
use std::alloc::{AllocError, Global};
use std::fmt;
use xls_data::Number;
use xls_text::XlsEncoding;

/// A signed number of 16 bits.
const VT_I2: u16 = 0x0002;

/// A signed number of 32 bits.
const VT_I4: u16 = 0x0003;

/// A double.
const VT_R8: u16 = 0x0005;

/// A truth value: a number of 16 bits, 0 for false.
const VT_BOOL: u16 = 0x000B;

/// An unsigned number of 32 bits.
const VT_UI4: u16 = 0x0013;

/// Bytes in the section's page.
const VT_LPSTR: u16 = 0x001E;

/// Units of UTF-16.
const VT_LPWSTR: u16 = 0x001F;

/// A moment.
const VT_FILETIME: u16 = 0x0040;

/// A value as it stands in a section: its number, or its bytes.
#[derive(Clone, Copy)]
pub(crate) enum Stored<'a> {
    /// A signed number of 16 bits.
    Short(i16),
    /// A signed number of 32 bits.
    Long(i32),
    /// An unsigned number of 32 bits.
    Unsigned(u32),
    /// The bits of a double.
    Double(u64),
    /// A truth value, 0 for false.
    Truth(u16),
    /// Bytes in a page.
    Text(XlsEncoding, &'a [u8]),
    /// A FILETIME that has a text.
    Moment(u64),
}

fn bytes_at_count(page: XlsEncoding, s: &[u8], at: usize) -> Option<Stored<'_>>
    requires { at < 2 ^ 40 }
    ensures { option_map stored_value result ≡ option_map Plain (bytes_text page s.now at) }
{
    let n = u32_at(s, at)?;
    let bytes = bytes_at(s, at + 4, n as usize)?;
    Some(Stored::Text(page, bytes))
}

fn units_at_count(s: &[u8], at: usize) -> Option<Stored<'_>>
    requires { at < 2 ^ 40 }
    ensures { option_map stored_value result ≡ option_map Plain (units_text s.now at) }
{
    let n = u32_at(s, at)?;
    let bytes = bytes_at(s, at + 4, 2 * n as usize)?;
    Some(Stored::Text(XlsEncoding::Utf16, bytes))
}

// A value of a type, but no moment.
fn plain_of_type(typ: u16, page: XlsEncoding, s: &[u8], at: usize) -> Option<Stored<'_>>
    requires { at < 2 ^ 40 }
    ensures shows { option_map stored_value result ≡ option_map Plain (plain_of_type typ page s.now at) }
    ensures texts { IfSome result StoresText }
{
    match typ {
        VT_I2 => Some(Stored::Short(i16_at(s, at)?)),
        VT_I4 => Some(Stored::Long(i32_at(s, at)?)),
        VT_R8 => Some(Stored::Double(u64_at(s, at)?)),
        VT_BOOL => Some(Stored::Truth(u16_at(s, at)?)),
        VT_UI4 => Some(Stored::Unsigned(u32_at(s, at)?)),
        VT_LPSTR => bytes_at_count(page, s, at),
        VT_LPWSTR => units_at_count(s, at),
        _ => None,
    }
}

fn moment_at(s: &[u8], at: usize) -> Option<Stored<'_>>
    ensures shows { option_map stored_value result ≡ moment_at s.now at }
    ensures texts { IfSome result StoresText }
{
    let n = u64_at(s, at)?;
    if is_no_moment(n) {
        return None;
    }
    Some(Stored::Moment(n))
}

/// The value of the property whose type stands at a place, in no memory of its own.
pub(crate) fn stored_at(page: XlsEncoding, s: &[u8], at: usize) -> Option<Stored<'_>>
    requires { at < 2 ^ 32 }
    ensures shows { option_map stored_value result ≡ value_at page s.now at }
    ensures texts { IfSome result StoresText }
{
    let typ = u16_at(s, at)?;
    if typ == VT_FILETIME {
        return moment_at(s, at + 4);
    }
    plain_of_type(typ, page, s, at + 4)
}

fn paged_text(alloc: Global, page: XlsEncoding, bytes: &[u8]) -> Result<String, AllocError>
    ensures { IfOk result (λ t. string_bytes t ≡ paged_text page bytes.now) }
{
    let mut text = page.decode_all(alloc, bytes)?;
    drop_nuls(&mut text);
    Ok(text)
}

fn bool_text(alloc: Global, n: u16) -> Result<String, AllocError>
    ensures { IfOk result (λ t. string_bytes t ≡ stored_bool_text n) }
{
    if n == 0 {
        String::from_str(alloc, "false")
    } else {
        String::from_str(alloc, "true")
    }
}

/// The text that shows a value.
pub(crate) fn text_of(alloc: Global, value: Stored<'_>) -> Result<String, AllocError>
    requires { StoresText value }
    ensures { IfOk result (λ t. ShowsValue (stored_value value.entry) (string_bytes t)) }
{
    match value {
        Stored::Short(n) => Ok(format!(in alloc; "{n}")?),
        Stored::Long(n) => Ok(format!(in alloc; "{n}")?),
        Stored::Unsigned(n) => Ok(format!(in alloc; "{n}")?),
        Stored::Double(bits) => {
            let number = Number::Bits(bits);
            Ok(format!(in alloc; "{number}")?)
        }
        Stored::Truth(n) => bool_text(alloc, n),
        Stored::Text(page, bytes) => paged_text(alloc, page, bytes),
        Stored::Moment(n) => moment_text(alloc, n),
    }
}

// The text of the property whose type stands at a place.
fn value_at(
    alloc: Global,
    page: XlsEncoding,
    s: &[u8],
    at: usize,
) -> Result<Option<String>, AllocError>
    requires { at < 2 ^ 32 }
    ensures { IfOk result (λ t. Shows (value_at page s.now at) t) }
{
    let Some(value) = stored_at(page, s, at) else {
        return Ok(None);
    };
    let text = text_of(alloc, value)?;
    Ok(Some(text))
}

fn page_number(entries: &[Entry], s: &[u8]) -> Option<u16>
    ensures { result ≡ page_number entries.now s.now }
{
    let at = first_of(1, entries)? as usize;
    if u16_at(s, at)? == VT_I2 {
        u16_at(s, at + 4)
    } else {
        None
    }
}

/// The page of a section. One that isn't read is UTF-8.
pub(crate) fn page_in(entries: &[Entry], s: &[u8]) -> XlsEncoding
    ensures { result ≡ page_in entries.now s.now }
{
    let number = page_number(entries, s).unwrap_or(1200);
    match XlsEncoding::from_codepage(number) {
        Ok(page) => page,
        Err(_) => XlsEncoding::Utf8,
    }
}

// An empty text is none.
fn unless_empty(text: Option<String>) -> Option<String>
    ensures { (v : Option Value) → Shows v text → Shows (value_unless_empty v) result }
{
    let text = text?;
    if text.is_empty() { None } else { Some(text) }
}

/// A field: the text of the last entry of its number, unless it is empty.
pub(crate) fn field(
    alloc: Global,
    number: u32,
    s: &[u8],
    entries: &[Entry],
    page: XlsEncoding,
) -> Result<Option<String>, AllocError>
    ensures { IfOk result (λ t. Shows (field number s.now entries.now page) t) }
{
    let Some(at) = last_of(number, entries) else {
        return Ok(None);
    };
    let text = value_at(alloc, page, s, at as usize)?;
    Ok(unless_empty(text))
}

// A version: the high half, a dot, and the low half in at least four digits.
#[derive(Clone, Copy)]
struct Version(u32);

impl fmt::Display for Version {
    ghost use Rattle.std.specs.Prelude.{Some};
    ghost use Rattle.xls_props.specs.Values.{version_text};

    ghost output = { λ x. Some (version_text x.0) };

    fn fmt<W: fmt::Write>(&self, f: &mut fmt::Formatter<W>) -> fmt::Result {
        let high = self.0 / 0x1_0000;
        let low = self.0 % 0x1_0000;
        if low < 10 {
            write!(f, "{high}.000{low}")
        } else if low < 100 {
            write!(f, "{high}.00{low}")
        } else if low < 1000 {
            write!(f, "{high}.0{low}")
        } else {
            write!(f, "{high}.{low}")
        }
    }
}

/// The version of the application, by the first entry of its number.
pub(crate) fn app_version(
    alloc: Global,
    s: &[u8],
    entries: &[Entry],
) -> Result<Option<String>, AllocError>
    ensures { IfOk result (λ t. option_map string_bytes t ≡ app_version s.now entries.now) }
{
    let Some(version) = version_in(s, entries) else {
        return Ok(None);
    };
    Ok(Some(format!(in alloc; "{version}")?))
}

// The number of that version, where its type is a number of 32 bits.
fn version_in(s: &[u8], entries: &[Entry]) -> Option<Version>
    ensures { option_map (λ v. version_text v.0) result ≡ app_version s.now entries.now }
{
    let at = first_of(0x17, entries)? as usize;
    let typ = u16_at(s, at)?;
    if typ != VT_I4 && typ != VT_UI4 {
        return None;
    }
    Some(Version(u32_at(s, at + 4)?))
}
