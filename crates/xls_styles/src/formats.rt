//! The codes of the Format records.

ghost use Rattle.std.specs.Prelude.{◌≡◌, ◌++◌, ◌≤◌, IfOk, length, map, unwrap_or};
ghost use Rattle.std.specs.Str.{chars};
ghost use Rattle.xls_parts.specs.PartRecords.{globals_records};
ghost use Rattle.xls_strings.specs.Strings.{string_at};
ghost use Rattle.xls_strings.specs.Texts.{text_of};
ghost use Rattle.xls_styles.specs.Fonts as fonts;
ghost use Rattle.xls_styles.specs.Formats as formats;
ghost use Rattle.xls_styles.specs.Formats.{format_view};

use crate::codes::told_code;
use crate::fields::wide_field;
use crate::fonts::{no_text, short_text, text_at};
use crate::places::{last_code, last_places};
use std::alloc::{AllocError, Global};
use std::marker::Model;
use xls_parts::GlobalsRecords;
use xls_record::{Biff, is_biff8};
use xls_stream::types::FORMAT;
use xls_strings::split_string;
use xls_text::XlsEncoding;

/// The formats of the globals, in order, and the place of the last with each identifier, so that the code of one is found
/// at once. Contracts see the formats.
#[derive(Drop)]
pub(crate) struct Formats {
    codes: Vec<(u16, String)>,
    places: Vec<usize>,
}

impl Model for Formats {
    ghost use Rattle.std.specs.Prelude.{List, map};
    ghost use Rattle.xls_styles.specs.Formats.{AreLast, Format, format_view};

    ghost Value = { List Format };

    ghost view = { λ s. map format_view s.codes.items };

    ghost invariant = { λ s. AreLast (map format_view s.codes.items) (map format_view s.codes.items) s.places.items };
}

/// The text of a string; none where its count or its flags aren't there.
fn long_text(
    alloc: Global,
    bytes: &[u8],
    version: Biff,
    page: &XlsEncoding,
) -> Result<String, AllocError>
    ensures { IfOk result (λ text. text_of text ≡ fonts.or_empty (string_at page.now version bytes.now)) }
{
    match split_string(bytes, version) {
        Ok((count, high_byte, rest)) => text_at(alloc, page, rest, count, high_byte),
        Err(_) => Ok(no_text(alloc)),
    }
}

/// The code of a format.
fn code_at(
    alloc: Global,
    bytes: &[u8],
    version: Biff,
    page: &XlsEncoding,
) -> Result<String, AllocError>
    ensures { IfOk result (λ text. text_of text ≡ formats.code_at version page.now bytes.now) }
{
    if is_biff8(version) {
        long_text(alloc, bytes, version, page)
    } else {
        short_text(alloc, bytes, version, page)
    }
}

/// The identifier and the code of a Format record's body.
fn format_of(
    alloc: Global,
    body: &[u8],
    version: Biff,
    page: &XlsEncoding,
) -> Result<(u16, String), AllocError>
    requires { 2 ≤ length body.now }
    ensures { IfOk result (λ format. format_view format ≡ formats.format_of version page.now body.now) }
{
    let (_, code) = body.split_at(2);
    Ok((
        wide_field(body, 0, 0, 16),
        code_at(alloc, code, version, page)?,
    ))
}

/// The formats of the globals, in order.
fn read_codes(
    alloc: Global,
    stream: &[u8],
    version: Biff,
    page: &XlsEncoding,
) -> Result<Vec<(u16, String)>, AllocError>
    ensures { IfOk result (λ found. map format_view found.items ≡ formats.formats_of version page.now (globals_records stream.now)) }
{
    let mut found = Vec::new(alloc);
    'records: for r in GlobalsRecords::new(stream) {
        if r.typ == FORMAT && r.body.len() >= 2 {
            found.push(format_of(alloc, r.body, version, page)?)?;
        }
    }
    Ok(found)
}

impl Formats {
    /// Those of the globals.
    pub(crate) fn read(
        alloc: Global,
        stream: &[u8],
        version: Biff,
        page: &XlsEncoding,
    ) -> Result<Formats, AllocError>
        ensures { IfOk result (λ found. found ≡ formats.formats_of version page.now (globals_records stream.now)) }
    {
        let codes = read_codes(alloc, stream, version, page)?;
        let places = last_places(alloc, &codes)?;
        Ok(Formats { codes, places })
    }

    /// The code of an identifier: of the last format that has it, else the one that is built in.
    pub(crate) fn code(&self, ifmt: u16) -> &str
        ensures { chars result.now ≡ formats.code_of self.now ifmt }
    {
        match last_code(&self.codes, &self.places, ifmt) {
            Some(code) => code,
            None => told_code(ifmt),
        }
    }
}
