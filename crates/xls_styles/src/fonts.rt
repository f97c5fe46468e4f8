//! Fonts.

ghost use Rattle.std.specs.Prelude.{◌≡◌, ◌≤◌, ◌++◌, [], IfOk, OnOk, length, map};
ghost use Rattle.std.specs.Option.{option_copied, option_map};
ghost use Rattle.xls_parts.specs.PartRecords.{globals_records};
ghost use Rattle.xls_strings.specs.Texts.{text_of};
ghost use Rattle.xls_text.specs.Pages.{string_text};
ghost use Rattle.xls_styles.specs.Fonts as fonts;
ghost use Rattle.xls_styles.specs.Fonts.{font_view, font_view_if};
ghost use Rattle.xls_strings.specs.Strings.{short_string_at};

use crate::fields::{bit, field, wide_field};
use crate::types::FONT;
use std::alloc::{AllocError, Global};
use xls_parts::GlobalsRecords;
use xls_record::Biff;
use xls_strings::split_short;
use xls_text::XlsEncoding;

/// The line below a text.
#[derive(Clone, Copy, Debug, PartialEq, Eq)]
pub enum Underline {
    NoLine,
    Single,
    Double,
}

/// How a text stands to the line that it is written on.
#[derive(Clone, Copy, Debug, PartialEq, Eq)]
pub enum Script {
    Normal,
    Superscript,
    Subscript,
}

/// The marks of a font.
#[derive(Clone, Copy, Debug, PartialEq, Eq)]
pub struct FontMarks {
    pub is_bold: bool,
    pub is_italic: bool,
    pub is_strike: bool,
    pub underline: Underline,
    pub script: Script,
}

/// A font, [MS-XLS] 2.4.122.
#[derive(Drop)]
pub(crate) struct Font {
    /// In twentieths of a point.
    pub(crate) height: u16,
    /// The number of its colour.
    pub(crate) color: u16,
    pub(crate) marks: FontMarks,
    pub(crate) name: String,
}

pub(crate) const NO_MARKS: FontMarks = FontMarks {
    is_bold: false,
    is_italic: false,
    is_strike: false,
    underline: Underline::NoLine,
    script: Script::Normal,
};

fn script_of(sss: u16) -> Script
    ensures { result ≡ fonts.script_of sss }
{
    match sss {
        1 => Script::Superscript,
        2 => Script::Subscript,
        _ => Script::Normal,
    }
}

fn underline_of(uls: u8) -> Underline
    ensures { result ≡ fonts.underline_of uls }
{
    match uls {
        0x01 | 0x21 => Underline::Single,
        0x02 | 0x22 => Underline::Double,
        _ => Underline::NoLine,
    }
}

/// The marks in the body of a Font.
fn marks_at(body: &[u8]) -> FontMarks
    ensures { result ≡ fonts.marks_at body.now }
{
    FontMarks {
        is_bold: wide_field(body, 6, 0, 16) >= 600,
        is_italic: bit(body, 2, 1),
        is_strike: bit(body, 2, 3),
        underline: underline_of(field(body, 10, 0, 8)),
        script: script_of(wide_field(body, 8, 0, 16)),
    }
}

/// The text of at most so many characters at the start of some bytes.
pub(crate) fn text_at(
    alloc: Global,
    page: &XlsEncoding,
    bytes: &[u8],
    count: usize,
    high_byte: Option<bool>,
) -> Result<String, AllocError>
    ensures { IfOk result (λ text. text_of text ≡ string_text page.now high_byte bytes.now count) }
{
    let mut text = String::new(alloc);
    page.decode_to(bytes, count, &mut text, high_byte)?;
    Ok(text)
}

/// The empty text.
pub(crate) fn no_text(alloc: Global) -> String
    ensures { text_of result ≡ [] }
{
    String::new(alloc)
}

/// The text of a short string; none where its count or its flags aren't there.
pub(crate) fn short_text(
    alloc: Global,
    bytes: &[u8],
    version: Biff,
    page: &XlsEncoding,
) -> Result<String, AllocError>
    ensures { IfOk result (λ text. text_of text ≡ fonts.or_empty (short_string_at page.now version bytes.now)) }
{
    match split_short(bytes, version) {
        Ok((count, high_byte, rest)) => text_at(alloc, page, rest, count, high_byte),
        Err(_) => Ok(no_text(alloc)),
    }
}

/// In the place of a Font that is damaged.
fn damaged_font(alloc: Global) -> Font
    ensures { font_view result ≡ fonts.damaged_font }
{
    Font {
        height: 0,
        color: 0x7FFF,
        marks: NO_MARKS,
        name: no_text(alloc),
    }
}

/// The font of a Font record's body.
fn font_of(
    alloc: Global,
    body: &[u8],
    version: Biff,
    page: &XlsEncoding,
) -> Result<Font, AllocError>
    ensures { IfOk result (λ font. font_view font ≡ fonts.font_of version page.now body.now) }
{
    if body.len() < 15 {
        return Ok(damaged_font(alloc));
    }
    let (_, name) = body.split_at(14);
    Ok(Font {
        height: wide_field(body, 0, 0, 16),
        color: wide_field(body, 4, 0, 16),
        marks: marks_at(body),
        name: short_text(alloc, name, version, page)?,
    })
}

/// The fonts of the globals, in order.
pub(crate) fn read_fonts(
    alloc: Global,
    stream: &[u8],
    version: Biff,
    page: &XlsEncoding,
) -> Result<Vec<Font>, AllocError>
    ensures { IfOk result (λ found. map font_view found.items ≡ fonts.fonts_of version page.now (globals_records stream.now)) }
{
    let mut found = Vec::new(alloc);
    'records: for r in GlobalsRecords::new(stream) {
        if r.typ == FONT {
            found.push(font_of(alloc, r.body, version, page)?)?;
        }
    }
    Ok(found)
}

/// The font of an index: the first four have 0 to 3, and 4 none.
pub(crate) fn font_at(found: &[Font], index: u16) -> Option<&Font>
    ensures { font_view_if (option_copied result) ≡ fonts.font_at (map font_view found.now) index }
{
    match index {
        0..=3 => found.get(usize::from(index)),
        4 => None,
        _ => found.get(usize::from(index) - 1),
    }
}
