//! Colours, by their numbers and the palette.

ghost use Rattle.std.specs.Prelude.{◌≡◌, ◌≤◌, ◌<◌, ◌++◌, IfOk, OnOk, length};
ghost use Rattle.xls_parts.specs.PartRecords.{globals_records};
ghost use Rattle.xls_styles.specs.Colors as colors;

use crate::types::PALETTE;
use std::alloc::{AllocError, Global};
use std::fmt;
use xls_bytes::read_u16;
use xls_parts::GlobalsRecords;
use xls_record::{Biff, is_biff8};

/// A colour.
#[derive(Clone, Copy, Debug, PartialEq, Eq)]
pub enum Color {
    /// That of the system.
    Auto,
    /// Red, green and blue, as 00rrggbb.
    Rgb(u32),
}

/// `#rrggbb` or `auto`.
impl fmt::Display for Color {
    ghost use Rattle.std.specs.Prelude.{Some};
    ghost use Rattle.xls_styles.specs.Colors.{color_text};

    ghost output = { λ color. Some (color_text color) };

    #[tactic(auto, using(crate::proofs::HexLemmas::padded_hex))]
    fn fmt<W: fmt::Write>(&self, f: &mut fmt::Formatter<W>) -> fmt::Result {
        match self {
            Color::Auto => f.write_str("auto"),
            Color::Rgb(rgb) => write!(f, "#{rgb:06x}"),
        }
    }
}

/// The palette of BIFF8 without a Palette record, from colour 8 on.
const COLORS_OF_BIFF8: [u32; 56] = [
    0x000000, 0xFFFFFF, 0xFF0000, 0x00FF00, 0x0000FF, 0xFFFF00, 0xFF00FF, 0x00FFFF, //
    0x800000, 0x008000, 0x000080, 0x808000, 0x800080, 0x008080, 0xC0C0C0, 0x808080, //
    0x9999FF, 0x993366, 0xFFFFCC, 0xCCFFFF, 0x660066, 0xFF8080, 0x0066CC, 0xCCCCFF, //
    0x000080, 0xFF00FF, 0xFFFF00, 0x00FFFF, 0x800080, 0x800000, 0x008080, 0x0000FF, //
    0x00CCFF, 0xCCFFFF, 0xCCFFCC, 0xFFFF99, 0x99CCFF, 0xFF99CC, 0xCC99FF, 0xFFCC99, //
    0x3366FF, 0x33CCCC, 0x99CC00, 0xFFCC00, 0xFF9900, 0xFF6600, 0x666699, 0x969696, //
    0x003366, 0x339966, 0x003300, 0x333300, 0x993300, 0x993366, 0x333399, 0x333333, //
];

/// The same before BIFF8.
const COLORS_BEFORE_BIFF8: [u32; 56] = [
    0x000000, 0xFFFFFF, 0xFF0000, 0x00FF00, 0x0000FF, 0xFFFF00, 0xFF00FF, 0x00FFFF, //
    0x800000, 0x008000, 0x000080, 0x808000, 0x800080, 0x008080, 0xC0C0C0, 0x808080, //
    0x8080FF, 0x802060, 0xFFFFC0, 0xA0E0E0, 0x600080, 0xFF8080, 0x0080C0, 0xC0C0FF, //
    0x000080, 0xFF00FF, 0xFFFF00, 0x00FFFF, 0x800080, 0x800000, 0x008080, 0x0000FF, //
    0x00CFFF, 0x69FFFF, 0xE0FFE0, 0xFFFF80, 0xA6CAF0, 0xDD9CB3, 0xB38FEE, 0xE3E3E3, //
    0x2A6FF9, 0x3FB8CD, 0x488436, 0x958C41, 0x8E5E42, 0xA0627A, 0x624FAC, 0x969696, //
    0x1D2FBE, 0x286676, 0x004500, 0x453E01, 0x6A2813, 0x85396A, 0x4A3285, 0x424242, //
];

/// The colour at a place of the palette that a workbook has without a Palette record; 0 past it.
fn default_at(version: Biff, place: u16) -> u32
    ensures { result ≡ colors.default_at version place }
{
    let found = if is_biff8(version) {
        COLORS_OF_BIFF8.get(usize::from(place))
    } else {
        COLORS_BEFORE_BIFF8.get(usize::from(place))
    };
    match found {
        Some(color) => *color,
        None => 0,
    }
}

/// The colour that some bytes begin with.
fn rgb_at(bytes: &[u8]) -> u32
    requires { 4 ≤ length bytes.now }
    ensures { result ≡ colors.rgb_at bytes.now }
{
    u32::from(bytes[0]) * 0x01_0000 + u32::from(bytes[1]) * 0x0100 + u32::from(bytes[2])
}

/// So many colours, of those that are there whole.
fn colors_in(alloc: Global, bytes: &[u8], count: u16) -> Result<Vec<u32>, AllocError>
    ensures { IfOk result (λ found. found.items ≡ colors.colors_in count bytes.now) }
{
    let mut found = Vec::new(alloc);
    let mut left = count;
    let mut rest = bytes;
    'colors: while left > 0 && rest.len() >= 4 {
        found.push(rgb_at(rest))?;
        let (_, others) = rest.split_at(4);
        rest = others;
        left -= 1;
    }
    Ok(found)
}

/// The colours of a Palette record, 56 at most.
fn record_colors(alloc: Global, body: &[u8]) -> Result<Vec<u32>, AllocError>
    ensures { IfOk result (λ found. found.items ≡ colors.record_colors body.now) }
{
    if body.len() < 2 {
        return Ok(Vec::new(alloc));
    }
    let (_, bytes) = body.split_at(2);
    colors_in(alloc, bytes, read_u16(body).min(56))
}

/// The colours of the last Palette record of the globals.
pub(crate) fn read_palette(alloc: Global, stream: &[u8]) -> Result<Vec<u32>, AllocError>
    ensures { IfOk result (λ found. found.items ≡ colors.palette_of (globals_records stream.now)) }
{
    let mut found = Vec::new(alloc);
    'records: for r in GlobalsRecords::new(stream) {
        if r.typ == PALETTE {
            found = record_colors(alloc, r.body)?;
        }
    }
    Ok(found)
}

/// The colour of a place in the palette.
fn palette_at(version: Biff, palette: &[u32], place: u16) -> u32
    ensures { result ≡ colors.palette_at version palette.now place }
{
    match palette.get(usize::from(place)) {
        Some(color) => *color,
        None => default_at(version, place),
    }
}

/// The colour of a number, with the colours of a Palette record.
pub(crate) fn color_of(version: Biff, palette: &[u32], icv: u16) -> Color
    ensures { result ≡ colors.color_of version palette.now icv }
{
    match icv {
        0..=7 => Color::Rgb(default_at(version, icv)),
        8..=63 => Color::Rgb(palette_at(version, palette, icv - 8)),
        _ => Color::Auto,
    }
}
