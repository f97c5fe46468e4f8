//! What a style says, as numbers.

ghost use Rattle.std.specs.Prelude.{◌≡◌, ◌≤◌};
ghost use Rattle.xls_beside_arrays.specs.StyleNumbers as numbers;

use crate::items::BorderItem;
use xls_styles::{Alignment, Border, Color, Fill, FontMarks, Protection, Script, Size, Underline};

/// In the place of a size that isn't there, and the colour of the system.
const UNKNOWN: u32 = 0xFFFF_FFFF;

/// The colour of what isn't there.
const NO_COLOUR: u32 = 0xFFFF_FFFE;

/// A size in twentieths of a point.
pub(crate) fn size_number(size: Option<Size>) -> u32
    ensures { result ≡ numbers.size_number size }
{
    match size {
        Some(size) => u32::from(size.twentieths),
        None => UNKNOWN,
    }
}

/// A colour as 00rrggbb, or that of the system.
pub(crate) fn colour_number(color: Color) -> u32
    ensures { result ≡ numbers.colour_number color }
{
    match color {
        Color::Auto => UNKNOWN,
        Color::Rgb(rgb) => rgb,
    }
}

/// A line and its colour.
pub(crate) fn border_item(border: Border) -> BorderItem
    ensures { result ≡ numbers.border_item border }
{
    let number = border.line.number;
    BorderItem {
        line: u32::from(number),
        colour: if number == 0 {
            NO_COLOUR
        } else {
            colour_number(border.color)
        },
    }
}

/// The colour of a pattern, if there is one.
pub(crate) fn fill_number(fill: &Fill) -> u32
    ensures { result ≡ numbers.fill_number fill.now }
{
    if fill.pattern == 0 {
        NO_COLOUR
    } else {
        colour_number(fill.color)
    }
}

/// The colour behind a pattern, where it doesn't fill all.
pub(crate) fn back_number(fill: &Fill) -> u32
    ensures { result ≡ numbers.back_number fill.now }
{
    if fill.pattern < 2 {
        NO_COLOUR
    } else {
        colour_number(fill.back)
    }
}

/// A bit that is set, or none.
fn mark(is_set: bool, bit: u32) -> u32
    ensures exact { result ≡ numbers.mark is_set bit }
    ensures most { result ≤ bit }
{
    if is_set { bit } else { 0 }
}

fn underline_mark(underline: Underline) -> u32
    ensures exact { result ≡ numbers.underline_mark underline }
    ensures most { result ≤ 0x10 }
{
    match underline {
        Underline::NoLine => 0,
        Underline::Single => 0x08,
        Underline::Double => 0x10,
    }
}

fn script_mark(script: Script) -> u32
    ensures exact { result ≡ numbers.script_mark script }
    ensures most { result ≤ 0x40 }
{
    match script {
        Script::Normal => 0,
        Script::Superscript => 0x20,
        Script::Subscript => 0x40,
    }
}

/// The marks of a font.
fn font_marks(marks: &FontMarks) -> u32
    ensures exact { result ≡ numbers.font_marks marks.now }
    ensures most { result ≤ 0x57 }
{
    mark(marks.is_bold, 0x01)
        + mark(marks.is_italic, 0x02)
        + mark(marks.is_strike, 0x04)
        + underline_mark(marks.underline)
        + script_mark(marks.script)
}

/// The marks of a style.
pub(crate) fn style_marks(marks: &FontMarks, protection: Protection, alignment: &Alignment) -> u32
    ensures { result ≡ numbers.style_marks marks.now protection alignment.now }
{
    font_marks(marks)
        + mark(protection.is_unlocked, 0x80)
        + mark(protection.is_concealed, 0x100)
        + mark(alignment.is_wrapped, 0x200)
        + mark(alignment.is_shrunk, 0x400)
}
