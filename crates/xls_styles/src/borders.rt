//! The lines around a cell and through it.

ghost use Rattle.std.specs.Prelude.{◌≡◌, IfOk, OnOk};
ghost use Rattle.std.specs.Option.{option_map};
ghost use Rattle.std.specs.String.{string_bytes};
ghost use Rattle.xls_styles.specs.Borders as specs;
ghost use Rattle.xls_styles.specs.Texts.{with_word_if};

use crate::colors::{Color, color_of};
use crate::words::push_word;
use crate::xfs::{Line, Xf};
use std::alloc::{AllocError, Global};
use std::fmt;
use xls_record::Biff;

/// A line, by its number in [MS-XLS] BorderStyle; 0 is none.
#[derive(Clone, Copy, Debug, PartialEq, Eq)]
pub struct LineStyle {
    pub number: u8,
}

/// A line and its colour.
#[derive(Clone, Copy, Debug, PartialEq, Eq)]
pub struct Border {
    pub line: LineStyle,
    pub color: Color,
}

/// The lines around a cell and through it.
#[derive(Clone, Copy, Debug, PartialEq, Eq)]
pub struct Borders {
    pub left: Border,
    pub right: Border,
    pub top: Border,
    pub bottom: Border,
    /// Which diagonals have a line: 1 down to the right, 2 up to the right, 3 both, 0 none.
    pub diagonals: u8,
    pub diagonal: Border,
}

/// The word for a line; the digits of a number that has none.
impl fmt::Display for LineStyle {
    ghost use Rattle.std.specs.Prelude.{Some};
    ghost use Rattle.xls_styles.specs.Borders.{line_text};

    ghost output = { λ line. Some (line_text line) };

    fn fmt<W: fmt::Write>(&self, f: &mut fmt::Formatter<W>) -> fmt::Result {
        match self.number {
            1 => f.write_str("thin"),
            2 => f.write_str("medium"),
            3 => f.write_str("dashed"),
            4 => f.write_str("dotted"),
            5 => f.write_str("thick"),
            6 => f.write_str("double"),
            7 => f.write_str("hair"),
            8 => f.write_str("mediumDashed"),
            9 => f.write_str("dashDot"),
            10 => f.write_str("mediumDashDot"),
            11 => f.write_str("dashDotDot"),
            12 => f.write_str("mediumDashDotDot"),
            13 => f.write_str("slantDashDot"),
            number => write!(f, "{number}"),
        }
    }
}

fn border_of(version: Biff, palette: &[u32], line: Line) -> Border
    ensures { result ≡ specs.border_of version palette.now line }
{
    Border {
        line: LineStyle { number: line.line },
        color: color_of(version, palette, u16::from(line.color)),
    }
}

pub(crate) fn borders_of(version: Biff, palette: &[u32], xf: &Xf) -> Borders
    ensures { result ≡ specs.borders_of version palette.now xf.now }
{
    Borders {
        left: border_of(version, palette, xf.left),
        right: border_of(version, palette, xf.right),
        top: border_of(version, palette, xf.top),
        bottom: border_of(version, palette, xf.bottom),
        diagonals: xf.diagonals,
        diagonal: border_of(version, palette, xf.diagonal),
    }
}

/// Appends a name, the line and its colour, where there is a line.
fn push_border(
    alloc: Global,
    text: &mut String,
    name: &'static str,
    border: Border,
) -> Result<(), AllocError>
    ensures { OnOk result (string_bytes text.new ≡ with_word_if (string_bytes text.old) (specs.border_word name.now border)) }
{
    if border.line.number == 0 {
        return Ok(());
    }
    let word = format!(in alloc; "{name}:{}:{}", border.line, border.color)?;
    push_word(text, word.as_str())
}

fn diagonal_name(diagonals: u8) -> Option<&'static str>
    ensures { option_map (λ w. w.now) result ≡ specs.diagonal_name diagonals }
{
    match diagonals {
        1 => Some("down"),
        2 => Some("up"),
        3 => Some("cross"),
        _ => None,
    }
}

/// Appends the diagonals that have a line.
fn push_diagonal(
    alloc: Global,
    text: &mut String,
    diagonals: u8,
    border: Border,
) -> Result<(), AllocError>
    ensures { OnOk result (string_bytes text.new
        ≡ with_word_if (string_bytes text.old) (specs.diagonal_word_by (specs.diagonal_name diagonals) border)) }
{
    match diagonal_name(diagonals) {
        Some(name) => push_border(alloc, text, name, border),
        None => Ok(()),
    }
}

/// `left`, `right`, `top`, `bottom`, and one of `down`, `up` and `cross`, those that have a line, each with the line and
/// its colour behind colons; separated by blanks.
pub fn borders_text(alloc: Global, borders: &Borders) -> Result<String, AllocError>
    ensures { IfOk result (λ text. string_bytes text ≡ specs.borders_text borders.now) }
{
    let mut text = String::new(alloc);
    push_border(alloc, &mut text, "left", borders.left)?;
    push_border(alloc, &mut text, "right", borders.right)?;
    push_border(alloc, &mut text, "top", borders.top)?;
    push_border(alloc, &mut text, "bottom", borders.bottom)?;
    push_diagonal(alloc, &mut text, borders.diagonals, borders.diagonal)?;
    Ok(text)
}
