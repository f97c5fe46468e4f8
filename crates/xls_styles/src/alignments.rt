//! How a text stands in its cell.

ghost use Rattle.std.specs.Prelude.{◌≡◌, IfOk, OnOk};
ghost use Rattle.std.specs.Option.{option_map};
ghost use Rattle.std.specs.String.{string_bytes};
ghost use Rattle.xls_styles.specs.Alignments as alignments;
ghost use Rattle.xls_styles.specs.Texts.{with_word_if};

use crate::words::{push_word, push_word_if, word_if};
use crate::xfs::Xf;
use std::alloc::{AllocError, Global};

/// How a text stands in its cell.
#[derive(Clone, Copy, Debug, PartialEq, Eq)]
pub struct Alignment {
    /// By its number in [MS-XLS] HorizAlign; 0 hangs on the value.
    pub across: u8,
    /// By its number in [MS-XLS] VertAlign; 2 is the bottom.
    pub down: u8,
    pub is_wrapped: bool,
    pub is_shrunk: bool,
    pub indent: u8,
    /// In degrees; above 90 clockwise, less 90, and 255 is letters below each other.
    pub turn: u8,
}

pub(crate) fn alignment_of(xf: &Xf) -> Alignment
    ensures { result ≡ alignments.alignment_of xf.now }
{
    Alignment {
        across: xf.across,
        down: xf.down,
        is_wrapped: xf.is_wrapped,
        is_shrunk: xf.is_shrunk,
        indent: xf.indent,
        turn: xf.turn,
    }
}

fn across_word(across: u8) -> Option<&'static str>
    ensures { option_map (λ w. w.now) result ≡ alignments.across_word across }
{
    match across {
        1 => Some("left"),
        2 => Some("center"),
        3 => Some("right"),
        4 => Some("fill"),
        5 => Some("justify"),
        6 => Some("centerContinuous"),
        7 => Some("distributed"),
        _ => None,
    }
}

fn down_word(down: u8) -> Option<&'static str>
    ensures { option_map (λ w. w.now) result ≡ alignments.down_word down }
{
    match down {
        0 => Some("top"),
        1 => Some("center"),
        3 => Some("justify"),
        4 => Some("distributed"),
        _ => None,
    }
}

/// Appends a number behind a name, where it isn't 0.
fn push_number(
    alloc: Global,
    text: &mut String,
    name: &'static str,
    number: u8,
) -> Result<(), AllocError>
    ensures { OnOk result (string_bytes text.new ≡ with_word_if (string_bytes text.old) (alignments.number_word name.now number)) }
{
    if number == 0 {
        return Ok(());
    }
    let word = format!(in alloc; "{name}:{number}")?;
    push_word(text, word.as_str())
}

/// The words for it, separated by blanks: across, down, `wrap`, `shrink`, `indent:N` and `turn:N`. Empty where all is as
/// usual, at the bottom.
pub fn alignment_text(alloc: Global, alignment: &Alignment) -> Result<String, AllocError>
    ensures { IfOk result (λ text. string_bytes text ≡ alignments.alignment_text alignment.now) }
{
    let mut text = String::new(alloc);
    push_word_if(&mut text, across_word(alignment.across))?;
    push_word_if(&mut text, down_word(alignment.down))?;
    push_word_if(&mut text, word_if(alignment.is_wrapped, "wrap"))?;
    push_word_if(&mut text, word_if(alignment.is_shrunk, "shrink"))?;
    push_number(alloc, &mut text, "indent", alignment.indent)?;
    push_number(alloc, &mut text, "turn", alignment.turn)?;
    Ok(text)
}
