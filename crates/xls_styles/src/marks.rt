//! The words for the marks of a font and for how a cell is protected.

ghost use Rattle.std.specs.Prelude.{◌≡◌, IfOk, OnOk};
ghost use Rattle.std.specs.Option.{option_map};
ghost use Rattle.std.specs.String.{string_bytes};
ghost use Rattle.xls_styles.specs.Marks as specs;
ghost use Rattle.xls_styles.specs.Texts.{with_words};

use crate::fonts::{FontMarks, Script, Underline};
use crate::words::{push_word_if, word_if};
use crate::xfs::Xf;
use std::alloc::{AllocError, Global};

/// What may be done with a cell in a protected sheet.
#[derive(Clone, Copy, Debug, PartialEq, Eq)]
pub struct Protection {
    /// It may be edited.
    pub is_unlocked: bool,
    /// Its formula isn't shown.
    pub is_concealed: bool,
}

fn underline_word(underline: Underline) -> Option<&'static str>
    ensures { option_map (λ w. w.now) result ≡ specs.underline_word underline }
{
    match underline {
        Underline::NoLine => None,
        Underline::Single => Some("underline"),
        Underline::Double => Some("double"),
    }
}

fn script_word(script: Script) -> Option<&'static str>
    ensures { option_map (λ w. w.now) result ≡ specs.script_word script }
{
    match script {
        Script::Normal => None,
        Script::Superscript => Some("superscript"),
        Script::Subscript => Some("subscript"),
    }
}

fn push_font_marks(text: &mut String, marks: &FontMarks) -> Result<(), AllocError>
    ensures { OnOk result (string_bytes text.new ≡ with_words (string_bytes text.old) (specs.font_words marks.now)) }
{
    push_word_if(text, word_if(marks.is_bold, "bold"))?;
    push_word_if(text, word_if(marks.is_italic, "italic"))?;
    push_word_if(text, word_if(marks.is_strike, "strike"))?;
    push_word_if(text, underline_word(marks.underline))?;
    push_word_if(text, script_word(marks.script))
}

/// The words for the marks of a font, separated by blanks: `bold`, `italic`, `strike`, `underline` or `double`,
/// `superscript` or `subscript`. Empty where it has none.
pub fn font_marks_text(alloc: Global, marks: &FontMarks) -> Result<String, AllocError>
    ensures { IfOk result (λ text. string_bytes text ≡ specs.font_marks_text marks.now) }
{
    let mut text = String::new(alloc);
    push_font_marks(&mut text, marks)?;
    Ok(text)
}

/// The same of a cell, and then `unlocked` and `concealed`.
pub fn cell_marks_text(
    alloc: Global,
    marks: &FontMarks,
    protection: Protection,
) -> Result<String, AllocError>
    ensures { IfOk result (λ text. string_bytes text ≡ specs.cell_marks_text marks.now protection) }
{
    let mut text = String::new(alloc);
    push_font_marks(&mut text, marks)?;
    push_word_if(&mut text, word_if(protection.is_unlocked, "unlocked"))?;
    push_word_if(&mut text, word_if(protection.is_concealed, "concealed"))?;
    Ok(text)
}

pub(crate) fn protection_of(xf: &Xf) -> Protection
    ensures { result ≡ specs.protection_of xf.now }
{
    Protection {
        is_unlocked: !xf.is_locked,
        is_concealed: xf.is_concealed,
    }
}
