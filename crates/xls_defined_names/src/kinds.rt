//! The kinds of a defined name.

ghost use Rattle.std.specs.Prelude.{◌≡◌, [], ◌++◌, OnOk, IfOk};
ghost use Rattle.std.specs.Str.{chars};
ghost use Rattle.xls_strings.specs.Texts.{text_of};
ghost use Rattle.xls_defined_names.specs.Kinds as specs;

use std::alloc::{AllocError, Global};
use xls_bytes::first_char;

/// What a defined name is, by the flags of its Lbl record ([MS-XLS] 2.4.150).
#[derive(Clone, Copy, Debug, PartialEq, Eq)]
pub struct NameKinds {
    /// It isn't shown among the names (fHidden).
    pub is_hidden: bool,
    /// A macro that is a function (fFunc).
    pub is_function: bool,
    /// A macro of VBA (fOB).
    pub is_vba: bool,
    /// A macro (fProc).
    pub is_macro: bool,
    /// A built-in name (fBuiltin).
    pub is_built_in: bool,
}

/// The kinds by the flags.
pub(crate) fn kinds_of(flags: u16) -> NameKinds
    ensures { result ≡ specs.kinds_of flags }
{
    NameKinds {
        is_hidden: flags % 2 == 1,
        is_function: flags / 0x0002 % 2 == 1,
        is_vba: flags / 0x0004 % 2 == 1,
        is_macro: flags / 0x0008 % 2 == 1,
        is_built_in: flags / 0x0020 % 2 == 1,
    }
}

/// No text.
pub(crate) fn no_text(alloc: Global) -> String
    ensures { text_of result ≡ [] }
{
    String::new(alloc)
}

/// Appends a text.
fn push_text(text: &str, out: &mut String) -> Result<(), AllocError>
    ensures { OnOk result (text_of out.new ≡ text_of out.old ++ chars text.now) }
{
    out.push_str(text)
}

/// What stands before the next word: a space behind others.
#[tactic(auto, unfolding(std::specs::Prelude::chars))]
fn gap(words: &str) -> &'static str
    ensures { chars result.now ≡ specs.gap (chars words.now) }
{
    match first_char(words) {
        Some(_) => " ",
        None => "",
    }
}

/// Appends a word behind others, if it is wanted.
fn push_word(is_wanted: bool, word: &str, out: &mut String) -> Result<(), AllocError>
    ensures { OnOk result (text_of out.new ≡ specs.with_word is_wanted (chars word.now) (text_of out.old)) }
{
    if !is_wanted {
        return Ok(());
    }
    push_text(gap(out), out)?;
    push_text(word, out)
}

/// The words of a name's kinds, `hidden function`, separated by a space. Only running out of memory refuses.
#[tactic(auto, unfolding(std::specs::Prelude::chars))]
pub fn kinds_text(alloc: Global, kinds: NameKinds) -> Result<String, AllocError>
    ensures { IfOk result (λ text. text_of text ≡ specs.kinds_text kinds) }
{
    let mut text = no_text(alloc);
    push_word(kinds.is_hidden, "hidden", &mut text)?;
    push_word(kinds.is_function, "function", &mut text)?;
    push_word(kinds.is_vba, "vba", &mut text)?;
    push_word(kinds.is_macro, "macro", &mut text)?;
    push_word(kinds.is_built_in, "builtin", &mut text)?;
    Ok(text)
}
