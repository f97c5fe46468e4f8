//! Words, separated by one blank.

ghost use Rattle.std.specs.Prelude.{◌≡◌, Some, OnOk};
ghost use Rattle.std.specs.Option.{option_map};
ghost use Rattle.std.specs.String.{string_bytes};
ghost use Rattle.xls_styles.specs.Texts.{with_word, with_word_if};
ghost use Rattle.xls_styles.specs.Texts as texts;

use std::alloc::AllocError;

/// Appends a word, behind a blank where it isn't the first.
pub(crate) fn push_word(text: &mut String, word: &str) -> Result<(), AllocError>
    ensures { OnOk result (string_bytes text.new ≡ with_word (string_bytes text.old) word.now) }
{
    if !text.is_empty() {
        text.push(' ')?;
    }
    text.push_str(word)
}

/// Appends a word that is there.
pub(crate) fn push_word_if(text: &mut String, word: Option<&str>) -> Result<(), AllocError>
    ensures { OnOk result (string_bytes text.new ≡ with_word_if (string_bytes text.old) (option_map (λ w. w.now) word.entry)) }
{
    match word {
        Some(word) => push_word(text, word),
        None => Ok(()),
    }
}

/// A word under a condition.
pub(crate) fn word_if(is: bool, word: &'static str) -> Option<&'static str>
    ensures { option_map (λ w. w.now) result ≡ texts.word_if is word.now }
{
    if is { Some(word) } else { None }
}
