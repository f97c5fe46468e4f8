//! Texts, and how they grow.

ghost use Rattle.std.specs.Prelude.{◌≡◌, ◌++◌, [], OnOk};
ghost use Rattle.std.specs.Str.{chars};
ghost use Rattle.xls_strings.specs.Texts.{text_of};

use std::alloc::{AllocError, Global};

/// The empty text.
pub(crate) fn no_text(alloc: Global) -> String
    ensures { text_of result ≡ [] }
{
    String::new(alloc)
}

/// A text without characters.
#[tactic(auto, unfolding(std::specs::Prelude::chars))]
pub(crate) fn nothing() -> &'static str
    ensures { chars result.now ≡ [] }
{
    ""
}

/// Leaves no text. The memory stays.
pub(crate) fn empty(text: &mut String)
    ensures { text_of text.new ≡ [] }
{
    text.clear();
}

/// Appends a text.
pub(crate) fn push_text(text: &str, out: &mut String) -> Result<(), AllocError>
    ensures { OnOk result (text_of out.new ≡ text_of out.old ++ chars text.now) }
{
    out.push_str(text)
}
