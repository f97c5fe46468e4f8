//! Texts, and how they grow.

ghost use Rattle.std.specs.Prelude.{◌≡◌, ◌++◌, [], codes, IfOk, OnOk};
ghost use Rattle.std.specs.Str.{chars};
ghost use Rattle.xls_strings.specs.Texts.{text_of};

use std::alloc::{AllocError, Global};

/// The empty text.
pub(crate) fn no_text(alloc: Global) -> String
    ensures { text_of result ≡ [] }
{
    String::new(alloc)
}

/// A copy of a text.
pub(crate) fn copied(alloc: Global, text: &str) -> Result<String, AllocError>
    ensures { IfOk result (λ copy. text_of copy ≡ chars text.now) }
{
    String::from_str(alloc, text)
}

/// Appends a text.
pub(crate) fn push_text(text: &str, out: &mut String) -> Result<(), AllocError>
    ensures { OnOk result (text_of out.new ≡ text_of out.old ++ chars text.now) }
{
    out.push_str(text)
}

/// Appends `!`, behind which stands what is named.
#[tactic(auto, unfolding(std::specs::Prelude::chars))]
pub(crate) fn push_mark(out: &mut String) -> Result<(), AllocError>
    ensures { OnOk result (text_of out.new ≡ text_of out.old ++ codes "!") }
{
    push_text("!", out)
}

/// Appends `#REF`.
#[tactic(auto, unfolding(std::specs::Prelude::chars))]
pub(crate) fn push_gone(out: &mut String) -> Result<(), AllocError>
    ensures { OnOk result (text_of out.new ≡ text_of out.old ++ codes "#REF") }
{
    push_text("#REF", out)
}

/// Appends `#NAME?`.
#[tactic(auto, unfolding(std::specs::Prelude::chars))]
pub(crate) fn push_nameless(out: &mut String) -> Result<(), AllocError>
    ensures { OnOk result (text_of out.new ≡ text_of out.old ++ codes "#NAME?") }
{
    push_text("#NAME?", out)
}

/// Appends `[0]!`, what files call this workbook.
#[tactic(auto, unfolding(std::specs::Prelude::chars))]
pub(crate) fn push_this(out: &mut String) -> Result<(), AllocError>
    ensures { OnOk result (text_of out.new ≡ text_of out.old ++ codes "[0]!") }
{
    push_text("[0]!", out)
}
