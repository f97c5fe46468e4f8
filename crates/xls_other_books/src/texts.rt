//! Texts, and how they grow by characters and by texts.

ghost use Rattle.std.specs.Prelude.{◌≡◌, ◌++◌, ◌∷◌, [], IfOk, OnOk};
ghost use Rattle.std.specs.Str.{bytes_eq, chars};
ghost use Rattle.xls_strings.specs.Texts.{text_of};

use std::alloc::{AllocError, Global};

/// The empty text.
pub(crate) fn no_text(alloc: Global) -> String
    ensures { text_of result ≡ [] }
{
    String::new(alloc)
}

/// A copy of a text.
pub(crate) fn copied(alloc: Global, text: &str) -> Result<String, AllocError>
    ensures { IfOk result (λ copy. text_of copy ≡ chars text.now) }
{
    String::from_str(alloc, text)
}

/// Appends a character.
pub(crate) fn push_char(c: char, out: &mut String) -> Result<(), AllocError>
    ensures { OnOk result (text_of out.new ≡ text_of out.old ++ c ∷ []) }
{
    out.push(c)
}

/// Appends a text.
pub(crate) fn push_text(text: &str, out: &mut String) -> Result<(), AllocError>
    ensures { OnOk result (text_of out.new ≡ text_of out.old ++ chars text.now) }
{
    out.push_str(text)
}

/// Whether two texts have the same characters.
pub(crate) fn is_same(a: &str, b: &str) -> bool
    ensures { result ≡ bytes_eq (chars a.now) (chars b.now) }
{
    a == b
}
