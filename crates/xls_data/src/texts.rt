//! Texts by their characters.

ghost use Rattle.std.specs.Prelude.{◌≡◌, ◌↔◌, IsTrue, IfOk, encode_utf8_all};
ghost use Rattle.std.specs.String.{string_bytes};
ghost use Rattle.std.specs.Str.{chars};
ghost use Rattle.xls_data.specs.Kinds.{IsParsed};

use std::alloc::{AllocError, Global};

// Whether two texts have the same characters.
pub(crate) fn is_same_text(a: &str, b: &str) -> bool
    ensures { IsTrue result ↔ (chars a.now ≡ chars b.now) }
{
    a == b
}

// The text with the same characters.
pub(crate) fn copied_text(alloc: Global, text: &str) -> Result<String, AllocError>
    ensures { IfOk result (λ t. string_bytes t ≡ encode_utf8_all (chars text.now)) }
{
    String::from_str(alloc, text)
}

// The whole number that a text is read as.
pub(crate) fn parsed_text(text: &str) -> Option<i64>
    ensures { IsParsed (encode_utf8_all (chars text.now)) result }
{
    text.parse::<i64>().ok()
}
