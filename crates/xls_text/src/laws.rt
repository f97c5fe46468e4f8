//! Laws of the definitions.

ghost use Rattle.std.specs.Prelude.{List, ℕ};
ghost use Rattle.xls_text.specs.Utf8Reading.{HasOneUtf8Reading};
ghost use Rattle.xls_text.specs.Utf16Reading.{HasOneUtf16Reading};

/// The bytes of page 65001 read by the rule of the longest begun sequence, and in one way.
pub fn one_utf8_reading()
    ensures { (bytes : List ℕ) → HasOneUtf8Reading bytes }
{}

/// Units read as UTF-16 with U+FFFD for each surrogate that is in no pair, and in one way.
pub fn one_utf16_reading()
    ensures { (units : List ℕ) → HasOneUtf16Reading units }
{}
