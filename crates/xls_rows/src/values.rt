//! Numbers and texts as truth values and characters.

ghost use Rattle.std.specs.Prelude.{◌≡◌};
ghost use Rattle.xls_rows.specs.Readers.{is_zero, is_zero_double, bool_named, only_byte};

use xls_data::Number;

const NEGATIVE_ZERO: u64 = 1 << 63;

fn is_zero_bits(bits: u64) -> bool
    ensures { result ≡ is_zero_double bits }
{
    bits == 0 || bits == NEGATIVE_ZERO
}

// Whether a number is zero, of either sign.
pub(crate) fn is_zero_number(n: Number) -> bool
    ensures { result ≡ is_zero n }
{
    match n {
        Number::Bits(bits) => is_zero_bits(bits),
        Number::Whole(n) => n.unsigned_abs() == 0,
        Number::Hundredths(n) => n.unsigned_abs() == 0,
        Number::BitsOver100(bits) => is_zero_bits(bits),
    }
}

// The truth value that a text names.
pub(crate) fn truth_named(text: &str) -> Option<bool>
    ensures { result ≡ bool_named text.now }
{
    if text == "TRUE" || text == "true" || text == "True" {
        Some(true)
    } else if text == "FALSE" || text == "false" || text == "False" {
        Some(false)
    } else {
        None
    }
}

// The character of a text of one byte.
pub(crate) fn only_char(text: &str) -> Option<char>
    ensures { result ≡ only_byte text.now }
{
    let bytes = text.as_bytes();
    if bytes.len() == 1 {
        Some(bytes[0] as char)
    } else {
        None
    }
}
