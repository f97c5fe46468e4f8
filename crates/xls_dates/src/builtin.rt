//! Classes of the built-in number formats.

ghost use Rattle.std.specs.Prelude.{◌≡◌, ◌≢◌, ◌<◌, ◌^◌, ℕ};
ghost use Rattle.std.specs.Fmt.{decimal};
ghost use Rattle.xls_dates.specs.Builtin.{class_of_code, class_of_id};
ghost use Rattle.xls_dates.specs.declared.formats.CellFormat.TheVariants as class;

use crate::CellFormat;

/// The class of the built-in number format of a code. Takes no memory.
pub fn builtin_format_by_code(code: u16) -> CellFormat
    ensures { result ≡ class_of_code code }
{
    match code {
        14..=22 | 27..=36 | 45 | 47 | 50..=58 => CellFormat::DateTime,
        46 => CellFormat::TimeDelta,
        _ => CellFormat::Other,
    }
}

/// The class of the built-in number format whose code is this decimal text, without leading zeros;
/// `Other` for every other text. Takes no memory.
pub fn builtin_format_by_id(id: &str) -> CellFormat
    ensures value { result ≡ class_of_id id.now }
    ensures code { (n : ℕ) → n < 2 ^ 16 → id.now ≡ decimal n → result ≡ class_of_code n }
    ensures other { ((n : ℕ) → n < 2 ^ 16 → id.now ≢ decimal n) → result ≡ class.Other }
{
    two_digits(id.as_bytes())
}

// The class of two digits, the first not 0.
fn two_digits(id: &[u8]) -> CellFormat
    ensures { result ≡ class_of_id id.now }
{
    if id.len() != 2 {
        return CellFormat::Other;
    }
    let tens = id[0];
    let ones = id[1];
    if b'1' <= tens && tens <= b'9' && ones.is_ascii_digit() {
        builtin_format_by_code((tens - b'0') as u16 * 10 + (ones - b'0') as u16)
    } else {
        CellFormat::Other
    }
}
