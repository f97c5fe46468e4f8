//! Numbers as people read them.

ghost use Rattle.std.specs.Prelude.{◌≡◌, OnOk, IfOk, true, false, codes};
ghost use Rattle.std.specs.String.{string_bytes};
ghost use Rattle.xls_output.specs.Added.{AddsText};
ghost use Rattle.xls_decimals.specs.Decimals.{IsDecimal};
ghost use Rattle.xls_decimals.specs.Moments.{IsDate, IsDuration};

use std::alloc::{AllocError, Global};
use xls_data::Number;
use xls_decimals::{push_date, push_decimal, push_duration};

// Appends a number as its kind asks. False for a kind that isn't known.
fn push_number(kind: &str, number: Number, text: &mut String) -> Result<bool, AllocError>
    ensures decimal { kind.now ≡ codes "d"
        → OnOk result (AddsText (IsDecimal number) (string_bytes text.old) (string_bytes text.new)) }
    ensures date { kind.now ≡ codes "t0"
        → OnOk result (AddsText (IsDate false number) (string_bytes text.old) (string_bytes text.new)) }
    ensures date_1904 { kind.now ≡ codes "t4"
        → OnOk result (AddsText (IsDate true number) (string_bytes text.old) (string_bytes text.new)) }
    ensures duration { kind.now ≡ codes "u"
        → OnOk result (AddsText (IsDuration number) (string_bytes text.old) (string_bytes text.new)) }
    ensures known { kind.now ≡ codes "d" → IfOk result (λ known. known ≡ true) }
{
    match kind {
        "d" => push_decimal(number, text)?,
        "t0" => push_date(number, false, text)?,
        "t4" => push_date(number, true, text)?,
        "u" => push_duration(number, text)?,
        _ => return Ok(false),
    }
    Ok(true)
}

/// Appends the answer to a line: `d` asks for the decimal of a double by its bits in hexadecimal,
/// `t0` and `t4` for a date in the 1900 and the 1904 system, `u` for a duration. False for any other
/// line.
fn push_answer(line: &str, text: &mut String) -> Result<bool, AllocError> {
    let Some((kind, digits)) = line.split_once(' ') else {
        return Ok(false);
    };
    match u64::from_str_radix(digits, 16) {
        Ok(bits) => push_number(kind, Number::Bits(bits), text),
        Err(_) => Ok(false),
    }
}

/// The answer to each line of a text. `None` where a line has no answer.
pub(crate) fn answers(alloc: Global, text: &str) -> Result<Option<String>, AllocError> {
    let mut all = String::new(alloc);
    for line in text.lines() {
        if !push_answer(line, &mut all)? {
            return Ok(None);
        }
        all.push('\n')?;
    }
    Ok(Some(all))
}
