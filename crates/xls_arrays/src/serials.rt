//! Numbers of days as text.

ghost use Rattle.std.specs.Prelude.{IfOk};
ghost use Rattle.std.specs.String.{string_bytes};
ghost use Rattle.xls_arrays.specs.Answers.{IsSerialText, PutsText};
ghost use Rattle.xls_arrays.specs.Values.{is_set};

use crate::whole::put_text;
use std::alloc::{AllocError, Global};
use xls_data::Number;
use xls_decimals::{push_date, push_duration};

/// The text of a number of days.
fn serial_text(
    alloc: Global,
    bits: u64,
    is_1904: bool,
    is_duration: bool,
) -> Result<String, AllocError>
    ensures { IfOk result (λ text. IsSerialText bits is_1904 is_duration (string_bytes text)) }
{
    let mut text = String::new(alloc);
    if is_duration {
        push_duration(Number::Bits(bits), &mut text)?;
        return Ok(text);
    }
    push_date(Number::Bits(bits), is_1904, &mut text)?;
    Ok(text)
}

/// Puts the text of a number of days, a double by its bits, into `out`, and its length into `size`: as a date and
/// time, or as a duration where `is_duration` isn't 0. Answers 0, 1 where memory ran out, `size` being 0, or 2
/// where `out` is too short and is as it was.
pub fn serial(
    alloc: Global,
    bits: u64,
    is_1904: u32,
    is_duration: u32,
    out: &mut [u8],
    size: &mut u64,
) -> u32
    ensures { PutsText (IsSerialText bits (is_set is_1904) (is_set is_duration)) out.old out.new size.new result }
{
    put_text(
        serial_text(alloc, bits, is_1904 != 0, is_duration != 0),
        out,
        size,
    )
}
