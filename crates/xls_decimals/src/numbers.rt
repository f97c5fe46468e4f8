//! Numbers as a workbook has them.

ghost use Rattle.std.specs.Prelude.{◌≡◌, ◌++◌, OnOk, OnErr};
ghost use Rattle.std.specs.String.{string_bytes};
ghost use Rattle.xls_dates.specs.Numbers.{bits_text, number_text, over_100_text};

use crate::decimals::{SIGN, push_bits, push_bits_over_100, push_hundredths, push_int};
use std::alloc::AllocError;
use xls_bytes::whole_of_bits;
use xls_data::Number;

// Appends the double with these bits.
fn push_double(bits: u64, buf: &mut String) -> Result<(), AllocError>
    ensures ok { OnOk result (string_bytes buf.new ≡ string_bytes buf.old ++ bits_text bits) }
    ensures err { OnErr result (string_bytes buf.new ≡ string_bytes buf.old) }
{
    if bits == SIGN {
        return buf.push_str("-0");
    }
    match whole_of_bits(bits) {
        Some(n) => push_int(n, buf),
        None => push_bits(bits, buf),
    }
}

// Appends the double with these bits, over 100.
fn push_double_over_100(bits: u64, buf: &mut String) -> Result<(), AllocError>
    ensures ok { OnOk result (string_bytes buf.new ≡ string_bytes buf.old ++ over_100_text bits) }
    ensures err { OnErr result (string_bytes buf.new ≡ string_bytes buf.old) }
{
    if bits == SIGN {
        return buf.push_str("-0");
    }
    match whole_of_bits(bits) {
        Some(n) => push_hundredths(n, buf),
        None => push_bits_over_100(bits, buf),
    }
}

/// Appends a number as the workbook has it, which is how it prints: a whole number or hundredths in decimal,
/// another double by its bits, `0x3ff8000000000000`. Only running out of memory refuses, and then the text is
/// as it was.
pub fn push_number(number: Number, buf: &mut String) -> Result<(), AllocError>
    ensures ok { OnOk result (string_bytes buf.new ≡ string_bytes buf.old ++ number_text number) }
    ensures err { OnErr result (string_bytes buf.new ≡ string_bytes buf.old) }
{
    match number {
        Number::Bits(bits) => push_double(bits, buf),
        Number::Whole(n) => push_int(n, buf),
        Number::Hundredths(n) => push_hundredths(n, buf),
        Number::BitsOver100(bits) => push_double_over_100(bits, buf),
    }
}
