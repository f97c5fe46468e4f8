//! Numbers in decimal.

ghost use Rattle.std.specs.Prelude.{◌≡◌, ◌++◌, ◌^◌, ◌<◌, ◌==◌, Some, None, IfSome, OnOk, OnErr, IsTrue, MatchOption, from_bits, to_bits, true, false, codes};
ghost use Rattle.std.specs.Float.{binary64, float_is_finite};
ghost use Rattle.std.specs.Fmt.{signed_decimal};
ghost use Rattle.std.specs.String.{string_bytes};
ghost use Rattle.xls_bytes.specs.Doubles.{exponent_of};
ghost use Rattle.xls_dates.specs.Numbers.{hundredths_text};
ghost use Rattle.xls_output.specs.Added.{AddsText};
ghost use Rattle.xls_decimals.specs.Decimals.{large_whole_of, short_whole_of, decimal_of_bits, over_100, IsDouble, IsDoubleOver100, IsDecimal};

use crate::short_texts::{hexadecimal, hundredths, push_ascii};
use std::alloc::AllocError;
use xls_bytes::whole_of_bits;
use xls_data::Number;

const FRACTION: u64 = 1 << 52;

pub(crate) const SIGN: u64 = 1 << 63;

const INFINITE: u64 = 2047;

// The bits of the double 100.
const HUNDRED: u64 = 0x4059_0000_0000_0000;

// From here on a double is written with an exponent.
const LEAST_WITH_EXPONENT: u64 = 10_000_000_000_000_000;

// The whole number from 2^53 to 10^16 in size that a double is, where it is one.
fn large_whole(bits: u64) -> Option<i64>
    ensures { result ≡ large_whole_of bits }
{
    if bits / FRACTION % 2048 != 1076 {
        return None;
    }
    let size = 2 * (FRACTION + bits % FRACTION);
    if size >= LEAST_WITH_EXPONENT {
        return None;
    }
    let size = size as i64;
    Some(if bits < SIGN { size } else { -size })
}

// The whole number below 10^16 in size that a double is, where it is one.
fn short_whole(bits: u64) -> Option<i64>
    ensures { result ≡ short_whole_of bits }
{
    match whole_of_bits(bits) {
        Some(n) => Some(n),
        None => large_whole(bits),
    }
}

// The double of these bits, where it is finite.
fn finite_of(bits: u64) -> Option<f64>
    ensures { MatchOption result (exponent_of bits ≡ 2047)
        (λ x. (x ≡ from_bits binary64 bits) × IsTrue (float_is_finite x) × (exponent_of bits < 2047)) }
{
    if bits / FRACTION % 2048 == INFINITE {
        return None;
    }
    Some(f64::from_bits(bits))
}

// Appends a whole number.
pub(crate) fn push_int(n: i64, buf: &mut String) -> Result<(), AllocError>
    ensures ok { OnOk result (string_bytes buf.new ≡ string_bytes buf.old ++ signed_decimal n) }
    ensures err { OnErr result (string_bytes buf.new ≡ string_bytes buf.old) }
{
    let mut digits = itoa::Buffer::new();
    buf.push_str(digits.format(n))
}

// Appends so many hundredths.
pub(crate) fn push_hundredths(n: i64, buf: &mut String) -> Result<(), AllocError>
    ensures ok { OnOk result (string_bytes buf.new ≡ string_bytes buf.old ++ hundredths_text n) }
    ensures err { OnErr result (string_bytes buf.new ≡ string_bytes buf.old) }
{
    push_ascii(hundredths(n).as_slice(), buf)
}

// Appends the bits of a double that is infinite or no number.
pub(crate) fn push_bits(bits: u64, buf: &mut String) -> Result<(), AllocError>
    ensures ok { OnOk result (string_bytes buf.new ≡ string_bytes buf.old ++ decimal_of_bits bits) }
    ensures err { OnErr result (string_bytes buf.new ≡ string_bytes buf.old) }
{
    push_ascii(hexadecimal(bits, b"").as_slice(), buf)
}

// Appends the bits of such a double over 100.
pub(crate) fn push_bits_over_100(bits: u64, buf: &mut String) -> Result<(), AllocError>
    ensures ok { OnOk result (string_bytes buf.new
        ≡ string_bytes buf.old ++ (decimal_of_bits bits ++ codes "/100")) }
    ensures err { OnErr result (string_bytes buf.new ≡ string_bytes buf.old) }
{
    push_ascii(hexadecimal(bits, b"/100").as_slice(), buf)
}

/// Appends the double with these bits in decimal: `-0`, whole numbers below 10^16 in size by their
/// digits, every other finite double by digits that read back as it, rounding to nearest, with an
/// exponent below 10^-5 and from 10^16 on (`1e16`); infinities and what is no number by their bits,
/// `0x7ff0000000000000`. Only running out of memory refuses, and then the text is as it was.
pub fn push_double(bits: u64, buf: &mut String) -> Result<(), AllocError>
    ensures ok { OnOk result (AddsText (IsDouble bits) (string_bytes buf.old) (string_bytes buf.new)) }
    ensures err { OnErr result (string_bytes buf.new ≡ string_bytes buf.old) }
{
    if bits == SIGN {
        return buf.push_str("-0");
    }
    if let Some(n) = short_whole(bits) {
        return push_int(n, buf);
    }
    match finite_of(bits) {
        Some(x) => {
            let mut digits = ryu::Buffer::new();
            buf.push_str(digits.format_finite(x))
        }
        None => push_bits(bits, buf),
    }
}

// The bits of a double over 100, where that is finite.
fn quotient_bits(bits: u64) -> Option<u64>
    ensures { MatchOption result (float_is_finite (over_100 bits) ≡ false)
        (λ q. (float_is_finite (over_100 bits) ≡ true) × (q ≡ to_bits binary64 (over_100 bits))) }
{
    let quotient = finite_of(bits)? / f64::from_bits(HUNDRED);
    if quotient.is_finite() {
        Some(quotient.to_bits())
    } else {
        None
    }
}

// Appends the double with these bits over 100.
fn push_double_over_100(bits: u64, buf: &mut String) -> Result<(), AllocError>
    ensures ok { OnOk result (AddsText (IsDoubleOver100 bits) (string_bytes buf.old) (string_bytes buf.new)) }
    ensures err { OnErr result (string_bytes buf.new ≡ string_bytes buf.old) }
{
    if bits == SIGN {
        return buf.push_str("-0");
    }
    if let Some(n) = whole_of_bits(bits) {
        return push_hundredths(n, buf);
    }
    match quotient_bits(bits) {
        Some(quotient) => push_double(quotient, buf),
        None => push_bits_over_100(bits, buf),
    }
}

/// Appends a number in decimal: a whole number by its digits, hundredths exactly, a double as
/// `push_double` writes it; of a double over 100 the quotient, exactly where the double is a whole
/// number, else divided as IEEE 754 divides. Only running out of memory refuses, and then the text
/// is as it was.
pub fn push_decimal(number: Number, buf: &mut String) -> Result<(), AllocError>
    ensures ok { OnOk result (AddsText (IsDecimal number) (string_bytes buf.old) (string_bytes buf.new)) }
    ensures err { OnErr result (string_bytes buf.new ≡ string_bytes buf.old) }
{
    match number {
        Number::Bits(bits) => push_double(bits, buf),
        Number::Whole(n) => push_int(n, buf),
        Number::Hundredths(n) => push_hundredths(n, buf),
        Number::BitsOver100(bits) => push_double_over_100(bits, buf),
    }
}
