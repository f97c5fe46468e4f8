//! Numbers as doubles.

ghost use Rattle.std.specs.Prelude.{◌≡◌};
ghost use Rattle.xls_cell_formats.specs.Doubles.{bits_of, hundredths_bits, is_finite, over_100_bits, whole_bits};

use std::num::{f64_from_bits_with_nan, f64_to_bits_with_nan, nearest_i64_to_f64};
use xls_data::Number;

/// The bits of the double 100.
const HUNDRED: u64 = 0x4059_0000_0000_0000;

/// The double nearest to a whole number.
fn whole_bits(n: i64) -> u64
    ensures { result ≡ whole_bits n }
{
    f64_to_bits_with_nan(nearest_i64_to_f64(n))
}

/// That double over 100, divided as IEEE 754 divides.
fn hundredths_bits(n: i64) -> u64
    ensures { result ≡ hundredths_bits n }
{
    f64_to_bits_with_nan(nearest_i64_to_f64(n) / f64_from_bits_with_nan(HUNDRED))
}

/// The double with these bits over 100, divided as IEEE 754 divides.
fn over_100_bits(bits: u64) -> u64
    ensures { result ≡ over_100_bits bits }
{
    f64_to_bits_with_nan(f64_from_bits_with_nan(bits) / f64_from_bits_with_nan(HUNDRED))
}

/// The bits of the double that a number is ([MS-XLS] 2.5.217 RkNumber): of a double its own, of a whole number the
/// nearest, of hundredths and of a double over 100 the quotient, as IEEE 754 divides. Takes no memory.
pub fn bits_of(number: Number) -> u64
    ensures { result ≡ bits_of number }
{
    match number {
        Number::Bits(bits) => bits,
        Number::Whole(n) => whole_bits(n),
        Number::Hundredths(n) => hundredths_bits(n),
        Number::BitsOver100(bits) => over_100_bits(bits),
    }
}

/// Whether the double with these bits is no infinity and no NaN.
pub(crate) fn is_finite(bits: u64) -> bool
    ensures { result ≡ is_finite bits }
{
    bits / 0x10_0000_0000_0000 % 0x800 != 0x7FF
}
