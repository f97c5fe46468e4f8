//! Doubles as decimals of 15 significant digits.

ghost use Rattle.std.specs.Prelude.{◌≡◌, ℕ, neg_ℤ, ◌-◌, ◌*◌, ◌/◌, ◌^◌, ◌<◌, ◌≤◌, min, pos, negsuc, ◌≤ℤ◌};
ghost use Rattle.xls_bytes.specs.Doubles.{exponent_of, fraction_of};
ghost use Rattle.xls_rounding.specs.Fractions.{whole, ten_to, IsBetween, IsNatural};
ghost use Rattle.xls_rounding.specs.Limbs.{twice_at};
ghost use Rattle.xls_rounding.specs.Rounding.{size_of, of_15_digits, decimal_of};

use crate::decimals::Decimal;
use crate::limbs::{MANY, long_product, long_quotient};

pub(crate) const FRACTION: u64 = 1 << 52;

// Twice 10^14, and twice 10^15.
const LEAST: u64 = 200_000_000_000_000;

const ABOVE: u64 = 2_000_000_000_000_000;

// Twice a double's size, times ten to the power `tens`, rounded down, or `MANY` where that is more.
fn product(mantissa: u64, exponent: u64, tens: u64) -> u64
    requires least { 2 ^ 52 ≤ mantissa }
    requires most { mantissa < 2 ^ 53 }
    requires exponent { (0 < exponent) × (exponent < 2048) }
    requires tens { tens ≤ 323 }
    ensures { result ≡ min (2 * (mantissa * 2 ^ (exponent - 1075)) * 10 ^ tens / 2 ^ (1075 - exponent)) MANY }
{
    if exponent + tens >= 1074 {
        return MANY;
    }
    let down = 1074 - exponent - tens;
    if tens <= 27 && down < 128 {
        let product = mantissa as u128 * 5u64.pow(tens as u32) as u128;
        return (product >> down).min(MANY as u128) as u64;
    }
    long_product(mantissa, tens as u32, down as u32)
}

// Twice a double's size, over ten to the power `tens`, rounded down, or `MANY` where that is more.
fn quotient(mantissa: u64, exponent: u64, tens: u64) -> u64
    requires mantissa { mantissa < 2 ^ 53 }
    requires exponent { exponent < 2048 }
    requires tens { (0 < tens) × (tens < 2 ^ 32) }
    ensures { result ≡ min (2 * (mantissa * 2 ^ (exponent - 1075)) / (2 ^ (1075 - exponent) * 10 ^ tens)) MANY }
{
    if exponent < 1074 {
        let down = 1074 - exponent;
        if down > 52 || tens > 19 {
            return 0;
        }
        return (mantissa >> down) / 10u64.pow(tens as u32);
    }
    let up = exponent - 1074;
    if up <= 75 && tens <= 19 {
        let quotient = ((mantissa as u128) << up) / 10u64.pow(tens as u32) as u128;
        return quotient.min(MANY as u128) as u64;
    }
    long_quotient(mantissa, up as u32, tens as u32)
}

// Twice a double's size, times ten to the power `scale` - 308, rounded down, or `MANY` where that
// is more.
fn twice_at(mantissa: u64, exponent: u64, scale: u64) -> u64
    requires least { 2 ^ 52 ≤ mantissa }
    requires most { mantissa < 2 ^ 53 }
    requires exponent { (0 < exponent) × (exponent < 2048) }
    requires scale { scale ≤ 630 }
    ensures { result ≡ min (twice_at mantissa exponent scale) MANY }
{
    if scale < 308 {
        quotient(mantissa, exponent, 308 - scale)
    } else {
        product(mantissa, exponent, scale - 308)
    }
}

// The size of a double of this mantissa and exponent field, at the scale that leaves 15 digits.
fn rounded_size(mantissa: u64, exponent: u64) -> Decimal
    requires least { 2 ^ 52 ≤ mantissa }
    requires most { mantissa < 2 ^ 53 }
    requires exponent { (0 < exponent) × (exponent < 2048) }
    ensures exact { result ≡ of_15_digits (size_of exponent (mantissa - 2 ^ 52)) }
    ensures scale { IsBetween (10 ^ 14) (10 ^ 15)
        (ten_to (neg_ℤ result.exponent) (size_of exponent (mantissa - 2 ^ 52))) }
    ensures whole { (n : ℕ) → n < 10 ^ 15 → IsNatural n (size_of exponent (mantissa - 2 ^ 52))
        → IsNatural n (ten_to result.exponent (whole result.digits)) }
    ensures digits { (10 ^ 14 ≤ result.digits) × (result.digits ≤ 10 ^ 15) }
    ensures exponent { (negsuc 321 ≤ℤ result.exponent) × (result.exponent ≤ℤ pos 308) }
{
    // The logarithm of two, to begin at the right scale or the one above.
    let mut scale = 630 - (exponent * 30_103 + 4_631) / 100_000;
    let mut twice = twice_at(mantissa, exponent, scale);
    'up: while twice < LEAST {
        scale += 1;
        twice = twice_at(mantissa, exponent, scale);
    }
    'down: while twice >= ABOVE {
        scale -= 1;
        twice = twice_at(mantissa, exponent, scale);
    }
    Decimal {
        digits: (twice + 1) / 2,
        exponent: 308 - scale as i16,
    }
}

/// The size of a double as the nearest decimal of 15 significant digits, of two that are as near
/// the greater: digits from 10^14 on and below 10^15, or 10^15 where rounding carries. Zeros and
/// subnormal numbers give 0; the exponent of infinities and of what is no number counts as any
/// other.
pub fn to_15_digits(bits: u64) -> Decimal
    ensures exact { result ≡ decimal_of bits }

    // The scale is that which leaves 15 digits before the point, and a whole number of at most 15
    // digits stays itself.
    ensures scale { 0 < exponent_of bits → IsBetween (10 ^ 14) (10 ^ 15)
        (ten_to (neg_ℤ result.exponent) (size_of (exponent_of bits) (fraction_of bits))) }
    ensures whole { (n : ℕ) → 0 < exponent_of bits → n < 10 ^ 15
        → IsNatural n (size_of (exponent_of bits) (fraction_of bits))
        → IsNatural n (ten_to result.exponent (whole result.digits)) }

    ensures least { 0 < exponent_of bits → 10 ^ 14 ≤ result.digits }
    ensures most { result.digits ≤ 10 ^ 15 }
    ensures exponent { (negsuc 321 ≤ℤ result.exponent) × (result.exponent ≤ℤ pos 308) }
{
    let exponent = bits / FRACTION % 2048;
    if exponent == 0 {
        return Decimal {
            digits: 0,
            exponent: 0,
        };
    }
    rounded_size(FRACTION + bits % FRACTION, exponent)
}
