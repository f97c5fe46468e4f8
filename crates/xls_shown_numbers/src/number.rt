//! Naturals of many digits.

ghost use Rattle.std.specs.Prelude.{◌≡◌, ◌<◌, ◌≤◌, ◌+◌, ◌^◌, ◌%◌, ◌==◌, pos, ◌≤ℤ◌};
ghost use Rattle.xls_rounding.specs.Fractions.{places};
ghost use Rattle.xls_rounding.specs.Rounding.{rounded};
ghost use Rattle.xls_shown_numbers.specs.Numbers.{value};
ghost use Rattle.xls_shown_numbers.specs.Plain.{number_under, size, digit};

use crate::plain::Plain;
use xls_rounding::{Decimal, places, short_over_ten_to};

const TEN_TO_19: u128 = 10_000_000_000_000_000_000;

/// A natural of many digits: `digits` with so many zeros behind them.
#[derive(Clone, Copy, Debug, PartialEq, Eq)]
pub struct Number {
    pub digits: u128,
    pub zeros: u128,
}

// A decimal times ten to a power, rounded, halves up.
pub(crate) fn moved_by(decimal: Decimal, moved: i128) -> Number
    requires { moved ≤ℤ pos (2 ^ 100) }
    ensures value { value result ≡ rounded decimal.digits moved }
    ensures zeros { result.zeros ≤ 2 ^ 100 }
{
    if moved >= 0 {
        Number {
            digits: decimal.digits as u128,
            zeros: moved as u128,
        }
    } else {
        let below = moved.unsigned_abs().min(40) as u32;
        Number {
            digits: short_over_ten_to(decimal.digits, below) as u128,
            zeros: 0,
        }
    }
}

// A number under a section of places: its last digits are those of the decimal places.
pub(crate) fn number_under(plain: &Plain, decimal: Decimal) -> Number
    ensures value { value result ≡ number_under plain.now decimal }
    ensures zeros { result.zeros ≤ 2 ^ 100 }
{
    let up = 2 * plain.seen.percents as i128 + plain.seen.decimals as i128;
    let down = 3 * plain.thousands as i128;
    moved_by(decimal, decimal.exponent as i128 + up - down)
}

// The number of decimal digits, none of 0.
fn long_places(n: u128) -> u128
    ensures value { result ≡ places n }
    ensures within { result ≤ 60 }
{
    if n < TEN_TO_19 {
        return places(n as u64) as u128;
    }
    let high = n / TEN_TO_19;
    if high < TEN_TO_19 {
        return places(high as u64) as u128 + 19;
    }
    places((high / TEN_TO_19) as u64) as u128 + 38
}

/// Whether a natural is 0.
pub fn is_zero(n: Number) -> bool
    ensures { result ≡ (value n == 0) }
{
    n.digits == 0
}

/// How many digits a natural has, none of 0.
pub fn size(n: Number) -> u128
    requires { n.zeros ≤ 2 ^ 100 }
    ensures value { result ≡ size (value n) }
    ensures within { result ≤ n.zeros + 60 }
{
    if n.digits == 0 {
        0
    } else {
        long_places(n.digits) + n.zeros
    }
}

// The digit that counts ten to the power p, in ASCII.
pub(crate) fn digit(n: Number, p: u128) -> u8
    ensures value { result ≡ digit (value n) p }
    ensures within { result < 58 }
{
    if p < n.zeros {
        return b'0';
    }
    if p - n.zeros > 38 {
        return b'0';
    }
    b'0' + (n.digits / 10u128.pow((p - n.zeros) as u32) % 10) as u8
}

// Whether the last k digits are zeros.
pub(crate) fn ends_in_zeros(n: Number, k: u128) -> bool
    ensures { result ≡ (value n % 10 ^ k == 0) }
{
    if k <= n.zeros {
        return true;
    }
    if k - n.zeros > 38 {
        return n.digits == 0;
    }
    n.digits % 10u128.pow((k - n.zeros) as u32) == 0
}
