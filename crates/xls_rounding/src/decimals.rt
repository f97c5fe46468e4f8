//! Decimals, rounded at a place.

ghost use Rattle.std.specs.Prelude.{◌≡◌, ◌+◌, ◌*◌, ◌/◌, ◌^◌, ◌<◌, ◌==◌, if◌then◌else◌, MatchOption, ◌+ℤ◌, ◌≤◌};
ghost use Rattle.xls_rounding.specs.Fractions.{places};
ghost use Rattle.xls_rounding.specs.Rounding.{positive_part, rounded, rounded_at, magnitude_of};

/// A decimal number that isn't below zero: `digits` times ten to the power `exponent`.
#[derive(Clone, Copy, Debug, PartialEq, Eq)]
pub struct Decimal {
    pub digits: u64,
    pub exponent: i16,
}

/// A whole number: `digits` with so many zeros behind them.
#[derive(Clone, Copy, Debug, PartialEq, Eq)]
pub struct Rounded {
    pub digits: u64,
    pub zeros: u16,
}

// The number over ten to the power s, rounded, halves up.
fn over_ten_to(n: u128, s: u32) -> u128
    requires n { n < 2 ^ 96 }
    requires s { 0 < s }
    ensures { result ≡ (2 * n + 10 ^ s) / (2 * 10 ^ s) }
{
    if s > 29 {
        return 0;
    }
    let step = 10u128.pow(s);
    (2 * n + step) / (2 * step)
}

/// The number over ten to the power s, rounded, halves up.
pub fn short_over_ten_to(n: u64, s: u32) -> u64
    requires { 0 < s }
    ensures { result ≡ (2 * n + 10 ^ s) / (2 * 10 ^ s) }
{
    if s > 19 {
        return over_ten_to(n as u128, s) as u64;
    }
    let step = 10u64.pow(s);
    if n % step < step / 2 {
        n / step
    } else {
        n / step + 1
    }
}

/// The whole number nearest to `decimal` times ten to the power `place`, halves up: the decimal
/// rounded to so many places behind the point, or to tens, hundreds and so on for a negative place.
/// Zeros stand behind its digits only where nothing is rounded away.
pub fn at_place(decimal: Decimal, place: i16) -> Rounded
    ensures exact { result.digits * 10 ^ result.zeros ≡ rounded_at decimal place }
    ensures zeros { result.zeros ≡ (if decimal.digits == 0 then 0
        else positive_part (decimal.exponent +ℤ place)) }
{
    if decimal.digits == 0 {
        return Rounded {
            digits: 0,
            zeros: 0,
        };
    }
    let moved = decimal.exponent as i32 + place as i32;
    if moved >= 0 {
        Rounded {
            digits: decimal.digits,
            zeros: moved as u16,
        }
    } else {
        Rounded {
            digits: short_over_ten_to(decimal.digits, moved.unsigned_abs()),
            zeros: 0,
        }
    }
}

// The number times ten to the power z, where that is below 2^64.
fn times_ten_to(n: u64, z: u32) -> Option<u64>
    ensures { MatchOption result (2 ^ 64 ≤ n * 10 ^ z) (λ x. x ≡ n * 10 ^ z) }
{
    if n == 0 {
        return Some(0);
    }
    if z > 19 {
        return None;
    }
    n.checked_mul(10u64.pow(z))
}

// The number, where it is below 2^64.
fn as_u64(n: u128) -> Option<u64>
    ensures { MatchOption result (2 ^ 64 ≤ n) (λ x. x ≡ n) }
{
    if n > u64::MAX as u128 {
        return None;
    }
    Some(n as u64)
}

// The number times ten to the power z, rounded, halves up, where that is below 2^64.
fn moved_by(n: u128, z: i32) -> Option<u64>
    requires { n < 2 ^ 96 }
    ensures { MatchOption result (2 ^ 64 ≤ rounded n z) (λ x. x ≡ rounded n z) }
{
    if z < 0 {
        return as_u64(over_ten_to(n, z.unsigned_abs()));
    }
    match as_u64(n) {
        Some(n) => times_ten_to(n, z as u32),
        None => None,
    }
}

/// The whole number nearest to `decimal` times `factor` times ten to the power `place`, halves up.
/// None exactly where that is 2^64 or more.
pub fn times_at_place(decimal: Decimal, factor: u32, place: i16) -> Option<u64>
    ensures { let exact = rounded (decimal.digits * factor) (decimal.exponent +ℤ place) in
        MatchOption result (2 ^ 64 ≤ exact) (λ n. n ≡ exact) }
{
    moved_by(
        decimal.digits as u128 * factor as u128,
        decimal.exponent as i32 + place as i32,
    )
}

/// The number of decimal digits, none of 0.
pub fn places(n: u64) -> u8
    ensures value { result ≡ places n }
    ensures within { result ≤ 20 }
{
    if n >= 100_000_000_000_000 && n < 1_000_000_000_000_000 {
        return 15;
    }
    let mut rest = n;
    let mut count = 0;
    while rest > 0 {
        rest /= 10;
        count += 1;
    }
    count
}

/// The place of the first digit of a decimal that isn't 0: the k with 10^k <= decimal < 10^(k + 1).
pub fn magnitude(decimal: Decimal) -> i32
    requires { 0 < decimal.digits }
    ensures { result ≡ magnitude_of decimal }
{
    places(decimal.digits) as i32 - 1 + decimal.exponent as i32
}
