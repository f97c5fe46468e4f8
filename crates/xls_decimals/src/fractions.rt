//! Numbers of days in milliseconds, by whole numbers alone.

ghost use Rattle.std.specs.Prelude.{◌≡◌, ◌+◌, ◌*◌, ◌^◌, ◌<◌, Some};
ghost use Rattle.xls_bytes.specs.Doubles.{mantissa_of, up_of, down_of};
ghost use Rattle.xls_decimals.specs.Fractions.{nearest, day, value_of, double_over};
ghost use Rattle.xls_decimals.specs.Counted.{counted, days_in, days_in_size};

use xls_data::Number;

const FRACTION: u64 = 1 << 52;

const SIGN: u64 = 1 << 63;

/// The milliseconds of a day.
pub(crate) const DAY: u64 = 86_400_000;

/// The last day that has a date in the 1900 system, 9999-12-31.
pub(crate) const LAST_DAY: u64 = 2_958_465;

/// A number of days that has so many milliseconds, of at most the last day: its sign, whether it is
/// zero, and its size.
#[derive(Clone, Copy)]
pub(crate) struct Days {
    pub(crate) is_negative: bool,
    pub(crate) is_zero: bool,
    pub(crate) milliseconds: u64,
}

// A fraction as the nearest whole number, of two that are as near the even one.
fn nearest(up: u128, down: u128) -> u128
    requires up { up < 2 ^ 100 }
    requires down { down < 2 ^ 100 }
    requires some { 0 < down }
    ensures { result ≡ nearest up down }
{
    let below = up / down;
    let twice = up % down * 2;
    if twice < down {
        below
    } else if twice > down {
        below + 1
    } else {
        below + below % 2
    }
}

// The nearest millisecond, up to the last day.
fn counted(up: u128, down: u128) -> Option<u64>
    requires up { up < 2 ^ 100 }
    requires down { down < 2 ^ 100 }
    requires some { 0 < down }
    ensures { result ≡ counted (nearest up down) }
{
    let milliseconds = nearest(up, down);
    if milliseconds / DAY as u128 > LAST_DAY as u128 {
        return None;
    }
    Some(milliseconds as u64)
}

// The milliseconds of so many days over a number.
fn milliseconds_of_size(size: u64, over: u8) -> Option<u64>
    requires { 0 < over }
    ensures { result ≡ counted (nearest (size * day) over) }
{
    counted(size as u128 * DAY as u128, over as u128)
}

// The milliseconds of a finite double with these fields over a number.
fn milliseconds_of_fields(exponent: u64, fraction: u64, over: u8) -> Option<u64>
    requires exponent { exponent < 2047 }
    requires fraction { fraction < 2 ^ 52 }
    requires over { 0 < over }
    ensures { result ≡ counted (nearest (mantissa_of exponent fraction * 2 ^ up_of exponent * day)
        (over * 2 ^ down_of exponent)) }
{
    if exponent > 1075 {
        return None;
    }
    if exponent < 994 {
        return Some(0);
    }
    counted(
        (FRACTION + fraction) as u128 * DAY as u128,
        over as u128 * (1 << (1075 - exponent)),
    )
}

// The milliseconds of a double over a number.
fn days_of_bits(bits: u64, over: u8) -> Option<Days>
    requires { 0 < over }
    ensures { result ≡ days_in (double_over bits over) }
{
    let exponent = bits / FRACTION % 2048;
    if exponent == 2047 {
        return None;
    }
    let fraction = bits % FRACTION;
    Some(Days {
        is_negative: bits >= SIGN,
        is_zero: exponent == 0 && fraction == 0,
        milliseconds: milliseconds_of_fields(exponent, fraction, over)?,
    })
}

// The milliseconds of a whole number over a number.
fn days_of_whole(n: i64, over: u8) -> Option<Days>
    requires { 0 < over }
    ensures { result ≡ days_in (Some (days_in_size n over)) }
{
    Some(Days {
        is_negative: n < 0,
        is_zero: n == 0,
        milliseconds: milliseconds_of_size(n.unsigned_abs(), over)?,
    })
}

/// What a number of days is in milliseconds. None for infinities, what is no number and more days
/// than the last.
pub(crate) fn days_of(number: Number) -> Option<Days>
    ensures { result ≡ days_in (value_of number) }
{
    match number {
        Number::Bits(bits) => days_of_bits(bits, 1),
        Number::Whole(n) => days_of_whole(n, 1),
        Number::Hundredths(n) => days_of_whole(n, 100),
        Number::BitsOver100(bits) => days_of_bits(bits, 100),
    }
}
