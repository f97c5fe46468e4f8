//! The date and the time of a number.

ghost use Rattle.std.specs.Prelude.{◌≡◌, ◌<◌, ◌≤◌, ◌*◌, ◌/◌, ◌^◌, true, false, MatchOption};
ghost use Rattle.xls_rounding.specs.Fractions.{whole, ten_to};
ghost use Rattle.xls_shown_dates.specs.Moments.{cut, units_of, unit_length, time_of, IsDate, weekday_of, last_of, is_below_zero, has_moment, IsMoment};

use xls_dates::ymd_of_serial_day;
use xls_rounding::{Decimal, times_at_place, to_15_digits};

const MILLISECONDS_OF_A_DAY: u64 = 86_400_000;

/// The smallest part of a time that is shown. Whole days are cut, all else is rounded.
#[derive(Clone, Copy, Debug, PartialEq, Eq)]
pub enum Precision {
    Days,
    Seconds,
    Tenths,
    Hundredths,
    Milliseconds,
}

/// A date and a time of day.
#[derive(Clone, Copy, Debug, PartialEq, Eq)]
pub struct Moment {
    /// Whole days since day 0 of the date system.
    pub days: u32,
    pub year: u16,
    /// From 1 on.
    pub month: u8,
    /// From 1 on; 0 on day 0 of the 1900 system.
    pub day: u8,
    /// Sunday is 0, Saturday 6.
    pub weekday: u8,
    pub hour: u8,
    pub minute: u8,
    pub second: u8,
    pub millisecond: u16,
}

// The number over ten to the power s, without its part below one.
fn over_ten_to(n: u64, s: u32) -> u64
    ensures { result ≡ n / 10 ^ s }
{
    if s > 19 {
        return 0;
    }
    n / 10u64.pow(s)
}

// A decimal without its part below one, where that is below 2^64.
#[tactic(auto, using(crate::proofs::TimeLemmas::cut_below))]
fn whole_part(decimal: Decimal) -> Option<u64>
    ensures { let exact = cut (ten_to decimal.exponent (whole decimal.digits)) in
        MatchOption result (2 ^ 64 ≤ exact) (λ n. n ≡ exact) }
{
    if decimal.exponent >= 0 {
        return times_at_place(decimal, 1, 0);
    }
    Some(over_ten_to(decimal.digits, decimal.exponent.unsigned_abs() as u32))
}

// Days as so many units.
fn units_of(decimal: Decimal, precision: Precision) -> Option<u64>
    ensures { MatchOption result (2 ^ 64 ≤ units_of precision decimal) (λ n. n ≡ units_of precision decimal) }
{
    match precision {
        Precision::Days => whole_part(decimal),
        Precision::Seconds => times_at_place(decimal, 86_400, 0),
        Precision::Tenths => times_at_place(decimal, 86_400, 1),
        Precision::Hundredths => times_at_place(decimal, 86_400, 2),
        Precision::Milliseconds => times_at_place(decimal, 86_400, 3),
    }
}

// How many milliseconds a unit lasts.
fn unit_length(precision: Precision) -> u64
    ensures exact { result ≡ unit_length precision }
    ensures some { 0 < result }
{
    match precision {
        Precision::Days => MILLISECONDS_OF_A_DAY,
        Precision::Seconds => 1_000,
        Precision::Tenths => 100,
        Precision::Hundredths => 10,
        Precision::Milliseconds => 1,
    }
}

// The milliseconds since day 0, where they are below 2^64.
fn time_of(bits: u64, precision: Precision) -> Option<u64>
    ensures { MatchOption result (2 ^ 64 ≤ time_of precision bits) (λ n. n ≡ time_of precision bits) }
{
    let units = units_of(to_15_digits(bits), precision)?;
    units.checked_mul(unit_length(precision))
}

fn is_below_zero(bits: u64) -> bool
    ensures { result ≡ is_below_zero bits }
{
    bits >= 1 << 63 && bits / (1 << 52) % 2048 != 0
}

fn last_of(is_1904: bool) -> u64
    ensures { result ≡ last_of is_1904 }
{
    if is_1904 { 2_957_003 } else { 2_958_465 }
}

// The year, the month and the day of a day.
fn date_of(day: u64, is_1904: bool) -> (u16, u8, u8)
    requires { day ≤ last_of is_1904 }
    ensures { IsDate is_1904 day result }
{
    if !is_1904 && day == 0 {
        return (1900, 1, 0);
    }
    ymd_of_serial_day(day, is_1904)
}

fn weekday_of(day: u64, is_1904: bool) -> u8
    requires { day ≤ last_of is_1904 }
    ensures { result ≡ weekday_of is_1904 day }
{
    let first = if is_1904 { 5 } else { 6 };
    ((day + first) % 7) as u8
}

// The moment so many milliseconds after the beginning of day 0.
fn moment_at(time: u64, is_1904: bool) -> Moment
    requires { time / 86_400_000 ≤ last_of is_1904 }
    ensures { IsMoment is_1904 time result }
{
    let days = time / MILLISECONDS_OF_A_DAY;
    let (year, month, day) = date_of(days, is_1904);
    Moment {
        days: days as u32,
        year,
        month,
        day,
        weekday: weekday_of(days, is_1904),
        hour: (time / 3_600_000 % 24) as u8,
        minute: (time / 60_000 % 60) as u8,
        second: (time / 1_000 % 60) as u8,
        millisecond: (time % 1_000) as u16,
    }
}

/// The moment of a double, by its bits, of 15 significant digits and the precision that is shown; in
/// the 1904 system that of its size. None exactly for a number below zero in the 1900 system, and for
/// a day after 9999-12-31, also one that rounding leads to. Takes no memory.
pub fn moment_of(bits: u64, is_1904: bool, precision: Precision) -> Option<Moment>
    ensures exact { MatchOption result (has_moment is_1904 precision bits ≡ false)
        (λ m. (has_moment is_1904 precision bits ≡ true) × IsMoment is_1904 (time_of precision bits) m) }
{
    if !is_1904 && is_below_zero(bits) {
        return None;
    }
    let time = time_of(bits, precision)?;
    if time / MILLISECONDS_OF_A_DAY > last_of(is_1904) {
        return None;
    }
    Some(moment_at(time, is_1904))
}
