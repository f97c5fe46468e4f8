//! The fraction that shows a number.

ghost use Rattle.std.specs.Prelude.{◌≡◌, ◌+◌, ◌-◌, ◌*◌, ◌<◌, ◌≤◌, ◌==◌, ◌^◌, min, pos, IfSome};
ghost use Rattle.std.specs.Float.{binary64, fract, recip};
ghost use Rattle.std.specs.Float.Ieee.{le, eq};
ghost use Rattle.xls_bytes.specs.Doubles.{exponent_of};
ghost use Rattle.xls_rounding.specs.Rounding.{decimal_of, rounded_at};
ghost use Rattle.xls_number_formats.specs.Choices.{counted};
ghost use Rattle.xls_shown_numbers.specs.Numbers.{value};
ghost use Rattle.xls_shown_fractions.specs.Ratios.{whole_of, fits, quotients, last_within, nearest_fraction, fixed_numerator, fraction_under, one_under, small_of, placed, improper, proper, ratio_of};
ghost use Rattle.xls_shown_fractions.specs.Shown.{mixed};

use crate::needs::Fraction;
use std::num::saturating_f64_to_u64;
use xls_rounding::{Decimal, at_place, to_15_digits};
use xls_shown_numbers::Number;

pub(crate) const ZERO: f64 = 0.0;

pub(crate) const TEN_TO_15: f64 = 1_000_000_000_000_000.0;

const FRACTION: u64 = 1 << 52;

// A whole number and a fraction.
#[derive(Clone, Copy)]
pub(crate) struct Ratio {
    pub(crate) whole: Number,
    pub(crate) numerator: Number,
    pub(crate) denominator: u64,
}

// The finite double with these bits; 0 where it is subnormal.
fn counted(bits: u64) -> f64
    requires { exponent_of bits < 2047 }
    ensures { result ≡ counted bits }
{
    if bits / FRACTION % 2048 == 0 {
        ZERO
    } else {
        f64::from_bits(bits)
    }
}

// A part of the next convergent, behind the last two.
fn next(quotient: u64, last: u64, before: u64) -> u128
    ensures { result ≡ quotient * last + before }
{
    quotient as u128 * last as u128 + before as u128
}

fn fits(most: u64, numerator: u128, denominator: u128) -> bool
    ensures { result ≡ fits most (numerator, denominator) }
{
    numerator <= most as u128 && denominator <= most as u128
}

// The last convergent of a double below 1 with both parts up to a bound.
fn convergent(most: u64, x: f64) -> (u64, u64)
    requires { most < 2 ^ 32 }
    ensures exact { result ≡ last_within most (1, 0) (0, 1) (quotients 45 x) }
{
    let mut before: (u64, u64) = (1, 0);
    let mut last: (u64, u64) = (0, 1);
    let mut rest = x;
    let mut left = 45u32;
    'quotients: while left > 0 {
        if rest == ZERO {
            return last;
        }
        let reciprocal = rest.recip();
        let quotient = saturating_f64_to_u64(reciprocal);
        let numerator = next(quotient, last.0, before.0);
        let denominator = next(quotient, last.1, before.1);
        if !fits(most, numerator, denominator) {
            return last;
        }
        before = last;
        last = (numerator as u64, denominator as u64);
        rest = reciprocal.fract();
        left -= 1;
    }
    last
}

fn nearest_fraction(places: u64, x: f64) -> (u64, u64)
    ensures { result ≡ nearest_fraction places x }
{
    let most = 10u64.pow(places.min(9) as u32).saturating_sub(1);
    convergent(most, x)
}

// The numerator over a fixed denominator.
fn fixed_numerator(denominator: u64, x: f64) -> u64
    requires { denominator ≤ 2 ^ 53 }
    ensures { result ≡ fixed_numerator denominator x }
{
    saturating_f64_to_u64((x * denominator as f64).round())
}

// The fraction that shows a double below 1.
fn fraction_under(fixed: Option<u64>, places: u64, x: f64) -> (u64, u64)
    requires { IfSome fixed (λ d. d ≤ 2 ^ 53) }
    ensures { result ≡ fraction_under fixed places x }
{
    match fixed {
        Some(denominator) => (fixed_numerator(denominator, x), denominator),
        None => nearest_fraction(places, x),
    }
}

fn small(digits: u128) -> Number
    ensures value { value result ≡ digits }
    ensures zeros { result.zeros ≡ 0 }
{
    Number { digits, zeros: 0 }
}

// A number below 10^15, where all of it goes into the numerator, and where it doesn't.
fn improper(whole: u64, numerator: u64, denominator: u64) -> Ratio
    ensures exact { mixed result ≡ improper (record { whole = whole; numerator = numerator; denominator = denominator }) }
    ensures whole { result.whole.zeros ≡ 0 }
    ensures numerator { result.numerator.zeros ≡ 0 }
{
    Ratio {
        whole: small(0),
        numerator: small(whole as u128 * denominator as u128 + numerator as u128),
        denominator,
    }
}

fn proper(whole: u64, numerator: u64, denominator: u64) -> Ratio
    ensures exact { mixed result ≡ proper (record { whole = whole; numerator = numerator; denominator = denominator }) }
    ensures whole { result.whole.zeros ≡ 0 }
    ensures numerator { result.numerator.zeros ≡ 0 }
{
    if numerator > 0 && numerator == denominator {
        Ratio {
            whole: small(whole as u128 + 1),
            numerator: small(0),
            denominator,
        }
    } else {
        Ratio {
            whole: small(whole as u128),
            numerator: small(numerator as u128),
            denominator,
        }
    }
}

// A number from 10^15 on, which has no fraction.
fn large_improper(decimal: Decimal, denominator: u64) -> Ratio
    ensures exact { mixed result
        ≡ improper (record { whole = rounded_at decimal (pos 0); numerator = 0; denominator = denominator }) }
    ensures whole { result.whole.zeros ≤ 2 ^ 100 }
    ensures numerator { result.numerator.zeros ≤ 2 ^ 100 }
{
    let whole = at_place(decimal, 0);
    Ratio {
        whole: small(0),
        numerator: Number {
            digits: whole.digits as u128 * denominator as u128,
            zeros: whole.zeros as u128,
        },
        denominator,
    }
}

fn large_proper(decimal: Decimal, denominator: u64) -> Ratio
    ensures exact { mixed result
        ≡ proper (record { whole = rounded_at decimal (pos 0); numerator = 0; denominator = denominator }) }
    ensures whole { result.whole.zeros ≤ 2 ^ 100 }
    ensures numerator { result.numerator.zeros ≤ 2 ^ 100 }
{
    let whole = at_place(decimal, 0);
    Ratio {
        whole: Number {
            digits: whole.digits as u128,
            zeros: whole.zeros as u128,
        },
        numerator: small(0),
        denominator,
    }
}

// The denominator of no fraction.
fn one_under(fixed: Option<u64>) -> u64
    ensures { result ≡ one_under fixed }
{
    match fixed {
        Some(denominator) => denominator,
        None => 1,
    }
}

fn large_ratio(fraction: &Fraction, decimal: Decimal) -> Ratio
    ensures exact { mixed result ≡ placed fraction.now
        (record { whole = rounded_at decimal (pos 0); numerator = 0; denominator = one_under fraction.now.fixed }) }
    ensures whole { result.whole.zeros ≤ 2 ^ 100 }
    ensures numerator { result.numerator.zeros ≤ 2 ^ 100 }
{
    let denominator = one_under(fraction.fixed);
    if fraction.whole == 0 {
        large_improper(decimal, denominator)
    } else {
        large_proper(decimal, denominator)
    }
}

fn small_ratio(fraction: &Fraction, size: f64) -> Ratio
    requires { IfSome fraction.now.fixed (λ d. d ≤ 2 ^ 53) }
    ensures exact { mixed result ≡ placed fraction.now (small_of fraction.now size) }
    ensures whole { result.whole.zeros ≤ 2 ^ 100 }
    ensures numerator { result.numerator.zeros ≤ 2 ^ 100 }
{
    let whole = saturating_f64_to_u64(size);
    let (numerator, denominator) = fraction_under(fraction.fixed, fraction.places, size.fract());
    if fraction.whole == 0 {
        improper(whole, numerator, denominator)
    } else {
        proper(whole, numerator, denominator)
    }
}

// The number that a fraction's section shows of the finite double with these bits.
pub(crate) fn ratio_of(fraction: &Fraction, bits: u64) -> Ratio
    requires finite { exponent_of bits < 2047 }
    requires fixed { IfSome fraction.now.fixed (λ d. d ≤ 2 ^ 53) }
    ensures exact { mixed result ≡ ratio_of fraction.now bits }
    ensures whole { result.whole.zeros ≤ 2 ^ 100 }
    ensures numerator { result.numerator.zeros ≤ 2 ^ 100 }
{
    let size = counted(bits).abs();
    if TEN_TO_15 <= size {
        large_ratio(fraction, to_15_digits(bits))
    } else {
        small_ratio(fraction, size)
    }
}
