//! Numbers under the code `General`.

ghost use Rattle.std.specs.Prelude.{◌≡◌, ◌==◌, ◌<◌, ◌≤◌, ◌^◌, ◌∷◌, ◌++◌, OnOk, OnErr, pos, negsuc, ◌+ℤ◌, ◌-ℤ◌, ◌≤ℤ◌};
ghost use Rattle.std.specs.String.{string_bytes};
ghost use Rattle.std.specs.Fmt.{decimal};
ghost use Rattle.xls_rounding.specs.FormulaNumbers.{without_zeros};
ghost use Rattle.xls_rounding.specs.Rounding.{rounded_at, magnitude_of, decimal_of};
ghost use Rattle.xls_shown_numbers.specs.Digits.{last_digits, Is15Digits};
ghost use Rattle.xls_shown_numbers.specs.General.{fixed, with_power, decimals_of, power_form, exponent_form, fixed_form, is_exact_enough, general_at, general};

use std::alloc::AllocError;
use xls_rounding::{
    Decimal, at_place, magnitude, push_parts, push_scientific, times_at_place, to_15_digits,
    without_zeros,
};

// A decimal rounded at a place before its last digit.
fn rounded(decimal: Decimal, place: i32) -> u64
    requires before { (decimal.exponent +ℤ place) ≤ℤ negsuc 0 }
    requires low { negsuc 2000 ≤ℤ place }
    requires high { place ≤ℤ pos 2000 }
    ensures { result ≡ rounded_at decimal place }
{
    at_place(decimal, place as i16).digits
}

// A number that has `1` before its decimals: the last p digits of n, without zeros at their end.
fn decimals(n: u64, p: u32) -> u64
    requires { p ≤ 10 }
    ensures { decimal result ≡ 49 ∷ without_zeros (last_digits p n) }
{
    let one = 10u64.pow(p);
    without_zeros(one + n % one)
}

// Appends n over ten to the power p, without zeros at the end of its decimals.
fn push_fixed(n: u64, p: u32, text: &mut String) -> Result<(), AllocError>
    requires { p ≤ 10 }
    ensures ok { OnOk result (string_bytes text.new ≡ string_bytes text.old ++ fixed n p) }
    ensures err { OnErr result (string_bytes text.new ≡ string_bytes text.old) }
{
    let mut whole = itoa::Buffer::new();
    let mut marked = itoa::Buffer::new();
    let (_, decimals) = marked.format(decimals(n, p)).split_at(1);
    let point = if decimals.is_empty() { "" } else { "." };
    push_parts(&[whole.format(n / 10u64.pow(p)), point, decimals], text)
}

// Appends digits with a power of ten.
fn push_power(digits: u64, exponent: i32, text: &mut String) -> Result<(), AllocError>
    ensures ok { OnOk result (string_bytes text.new
        ≡ string_bytes text.old ++ with_power (decimal digits) exponent) }
    ensures err { OnErr result (string_bytes text.new ≡ string_bytes text.old) }
{
    let mut buffer = itoa::Buffer::new();
    let digits = buffer.format(digits);
    if exponent < 0 {
        push_scientific("", digits, true, exponent.unsigned_abs(), text)
    } else {
        push_scientific("", digits, false, exponent as u32, text)
    }
}

// Decimals before an exponent.
fn decimals_of(k: i32) -> u32
    ensures exact { result ≡ decimals_of k }
    ensures within { (4 ≤ result) × (result ≤ 5) }
{
    if k.unsigned_abs() < 100 { 5 } else { 4 }
}

// Appends n over ten to the power f, times ten to the power k, with an exponent.
fn push_power_form(n: u64, f: u32, k: i32, text: &mut String) -> Result<(), AllocError>
    requires n { 0 < n }
    requires f { f ≤ 5 }
    requires k { k ≤ℤ pos 2000 }
    ensures ok { OnOk result (string_bytes text.new ≡ string_bytes text.old ++ power_form n f k) }
    ensures err { OnErr result (string_bytes text.new ≡ string_bytes text.old) }
{
    if n == 10u64.pow(f + 1) {
        push_power(without_zeros(n), k + 1, text)
    } else {
        push_power(without_zeros(n), k, text)
    }
}

// Appends a decimal whose first digit counts ten to the power k, with an exponent.
fn push_exponent_form(decimal: Decimal, k: i32, text: &mut String) -> Result<(), AllocError>
    requires digits { Is15Digits decimal }
    requires k { k ≡ magnitude_of decimal }
    ensures ok { OnOk result (string_bytes text.new ≡ string_bytes text.old ++ exponent_form decimal k) }
    ensures err { OnErr result (string_bytes text.new ≡ string_bytes text.old) }
{
    let places = decimals_of(k);
    push_power_form(rounded(decimal, places as i32 - k), places, k, text)
}

// Whether a decimal at a place is this number.
fn is_at_place(decimal: Decimal, place: i32, n: u64) -> bool
    requires low { negsuc 2000 ≤ℤ place }
    requires high { place ≤ℤ pos 2000 }
    ensures { result ≡ (rounded_at decimal place == n) }
{
    match times_at_place(decimal, 1, place as i16) {
        Some(exact) => exact == n,
        None => false,
    }
}

// Whether nine decimals are enough for a decimal whose first digit counts ten to the power k.
fn is_exact_enough(decimal: Decimal, k: i32) -> bool
    requires digits { Is15Digits decimal }
    requires k { k ≡ magnitude_of decimal }
    requires below { k ≤ℤ negsuc 0 }
    ensures { result ≡ is_exact_enough decimal k }
{
    let ninths = Decimal {
        digits: rounded(decimal, 9),
        exponent: -9,
    };
    let six = rounded(decimal, 5 - k);
    let same = is_at_place(ninths, 5 - k, six);
    ninths.digits != 0 && same
}

// Appends a decimal with p decimals.
fn push_fixed_form(decimal: Decimal, p: u32, text: &mut String) -> Result<(), AllocError>
    requires p { p ≤ 10 }
    requires before { (decimal.exponent +ℤ pos p) ≤ℤ negsuc 0 }
    ensures ok { OnOk result (string_bytes text.new ≡ string_bytes text.old ++ fixed_form decimal p) }
    ensures err { OnErr result (string_bytes text.new ≡ string_bytes text.old) }
{
    push_fixed(rounded(decimal, p as i32), p, text)
}

// Appends a decimal below 1 whose first digit counts ten to the power k.
fn push_below_one(decimal: Decimal, k: i32, text: &mut String) -> Result<(), AllocError>
    requires digits { Is15Digits decimal }
    requires k { k ≡ magnitude_of decimal }
    requires below { k ≤ℤ negsuc 0 }
    ensures ok { OnOk result (string_bytes text.new ≡ string_bytes text.old ++ general_at decimal k) }
    ensures err { OnErr result (string_bytes text.new ≡ string_bytes text.old) }
{
    if k >= -4 || is_exact_enough(decimal, k) {
        push_fixed_form(decimal, 9, text)
    } else {
        push_exponent_form(decimal, k, text)
    }
}

// Appends a decimal from 1 on whose first digit counts ten to the power k.
fn push_from_one(decimal: Decimal, k: u32, text: &mut String) -> Result<(), AllocError>
    requires digits { Is15Digits decimal }
    requires k { pos k ≡ magnitude_of decimal }
    ensures ok { OnOk result (string_bytes text.new ≡ string_bytes text.old ++ general_at decimal (pos k)) }
    ensures err { OnErr result (string_bytes text.new ≡ string_bytes text.old) }
{
    if k < 10 {
        push_fixed_form(decimal, 9u32.saturating_sub(k), text)
    } else if k == 10 && rounded(decimal, 0) != 100_000_000_000 {
        push_fixed_form(decimal, 0, text)
    } else {
        push_exponent_form(decimal, k as i32, text)
    }
}

/// Appends the size of a number as the code `General` shows it: at most 11 characters, rounded from
/// the 15 digits of `decimal`, without zeros at the end of its decimals; from 10^11 on, and below
/// 10^-4 where nine decimals show less than six digits, with an exponent, `1.5E+11`. No sign is shown.
/// Only running out of memory refuses, and then the text is as it was.
pub fn push_general(decimal: Decimal, text: &mut String) -> Result<(), AllocError>
    requires { 0 < decimal.digits → Is15Digits decimal }
    ensures ok { OnOk result (string_bytes text.new ≡ string_bytes text.old ++ general decimal) }
    ensures err { OnErr result (string_bytes text.new ≡ string_bytes text.old) }
{
    if decimal.digits == 0 {
        return text.push_str("0");
    }
    let k = magnitude(decimal);
    if k < 0 {
        push_below_one(decimal, k, text)
    } else {
        push_from_one(decimal, k as u32, text)
    }
}

/// As `push_general`, of a double's size.
pub fn push_general_double(bits: u64, text: &mut String) -> Result<(), AllocError>
    ensures ok { OnOk result (string_bytes text.new ≡ string_bytes text.old ++ general (decimal_of bits)) }
    ensures err { OnErr result (string_bytes text.new ≡ string_bytes text.old) }
{
    push_general(to_15_digits(bits), text)
}
