//! Numbers in the texts of formulas.

ghost use Rattle.std.specs.Prelude.{◌≡◌, ◌-◌, ◌^◌, ◌<◌, ◌≤◌, ◌++◌, length, take, drop, codes, if◌then◌else◌, OnOk, OnErr, pos, negsuc, ◌≤ℤ◌};
ghost use Rattle.std.specs.Fmt.{decimal};
ghost use Rattle.std.specs.List.{flat_map};
ghost use Rattle.std.specs.Str.{IsAscii};
ghost use Rattle.std.specs.String.{string_bytes};
ghost use Rattle.xls_bytes.specs.Growth.{IsGrown};
ghost use Rattle.xls_rounding.specs.FormulaNumbers.{without_zeros, zeros, with_point, scientific, digits_text, decimal_text, in_formula, formula_number};

use crate::decimals::{Decimal, magnitude, short_over_ten_to};
use crate::doubles::{FRACTION, to_15_digits};
use std::alloc::AllocError;

const SIGN: u64 = 1 << 63;

const INFINITE: u64 = 2047;

// As `push_parts`, but an error may leave some parts.
fn append_parts(parts: &[&str], text: &mut String) -> Result<(), AllocError>
    ensures ok { OnOk result (string_bytes text.new
        ≡ string_bytes text.old ++ flat_map (λ part. part.now) parts.now) }
    ensures grown { IsGrown (string_bytes text.old) (string_bytes text.new) }
{
    for part in parts {
        text.push_str(part)?;
    }
    Ok(())
}

/// Appends parts, one behind the other. Only running out of memory refuses, and then the text is as
/// it was.
pub fn push_parts(parts: &[&str], text: &mut String) -> Result<(), AllocError>
    ensures ok { OnOk result (string_bytes text.new
        ≡ string_bytes text.old ++ flat_map (λ part. part.now) parts.now) }
    ensures err { OnErr result (string_bytes text.new ≡ string_bytes text.old) }
{
    let before = text.len();
    let done = append_parts(parts, text);
    if done.is_err() {
        text.truncate(before);
    }
    done
}

/// So many zeros, at most 20.
pub fn zeros<'a>(n: usize) -> &'a str
    requires { n ≤ 20 }
    ensures { result.now ≡ zeros n }
{
    let (zeros, _) = "00000000000000000000".split_at(n);
    zeros
}

// Appends a sign and digits with a power of ten, `d.dddE+NN`, of which the digits are given.
fn push_exponent<'a>(
    sign: &'a str,
    digits: &'a str,
    mark: &'a str,
    exponent: &'a str,
    text: &mut String,
) -> Result<(), AllocError>
    requires ascii { IsAscii digits.now }
    requires some { 0 < length digits.now }
    ensures ok { OnOk result (string_bytes text.new ≡ string_bytes text.old
        ++ (sign.now ++ (with_point (take 1 digits.now) (drop 1 digits.now) ++ (mark.now ++ exponent.now)))) }
    ensures err { OnErr result (string_bytes text.new ≡ string_bytes text.old) }
{
    let (first, others) = digits.split_at(1);
    let point = if others.is_empty() { "" } else { "." };
    push_parts(&[sign, first, point, others, mark, exponent], text)
}

/// Appends a sign and digits with a power of ten, `d.dddE+NN`. Only running out of memory refuses, and
/// then the text is as it was.
pub fn push_scientific<'a>(
    sign: &'a str,
    digits: &'a str,
    is_negative: bool,
    exponent: u32,
    text: &mut String,
) -> Result<(), AllocError>
    requires ascii { IsAscii digits.now }
    requires some { 0 < length digits.now }
    ensures ok { OnOk result (string_bytes text.new ≡ string_bytes text.old
        ++ (sign.now ++ scientific digits.now (if is_negative then codes "-" else codes "+") exponent)) }
    ensures err { OnErr result (string_bytes text.new ≡ string_bytes text.old) }
{
    let mark = match (is_negative, exponent < 10) {
        (false, false) => "E+",
        (false, true) => "E+0",
        (true, false) => "E-",
        (true, true) => "E-0",
    };
    let mut buffer = itoa::Buffer::new();
    push_exponent(sign, digits, mark, buffer.format(exponent), text)
}

// Appends a sign and digits of which the first counts ten to the power `exponent`.
fn push_from_one<'a>(
    sign: &'a str,
    digits: &'a str,
    exponent: u32,
    text: &mut String,
) -> Result<(), AllocError>
    requires ascii { IsAscii digits.now }
    requires some { 0 < length digits.now }
    ensures ok { OnOk result (string_bytes text.new
        ≡ string_bytes text.old ++ (sign.now ++ digits_text digits.now (pos exponent))) }
    ensures err { OnErr result (string_bytes text.new ≡ string_bytes text.old) }
{
    if exponent > 19 {
        return push_scientific(sign, digits, false, exponent, text);
    }
    let count = exponent as usize + 1;
    if digits.len() <= count {
        return push_parts(&[sign, digits, zeros(count - digits.len())], text);
    }
    let (whole, decimals) = digits.split_at(count);
    push_parts(&[sign, whole, ".", decimals], text)
}

// Appends a sign and digits of which the first counts ten to the power -`below`.
fn push_below_one<'a>(
    sign: &'a str,
    digits: &'a str,
    below: u32,
    text: &mut String,
) -> Result<(), AllocError>
    requires ascii { IsAscii digits.now }
    requires some { 0 < length digits.now }
    requires short { length digits.now ≤ 40 }
    requires below { 0 < below }
    ensures ok { OnOk result (string_bytes text.new
        ≡ string_bytes text.old ++ (sign.now ++ digits_text digits.now (negsuc (below - 1)))) }
    ensures err { OnErr result (string_bytes text.new ≡ string_bytes text.old) }
{
    if below as usize + 1 + digits.len() > 20 {
        return push_scientific(sign, digits, true, below, text);
    }
    push_parts(&[sign, "0.", zeros(below as usize - 1), digits], text)
}

/// The digits of a number without the zeros at their end.
pub fn without_zeros(n: u64) -> u64
    requires { 0 < n }
    ensures { decimal result ≡ without_zeros (decimal n) }
{
    let mut rest = n;
    while rest % 10 == 0 {
        rest /= 10;
    }
    rest
}

// Appends a sign and a decimal that isn't 0.
fn push_decimal(sign: &str, number: Decimal, text: &mut String) -> Result<(), AllocError>
    requires { 0 < number.digits }
    ensures ok { OnOk result (string_bytes text.new
        ≡ string_bytes text.old ++ (sign.now ++ decimal_text number)) }
    ensures err { OnErr result (string_bytes text.new ≡ string_bytes text.old) }
{
    let exponent = magnitude(number);
    let mut buffer = itoa::Buffer::new();
    let digits = buffer.format(without_zeros(number.digits));
    if exponent < 0 {
        push_below_one(sign, digits, exponent.unsigned_abs(), text)
    } else {
        push_from_one(sign, digits, exponent as u32, text)
    }
}

// A decimal of 15 digits, or of 14 from 10^99 on and below 10^-98.
fn in_formula(number: Decimal) -> Decimal
    requires digits { 10 ^ 14 ≤ number.digits }
    requires exponent { number.exponent ≤ℤ pos 400 }
    ensures exact { result ≡ in_formula number }
    ensures some { 0 < result.digits }
{
    if magnitude(number).unsigned_abs() <= 98 {
        return number;
    }
    Decimal {
        digits: short_over_ten_to(number.digits, 1),
        exponent: number.exponent + 1,
    }
}

/// Appends a double as Excel shows a number in a formula: 15 significant digits, 14 from 10^99 on
/// and below 10^-98, without zeros at their end; from 10^20 on and where a number below 1 needs more
/// than 20 characters with an exponent, `1.5E+20`, `1E-19`. Zeros and subnormal numbers are `0` and
/// `-0`; the exponent of infinities and of what is no number counts as any other. Only running out
/// of memory refuses, and then the text is as it was.
pub fn push_formula_number(bits: u64, text: &mut String) -> Result<(), AllocError>
    ensures ok { OnOk result (string_bytes text.new ≡ string_bytes text.old ++ formula_number bits) }
    ensures err { OnErr result (string_bytes text.new ≡ string_bytes text.old) }
{
    let exponent = bits / FRACTION % 2048;
    let sign = if bits >= SIGN && exponent != INFINITE {
        "-"
    } else {
        ""
    };
    if exponent == 0 {
        return push_parts(&[sign, "0"], text);
    }
    push_decimal(sign, in_formula(to_15_digits(bits)), text)
}
