//! Numbers as a workbook has them, and their printed texts.

ghost use Rattle.std.specs.Prelude.{◌≡◌, ◌==◌, ◌<◌, ◌^◌, ◌++◌, Some, codes};
ghost use Rattle.std.specs.Fmt.{DisplaysOnOk};
ghost use Rattle.xls_dates.specs.Numbers.{number_trunc, number_trunc_checked, number_text, hundredths_text, decimals_text, bits_text, over_100_text, sixteen_digits};

use std::fmt;
use xls_bytes::{trunc_checked_of_bits, trunc_of_bits, whole_of_bits};

/// A number in the form that the stream has it in. Two numbers are equal where form and value are.
#[derive(Clone, Copy, Debug, PartialEq, Eq)]
pub enum Number {
    /// The double with these bits.
    Bits(u64),
    /// A whole number.
    Whole(i64),
    /// So many hundredths.
    Hundredths(i64),
    /// The double with these bits, over 100.
    BitsOver100(u64),
}

impl Number {
    /// The number cut toward zero. What is no number gives 0, and what is outside i64 its nearer
    /// end.
    pub fn trunc(&self) -> i64
        ensures { result ≡ number_trunc self.now }
    {
        match *self {
            Number::Bits(bits) => trunc_of_bits(bits, 1),
            Number::Whole(n) => n,
            Number::Hundredths(n) => n / 100,
            Number::BitsOver100(bits) => trunc_of_bits(bits, 100),
        }
    }

    /// The number cut toward zero. None exactly where a double is infinite or no number, or the cut
    /// number is outside i64.
    pub fn trunc_checked(&self) -> Option<i64>
        ensures { result ≡ number_trunc_checked self.now }
    {
        match *self {
            Number::Bits(bits) => trunc_checked_of_bits(bits, 1),
            Number::Whole(n) => Some(n),
            Number::Hundredths(n) => Some(n / 100),
            Number::BitsOver100(bits) => trunc_checked_of_bits(bits, 100),
        }
    }
}

// The bits of the double negative zero.
const NEGATIVE_ZERO: u64 = 1 << 63;

fn is_negative_zero(bits: u64) -> bool
    ensures { result ≡ (bits == 2 ^ 63) }
{
    bits == NEGATIVE_ZERO
}

// A point and the hundredths beside a whole number, without a last 0; nothing for none.
fn write_decimals<W: fmt::Write>(rest: u64, f: &mut fmt::Formatter<W>) -> fmt::Result
    requires { rest < 100 }
    ensures { DisplaysOnOk W.write_str_gives f.old result (Some (decimals_text rest)) f.new }
{
    if rest == 0 {
        return Ok(());
    }
    let tens = rest / 10;
    let ones = rest % 10;
    if ones == 0 {
        write!(f, ".{tens}")
    } else {
        write!(f, ".{tens}{ones}")
    }
}

fn write_hundredths<W: fmt::Write>(n: i64, f: &mut fmt::Formatter<W>) -> fmt::Result
    ensures { DisplaysOnOk W.write_str_gives f.old result (Some (hundredths_text n)) f.new }
{
    let size = n.unsigned_abs();
    if n < 0 {
        write!(f, "-")?;
    }
    let whole = size / 100;
    write!(f, "{whole}")?;
    write_decimals(size % 100, f)
}

#[tactic(auto, using(crate::proofs::HexLemmas::padded_hex))]
fn write_hex<W: fmt::Write>(bits: u64, f: &mut fmt::Formatter<W>) -> fmt::Result
    ensures { DisplaysOnOk W.write_str_gives f.old result
        (Some (codes "0x" ++ sixteen_digits bits)) f.new }
{
    write!(f, "0x{bits:016x}")
}

fn write_bits<W: fmt::Write>(bits: u64, f: &mut fmt::Formatter<W>) -> fmt::Result
    ensures { DisplaysOnOk W.write_str_gives f.old result (Some (bits_text bits)) f.new }
{
    if is_negative_zero(bits) {
        return write!(f, "-0");
    }
    match whole_of_bits(bits) {
        Some(n) => write!(f, "{n}"),
        None => write_hex(bits, f),
    }
}

fn write_over_100<W: fmt::Write>(bits: u64, f: &mut fmt::Formatter<W>) -> fmt::Result
    ensures { DisplaysOnOk W.write_str_gives f.old result (Some (over_100_text bits)) f.new }
{
    if is_negative_zero(bits) {
        return write!(f, "-0");
    }
    match whole_of_bits(bits) {
        Some(n) => write_hundredths(n, f),
        None => {
            write_hex(bits, f)?;
            write!(f, "/100")
        }
    }
}

impl fmt::Display for Number {
    ghost output = { λ n. Some (number_text n) };

    fn fmt<W: fmt::Write>(&self, f: &mut fmt::Formatter<W>) -> fmt::Result {
        match *self {
            Number::Bits(bits) => write_bits(bits, f),
            Number::Whole(n) => write!(f, "{n}"),
            Number::Hundredths(n) => write_hundredths(n, f),
            Number::BitsOver100(bits) => write_over_100(bits, f),
        }
    }
}
