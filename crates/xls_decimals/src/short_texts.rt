//! Short texts in ASCII, made from their end to their beginning.

ghost use Rattle.std.specs.Prelude.{◌≡◌, ◌++◌, ◌∷◌, ◌+◌, ◌/◌, ◌%◌, ◌<◌, ◌≤◌, length, OnOk, OnErr};
ghost use Rattle.std.specs.String.{string_bytes};
ghost use Rattle.std.specs.Str.{IsAscii};
ghost use Rattle.xls_dates.specs.Numbers.{decimals_text, hundredths_text};
ghost use Rattle.xls_decimals.specs.Decimals.{decimal_of_bits};
ghost use Rattle.xls_decimals.specs.Texts.{fraction_text, minutes_text, clock_text};

use std::alloc::AllocError;
use std::str::from_utf8;
use xls_lines::{Short, digit, put_two_digits};

// Appends ASCII, which is text as it stands.
pub(crate) fn push_ascii(text: &[u8], buf: &mut String) -> Result<(), AllocError>
    requires { IsAscii text.now }
    ensures ok { OnOk result (string_bytes buf.new ≡ string_bytes buf.old ++ text.now) }
    ensures err { OnErr result (string_bytes buf.new ≡ string_bytes buf.old) }
{
    buf.push_str(from_utf8(text).unwrap())
}

// Puts milliseconds below a second before a text: a point and digits, or nothing for none.
fn put_fraction(ms: u64, text: &mut Short)
    requires { length text.old + 4 ≤ 96 }
    ensures puts { text.new ≡ fraction_text ms ++ text.old }
    ensures room { length text.new ≤ length text.old + 4 }
{
    if ms == 0 {
        return;
    }
    if ms % 100 == 0 {
        text.put_byte(digit(ms / 100));
    } else if ms % 10 == 0 {
        put_two_digits(ms / 10, text);
    } else {
        put_two_digits(ms, text);
        text.put_byte(digit(ms / 100));
    }
    text.put_byte(b'.');
}

// Puts the minutes and seconds of so many milliseconds before a text, each after a colon.
pub(crate) fn put_minutes(ms: u64, text: &mut Short)
    requires { length text.old + 10 ≤ 96 }
    ensures puts { text.new ≡ minutes_text ms ++ text.old }
    ensures room { length text.new ≤ length text.old + 10 }
{
    put_fraction(ms % 1_000, text);
    put_two_digits(ms / 1_000 % 60, text);
    text.put_byte(b':');
    put_two_digits(ms / 60_000 % 60, text);
    text.put_byte(b':');
}

// Puts a time of day before a text.
pub(crate) fn put_clock(ms: u64, text: &mut Short)
    requires { length text.old + 12 ≤ 96 }
    ensures puts { text.new ≡ clock_text ms ++ text.old }
    ensures room { length text.new ≤ length text.old + 12 }
{
    put_minutes(ms, text);
    put_two_digits(ms / 3_600_000, text);
}

// Puts hundredths below one before a text: nothing, a point and one digit, or two.
fn put_decimals(rest: u64, text: &mut Short)
    requires { length text.old + 41 ≤ 96 }
    ensures puts { text.new ≡ decimals_text rest ++ text.old }
    ensures room { length text.new ≤ length text.old + 41 }
{
    if rest == 0 {
        return;
    }
    if rest % 10 != 0 {
        text.put_digits(rest % 10);
    }
    text.put_digits(rest / 10);
    text.put_byte(b'.');
}

// So many hundredths.
pub(crate) fn hundredths(n: i64) -> Short
    ensures { result ≡ hundredths_text n }
{
    let size = n.unsigned_abs();
    let mut text = Short::new();
    put_decimals(size % 100, &mut text);
    text.put_digits(size / 100);
    if n < 0 {
        text.put_byte(b'-');
    }
    text
}

// The bits of a double in hexadecimal, before an end of at most four bytes.
pub(crate) fn hexadecimal(bits: u64, end: &[u8]) -> Short
    requires { length end.now ≤ 4 }
    ensures { result ≡ decimal_of_bits bits ++ end.now }
{
    let mut text = Short::new();
    text.put_word(end);
    text.put_hex(bits);
    text.put_word(b"0x");
    text
}
