//! Serial days as calendar dates.

ghost use Rattle.std.specs.Prelude.{◌≡◌, ◌++◌, ◌+◌, ◌<◌, ◌≤◌, length};
ghost use Rattle.xls_lines.specs.Days.{date_text, digit, last_day_in, serial_date, two_digits};

use crate::short::Short;
use xls_data::ymd_of_serial_day;

/// The last decimal digit of a number.
pub fn digit(n: u64) -> u8
    ensures value { result ≡ digit n }
    ensures ascii { result < 128 }
{
    b'0' + (n % 10) as u8
}

/// Puts the last two digits of a number before a text.
pub fn put_two_digits(n: u64, text: &mut Short)
    requires { length text.old + 2 ≤ 96 }
    ensures { text.new ≡ two_digits n ++ text.old }
{
    text.put_byte(digit(n));
    text.put_byte(digit(n / 10));
}

/// Puts a calendar date before a text.
fn put_date(year: u16, month: u8, day: u8, text: &mut Short)
    requires { length text.old + 10 ≤ 96 }
    ensures { text.new ≡ date_text (year, month, day) ++ text.old }
{
    put_two_digits(u64::from(day), text);
    text.put_byte(b'-');
    put_two_digits(u64::from(month), text);
    text.put_byte(b'-');
    put_two_digits(u64::from(year), text);
    put_two_digits(u64::from(year) / 100, text);
}

/// Puts the date of a serial day before a text, `2024-02-29`.
pub fn put_day(day: u64, is_1904: bool, text: &mut Short)
    requires last { day ≤ last_day_in is_1904 }
    requires room { length text.old + 10 ≤ 96 }
    ensures { text.new ≡ date_text (serial_date is_1904 day) ++ text.old }
{
    let (year, month, day) = ymd_of_serial_day(day, is_1904);
    put_date(year, month, day, text);
}
