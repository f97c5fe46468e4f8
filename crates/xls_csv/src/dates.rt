//! Serial days that are shown as dates.

ghost use Rattle.std.specs.Prelude.{◌≡◌, Some};
ghost use Rattle.xls_csv.specs.Dates as dates;

use xls_bytes::whole_of_bits;
use xls_data::{ExcelDateTime, Number};

/// The last day that has a date, 9999-12-31, in both date systems.
const LAST_DAY: i64 = 2_958_465;

const LAST_DAY_OF_1904: i64 = 2_957_003;

/// The whole number that a number is, if it is one.
fn whole_number(number: Number) -> Option<i64>
    ensures { result ≡ dates.whole_number number }
{
    match number {
        Number::Bits(bits) => whole_of_bits(bits),
        Number::Whole(n) => Some(n),
        Number::Hundredths(n) if n % 100 == 0 => Some(n / 100),
        Number::Hundredths(_) | Number::BitsOver100(_) => None,
    }
}

/// A number as a serial day, if there is a date for it.
fn counted_day(number: i64, is_1904: bool) -> Option<u64>
    ensures { result ≡ dates.counted_day is_1904 (Some number) }
{
    let last = if is_1904 { LAST_DAY_OF_1904 } else { LAST_DAY };
    if 1 <= number && number <= last {
        return Some(number as u64);
    }
    None
}

/// The serial day of a date without a time of day, if there is a date for it. A duration has none.
pub(crate) fn day_of(date: ExcelDateTime) -> Option<u64>
    ensures { result ≡ dates.day_of date }
{
    if date.is_duration() {
        return None;
    }
    counted_day(whole_number(date.number())?, date.has_1904_epoch())
}
