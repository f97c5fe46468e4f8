//! Calendar dates of serial days.

ghost use Rattle.std.specs.Prelude.{◌≡◌, ◌<◌, ◌≤◌, true, false, pos, negsuc, ◌+ℤ◌, ◌≤ℤ◌};
ghost use Rattle.jiff.specs.Words.{epoch_day, IsEpochDay, IsBetween};
ghost use Rattle.xls_dates.specs.SerialDays.{IsDayNumber, day_number, last_day, last_day_of_1904};

use jiff::ToSpan;
use jiff::civil::{Date, date};

// The last day that is counted, 9999-12-31, in both date systems.
const LAST_DAY: u64 = 2_958_465;

const LAST_DAY_OF_1904: u64 = 2_957_003;

// The date so many days later.
fn days_after(start: Date, days: i32) -> Date
    requires range { IsBetween (pos 0) (pos 2958465) days }
    requires fits { IsEpochDay (epoch_day start +ℤ days) }
    ensures { epoch_day result ≡ epoch_day start +ℤ days }
{
    start.checked_add((days as i64).days()).unwrap()
}

// The year, the month and the day of a date from year 0 on.
fn parts_of(date: Date) -> (u16, u8, u8)
    requires { pos 0 ≤ℤ date.year }
    ensures { IsDayNumber (epoch_day date) result }
{
    (date.year() as u16, date.month() as u8, date.day() as u8)
}

// The year, the month and the day so many days later.
fn ymd_after(start: Date, days: i32) -> (u16, u8, u8)
    requires range { IsBetween (pos 0) (pos 2958465) days }
    requires fits { IsEpochDay (epoch_day start +ℤ days) }
    requires start { negsuc 25568 ≤ℤ epoch_day start }
    ensures { IsDayNumber (epoch_day start +ℤ days) result }
{
    parts_of(days_after(start, days))
}

/// The year, month and day of a serial day. The 1900 system counts from 1899-12-31 and has a day
/// 60, 1900-02-29, which the calendar lacks; the 1904 system counts from 1904-01-01. Days past
/// 9999-12-31 answer that day. Takes no memory.
pub fn ymd_of_serial_day(day: u64, is_1904: bool) -> (u16, u8, u8)
    ensures leap { is_1904 ≡ false → day ≡ 60 → result ≡ (1900, 2, 29) }
    ensures early { is_1904 ≡ false → day < 60
        → IsDayNumber (day_number 1899 12 31 +ℤ pos day) result }
    ensures late { is_1904 ≡ false → 60 < day → day ≤ last_day
        → IsDayNumber (day_number 1899 12 30 +ℤ pos day) result }
    ensures past { is_1904 ≡ false → last_day < day → result ≡ (9999, 12, 31) }
    ensures from_1904 { is_1904 ≡ true → day ≤ last_day_of_1904
        → IsDayNumber (day_number 1904 1 1 +ℤ pos day) result }
    ensures past_1904 { is_1904 ≡ true → last_day_of_1904 < day → result ≡ (9999, 12, 31) }
{
    if is_1904 {
        if day > LAST_DAY_OF_1904 {
            return (9999, 12, 31);
        }
        return ymd_after(date(1904, 1, 1), day as i32);
    }
    if day > LAST_DAY {
        return (9999, 12, 31);
    }
    if day == 60 {
        return (1900, 2, 29);
    }
    if day < 60 {
        ymd_after(date(1899, 12, 31), day as i32)
    } else {
        ymd_after(date(1899, 12, 30), day as i32)
    }
}
