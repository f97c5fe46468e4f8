//! Dates and times of day.

ghost use Rattle.std.specs.Prelude.{◌≡◌, ◌/◌, ◌≤◌, OnOk, OnErr};
ghost use Rattle.std.specs.Option.{is_some};
ghost use Rattle.std.specs.String.{string_bytes};
ghost use Rattle.xls_output.specs.Added.{AddsText};
ghost use Rattle.xls_lines.specs.Days.{last_day_in};
ghost use Rattle.xls_decimals.specs.Fractions.{day};
ghost use Rattle.xls_decimals.specs.Texts.{moment_text};
ghost use Rattle.xls_decimals.specs.Moments.{IsDate, IsDateOrDuration, moment_of};

use crate::decimals::push_decimal;
use crate::durations::push_duration;
use crate::fractions::{DAY, LAST_DAY, days_of};
use crate::short_texts::{push_ascii, put_clock};
use std::alloc::AllocError;
use xls_data::{ExcelDateTime, Number};
use xls_lines::{Short, put_day};

/// The last day that has a date in the 1904 system, 9999-12-31.
const LAST_DAY_OF_1904: u64 = 2_957_003;

// The milliseconds of a date since day 0, where it is in range.
fn moment_of(number: Number, is_1904: bool) -> Option<u64>
    ensures { result ≡ moment_of is_1904 number }
{
    let days = days_of(number)?;
    if days.is_negative && !days.is_zero {
        return None;
    }
    let last = if is_1904 { LAST_DAY_OF_1904 } else { LAST_DAY };
    if days.milliseconds / DAY > last {
        return None;
    }
    Some(days.milliseconds)
}

/// Whether a number of days has a date and time in the 1900 or the 1904 system: one from 0 to 9999-12-31, as
/// `push_date` shows it. Takes no memory.
pub fn is_moment(number: Number, is_1904: bool) -> bool
    ensures { result ≡ is_some (moment_of is_1904 number) }
{
    moment_of(number, is_1904).is_some()
}

// The text of a day and a time of day.
fn moment_text(ms: u64, is_1904: bool) -> Short
    requires { ms / day ≤ last_day_in is_1904 }
    ensures { result ≡ moment_text is_1904 ms }
{
    let mut text = Short::new();
    if ms < DAY {
        put_clock(ms, &mut text);
        return text;
    }
    let time = ms % DAY;
    if time != 0 {
        put_clock(time, &mut text);
        text.put_byte(b'T');
    }
    put_day(ms / DAY, is_1904, &mut text);
    text
}

/// Appends the date and time of a number of days in the 1900 or the 1904 system, to the nearest
/// millisecond of its exact value, ties to even: `2024-02-29T13:45:30.25`, at midnight the day
/// alone, below one day a time alone, `13:45:30`. A number below zero or after 9999-12-31 stays a
/// number, as `push_decimal` writes it. Only running out of memory refuses, and then the text is as
/// it was.
pub fn push_date(number: Number, is_1904: bool, buf: &mut String) -> Result<(), AllocError>
    ensures ok { OnOk result (AddsText (IsDate is_1904 number) (string_bytes buf.old) (string_bytes buf.new)) }
    ensures err { OnErr result (string_bytes buf.new ≡ string_bytes buf.old) }
{
    match moment_of(number, is_1904) {
        Some(ms) => push_ascii(moment_text(ms, is_1904).as_slice(), buf),
        None => push_decimal(number, buf),
    }
}

/// Appends a date or a duration by its kind, as `push_date` and `push_duration` do. Only running
/// out of memory refuses, and then the text is as it was.
pub fn push_date_or_duration(value: ExcelDateTime, buf: &mut String) -> Result<(), AllocError>
    ensures ok { OnOk result (AddsText (IsDateOrDuration value) (string_bytes buf.old) (string_bytes buf.new)) }
    ensures err { OnErr result (string_bytes buf.new ≡ string_bytes buf.old) }
{
    if value.is_duration() {
        return push_duration(value.number(), buf);
    }
    push_date(value.number(), value.has_1904_epoch(), buf)
}
