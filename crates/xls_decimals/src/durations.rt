//! Durations.

ghost use Rattle.std.specs.Prelude.{◌≡◌, ◌<◌, ◌^◌, OnOk, OnErr};
ghost use Rattle.std.specs.Option.{is_some};
ghost use Rattle.std.specs.String.{string_bytes};
ghost use Rattle.xls_output.specs.Added.{AddsText};
ghost use Rattle.xls_decimals.specs.Texts.{duration_text};
ghost use Rattle.xls_decimals.specs.Moments.{IsDuration, span_of};

use crate::decimals::push_decimal;
use crate::fractions::days_of;
use crate::short_texts::{push_ascii, put_minutes};
use std::alloc::AllocError;
use xls_data::Number;
use xls_lines::Short;

// The text of a duration of so many milliseconds.
fn duration_text(is_negative: bool, ms: u64) -> Short
    ensures { result ≡ duration_text is_negative ms }
{
    let mut text = Short::new();
    put_minutes(ms, &mut text);
    text.put_digits(ms / 3_600_000);
    if is_negative && ms != 0 {
        text.put_byte(b'-');
    }
    text
}

/// Whether a number of days is shown as a duration: one of less than 2,958,466 days in size, as `push_duration` shows
/// it. Takes no memory.
pub fn is_span(number: Number) -> bool
    ensures { result ≡ is_some (span_of number) }
{
    days_of(number).is_some()
}

/// Appends a number of days as the number format `[h]:mm:ss` shows a duration, with its fraction of
/// a second: `30:00:00`, `-1:30:00.5`. It is the nearest millisecond of the exact value, ties to
/// even. From 2,958,466 days on a number stays a number, as `push_decimal` writes it. Only running
/// out of memory refuses, and then the text is as it was.
pub fn push_duration(number: Number, buf: &mut String) -> Result<(), AllocError>
    ensures ok { OnOk result (AddsText (IsDuration number) (string_bytes buf.old) (string_bytes buf.new)) }
    ensures err { OnErr result (string_bytes buf.new ≡ string_bytes buf.old) }
{
    match days_of(number) {
        Some(days) => push_ascii(
            duration_text(days.is_negative, days.milliseconds).as_slice(),
            buf,
        ),
        None => push_decimal(number, buf),
    }
}
