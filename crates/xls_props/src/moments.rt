//! Moments: FILETIME as a text of ISO 8601.

ghost use Rattle.std.specs.Prelude.{◌≡◌, ◌==◌, ◌||◌, nat_le, ◌<◌, ◌≤◌, ◌++◌, pos, ◌+ℤ◌, IfOk, MatchOption};
ghost use Rattle.std.specs.String.{string_bytes};
ghost use Rattle.jiff.specs.Words.{epoch_day, IsEpochDay, IsBetween, IsYmd};
ghost use Rattle.xls_dates.specs.SerialDays.{day_number};
ghost use Rattle.xls_props.specs.Moments.{IsNoMoment, IsMoment, past_last_day};

use jiff::ToSpan;
use jiff::civil::{Date, date};
use std::alloc::{AllocError, Global};
use std::fmt;

/// The first FILETIME past 9999-12-31.
const PAST_LAST_DAY: u64 = 2_650_467_744_000_000_000;

// The FILETIME of a second, and the seconds of a day.
const SECOND: u64 = 10_000_000;

const SECONDS_OF_A_DAY: u64 = 86_400;

// So many days after 1601-01-01.
fn days_after_1601(days: i32) -> Date
    requires { IsBetween (pos 0) (pos 3067670) days }
    ensures { epoch_day result ≡ day_number 1601 1 1 +ℤ days }
{
    date(1601, 1, 1).checked_add((days as i64).days()).unwrap()
}

// A number below 100, in two digits.
#[derive(Clone, Copy)]
struct TwoDigits(u32);

impl fmt::Display for TwoDigits {
    ghost use Rattle.std.specs.Prelude.{Some};
    ghost use Rattle.xls_props.specs.Moments.{two_digits};

    ghost output = { λ x. Some (two_digits x.0) };

    fn fmt<W: fmt::Write>(&self, f: &mut fmt::Formatter<W>) -> fmt::Result {
        let tens = self.0 / 10;
        let ones = self.0 % 10;
        write!(f, "{tens}{ones}")
    }
}

// The time of a second of the day.
#[derive(Clone, Copy)]
struct Clock(u32);

impl fmt::Display for Clock {
    ghost use Rattle.std.specs.Prelude.{Some};
    ghost use Rattle.xls_props.specs.Moments.{clock_text};

    ghost output = { λ x. Some (clock_text x.0) };

    fn fmt<W: fmt::Write>(&self, f: &mut fmt::Formatter<W>) -> fmt::Result {
        let hours = TwoDigits(self.0 / 3600);
        let minutes = TwoDigits(self.0 / 60 % 60);
        let seconds = TwoDigits(self.0 % 60);
        write!(f, "{hours}:{minutes}:{seconds}")
    }
}

/// Whether a FILETIME has no text: 0, and what is past 9999-12-31.
pub(crate) fn is_no_moment(filetime: u64) -> bool
    ensures { result ≡ ((filetime == 0) || nat_le past_last_day filetime) }
{
    filetime == 0 || PAST_LAST_DAY <= filetime
}

/// The text of a FILETIME that has one.
pub(crate) fn moment_text(alloc: Global, filetime: u64) -> Result<String, AllocError>
    requires { (0 < filetime) × (filetime < past_last_day) }
    ensures { IfOk result (λ text. IsMoment filetime (string_bytes text)) }
{
    let seconds = filetime / SECOND;
    let day = days_after_1601((seconds / SECONDS_OF_A_DAY) as i32);
    let clock = Clock((seconds % SECONDS_OF_A_DAY) as u32);
    let text = format!(in alloc; "{day}T{clock}Z")?;
    Ok(text)
}

/// The text of a FILETIME ([MS-DTYP] FILETIME), which counts 100 nanoseconds from 1601-01-01 UTC:
/// `2020-02-29T00:00:00Z`, parts of a second dropped. None exactly for 0 and for what is past
/// 9999-12-31. Only running out of memory refuses.
pub fn filetime_to_iso8601(alloc: Global, filetime: u64) -> Result<Option<String>, AllocError>
    ensures { IfOk result (λ t. MatchOption t (IsNoMoment filetime) (λ text.
        (0 < filetime) × (filetime < past_last_day) × IsMoment filetime (string_bytes text))) }
{
    if is_no_moment(filetime) {
        return Ok(None);
    }
    let text = moment_text(alloc, filetime)?;
    Ok(Some(text))
}
