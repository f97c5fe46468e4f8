//! What a date's section needs of a time.

ghost use Rattle.std.specs.Prelude.{◌≡◌};
ghost use Rattle.std.specs.Str.{chars};
ghost use Rattle.xls_shown_dates.specs.Fields.{is_time, is_half_day, fields, clock_of, precision_of};
ghost use Rattle.xls_shown_dates.specs.Scans.{scanned};

use crate::fields::{Field, field_of, letter_after, look_ahead, next_letter, zeros_after};
use crate::moments::Precision;
use xls_number_formats::SectionItems;

/// What a date's section needs of a time.
#[derive(Clone, Copy, Debug, PartialEq, Eq)]
pub struct Clock {
    /// Hours, minutes, seconds, a fraction, AM/PM or elapsed time.
    pub has_time: bool,
    /// A fraction of a second of at least one zero.
    pub has_tenths: bool,
    pub has_hundredths: bool,
    pub has_thousandths: bool,
    /// AM/PM or A/P.
    pub has_half_days: bool,
    /// `[h]`: all hours since day 0.
    pub has_elapsed_hours: bool,
    pub has_elapsed_minutes: bool,
    pub has_elapsed_seconds: bool,
}

fn is_time(field: Field) -> bool
    ensures { result ≡ is_time field }
{
    !matches!(
        field,
        Field::Own
            | Field::Year
            | Field::FullYear
            | Field::BuddhistYear
            | Field::Nothing
            | Field::Month
            | Field::Day
    )
}

fn is_half_day(field: Field) -> bool
    ensures { result ≡ is_half_day field }
{
    matches!(field, Field::HalfDay | Field::HalfDayLetter)
}

// What has been seen after a field more.
fn scanned(clock: Clock, field: Field) -> Clock
    ensures { result ≡ scanned clock field }
{
    Clock {
        has_time: clock.has_time | is_time(field),
        has_tenths: clock.has_tenths | matches!(field, Field::Tenths),
        has_hundredths: clock.has_hundredths | matches!(field, Field::Hundredths),
        has_thousandths: clock.has_thousandths | matches!(field, Field::Thousandths),
        has_half_days: clock.has_half_days | is_half_day(field),
        has_elapsed_hours: clock.has_elapsed_hours | matches!(field, Field::ElapsedHours),
        has_elapsed_minutes: clock.has_elapsed_minutes | matches!(field, Field::ElapsedMinutes),
        has_elapsed_seconds: clock.has_elapsed_seconds | matches!(field, Field::ElapsedSeconds),
    }
}

/// What a section needs of a time. Takes no memory.
pub fn read_clock(section: &SectionItems<'_>) -> Clock
    ensures { result ≡ clock_of (fields section.now) }
{
    let mut clock = Clock {
        has_time: false,
        has_tenths: false,
        has_hundredths: false,
        has_thousandths: false,
        has_half_days: false,
        has_elapsed_hours: false,
        has_elapsed_minutes: false,
        has_elapsed_seconds: false,
    };
    let mut items = section.iter();
    let mut ahead = section.iter();
    let mut behind = next_letter(&mut ahead);
    let mut before = None;
    let mut zeros = None;
    'items: while let Some((item, own)) = items.next() {
        behind = look_ahead(item, behind, &mut ahead);
        clock = scanned(clock, field_of(before, behind, zeros, item, own));
        before = letter_after(before, item);
        zeros = zeros_after(zeros, item);
    }
    clock
}

impl Clock {
    /// The smallest part of a time that the section shows.
    pub fn precision(self) -> Precision
        ensures { result ≡ precision_of self }
    {
        if self.has_thousandths {
            Precision::Milliseconds
        } else if self.has_hundredths {
            Precision::Hundredths
        } else if self.has_tenths {
            Precision::Tenths
        } else if self.has_time {
            Precision::Seconds
        } else {
            Precision::Days
        }
    }
}
