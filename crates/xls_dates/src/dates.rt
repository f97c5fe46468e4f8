//! Dates and durations as a workbook has them: a number, its kind and the date system.

ghost use Rattle.std.specs.Prelude.{◌≡◌, ◌↔◌, Some, IsTrue};
ghost use Rattle.xls_dates.specs.Numbers.{number_text};

use crate::Number;
use std::fmt;
use std::marker::Model;

/// What a number in a date format means.
#[derive(Clone, Copy, Debug, PartialEq, Eq)]
pub enum ExcelDateTimeType {
    /// A day and a time of day.
    DateTime,
    /// A duration.
    TimeDelta,
}

/// A date or a duration: a number of days, its kind, and whether days count from 1904.
#[derive(Clone, Copy, Debug, PartialEq, Eq)]
pub struct ExcelDateTime {
    value: Number,
    datetime_type: ExcelDateTimeType,
    is_1904: bool,
}

impl Model for ExcelDateTime {
    ghost use Rattle.xls_dates.specs.Dates.{DateParts};

    ghost Value = { DateParts };

    ghost view = { λ d. record { number = d.value; kind = d.datetime_type; is_1904 = d.is_1904 } };

    ghost inverse = { λ p. record { value = p.number; datetime_type = p.kind; is_1904 = p.is_1904 } };
}

impl ExcelDateTime {
    /// The date or duration of a number, by its kind and date system.
    pub fn new(value: Number, datetime_type: ExcelDateTimeType, is_1904: bool) -> Self
        ensures { result ≡ record { number = value; kind = datetime_type; is_1904 = is_1904 } }
    {
        ExcelDateTime {
            value,
            datetime_type,
            is_1904,
        }
    }

    /// Whether it is a duration.
    pub fn is_duration(&self) -> bool
        ensures { IsTrue result ↔ (self.now.kind ≡ ExcelDateTimeType.TimeDelta) }
    {
        self.datetime_type == ExcelDateTimeType::TimeDelta
    }

    /// Whether it is a day and a time of day.
    pub fn is_datetime(&self) -> bool
        ensures { IsTrue result ↔ (self.now.kind ≡ ExcelDateTimeType.DateTime) }
    {
        self.datetime_type == ExcelDateTimeType::DateTime
    }

    /// Its number of days.
    pub fn number(&self) -> Number
        ensures { result ≡ self.now.number }
    {
        self.value
    }

    /// Whether days count from 1904-01-01.
    pub fn has_1904_epoch(&self) -> bool
        ensures { result ≡ self.now.is_1904 }
    {
        self.is_1904
    }
}

impl Default for ExcelDateTime {
    ghost use Rattle.std.specs.Prelude.{◌≡◌, false, pos};
    ghost use Rattle.xls_dates.specs.declared.numbers.Number.TheVariants.{Whole};
    ghost use Rattle.xls_dates.specs.declared.dates.ExcelDateTimeType.TheVariants.{DateTime};

    ghost is_default = { λ d. d ≡ record { number = Whole (pos 0); kind = DateTime; is_1904 = false } };

    fn default() -> ExcelDateTime {
        ExcelDateTime::new(Number::Whole(0), ExcelDateTimeType::DateTime, false)
    }
}

impl fmt::Display for ExcelDateTime {
    ghost output = { λ d. Some (number_text d.number) };

    fn fmt<W: fmt::Write>(&self, f: &mut fmt::Formatter<W>) -> fmt::Result {
        write!(f, "{}", self.value)
    }
}
