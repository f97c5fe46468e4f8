//! Numbers under the class of their format.

ghost use Rattle.std.specs.Prelude.{◌≡◌};
ghost use Rattle.std.specs.Option.{option_copied};
ghost use Rattle.xls_data.specs.Data.{content_of};
ghost use Rattle.xls_data.specs.Formatted.{formatted_number, formatted_whole};
ghost use Rattle.xls_data.specs.Numeric.{numeric_content};
ghost use Rattle.xls_data.specs.Refs.{ref_content_of};

use crate::{CellFormat, Data, DataRef, ExcelDateTime, ExcelDateTimeType, Number};

/// The value of a number under the class of its format. It owns and borrows nothing.
#[derive(Clone, Copy)]
pub enum Numeric {
    /// A whole number.
    Int(i64),
    /// A number.
    Float(Number),
    /// A day and a time of day, and whether days count from 1904-01-01.
    DateTime(Number, bool),
    /// A duration, likewise.
    TimeDelta(Number, bool),
}

fn date(value: Number, is_1904: bool) -> ExcelDateTime
    ensures { result ≡ record { number = value; kind = ExcelDateTimeType.DateTime; is_1904 = is_1904 } }
{
    ExcelDateTime::new(value, ExcelDateTimeType::DateTime, is_1904)
}

fn duration(value: Number, is_1904: bool) -> ExcelDateTime
    ensures { result ≡ record { number = value; kind = ExcelDateTimeType.TimeDelta; is_1904 = is_1904 } }
{
    ExcelDateTime::new(value, ExcelDateTimeType::TimeDelta, is_1904)
}

impl Numeric {
    /// The value of a whole number under a class: an int, or a date or duration of that number. No
    /// class is `Other`. Takes no memory.
    #[inline]
    pub fn of_i64(value: i64, format: Option<&CellFormat>, is_1904: bool) -> Numeric
        ensures { numeric_content result ≡ formatted_whole (option_copied format.entry) value is_1904 }
    {
        match format {
            Some(CellFormat::DateTime) => Numeric::DateTime(Number::Whole(value), is_1904),
            Some(CellFormat::TimeDelta) => Numeric::TimeDelta(Number::Whole(value), is_1904),
            Some(CellFormat::Other) | None => Numeric::Int(value),
        }
    }

    /// The value of a number under a class: a float, or a date or duration of that number. No class
    /// is `Other`. Takes no memory.
    #[inline]
    pub fn of_number(value: Number, format: Option<&CellFormat>, is_1904: bool) -> Numeric
        ensures { numeric_content result ≡ formatted_number (option_copied format.entry) value is_1904 }
    {
        match format {
            Some(CellFormat::DateTime) => Numeric::DateTime(value, is_1904),
            Some(CellFormat::TimeDelta) => Numeric::TimeDelta(value, is_1904),
            Some(CellFormat::Other) | None => Numeric::Float(value),
        }
    }

    /// The same as a value that owns its text, of which there is none. Takes no memory.
    #[inline]
    pub fn into_data(self) -> Data
        ensures { content_of result ≡ numeric_content self }
    {
        match self {
            Numeric::Int(n) => Data::Int(n),
            Numeric::Float(number) => Data::Float(number),
            Numeric::DateTime(number, is_1904) => Data::DateTime(date(number, is_1904)),
            Numeric::TimeDelta(number, is_1904) => Data::DateTime(duration(number, is_1904)),
        }
    }

    /// The same as a value that may borrow its text. Takes no memory.
    #[inline]
    pub fn into_ref(self) -> DataRef<'static>
        ensures { ref_content_of result ≡ numeric_content self }
    {
        match self {
            Numeric::Int(n) => DataRef::Int(n),
            Numeric::Float(number) => DataRef::Float(number),
            Numeric::DateTime(number, is_1904) => DataRef::DateTime(date(number, is_1904)),
            Numeric::TimeDelta(number, is_1904) => DataRef::DateTime(duration(number, is_1904)),
        }
    }
}
