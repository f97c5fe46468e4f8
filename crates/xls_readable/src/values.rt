//! The value of a cell, with its text lent.

ghost use Rattle.std.specs.Prelude.{◌≡◌, ◌++◌, OnOk, OnErr};
ghost use Rattle.std.specs.String.{string_bytes};
ghost use Rattle.std.specs.Fmt.{signed_decimal};
ghost use Rattle.xls_data.specs.Errors.{error_text};
ghost use Rattle.xls_readable.specs.Values.{IsValueOf, truth_text};

use std::alloc::AllocError;
use xls_data::{CellErrorType, Data, ExcelDateTime, Number};

/// The value of a cell, with its text lent.
#[derive(Drop)]
pub enum Value<'a> {
    /// A whole number.
    Int(i64),
    /// A number.
    Float(Number),
    /// A text.
    Text(&'a str),
    /// A truth value.
    Truth(bool),
    /// A date or a duration.
    Moment(ExcelDateTime),
    /// A date or time in the text of ISO 8601.
    IsoDate(&'a str),
    /// A duration in the text of ISO 8601.
    IsoDuration(&'a str),
    /// An error value.
    Failure(CellErrorType),
    /// Nothing, the blank.
    Empty,
}

impl<'a> Value<'a> {
    /// The value of a cell, lent.
    pub fn of(cell: &'a Data) -> Value<'a>
        ensures { IsValueOf cell.now result }
    {
        match cell {
            Data::Int(n) => Value::Int(*n),
            Data::Float(n) => Value::Float(*n),
            Data::String(s) => Value::Text(s.as_str()),
            Data::Bool(b) => Value::Truth(*b),
            Data::DateTime(d) => Value::Moment(*d),
            Data::DateTimeIso(s) => Value::IsoDate(s.as_str()),
            Data::DurationIso(s) => Value::IsoDuration(s.as_str()),
            Data::Error(e) => Value::Failure(*e),
            Data::Empty => Value::Empty,
        }
    }
}

// The word of a truth value.
pub(crate) fn truth_text(truth: bool) -> &'static str
    ensures { result.now ≡ truth_text truth }
{
    if truth { "TRUE" } else { "FALSE" }
}

// The word of an error value.
pub(crate) fn failure_text(failure: CellErrorType) -> &'static str
    ensures { result.now ≡ error_text failure }
{
    match failure {
        CellErrorType::Div0 => "#DIV/0!",
        CellErrorType::NA => "#N/A",
        CellErrorType::Name => "#NAME?",
        CellErrorType::Null => "#NULL!",
        CellErrorType::Num => "#NUM!",
        CellErrorType::Ref => "#REF!",
        CellErrorType::Value => "#VALUE!",
        CellErrorType::GettingData => "#DATA!",
    }
}

// Appends a whole number.
pub(crate) fn push_int(n: i64, buf: &mut String) -> Result<(), AllocError>
    ensures ok { OnOk result (string_bytes buf.new ≡ string_bytes buf.old ++ signed_decimal n) }
    ensures err { OnErr result (string_bytes buf.new ≡ string_bytes buf.old) }
{
    let mut digits = itoa::Buffer::new();
    buf.push_str(digits.format(n))
}
