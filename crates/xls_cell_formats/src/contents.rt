//! A cell's content under a format.

ghost use Rattle.std.specs.Prelude.{◌≡◌, OnOk, OnErr};
ghost use Rattle.std.specs.String.{string_bytes};
ghost use Rattle.std.specs.Str.{chars};
ghost use Rattle.xls_data.specs.Content.{failure, nothing, text, truth};
ghost use Rattle.xls_data.specs.Errors.{error_text};
ghost use Rattle.xls_data.specs.Refs.{ref_content_of};
ghost use Rattle.xls_shown.specs.Shown.{Gains, text_shown};
ghost use Rattle.xls_cell_formats.specs.Contents.{IsContentShown, truth_word};

use crate::numbers::push_number;
use std::alloc::AllocError;
use xls_data::{CellErrorType, DataRef, Number};
use xls_shown::ShownFormat;

/// The word of a truth value.
fn truth_word(truth: bool) -> &'static str
    ensures { chars result.now ≡ truth_word truth }
{
    if truth { "TRUE" } else { "FALSE" }
}

/// The name of an error value.
fn error_name(error: CellErrorType) -> &'static str
    ensures { result.now ≡ error_text error }
{
    match error {
        CellErrorType::Div0 => "#DIV/0!",
        CellErrorType::NA => "#N/A",
        CellErrorType::Name => "#NAME?",
        CellErrorType::Null => "#NULL!",
        CellErrorType::Num => "#NUM!",
        CellErrorType::Ref => "#REF!",
        CellErrorType::Value => "#VALUE!",
        CellErrorType::GettingData => "#DATA!",
    }
}

/// Appends what a format shows of a text.
fn push_text(format: &ShownFormat<'_>, shown: &str, buf: &mut String) -> Result<(), AllocError>
    ensures ok { OnOk result (Gains (λ s. s ≡ text_shown format.now (chars shown.now))
        (chars (string_bytes buf.old)) (chars (string_bytes buf.new))) }
    ensures err { OnErr result (string_bytes buf.new ≡ string_bytes buf.old) }
{
    format.push_text(shown, buf)
}

/// Appends the name of an error value.
fn push_error(error: CellErrorType, buf: &mut String) -> Result<(), AllocError>
    ensures ok { OnOk result (Gains (λ s. s ≡ chars (error_text error))
        (chars (string_bytes buf.old)) (chars (string_bytes buf.new))) }
    ensures err { OnErr result (string_bytes buf.new ≡ string_bytes buf.old) }
{
    buf.push_str(error_name(error))
}

/// Appends what a format shows of a cell's content, in the 1900 or the 1904 date system: a number as `push_number`
/// does, a text by the section for texts, a truth value likewise by its word, an error its name whatever the code,
/// and nothing of a blank. Only running out of memory refuses, and then the text is as it was.
pub fn push_content(
    format: &ShownFormat<'_>,
    value: &DataRef<'_>,
    is_1904: bool,
    buf: &mut String,
) -> Result<(), AllocError>
    ensures ok { OnOk result (Gains (IsContentShown format.now is_1904 (ref_content_of value.now))
        (chars (string_bytes buf.old)) (chars (string_bytes buf.new))) }
    ensures err { OnErr result (string_bytes buf.new ≡ string_bytes buf.old) }
{
    match value {
        DataRef::Int(n) => push_number(format, Number::Whole(*n), is_1904, buf),
        DataRef::Float(number) => push_number(format, *number, is_1904, buf),
        DataRef::DateTime(date) => push_number(format, date.number(), is_1904, buf),
        DataRef::String(s) => push_text(format, s.as_str(), buf),
        DataRef::SharedString(s) => push_text(format, s, buf),
        DataRef::DateTimeIso(s) => push_text(format, s.as_str(), buf),
        DataRef::DurationIso(s) => push_text(format, s.as_str(), buf),
        DataRef::Bool(truth) => push_text(format, truth_word(*truth), buf),
        DataRef::Error(error) => push_error(*error, buf),
        DataRef::Empty => Ok(()),
    }
}
