//! What a value of a cell is asked for.

ghost use Rattle.std.specs.Prelude.{◌≡◌, ◌↔◌, IsTrue, IfOk, is_some};
ghost use Rattle.std.specs.Option.{option_map, option_copied};
ghost use Rattle.std.specs.String.{string_bytes};
ghost use Rattle.std.specs.Str.{chars};
ghost use Rattle.xls_data.specs.Content.{Content, int, text, truth, nothing};
ghost use Rattle.xls_data.specs.Kinds.{int_in, float_in, truth_in, text_content, date_in, iso_date_in, iso_duration_in, failure_in, printed_scalar, IsWholeOf};
ghost use Rattle.xls_data.specs.Data.{content_of};
ghost use Rattle.xls_data.specs.Refs.{ref_content_of};

use crate::texts::{copied_text, is_same_text, parsed_text};
use crate::{CellErrorType, Data, DataRef, ExcelDateTime, Number};
use std::alloc::{AllocError, Global};

/// A value of a cell, of one of nine kinds.
pub trait DataType {
    /// What the value contains.
    ghost contains: { Self → Content };

    /// Whether it is the blank.
    fn is_empty(&self) -> bool
        ensures { IsTrue result ↔ (contains self.now ≡ nothing) };

    /// The whole number, if it is one.
    fn get_int(&self) -> Option<i64>
        ensures { result ≡ int_in (contains self.now) };

    /// The number, if it is one.
    fn get_float(&self) -> Option<Number>
        ensures { result ≡ float_in (contains self.now) };

    /// The truth value, if it is one.
    fn get_bool(&self) -> Option<bool>
        ensures { result ≡ truth_in (contains self.now) };

    /// The text, if it is one.
    fn get_string(&self) -> Option<&str>
        ensures { option_map (λ s. chars s.now) result ≡ text_content (contains self.now) };

    /// The date or duration, if it is one.
    fn get_datetime(&self) -> Option<ExcelDateTime>
        ensures { result ≡ date_in (contains self.now) };

    /// The text of a date in ISO 8601, if it is one.
    fn get_datetime_iso(&self) -> Option<&str>
        ensures { option_map (λ s. chars s.now) result ≡ iso_date_in (contains self.now) };

    /// The text of a duration in ISO 8601, if it is one.
    fn get_duration_iso(&self) -> Option<&str>
        ensures { option_map (λ s. chars s.now) result ≡ iso_duration_in (contains self.now) };

    /// The error value, if it is one.
    fn get_error(&self) -> Option<&CellErrorType>
        ensures { option_copied result ≡ failure_in (contains self.now) };

    /// Whether it is a whole number.
    fn is_int(&self) -> bool
        ensures { result ≡ is_some (int_in (contains self.now)) }
    {
        self.get_int().is_some()
    }

    /// Whether it is a number.
    fn is_float(&self) -> bool
        ensures { result ≡ is_some (float_in (contains self.now)) }
    {
        self.get_float().is_some()
    }

    /// Whether it is a truth value.
    fn is_bool(&self) -> bool
        ensures { result ≡ is_some (truth_in (contains self.now)) }
    {
        self.get_bool().is_some()
    }

    /// Whether it is a text.
    fn is_string(&self) -> bool
        ensures { result ≡ is_some (text_content (contains self.now)) }
    {
        self.get_string().is_some()
    }

    /// Whether it is an error value.
    fn is_error(&self) -> bool
        ensures { result ≡ is_some (failure_in (contains self.now)) }
    {
        self.get_error().is_some()
    }

    /// Whether it is the text of a duration in ISO 8601.
    fn is_duration_iso(&self) -> bool
        ensures { result ≡ is_some (iso_duration_in (contains self.now)) }
    {
        self.get_duration_iso().is_some()
    }

    /// Whether it is a date or a duration.
    fn is_datetime(&self) -> bool
        ensures { result ≡ is_some (date_in (contains self.now)) }
    {
        self.get_datetime().is_some()
    }

    /// Whether it is the text of a date in ISO 8601.
    fn is_datetime_iso(&self) -> bool
        ensures { result ≡ is_some (iso_date_in (contains self.now)) }
    {
        self.get_datetime_iso().is_some()
    }

    /// The printed text of a number, a whole number or a text; None for every other kind.
    fn as_string(&self, alloc: Global) -> Result<Option<String>, AllocError>
        ensures { IfOk result (λ o.
            option_map string_bytes o ≡ printed_scalar (contains self.now)) }
    {
        if let Some(n) = self.get_int() {
            return Ok(Some(n.to_string(alloc)?));
        }
        if let Some(n) = self.get_float() {
            return Ok(Some(n.to_string(alloc)?));
        }
        match self.get_string() {
            Some(s) => Ok(Some(copied_text(alloc, s)?)),
            None => Ok(None),
        }
    }

    /// A whole number, a number cut toward zero, 0 or 1 for a truth value, or the whole number that
    /// a text is read as; else None.
    fn as_i64(&self) -> Option<i64>
        ensures { IsWholeOf (contains self.now) result }
    {
        if let Some(n) = self.get_int() {
            return Some(n);
        }
        if let Some(n) = self.get_float() {
            return Some(n.trunc());
        }
        if let Some(b) = self.get_bool() {
            return Some(if b { 1 } else { 0 });
        }
        parsed_text(self.get_string()?)
    }

    /// Whether it is this text.
    fn eq_text(&self, other: &str) -> bool
        ensures { IsTrue result ↔ (contains self.now ≡ text (chars other.now)) }
    {
        match self.get_string() {
            Some(s) => is_same_text(s, other),
            None => false,
        }
    }

    /// Whether it is this whole number.
    fn eq_int(&self, other: i64) -> bool
        ensures { IsTrue result ↔ (contains self.now ≡ int other) }
    {
        self.get_int() == Some(other)
    }

    /// Whether it is this truth value.
    fn eq_bool(&self, other: bool) -> bool
        ensures { IsTrue result ↔ (contains self.now ≡ truth other) }
    {
        self.get_bool() == Some(other)
    }
}

impl DataType for Data {
    ghost contains = { content_of };

    fn is_empty(&self) -> bool {
        matches!(self, Data::Empty)
    }

    fn get_int(&self) -> Option<i64> {
        match self {
            Data::Int(x) => Some(*x),
            _ => None,
        }
    }

    fn get_float(&self) -> Option<Number> {
        match self {
            Data::Float(x) => Some(*x),
            _ => None,
        }
    }

    fn get_bool(&self) -> Option<bool> {
        match self {
            Data::Bool(x) => Some(*x),
            _ => None,
        }
    }

    fn get_string(&self) -> Option<&str> {
        match self {
            Data::String(x) => Some(x.as_str()),
            _ => None,
        }
    }

    fn get_datetime(&self) -> Option<ExcelDateTime> {
        match self {
            Data::DateTime(x) => Some(*x),
            _ => None,
        }
    }

    fn get_datetime_iso(&self) -> Option<&str> {
        match self {
            Data::DateTimeIso(x) => Some(x.as_str()),
            _ => None,
        }
    }

    fn get_duration_iso(&self) -> Option<&str> {
        match self {
            Data::DurationIso(x) => Some(x.as_str()),
            _ => None,
        }
    }

    fn get_error(&self) -> Option<&CellErrorType> {
        match self {
            Data::Error(x) => Some(x),
            _ => None,
        }
    }
}

impl<'a> DataType for DataRef<'a> {
    ghost contains = { ref_content_of };

    fn is_empty(&self) -> bool {
        matches!(self, DataRef::Empty)
    }

    fn get_int(&self) -> Option<i64> {
        match self {
            DataRef::Int(x) => Some(*x),
            _ => None,
        }
    }

    fn get_float(&self) -> Option<Number> {
        match self {
            DataRef::Float(x) => Some(*x),
            _ => None,
        }
    }

    fn get_bool(&self) -> Option<bool> {
        match self {
            DataRef::Bool(x) => Some(*x),
            _ => None,
        }
    }

    fn get_string(&self) -> Option<&str> {
        match self {
            DataRef::String(x) => Some(x.as_str()),
            DataRef::SharedString(x) => Some(*x),
            _ => None,
        }
    }

    fn get_datetime(&self) -> Option<ExcelDateTime> {
        match self {
            DataRef::DateTime(x) => Some(*x),
            _ => None,
        }
    }

    fn get_datetime_iso(&self) -> Option<&str> {
        match self {
            DataRef::DateTimeIso(x) => Some(x.as_str()),
            _ => None,
        }
    }

    fn get_duration_iso(&self) -> Option<&str> {
        match self {
            DataRef::DurationIso(x) => Some(x.as_str()),
            _ => None,
        }
    }

    fn get_error(&self) -> Option<&CellErrorType> {
        match self {
            DataRef::Error(x) => Some(x),
            _ => None,
        }
    }
}
