//! The values of a workbook's cells.

ghost use Rattle.std.specs.Prelude.{◌≡◌, Some};

use crate::{CellErrorType, CellType, ExcelDateTime, Number};
use std::alloc::{AllocError, Global};
use std::fmt;

/// The value of a cell.
#[derive(Debug, PartialEq, Eq, Drop)]
pub enum Data {
    /// A whole number.
    Int(i64),
    /// A number.
    Float(Number),
    /// A text.
    String(String),
    /// A truth value.
    Bool(bool),
    /// A date or a duration.
    DateTime(ExcelDateTime),
    /// A date or time in the text of ISO 8601.
    DateTimeIso(String),
    /// A duration in the text of ISO 8601.
    DurationIso(String),
    /// An error value.
    Error(CellErrorType),
    /// Nothing, the blank.
    Empty,
}

impl fmt::Display for Data {
    ghost use Rattle.std.specs.Prelude.{Some};
    ghost use Rattle.xls_data.specs.Data.{data_text};

    ghost output = { λ d. Some (data_text d) };

    fn fmt<W: fmt::Write>(&self, f: &mut fmt::Formatter<W>) -> fmt::Result {
        match self {
            Data::Int(n) => write!(f, "{n}"),
            Data::Float(n) => write!(f, "{n}"),
            Data::String(s) => write!(f, "{s}"),
            Data::Bool(b) => write!(f, "{b}"),
            Data::DateTime(d) => write!(f, "{d}"),
            Data::DateTimeIso(s) => write!(f, "{s}"),
            Data::DurationIso(s) => write!(f, "{s}"),
            Data::Error(e) => write!(f, "{e}"),
            Data::Empty => Ok(()),
        }
    }
}

impl CellType for Data {
    ghost use Rattle.std.specs.Prelude.{◌≡◌, true, refl};
    ghost use Rattle.xls_data.specs.Data.{is_nothing};
    ghost use Rattle.xls_data.specs.declared.values.Data.TheVariants.{Int, Float, String, Bool, DateTime, DateTimeIso, DurationIso, Error, Empty};

    ghost blank_test = { is_nothing };

    fn blank(_alloc: Global) -> Data {
        Data::Empty
    }

    fn is_blank(&self) -> bool {
        matches!(self, Data::Empty)
    }

    fn try_copy(&self, alloc: Global) -> Result<Data, AllocError> {
        match self {
            Data::Int(n) => Ok(Data::Int(*n)),
            Data::Float(n) => Ok(Data::Float(*n)),
            Data::String(s) => Ok(Data::String(String::from_str(alloc, s.as_str())?)),
            Data::Bool(b) => Ok(Data::Bool(*b)),
            Data::DateTime(d) => Ok(Data::DateTime(*d)),
            Data::DateTimeIso(s) => Ok(Data::DateTimeIso(String::from_str(alloc, s.as_str())?)),
            Data::DurationIso(s) => Ok(Data::DurationIso(String::from_str(alloc, s.as_str())?)),
            Data::Error(e) => Ok(Data::Error(*e)),
            Data::Empty => Ok(Data::Empty),
        }
    }

    ghost blank_exactly = { λ x y. elim x as (λ v. is_nothing v ≡ true
        → is_nothing y ≡ Self.eq v y) [
          | Int n ↦ λ e. Prim.cc
          | Float n ↦ λ e. Prim.cc
          | String s ↦ λ e. Prim.cc
          | Bool b ↦ λ e. Prim.cc
          | DateTime d ↦ λ e. Prim.cc
          | DateTimeIso s ↦ λ e. Prim.cc
          | DurationIso s ↦ λ e. Prim.cc
          | Error k ↦ λ e. Prim.cc
          | Empty ↦ λ e. elim y as (λ w. is_nothing w ≡ Self.eq Empty w) [
            | Int n ↦ refl
            | Float n ↦ refl
            | String s ↦ refl
            | Bool b ↦ refl
            | DateTime d ↦ refl
            | DateTimeIso s ↦ refl
            | DurationIso s ↦ refl
            | Error k ↦ refl
            | Empty ↦ refl
          ]
        ] };
}
