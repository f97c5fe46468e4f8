//! The values of cells, with texts that may be borrowed.

ghost use Rattle.std.specs.Prelude.{◌≡◌};

use crate::{CellErrorType, CellType, ExcelDateTime, Number};
use std::alloc::{AllocError, Global};
use std::fmt;

/// The value of a cell, whose text may be borrowed from a table of shared texts.
#[derive(Debug, PartialEq, Eq, Drop)]
pub enum DataRef<'a> {
    /// A whole number.
    Int(i64),
    /// A number.
    Float(Number),
    /// A text.
    String(String),
    /// A text of the table of shared texts.
    SharedString(&'a str),
    /// A truth value.
    Bool(bool),
    /// A date or a duration.
    DateTime(ExcelDateTime),
    /// A date or time in the text of ISO 8601.
    DateTimeIso(String),
    /// A duration in the text of ISO 8601.
    DurationIso(String),
    /// An error value.
    Error(CellErrorType),
    /// Nothing, the blank.
    Empty,
}

impl<'a> fmt::Display for DataRef<'a> {
    ghost use Rattle.std.specs.Prelude.{Some};
    ghost use Rattle.xls_data.specs.Refs.{ref_text};

    ghost output = { λ d. Some (ref_text d) };

    fn fmt<W: fmt::Write>(&self, f: &mut fmt::Formatter<W>) -> fmt::Result {
        match self {
            DataRef::Int(n) => write!(f, "{n}"),
            DataRef::Float(n) => write!(f, "{n}"),
            DataRef::String(s) => write!(f, "{s}"),
            DataRef::SharedString(s) => write!(f, "{s}"),
            DataRef::Bool(b) => write!(f, "{b}"),
            DataRef::DateTime(d) => write!(f, "{d}"),
            DataRef::DateTimeIso(s) => write!(f, "{s}"),
            DataRef::DurationIso(s) => write!(f, "{s}"),
            DataRef::Error(e) => write!(f, "{e}"),
            DataRef::Empty => Ok(()),
        }
    }
}

impl<'a> CellType for DataRef<'a> {
    ghost use Rattle.std.specs.Prelude.{◌≡◌, true, refl};
    ghost use Rattle.xls_data.specs.Refs.{is_ref_nothing};
    ghost use Rattle.xls_data.specs.declared.refs.DataRef.TheVariants.{Int, Float, String, SharedString, Bool, DateTime, DateTimeIso, DurationIso, Error, Empty};

    ghost blank_test = { is_ref_nothing };

    fn blank(_alloc: Global) -> DataRef<'a> {
        DataRef::Empty
    }

    fn is_blank(&self) -> bool {
        matches!(self, DataRef::Empty)
    }

    fn try_copy(&self, alloc: Global) -> Result<DataRef<'a>, AllocError> {
        match self {
            DataRef::Int(n) => Ok(DataRef::Int(*n)),
            DataRef::Float(n) => Ok(DataRef::Float(*n)),
            DataRef::String(s) => Ok(DataRef::String(String::from_str(alloc, s.as_str())?)),
            DataRef::SharedString(s) => Ok(DataRef::SharedString(*s)),
            DataRef::Bool(b) => Ok(DataRef::Bool(*b)),
            DataRef::DateTime(d) => Ok(DataRef::DateTime(*d)),
            DataRef::DateTimeIso(s) => Ok(DataRef::DateTimeIso(String::from_str(
                alloc,
                s.as_str(),
            )?)),
            DataRef::DurationIso(s) => Ok(DataRef::DurationIso(String::from_str(
                alloc,
                s.as_str(),
            )?)),
            DataRef::Error(e) => Ok(DataRef::Error(*e)),
            DataRef::Empty => Ok(DataRef::Empty),
        }
    }

    ghost blank_exactly = { λ x y. elim x as (λ v. is_ref_nothing v ≡ true
        → is_ref_nothing y ≡ Self.eq v y) [
          | Int n ↦ λ e. Prim.cc
          | Float n ↦ λ e. Prim.cc
          | String s ↦ λ e. Prim.cc
          | SharedString s ↦ λ e. Prim.cc
          | Bool b ↦ λ e. Prim.cc
          | DateTime d ↦ λ e. Prim.cc
          | DateTimeIso s ↦ λ e. Prim.cc
          | DurationIso s ↦ λ e. Prim.cc
          | Error k ↦ λ e. Prim.cc
          | Empty ↦ λ e. elim y as (λ w. is_ref_nothing w ≡ Self.eq Empty w) [
            | Int n ↦ refl
            | Float n ↦ refl
            | String s ↦ refl
            | SharedString s ↦ refl
            | Bool b ↦ refl
            | DateTime d ↦ refl
            | DateTimeIso s ↦ refl
            | DurationIso s ↦ refl
            | Error k ↦ refl
            | Empty ↦ refl
          ]
        ] };
}
