//! Known values, worked by hand, and each public call once with ample memory.

mod cells;
mod ranges;
mod refusals;
mod rows;
mod wholes;

use std::alloc::{AllocError, Global};
use std::fmt::Display;
use xls_data::{CellErrorType, Data, ExcelDateTime, ExcelDateTimeType, Number};
use xls_rows::{DeError, ReadCell};

// The position of a row, which the readers are given.
const POS: (u32, u32) = (1, 0);

// A cell of a table of cases.
enum Input {
    Int(i64),
    Float(Number),
    Text(&'static str),
    Truth(bool),
    Date(Number),
    IsoDate(&'static str),
    IsoDuration(&'static str),
    Wrong(CellErrorType),
    Nothing,
}

fn text(alloc: Global, s: &str) -> Result<Data, AllocError> {
    Ok(Data::String(String::from_str(alloc, s)?))
}

fn cell_of(alloc: Global, input: &Input) -> Result<Data, AllocError> {
    match input {
        Input::Int(n) => Ok(Data::Int(*n)),
        Input::Float(x) => Ok(Data::Float(*x)),
        Input::Text(s) => text(alloc, s),
        Input::Truth(b) => Ok(Data::Bool(*b)),
        Input::Date(x) => Ok(Data::DateTime(ExcelDateTime::new(
            *x,
            ExcelDateTimeType::DateTime,
            false,
        ))),
        Input::IsoDate(s) => Ok(Data::DateTimeIso(String::from_str(alloc, s)?)),
        Input::IsoDuration(s) => Ok(Data::DurationIso(String::from_str(alloc, s)?)),
        Input::Wrong(e) => Ok(Data::Error(*e)),
        Input::Nothing => Ok(Data::Empty),
    }
}

// What was read, or the text of the refusal.
fn displayed<V: Display + Drop>(
    alloc: Global,
    read: Result<V, DeError>,
) -> Result<String, AllocError> {
    match read {
        Ok(value) => value.to_string(alloc),
        Err(DeError::Memory) => Err(AllocError),
        Err(refusal) => refusal.to_string(alloc),
    }
}

// The bytes of a cell as a text, or the text of the refusal.
fn bytes_of<T: ReadCell>(alloc: Global, cell: &T) -> Result<String, AllocError> {
    match cell.read_bytes(alloc, POS) {
        Ok(bytes) => String::from_utf8_lossy(alloc, bytes.as_slice()),
        Err(refusal) => displayed::<u8>(alloc, Err(refusal)),
    }
}

// `nothing`, or the text of the refusal.
fn unit_of<T: ReadCell>(alloc: Global, cell: &T) -> Result<String, AllocError> {
    match cell.read_unit(alloc, POS) {
        Ok(()) => String::from_str(alloc, "nothing"),
        Err(refusal) => displayed::<u8>(alloc, Err(refusal)),
    }
}

// A cell as a value of a type, by the type's name in refusals; `text` is the printed text.
fn read_as<T: ReadCell>(alloc: Global, name: &str, cell: &T) -> Result<String, AllocError> {
    match name {
        "i8" => displayed(alloc, cell.read_i8(alloc, POS)),
        "i16" => displayed(alloc, cell.read_i16(alloc, POS)),
        "i32" => displayed(alloc, cell.read_i32(alloc, POS)),
        "i64" => displayed(alloc, cell.read_i64(alloc, POS)),
        "u8" => displayed(alloc, cell.read_u8(alloc, POS)),
        "u16" => displayed(alloc, cell.read_u16(alloc, POS)),
        "u32" => displayed(alloc, cell.read_u32(alloc, POS)),
        "u64" => displayed(alloc, cell.read_u64(alloc, POS)),
        "bool" => displayed(alloc, cell.read_bool(alloc, POS)),
        "char" => displayed(alloc, cell.read_char(alloc, POS)),
        "enum" => displayed(alloc, cell.read_enum_name(alloc, POS)),
        "bytes" => bytes_of(alloc, cell),
        "unit" => unit_of(alloc, cell),
        _ => displayed(alloc, cell.read_text(alloc, POS)),
    }
}

// The index of the first case (a type, a cell, and the text that it gives) that gives another text.
fn wrong_case(alloc: Global, cases: &[(&str, Input, &str)]) -> Result<Option<usize>, AllocError> {
    for i in 0..cases.len() {
        let (name, input, wanted) = &cases[i];
        if read_as(alloc, name, &cell_of(alloc, input)?)?.as_str() != *wanted {
            return Ok(Some(i));
        }
    }
    Ok(None)
}
