//! Cells as truth values, characters, texts, bytes, nothing, and as whole numbers by a looser rule.

use super::{Input, POS, cell_of, displayed, text, wrong_case};
use std::alloc::{AllocError, Global};
use std::test::Fail;
use xls_data::{CellErrorType, Data, Number};
use xls_rows::{DeError, ReadCell, deserialize_as_i64_or_none, deserialize_as_i64_or_string};

// The double with the bits 8000000000000000 is negative zero.
static VALUES: [(&str, Input, &str); 56] = [
    ("bool", Input::Truth(true), "true"),
    ("bool", Input::Truth(false), "false"),
    ("bool", Input::Text("TRUE"), "true"),
    ("bool", Input::Text("true"), "true"),
    ("bool", Input::Text("True"), "true"),
    ("bool", Input::Text("FALSE"), "false"),
    ("bool", Input::Text("false"), "false"),
    ("bool", Input::Text("False"), "false"),
    ("bool", Input::Text("tRUE"), "Expecting bool, got 'tRUE'"),
    ("bool", Input::Text("1"), "Expecting bool, got '1'"),
    ("bool", Input::Nothing, "false"),
    ("bool", Input::Int(0), "false"),
    ("bool", Input::Int(-7), "true"),
    ("bool", Input::Float(Number::Whole(0)), "false"),
    ("bool", Input::Float(Number::Hundredths(1)), "true"),
    ("bool", Input::Float(Number::Bits(0)), "false"),
    (
        "bool",
        Input::Float(Number::Bits(0x8000000000000000)),
        "false",
    ),
    (
        "bool",
        Input::Float(Number::BitsOver100(0x8000000000000000)),
        "false",
    ),
    ("bool", Input::Date(Number::Hundredths(0)), "false"),
    ("bool", Input::Date(Number::Whole(43831)), "true"),
    ("bool", Input::IsoDate("2024-01-15"), "true"),
    ("bool", Input::IsoDuration("PT0S"), "true"),
    (
        "bool",
        Input::Wrong(CellErrorType::Div0),
        "Cell error at position '(1, 0)': #DIV/0!",
    ),
    ("char", Input::Text("x"), "x"),
    ("char", Input::Text(""), "Expecting char, got String"),
    ("char", Input::Text("ab"), "Expecting char, got String"),
    ("char", Input::Text("é"), "Expecting char, got String"),
    (
        "char",
        Input::IsoDate("x"),
        "Expecting char, got DateTimeIso",
    ),
    ("char", Input::Int(7), "Expecting char, got Int"),
    (
        "char",
        Input::Float(Number::Whole(7)),
        "Expecting char, got Float",
    ),
    ("char", Input::Nothing, "Expecting char, got Empty"),
    (
        "char",
        Input::Wrong(CellErrorType::NA),
        "Cell error at position '(1, 0)': #N/A",
    ),
    ("text", Input::Int(-7), "-7"),
    ("text", Input::Float(Number::Hundredths(-5)), "-0.05"),
    ("text", Input::Text("Café"), "Café"),
    ("text", Input::Truth(true), "true"),
    ("text", Input::Truth(false), "false"),
    ("text", Input::Date(Number::Whole(43831)), "43831"),
    ("text", Input::IsoDate("2024-01-15"), "2024-01-15"),
    ("text", Input::IsoDuration("PT1H"), "PT1H"),
    ("text", Input::Nothing, ""),
    (
        "text",
        Input::Wrong(CellErrorType::GettingData),
        "Cell error at position '(1, 0)': #DATA!",
    ),
    ("enum", Input::Text("Foo"), "Foo"),
    ("enum", Input::Truth(true), "Expecting enum, got Bool"),
    (
        "enum",
        Input::IsoDuration("Foo"),
        "Expecting enum, got DurationIso",
    ),
    ("enum", Input::Nothing, "Expecting enum, got Empty"),
    (
        "enum",
        Input::Wrong(CellErrorType::Ref),
        "Cell error at position '(1, 0)': #REF!",
    ),
    ("bytes", Input::Text("ab"), "ab"),
    ("bytes", Input::Text("é"), "é"),
    ("bytes", Input::Nothing, ""),
    ("bytes", Input::Int(7), "Expecting bytes, got Int"),
    (
        "bytes",
        Input::Wrong(CellErrorType::Null),
        "Cell error at position '(1, 0)': #NULL!",
    ),
    ("unit", Input::Nothing, "nothing"),
    ("unit", Input::Text(""), "Expecting unit, got String"),
    (
        "unit",
        Input::Date(Number::Whole(0)),
        "Expecting unit, got DateTime",
    ),
    (
        "unit",
        Input::Wrong(CellErrorType::Value),
        "Cell error at position '(1, 0)': #VALUE!",
    ),
];

#[test]
fn reads_values(rt: HostRuntime) -> Result<(), Fail> {
    assert!(rt; wrong_case(rt.alloc(), &VALUES)?.is_none());
    Ok(())
}

// Each cell, and what a copy of it is.
static COPIES: [(Input, Input); 8] = [
    (Input::Int(7), Input::Int(7)),
    (
        Input::Float(Number::Hundredths(150)),
        Input::Float(Number::Hundredths(150)),
    ),
    (Input::Text("x"), Input::Text("x")),
    (Input::Truth(true), Input::Truth(true)),
    (
        Input::Date(Number::Whole(43831)),
        Input::Float(Number::Whole(43831)),
    ),
    (Input::IsoDate("2024-01-15"), Input::Text("2024-01-15")),
    (Input::IsoDuration("PT1H"), Input::Text("PT1H")),
    (Input::Nothing, Input::Nothing),
];

fn copy_of<T: ReadCell>(alloc: Global, cell: &T) -> Result<Data, DeError> {
    cell.read_data(alloc, POS)
}

fn has_copy(alloc: Global, cell: &Data, wanted: &Data) -> Result<bool, DeError> {
    let copy = copy_of(alloc, cell)?;
    Ok(copy == *wanted)
}

fn copies_to(alloc: Global, input: &Input, wanted: &Input) -> Result<bool, Fail> {
    let cell = cell_of(alloc, input)?;
    let wanted = cell_of(alloc, wanted)?;
    Ok(has_copy(alloc, &cell, &wanted)?)
}

// Whether there is no copy, and this is the text of the refusal.
fn has_no_copy(alloc: Global, cell: &Data, wanted: &str) -> Result<bool, AllocError> {
    match copy_of(alloc, cell) {
        Ok(_) => Ok(false),
        Err(refusal) => Ok(displayed::<u8>(alloc, Err(refusal))?.as_str() == wanted),
    }
}

fn is_absent<T: ReadCell>(cell: &T) -> bool {
    cell.read_option().is_none() && cell.is_empty()
}

fn is_there<T: ReadCell>(cell: &T) -> bool {
    cell.read_option().is_some() && !cell.is_empty()
}

#[test]
fn reads_copies(rt: HostRuntime) -> Result<(), Fail> {
    let alloc = rt.alloc();
    for (input, wanted) in COPIES.iter() {
        assert!(rt; copies_to(alloc, input, wanted)?);
    }
    let cell = Data::Error(CellErrorType::NA);
    assert!(rt; has_no_copy(alloc, &cell, "Cell error at position '(1, 0)': #N/A")?);
    Ok(())
}

#[test]
fn tells_empty_cells(rt: HostRuntime) -> Result<(), Fail> {
    assert!(rt; is_absent(&Data::Empty));
    assert!(rt; is_there(&text(rt.alloc(), "")?));
    assert!(rt; is_there(&Data::Error(CellErrorType::NA)));
    Ok(())
}

static LOOSE: [(Input, Option<i64>, &str); 11] = [
    (Input::Int(7), Some(7), "7"),
    (Input::Float(Number::Hundredths(-199)), Some(-1), "-1.99"),
    (Input::Truth(true), Some(1), "true"),
    (Input::Date(Number::Hundredths(150)), Some(1), "1.5"),
    (Input::Text("-12"), Some(-12), "-12"),
    (Input::Text("12 kg"), None, "12 kg"),
    (Input::IsoDate("12"), Some(12), "12"),
    (Input::IsoDuration("PT1H"), None, "PT1H"),
    (Input::Nothing, None, ""),
    (Input::Wrong(CellErrorType::NA), None, "#N/A"),
    (
        Input::Text("9223372036854775808"),
        None,
        "9223372036854775808",
    ),
];

fn loose<T: ReadCell>(alloc: Global, cell: &T) -> Result<Option<i64>, AllocError> {
    deserialize_as_i64_or_none(alloc, cell)
}

fn loose_or_text<T: ReadCell>(alloc: Global, cell: &T) -> Result<Result<i64, String>, AllocError> {
    deserialize_as_i64_or_string(alloc, cell)
}

// Whether a cell is this number, or this text where there is none.
fn is_number_or_text(
    alloc: Global,
    cell: &Data,
    number: Option<i64>,
    printed: &str,
) -> Result<bool, AllocError> {
    match loose_or_text(alloc, cell)? {
        Ok(n) => Ok(number == Some(n)),
        Err(text) => Ok(number.is_none() && text.as_str() == printed),
    }
}

fn is_taken_for(
    alloc: Global,
    input: &Input,
    number: Option<i64>,
    printed: &str,
) -> Result<bool, AllocError> {
    let cell = cell_of(alloc, input)?;
    Ok(loose(alloc, &cell)? == number && is_number_or_text(alloc, &cell, number, printed)?)
}

#[test]
fn takes_cells_for_whole_numbers_or_texts(rt: HostRuntime) -> Result<(), Fail> {
    for (input, number, printed) in LOOSE.iter() {
        assert!(rt; is_taken_for(rt.alloc(), input, *number, printed)?);
    }
    Ok(())
}
