//! Numbers, truth values and error values.

use super::readers::*;
use super::*;
use xls_data::CellFormat;

/// An RK under no classes.
const RK: Reader = Reader::Rk(&[]);

/// Numbers, of doubles by the bits of the double.
static NUMBERS: [Row; 12] = [
    (
        "the double 3",
        Reader::Number,
        &[3, 0, 1, 0, 0, 0, 0, 0, 0, 0, 0, 0, 8, 0x40],
        "Ok(Cell { position: (3, 1), value: Float(Bits(4613937818241073152)) })",
    ),
    (
        "2 in hundredths",
        RK,
        &[0, 0, 0, 0, 0, 0, 0x23, 3, 0, 0],
        "Ok(Cell { position: (0, 0), value: Int(2) })",
    ),
    (
        "-1",
        RK,
        &[0, 0, 0, 0, 0, 0, 0xFE, 0xFF, 0xFF, 0xFF],
        "Ok(Cell { position: (0, 0), value: Int(-1) })",
    ),
    (
        "2",
        RK,
        &[0, 0, 0, 0, 0, 0, 10, 0, 0, 0],
        "Ok(Cell { position: (0, 0), value: Int(2) })",
    ),
    (
        "123.45 in hundredths",
        RK,
        &[0, 0, 0, 0, 0, 0, 0xE7, 0xC0, 0, 0],
        "Ok(Cell { position: (0, 0), value: Float(Hundredths(12345)) })",
    ),
    (
        "the double 1",
        RK,
        &[0, 0, 0, 0, 0, 0, 0, 0, 0xF0, 0x3F],
        "Ok(Cell { position: (0, 0), value: Float(Bits(4607182418800017408)) })",
    ),
    (
        "a hundredth of the double 1",
        RK,
        &[0, 0, 0, 0, 0, 0, 1, 0, 0xF0, 0x3F],
        "Ok(Cell { position: (0, 0), value: Float(BitsOver100(4607182418800017408)) })",
    ),
    (
        "2 in the second class, which is of dates",
        Reader::Rk(&[CellFormat::Other, CellFormat::DateTime]),
        &[0, 0, 0, 0, 1, 0, 10, 0, 0, 0],
        "Ok(Cell { position: (0, 0), value: DateTime(ExcelDateTime { value: Whole(2), datetime_type: DateTime, is_1904: false }) })",
    ),
    (
        "2 outside the classes",
        Reader::Rk(&[CellFormat::DateTime]),
        &[0, 0, 0, 0, 1, 0, 10, 0, 0, 0],
        "Ok(Cell { position: (0, 0), value: Int(2) })",
    ),
    (
        "the cells of a row",
        Reader::MulRk,
        &[2, 0, 0, 0, 0, 0, 10, 0, 0, 0, 0, 0, 0xEB, 3, 0, 0, 1, 0],
        "Ok(()) [Cell { position: (2, 0), value: Int(2) }, Cell { position: (2, 1), value: Float(Hundredths(250)) }]",
    ),
    (
        "one cell in columns 0 to 0",
        Reader::MulRk,
        &[0; 12],
        "Ok(()) [Cell { position: (0, 0), value: Float(Bits(0)) }]",
    ),
    (
        "a last column before the first",
        Reader::MulRk,
        &[0, 0, 2, 0, 0, 0, 6, 0, 0, 0, 1, 0],
        "Err(Len { expected: 65536, found: 12, typ: Rk })",
    ),
];

#[test]
fn reads_numbers_under_their_classes(rt: HostRuntime) -> Result<(), Fail> {
    rows_hold(&rt, rt.alloc(), &NUMBERS)
}

static VALUES: [Row; 11] = [
    (
        "the error value #N/A",
        Reader::BoolErr,
        &[1, 0, 0, 0, 0, 0, 0x2A, 1],
        "Ok(Cell { position: (1, 0), value: Error(NA) })",
    ),
    (
        "true for a 2",
        Reader::BoolErr,
        &[0, 0, 0, 0, 0, 0, 2, 0],
        "Ok(Cell { position: (0, 0), value: Bool(true) })",
    ),
    (
        "neither truth value nor error value",
        Reader::BoolErr,
        &[0, 0, 0, 0, 0, 0, 1, 2],
        "Err(Unrecognized { typ: FError, val: 2 })",
    ),
    (
        "the code of no error value",
        Reader::BoolErr,
        &[0, 0, 0, 0, 0, 0, 1, 1],
        "Err(Unrecognized { typ: CellError, val: 1 })",
    ),
    (
        "a formula with an empty text",
        Reader::FormulaValue([3, 0, 0, 0, 0, 0, 0xFF, 0xFF]),
        &[],
        "Ok(Some(String(\"\")))",
    ),
    (
        "a formula whose text follows",
        Reader::FormulaValue([0, 0, 0, 0, 0, 0, 0xFF, 0xFF]),
        &[],
        "Ok(None)",
    ),
    (
        "a formula with the double 6",
        Reader::FormulaValue([0, 0, 0, 0, 0, 0, 0x18, 0x40]),
        &[],
        "Ok(Some(Float(Bits(4618441417868443648))))",
    ),
    (
        "a formula",
        Reader::Formula,
        &[
            1, 0, 2, 0, 0, 0, 1, 0, 1, 0, 0, 0, 0xFF, 0xFF, 0, 0, 0, 0, 0, 0, 3, 0, 0x1E, 5, 0,
        ],
        "((1, 2), Some(Bool(true)), [3, 0, 30, 5, 0])",
    ),
    (
        "a label",
        Reader::Label(Biff::Biff8),
        &[0, 0, 0, 0, 0, 0, 1, 0, 0, 0x41],
        "Ok(Cell { position: (0, 0), value: String(\"A\") })",
    ),
    (
        "the last of three texts",
        Reader::LabelSst,
        &[0, 0, 0, 0, 0, 0, 2, 0, 0, 0],
        "Ok(Some(Cell { position: (0, 0), value: String(\"b\") }))",
    ),
    (
        "an index past three texts",
        Reader::LabelSst,
        &[0, 0, 0, 0, 0, 0, 3, 0, 0, 0],
        "Ok(None)",
    ),
];

#[test]
fn reads_texts_truth_values_error_values_and_formulas(rt: HostRuntime) -> Result<(), Fail> {
    rows_hold(&rt, rt.alloc(), &VALUES)
}
