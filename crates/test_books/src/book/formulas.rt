use super::*;
use std::test::*;

// Formulas in column 0 whose value is the double 6, 4618441417868443648 by its bits. In row 0: 1, PtgAdd, 5,
// which is short of an operand, and a call of function 72 with the one operand 1.
const SHORT_OF_ONE: [u8; 33] = [
    6, 0, 29, 0, 0, 0, 0, 0, 0, 0, 0, 0, 0, 0, 0, 0, 0x18, 0x40, 0, 0, 0, 0, 0, 0, 7, 0, 0x1E, 1,
    0, 3, 0x1E, 5, 0,
];

const CALL_72: [u8; 33] = [
    6, 0, 29, 0, 0, 0, 0, 0, 0, 0, 0, 0, 0, 0, 0, 0, 0x18, 0x40, 0, 0, 0, 0, 0, 0, 7, 0, 0x1E, 1,
    0, 0x22, 1, 72, 0,
];

// In row 1: 1, 5, PtgAdd; 1; and 2.
const SUM: [u8; 33] = [
    6, 0, 29, 0, 1, 0, 0, 0, 0, 0, 0, 0, 0, 0, 0, 0, 0x18, 0x40, 0, 0, 0, 0, 0, 0, 7, 0, 0x1E, 1,
    0, 0x1E, 5, 0, 3,
];

const ONE_IN_1: [u8; 29] = [
    6, 0, 25, 0, 1, 0, 0, 0, 0, 0, 0, 0, 0, 0, 0, 0, 0x18, 0x40, 0, 0, 0, 0, 0, 0, 3, 0, 0x1E, 1, 0,
];

const TWO_IN_1: [u8; 29] = [
    6, 0, 25, 0, 1, 0, 0, 0, 0, 0, 0, 0, 0, 0, 0, 0, 0x18, 0x40, 0, 0, 0, 0, 0, 0, 3, 0, 0x1E, 2, 0,
];

// In rows 2 and 3: 1.
const ONE_IN_2: [u8; 29] = [
    6, 0, 25, 0, 2, 0, 0, 0, 0, 0, 0, 0, 0, 0, 0, 0, 0x18, 0x40, 0, 0, 0, 0, 0, 0, 3, 0, 0x1E, 1, 0,
];

const ONE_IN_3: [u8; 29] = [
    6, 0, 25, 0, 3, 0, 0, 0, 0, 0, 0, 0, 0, 0, 0, 0, 0x18, 0x40, 0, 0, 0, 0, 0, 0, 3, 0, 0x1E, 1, 0,
];

// In row 5: PtgMissArg, which has an empty text.
const EMPTY_IN_5: [u8; 27] = [
    6, 0, 23, 0, 5, 0, 0, 0, 0, 0, 0, 0, 0, 0, 0, 0, 0x18, 0x40, 0, 0, 0, 0, 0, 0, 1, 0, 0x16,
];

// A String of `A`.
const TEXT: [u8; 8] = [7, 2, 4, 0, 1, 0, 0, 0x41];

// A Formula of 19 bytes.
const SHORT: [u8; 23] = [
    6, 0, 19, 0, 0, 0, 0, 0, 0, 0, 0, 0, 0, 0, 0, 0, 0, 0, 0, 0, 0, 0, 0,
];

// A Formula whose value is the error of code 1, which has no meaning.
const ERROR_1: [u8; 24] = [
    6, 0, 20, 0, 0, 0, 0, 0, 0, 0, 2, 0, 1, 0, 0, 0, 0xFF, 0xFF, 0, 0, 0, 0, 0, 0,
];

// A formula value of kind 3 is an empty text. The formula is 7, at (2, 1).
const NO_TEXT: [u8; 29] = [
    6, 0, 25, 0, 2, 0, 1, 0, 0, 0, 3, 0, 0, 0, 0, 0, 0xFF, 0xFF, 0, 0, 0, 0, 0, 0, 3, 0, 0x1E, 7, 0,
];

// BIFF5: the BOF, the sheet `A` at byte 24, and a Formula in row 1 of PtgRef3d of reference 0 at (9, 2), whose
// row and column are relative.
const BOF_5: [u8; 8] = [9, 8, 4, 0, 0, 5, 5, 0];

const SHEET_5: [u8; 12] = [0x85, 0, 8, 0, 24, 0, 0, 0, 0, 0, 1, 0x41];

const REF_5: [u8; 44] = [
    6, 0, 40, 0, 1, 0, 0, 0, 0, 0, 0, 0, 0, 0, 0, 0, 0x18, 0x40, 0, 0, 0, 0, 0, 0, 18, 0, 0x3A, 0,
    0, 0, 0, 0, 0, 0, 0, 0, 0, 0, 0, 0, 0, 9, 0xC0, 2,
];

pub(super) static CASES: [Case; 13] = [
    (
        "a refused formula says why",
        Opening::Plain,
        &[&G, &A, &E, &S, &SHORT_OF_ONE, &SUM, &E],
        Asked::Sheets,
        "0,0=Float(Bits(4618441417868443648)) 1,0=Float(Bits(4618441417868443648)) |0,0=Unrecognised formula for cell (0, 0): Invalid stack length 1,0=1+5 |",
    ),
    (
        "a String stands at the last formula",
        Opening::Plain,
        &[&G, &A, &E, &S, &ONE_IN_3, &TEXT, &E],
        Asked::Sheets,
        "3,0=String(\"A\") |3,0=1 |",
    ),
    (
        "and before the first at the start",
        Opening::Plain,
        &[&G, &A, &E, &S, &TEXT, &ONE_IN_3, &E],
        Asked::Sheets,
        "0,0=String(\"A\") 3,0=Float(Bits(4618441417868443648)) |3,0=1 |",
    ),
    (
        "an empty text is not shown",
        Opening::Plain,
        &[&G, &A, &E, &S, &EMPTY_IN_5, &ONE_IN_2, &E],
        Asked::Sheets,
        "2,0=Float(Bits(4618441417868443648)) 5,0=Float(Bits(4618441417868443648)) |2,0=1 |",
    ),
    (
        "and counts for the box",
        Opening::Plain,
        &[&G, &A, &E, &S, &EMPTY_IN_5, &ONE_IN_2, &E],
        Asked::FormulaBox("A"),
        "Some((2, 0)) Some((5, 0))",
    ),
    (
        "of one position the last formula stays",
        Opening::Plain,
        &[&G, &A, &E, &S, &ONE_IN_1, &TWO_IN_1, &E],
        Asked::Sheets,
        "1,0=Float(Bits(4618441417868443648)) |1,0=2 |",
    ),
    (
        "a formula has faults of its head",
        Opening::Plain,
        &[&G, &A, &E, &S, &SHORT, &E],
        Asked::Sheets,
        "Len { expected: 20, found: 19, typ: Formula }",
    ),
    (
        "and of its value",
        Opening::Plain,
        &[&G, &A, &E, &S, &ERROR_1, &E],
        Asked::Sheets,
        "Unrecognized { typ: CellError, val: 1 }",
    ),
    (
        "before BIFF8 each sheet has its own reference",
        Opening::Plain,
        &[&BOF_5, &SHEET_5, &E, &S, &REF_5, &E],
        Asked::Sheets,
        "1,0=Float(Bits(4618441417868443648)) |1,0=A!C10 |",
    ),
    (
        "a function of the options is named",
        Opening::WithX,
        &[&G, &A, &E, &S, &CALL_72, &E],
        Asked::Sheets,
        "0,0=Float(Bits(4618441417868443648)) |0,0=X(1) |",
    ),
    (
        "and none else",
        Opening::Plain,
        &[&G, &A, &E, &S, &CALL_72, &E],
        Asked::Sheets,
        "0,0=Float(Bits(4618441417868443648)) |0,0=Unrecognised formula for cell (0, 0): Invalid iftab 48 |",
    ),
    (
        "a formula may have an empty text",
        Opening::Plain,
        &[&G, &A, &E, &S, &NO_TEXT, &E],
        Asked::Sheets,
        "2,1=String(\"\") |2,1=7 |",
    ),
    (
        "which the range has too",
        Opening::Plain,
        &[&G, &A, &E, &S, &NO_TEXT, &E],
        Asked::Value("A", (2, 1)),
        "Some((2, 1)) Some((2, 1)) Some(String(\"\"))",
    ),
];

#[test]
fn shows_formulas_and_their_values(rt: HostRuntime) -> Result<(), Fail> {
    for case in CASES.iter() {
        assert!(rt; is_case(rt.alloc(), case)?, "{}", case.0);
    }
    Ok(())
}
