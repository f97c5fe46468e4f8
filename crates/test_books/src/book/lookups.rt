use super::*;
use std::test::*;

// MergeCells of the one region from (0, 1) to (2, 3).
const MERGE: [u8; 14] = [0xE5, 0, 10, 0, 1, 0, 0, 0, 2, 0, 1, 0, 3, 0];

// A sheet `A` with 1 at (1, 1), 2 at (2, 2) and one merged region.
const LEDGER: [&[u8]; 8] = [&G, &A, &E, &S, &ONE_1_1, &TWO_2_2, &MERGE, &E];

// BoundSheet8 of the sheet `b`, at byte 51 and at byte 77.
const FIRST_B: [u8; 13] = [0x85, 0, 9, 0, 51, 0, 0, 0, 0, 0, 1, 0, 0x62];

const LAST_B: [u8; 13] = [0x85, 0, 9, 0, 77, 0, 0, 0, 0, 0, 1, 0, 0x62];

pub(super) static CASES: [Case; 24] = [
    (
        "opens by the trait",
        Opening::ByTrait,
        &PLAIN,
        Asked::Sheets,
        "0,0=Float(Hundredths(12345)) ||",
    ),
    (
        "opens by the call for any kind",
        Opening::ByCall,
        &PLAIN,
        Asked::Sheets,
        "0,0=Float(Hundredths(12345)) ||",
    ),
    (
        "tells names and sheets",
        Opening::Plain,
        &LEDGER,
        Asked::Reported,
        "false [] [] [Sheet { name: \"A\", typ: WorkSheet, visible: Visible }]",
    ),
    (
        "tells them by the metadata, and the names of the sheets",
        Opening::Plain,
        &LEDGER,
        Asked::Names,
        "[Sheet { name: \"A\", typ: WorkSheet, visible: Visible }] [] [\"A\"]",
    ),
    (
        "tells the options",
        Opening::Plain,
        &LEDGER,
        Asked::MaxBytes,
        "268435456",
    ),
    (
        "finds the values of a name",
        Opening::Plain,
        &PLAIN,
        Asked::FirstValue("A"),
        "Some(Some((0, 0, Float(Hundredths(12345)))))",
    ),
    (
        "and none of another",
        Opening::Plain,
        &PLAIN,
        Asked::FirstValue("B"),
        "None",
    ),
    (
        "finds merged regions by name",
        Opening::Plain,
        &LEDGER,
        Asked::RegionsNamed("A"),
        "Ok([Dimensions { start: (0, 1), end: (2, 3) }]) Ok(Some([Dimensions { start: (0, 1), end: (2, 3) }]))",
    ),
    (
        "and none by another",
        Opening::Plain,
        &LEDGER,
        Asked::RegionsNamed("X"),
        "Err(WorksheetNotFound(\"X\")) Ok(None)",
    ),
    (
        "finds merged regions by index",
        Opening::Plain,
        &LEDGER,
        Asked::RegionsAt(0),
        "Ok([Dimensions { start: (0, 1), end: (2, 3) }]) Ok(Some([Dimensions { start: (0, 1), end: (2, 3) }])) Some([Dimensions { start: (0, 1), end: (2, 3) }])",
    ),
    (
        "and none at the end",
        Opening::Plain,
        &LEDGER,
        Asked::RegionsAt(1),
        "Err(WorksheetNotFound(\"Sheet index 1 out of range\")) Ok(None) None",
    ),
    (
        "nor one further",
        Opening::Plain,
        &LEDGER,
        Asked::RegionsAt(2),
        "Err(WorksheetNotFound(\"Sheet index 2 out of range\")) Ok(None) None",
    ),
    (
        "nor at 3",
        Opening::Plain,
        &LEDGER,
        Asked::RegionsAt(3),
        "Err(WorksheetNotFound(\"Sheet index 3 out of range\")) Ok(None) None",
    ),
    (
        "a range is the box of the cells",
        Opening::Plain,
        &LEDGER,
        Asked::Value("A", (1, 1)),
        "Some((1, 1)) Some((2, 2)) Some(Int(1))",
    ),
    (
        "with blanks elsewhere",
        Opening::Plain,
        &LEDGER,
        Asked::Value("A", (1, 2)),
        "Some((1, 1)) Some((2, 2)) Some(Empty)",
    ),
    (
        "there is none of a missing name",
        Opening::Plain,
        &LEDGER,
        Asked::Value("X", (1, 1)),
        "WorksheetNotFound(\"X\")",
    ),
    (
        "a range is found by its index",
        Opening::Plain,
        &LEDGER,
        Asked::SizeAt(0),
        "Some((2, 2))",
    ),
    (
        "and none by another",
        Opening::Plain,
        &LEDGER,
        Asked::SizeAt(1),
        "None",
    ),
    (
        "nor behind two sheets of one name",
        Opening::Plain,
        &TWINS,
        Asked::SizeAt(2),
        "None",
    ),
    (
        "a header row above the cells gives blank rows",
        Opening::Plain,
        &LEDGER,
        Asked::HeightFrom(0),
        "3",
    ),
    (
        "one at their start gives all",
        Opening::Plain,
        &LEDGER,
        Asked::HeightFrom(1),
        "2",
    ),
    (
        "one between them cuts the range",
        Opening::Plain,
        &LEDGER,
        Asked::HeightFrom(2),
        "1",
    ),
    (
        "one below them leaves none",
        Opening::Plain,
        &LEDGER,
        Asked::HeightFrom(3),
        "0",
    ),
    (
        "three names for two parts, `b`, `A`, `b`: each name once, in byte order",
        Opening::Plain,
        &[
            &G, &FIRST_B, &A_51, &LAST_B, &E, &S, &ONE_3_1, &E, &S, &TWO, &E,
        ],
        Asked::Ranges,
        "A Some((3, 1)) b Some((0, 0)) ",
    ),
];

#[test]
fn answers_by_name_and_index(rt: HostRuntime) -> Result<(), Fail> {
    for case in CASES.iter() {
        assert!(rt; is_case(rt.alloc(), case)?, "{}", case.0);
    }
    Ok(())
}
