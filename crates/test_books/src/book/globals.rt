use super::*;
use std::test::*;

// DateMode of 1 and of 0.
const SET: [u8; 6] = [0x22, 0, 2, 0, 1, 0];

const UNSET: [u8; 6] = [0x22, 0, 2, 0, 0, 0];

// XF records of the formats 164 and 14, and Format 164, which is `yyyy`.
pub(super) const XF_OWN: [u8; 8] = [0xE0, 0, 4, 0, 0, 0, 164, 0];

pub(super) const XF_BUILT_IN: [u8; 8] = [0xE0, 0, 4, 0, 0, 0, 14, 0];

pub(super) const YEARS: [u8; 13] = [0x1E, 0x04, 9, 0, 164, 0, 4, 0, 0, 0x79, 0x79, 0x79, 0x79];

// Format 164, which is `0000`, and one without its text.
pub(super) const DIGITS: [u8; 13] = [0x1E, 0x04, 9, 0, 164, 0, 4, 0, 0, 0x30, 0x30, 0x30, 0x30];

const NO_TEXT: [u8; 6] = [0x1E, 0x04, 2, 0, 164, 0];

// CodePages of 1252 and 28591, and a sheet of Excel 5 whose name and whose one text are the byte 80.
const PAGE_1252: [u8; 6] = [0x42, 0, 2, 0, 0xE4, 0x04];

const PAGE_28591: [u8; 6] = [0x42, 0, 2, 0, 0xAF, 0x6F];

const G_5: [u8; 8] = [0x09, 0x08, 4, 0, 0x00, 0x05, 0x05, 0x00];

const SHEET_5: [u8; 12] = [0x85, 0, 8, 0, 36, 0, 0, 0, 0, 0, 1, 0x80];

const LABEL_5: [u8; 13] = [0x04, 0x02, 9, 0, 0, 0, 0, 0, 0, 0, 1, 0, 0x80];

const TWO_PAGES: [&[u8]; 8] = [
    &G_5,
    &PAGE_1252,
    &PAGE_28591,
    &SHEET_5,
    &E,
    &S,
    &LABEL_5,
    &E,
];

// BoundSheet8 whose name is NUL, the byte E9, NUL.
const NULS: [u8; 15] = [0x85, 0, 11, 0, 27, 0, 0, 0, 0, 0, 3, 0, 0, 0xE9, 0];

// A name whose Lbl stands before the ExternSheet that it needs: PtgRef3d of reference 0, B2.
const NAME_T: [u8; 27] = [
    0x18, 0, 23, 0, 0, 0, 0, 1, 7, 0, 0, 0, 0, 0, 0, 0, 0, 0, 0, 0x54, 0x3A, 0, 0, 1, 0, 1, 0,
];

const REFERENCE: [u8; 12] = [0x17, 0, 8, 0, 1, 0, 0, 0, 0, 0, 0, 0];

// A Lbl of no byte.
const NO_LBL: [u8; 4] = [0x18, 0, 0, 0];

pub(super) static CASES: [Case; 15] = [
    (
        "an empty stream has no sheets",
        Opening::Plain,
        &[],
        Asked::Reported,
        "false [] [] []",
    ),
    (
        "a date mode of 0 leaves 1900",
        Opening::Plain,
        &[&G, &UNSET, &E],
        Asked::Reported,
        "false [] [] []",
    ),
    (
        "one date mode of 1 sets 1904",
        Opening::Plain,
        &[&G, &SET, &UNSET, &E],
        Asked::Reported,
        "true [] [] []",
    ),
    (
        "a format may stand behind its XF",
        Opening::Plain,
        &[&G, &XF_OWN, &XF_BUILT_IN, &YEARS, &E],
        Asked::Reported,
        "false [DateTime, DateTime] [] []",
    ),
    (
        "a format that isn't there is another one",
        Opening::Plain,
        &[&G, &XF_OWN, &E],
        Asked::Reported,
        "false [Other] [] []",
    ),
    (
        "of two formats of one identifier the last counts",
        Opening::Plain,
        &[&G, &XF_OWN, &YEARS, &DIGITS, &E],
        Asked::Reported,
        "false [Other] [] []",
    ),
    (
        "a format without its text is passed over",
        Opening::Plain,
        &[&G, &XF_OWN, &YEARS, &NO_TEXT, &E],
        Asked::Reported,
        "false [DateTime] [] []",
    ),
    (
        "of two code pages the last counts for names",
        Opening::Plain,
        &TWO_PAGES,
        Asked::Reported,
        "false [] [] [Sheet { name: \"\\u{80}\", typ: WorkSheet, visible: Visible }]",
    ),
    (
        "and for cells",
        Opening::Plain,
        &TWO_PAGES,
        Asked::Sheets,
        "0,0=String(\"\\u{80}\") ||",
    ),
    (
        "a forced page counts before both for names",
        Opening::Forced(1252),
        &TWO_PAGES,
        Asked::Reported,
        "false [] [] [Sheet { name: \"€\", typ: WorkSheet, visible: Visible }]",
    ),
    (
        "and for cells",
        Opening::Forced(1252),
        &TWO_PAGES,
        Asked::Sheets,
        "0,0=String(\"€\") ||",
    ),
    (
        "NULs of a sheet's name are dropped",
        Opening::Plain,
        &[&G, &NULS, &E],
        Asked::Reported,
        "false [] [] [Sheet { name: \"é\", typ: WorkSheet, visible: Visible }]",
    ),
    (
        "two sheets may have one name",
        Opening::Plain,
        &TWINS,
        Asked::Reported,
        "false [] [] [Sheet { name: \"A\", typ: WorkSheet, visible: Visible }, Sheet { name: \"A\", typ: WorkSheet, visible: Visible }]",
    ),
    (
        "a name finds its sheet behind it",
        Opening::Plain,
        &[&G, &NAME_T, &REFERENCE, &A_64, &E, &S, &E],
        Asked::Reported,
        "false [] [(\"T\", \"A!$B$2\")] [Sheet { name: \"A\", typ: WorkSheet, visible: Visible }]",
    ),
    (
        "a name has faults of its head",
        Opening::Plain,
        &[&G, &NO_LBL, &E],
        Asked::Reported,
        "Len { expected: 14, found: 0, typ: Lbl }",
    ),
];

#[test]
fn tells_what_the_globals_settle(rt: HostRuntime) -> Result<(), Fail> {
    for case in CASES.iter() {
        assert!(rt; is_case(rt.alloc(), case)?, "{}", case.0);
    }
    Ok(())
}

// What the sheets show of the first so many bytes, or what is wrong with them.
fn of_prefix(len: usize) -> &'static str {
    match len {
        0 | 8 => "",
        25 | 33 => "||",
        47 | 51 => "0,0=Float(Hundredths(12345)) ||",
        21 => "EoStream(SheetOffset)",
        1..=3 | 9..=11 | 22..=24 | 26..=28 | 34..=36 | 48..=50 => "EoStream(RecordHeader)",
        _ => "EoStream(RecordLength)",
    }
}

#[test]
fn says_where_each_prefix_is_cut(rt: HostRuntime) -> Result<(), Fail> {
    let alloc = rt.alloc();
    let bytes = joined(alloc, &PLAIN_PARTS)?;
    assert!(rt; bytes.len() == 51);
    for len in 0..=bytes.len() {
        let is_cut = is_reported(
            alloc,
            Opening::Plain,
            &[&bytes[..len]],
            Asked::Sheets,
            of_prefix(len),
        );
        assert!(rt; is_cut?, "the first {len} bytes");
    }
    Ok(())
}
