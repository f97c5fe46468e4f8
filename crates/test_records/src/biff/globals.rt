//! Records of the globals.

use super::readers::*;
use super::*;

const WINDOWS: XlsEncoding = XlsEncoding::Windows1252;

/// BOF bodies by their numbers, and their versions.
static VERSIONS: [Row; 11] = [
    (
        "0200",
        Reader::Bof,
        &[0, 2, 0, 0],
        "Ok(Bof { biff: Biff2 })",
    ),
    (
        "0002",
        Reader::Bof,
        &[2, 0, 0, 0],
        "Ok(Bof { biff: Biff2 })",
    ),
    (
        "0007",
        Reader::Bof,
        &[7, 0, 0, 0],
        "Ok(Bof { biff: Biff2 })",
    ),
    (
        "0300",
        Reader::Bof,
        &[0, 3, 0, 0],
        "Ok(Bof { biff: Biff3 })",
    ),
    (
        "0400",
        Reader::Bof,
        &[0, 4, 0, 0],
        "Ok(Bof { biff: Biff4 })",
    ),
    (
        "0500",
        Reader::Bof,
        &[0, 5, 0, 0],
        "Ok(Bof { biff: Biff5 })",
    ),
    (
        "0600",
        Reader::Bof,
        &[0, 6, 0, 0],
        "Ok(Bof { biff: Biff8 })",
    ),
    (
        "0000 and 1000",
        Reader::Bof,
        &[0, 0, 0, 0x10],
        "Ok(Bof { biff: Biff5 })",
    ),
    (
        "0000 and 1001",
        Reader::Bof,
        &[0, 0, 1, 0x10],
        "Ok(Bof { biff: Biff8 })",
    ),
    (
        "0501",
        Reader::Bof,
        &[1, 5, 0, 0],
        "Ok(Bof { biff: Biff8 })",
    ),
    (
        "0000 alone",
        Reader::Bof,
        &[0, 0],
        "Ok(Bof { biff: Biff8 })",
    ),
];

#[test]
fn reads_versions(rt: HostRuntime) -> Result<(), Fail> {
    rows_hold(&rt, rt.alloc(), &VERSIONS)
}

/// Sheets with their offsets, in BIFF8.
const SHEET: Reader = Reader::Sheet(Biff::Biff8);

const CHECK: Reader = Reader::SheetCheck(Biff::Biff8);

static SHEETS: [Row; 11] = [
    (
        "a sheet",
        SHEET,
        &[25, 0, 0, 0, 0, 0, 1, 0, 0x41],
        "Ok((25, Sheet { name: \"A\", typ: WorkSheet, visible: Visible }))",
    ),
    (
        "its offset",
        CHECK,
        &[25, 0, 0, 0, 0, 0, 1, 0, 0x41],
        "Ok(25)",
    ),
    // the two high bits of byte 4 don't count
    (
        "the NULs of a name are dropped",
        SHEET,
        &[0, 0, 0, 0, 0xC2, 6, 3, 1, 0x41, 0, 0, 0, 0x42, 0],
        "Ok((0, Sheet { name: \"AB\", typ: Vba, visible: VeryHidden }))",
    ),
    // a state that is none comes before a kind that is none
    (
        "state 3 with a high bit, and kind 3",
        SHEET,
        &[0, 0, 0, 0, 0x43, 3],
        "Err(Unrecognized { typ: HsState, val: 3 })",
    ),
    (
        "state 3 with a high bit, and kind 3",
        CHECK,
        &[0, 0, 0, 0, 0x43, 3],
        "Err(Unrecognized { typ: HsState, val: 3 })",
    ),
    (
        "state 3",
        SHEET,
        &[0, 0, 0, 0, 3, 0],
        "Err(Unrecognized { typ: HsState, val: 3 })",
    ),
    (
        "state 3",
        CHECK,
        &[0, 0, 0, 0, 3, 0],
        "Err(Unrecognized { typ: HsState, val: 3 })",
    ),
    (
        "kind 3, and a high bit of the state",
        SHEET,
        &[0, 0, 0, 0, 0x41, 3],
        "Err(Unrecognized { typ: SheetKind, val: 3 })",
    ),
    (
        "kind 3, and a high bit of the state",
        CHECK,
        &[0, 0, 0, 0, 0x41, 3],
        "Err(Unrecognized { typ: SheetKind, val: 3 })",
    ),
    (
        "kind 3",
        SHEET,
        &[0, 0, 0, 0, 2, 3],
        "Err(Unrecognized { typ: SheetKind, val: 3 })",
    ),
    (
        "kind 3",
        CHECK,
        &[0, 0, 0, 0, 2, 3],
        "Err(Unrecognized { typ: SheetKind, val: 3 })",
    ),
];

#[test]
fn reads_sheets_and_refuses_states_before_kinds(rt: HostRuntime) -> Result<(), Fail> {
    rows_hold(&rt, rt.alloc(), &SHEETS)
}

const FORMAT_8: Reader = Reader::Format(WINDOWS, Biff::Biff8);

static FORMATS: [Row; 23] = [
    (
        "a duration before BIFF8",
        Reader::Format(WINDOWS, Biff::Biff5),
        &[0xA4, 0, 3, 0x5B, 0x68, 0x5D],
        "Ok((164, TimeDelta))",
    ),
    (
        "a date",
        FORMAT_8,
        &[0xA4, 0, 2, 0, 0, 0x64, 0x64],
        "Ok((164, DateTime))",
    ),
    // the identifiers at the edges of the ranges that a Format record may have
    (
        "4",
        FORMAT_8,
        &[4, 0, 0, 0, 0],
        "Err(InvalidFormat { ifmt: 4 })",
    ),
    ("5", FORMAT_8, &[5, 0, 0, 0, 0], "Ok((5, Other))"),
    ("8", FORMAT_8, &[8, 0, 0, 0, 0], "Ok((8, Other))"),
    (
        "9",
        FORMAT_8,
        &[9, 0, 0, 0, 0],
        "Err(InvalidFormat { ifmt: 9 })",
    ),
    (
        "22",
        FORMAT_8,
        &[22, 0, 0, 0, 0],
        "Err(InvalidFormat { ifmt: 22 })",
    ),
    ("23", FORMAT_8, &[23, 0, 0, 0, 0], "Ok((23, Other))"),
    ("26", FORMAT_8, &[26, 0, 0, 0, 0], "Ok((26, Other))"),
    (
        "27",
        FORMAT_8,
        &[27, 0, 0, 0, 0],
        "Err(InvalidFormat { ifmt: 27 })",
    ),
    (
        "40",
        FORMAT_8,
        &[40, 0, 0, 0, 0],
        "Err(InvalidFormat { ifmt: 40 })",
    ),
    ("41", FORMAT_8, &[41, 0, 0, 0, 0], "Ok((41, Other))"),
    ("44", FORMAT_8, &[44, 0, 0, 0, 0], "Ok((44, Other))"),
    (
        "45",
        FORMAT_8,
        &[45, 0, 0, 0, 0],
        "Err(InvalidFormat { ifmt: 45 })",
    ),
    (
        "62",
        FORMAT_8,
        &[62, 0, 0, 0, 0],
        "Err(InvalidFormat { ifmt: 62 })",
    ),
    ("63", FORMAT_8, &[63, 0, 0, 0, 0], "Ok((63, Other))"),
    ("66", FORMAT_8, &[66, 0, 0, 0, 0], "Ok((66, Other))"),
    (
        "67",
        FORMAT_8,
        &[67, 0, 0, 0, 0],
        "Err(InvalidFormat { ifmt: 67 })",
    ),
    (
        "163",
        FORMAT_8,
        &[163, 0, 0, 0, 0],
        "Err(InvalidFormat { ifmt: 163 })",
    ),
    ("164", FORMAT_8, &[164, 0, 0, 0, 0], "Ok((164, Other))"),
    ("382", FORMAT_8, &[126, 1, 0, 0, 0], "Ok((382, Other))"),
    (
        "383",
        FORMAT_8,
        &[127, 1, 0, 0, 0],
        "Err(InvalidFormat { ifmt: 383 })",
    ),
    (
        "no text after an identifier that is refused",
        FORMAT_8,
        &[0, 0],
        "Err(InvalidFormat { ifmt: 0 })",
    ),
];

static CODES: [Row; 4] = [
    (
        "before BIFF8",
        Reader::FormatCode(WINDOWS, Biff::Biff5),
        &[0xA4, 0, 3, 0x5B, 0x68, 0x5D],
        "Ok((164, \"[h]\"))",
    ),
    (
        "of an identifier that a Format record may not have",
        Reader::FormatCode(WINDOWS, Biff::Biff8),
        &[0x32, 0, 2, 0, 0, 0x64, 0x64],
        "Ok((50, \"dd\"))",
    ),
    (
        "half an identifier",
        Reader::FormatCode(WINDOWS, Biff::Biff8),
        &[0x32],
        "Err(Len { expected: 2, found: 1, typ: Format })",
    ),
    (
        "no text",
        Reader::FormatCode(WINDOWS, Biff::Biff5),
        &[0x32, 0],
        "Err(Len { expected: 1, found: 0, typ: ShortString })",
    ),
];

#[test]
fn reads_the_codes_of_formats(rt: HostRuntime) -> Result<(), Fail> {
    rows_hold(&rt, rt.alloc(), &CODES)
}

#[test]
fn tells_the_identifiers_that_count(rt: HostRuntime) {
    for (identifier, counts) in [
        (4, false),
        (5, true),
        (8, true),
        (9, false),
        (50, false),
        (164, true),
        (382, true),
        (383, false),
    ] {
        assert_eq!(rt; is_format_id(identifier), counts, "{identifier}");
    }
}

#[test]
fn reads_formats_of_the_ranges(rt: HostRuntime) -> Result<(), Fail> {
    rows_hold(&rt, rt.alloc(), &FORMATS)
}

static NUMBERS: [Row; 11] = [
    (
        "one of two references is there",
        Reader::ExternSheet(Biff::Biff8),
        &[2, 0, 0, 0, 1, 0, 1, 0],
        "(1, Some(1), None)",
    ),
    (
        "no references before BIFF8",
        Reader::ExternSheet(Biff::Biff5),
        &[2, 0, 0, 0, 1, 0, 1, 0],
        "(0, None, None)",
    ),
    ("an ifmt", Reader::Xf, &[0, 0, 0xA4, 0], "Ok(164)"),
    ("days from 1904", Reader::DateMode, &[1, 0], "Ok(true)"),
    ("days from 1900", Reader::DateMode, &[0, 0], "Ok(false)"),
    ("neither 0 nor 1", Reader::DateMode, &[1, 1], "Ok(false)"),
    ("no password", Reader::FilePass, &[0, 0], "Ok(())"),
    ("a password", Reader::FilePass, &[1, 0], "Err(Password)"),
    ("page 1252", Reader::CodePage, &[0xE4, 4], "Ok(Windows1252)"),
    (
        "page 437",
        Reader::CodePage,
        &[0xB5, 1],
        "Err(Cfb(CodePageNotFound(437)))",
    ),
    (
        "half a page",
        Reader::CodePage,
        &[0xE4],
        "Err(Len { expected: 2, found: 1, typ: CodePage })",
    ),
];

#[test]
fn reads_references_and_records_of_one_number(rt: HostRuntime) -> Result<(), Fail> {
    rows_hold(&rt, rt.alloc(), &NUMBERS)
}
