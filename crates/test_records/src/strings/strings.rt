//! Strings of one piece.

use super::*;

/// A call that reads a string.
#[derive(Clone, Copy)]
enum Call {
    Short(XlsEncoding, Biff),
    Text(XlsEncoding, Biff),
    Size(u16),
}

const WINDOWS: XlsEncoding = XlsEncoding::Windows1252;

/// A short string and a string of BIFF8.
const SHORT: Call = Call::Short(UTF16, Biff::Biff8);

const TEXT: Call = Call::Text(UTF16, Biff::Biff8);

/// The size of a string of three units, whose number isn't told.
const THREE: Call = Call::Size(3);

static STRINGS: [(Call, &[u8], &str); 26] = [
    // in units of one byte and of two
    (SHORT, &[2, 0, 0x41, 0], "Ok(\"A\\0\")"),
    (SHORT, &[3, 1, 0xE9, 0, 0x42], "Ok(\"\u{E9}\")"),
    // fewer bytes than the count tells, and none
    (TEXT, &[5, 0, 0, 0x41, 0x42], "Ok(\"AB\")"),
    (TEXT, &[0, 0], "Ok(\"\")"),
    // bytes in the page, before BIFF8
    (
        Call::Text(WINDOWS, Biff::Biff5),
        &[1, 0, 0x80, 0x41],
        "Ok(\"\u{20AC}\")",
    ),
    (
        Call::Short(WINDOWS, Biff::Biff5),
        &[9, 0x80, 0x41],
        "Ok(\"\u{20AC}A\")",
    ),
    // no flags
    (
        TEXT,
        &[0, 1],
        "Err(Len { expected: 3, found: 2, typ: Text })",
    ),
    // no count and no flags
    (
        Call::Size(0),
        &[],
        "Err(Len { expected: 1, found: 0, typ: NoCch })",
    ),
    // no count, in units of one byte and of two: all the units are there
    (
        THREE,
        &[0; 1],
        "Err(Len { expected: 4, found: 1, typ: NoCch })",
    ),
    (
        THREE,
        &[0; 2],
        "Err(Len { expected: 4, found: 2, typ: NoCch })",
    ),
    (
        THREE,
        &[0; 3],
        "Err(Len { expected: 4, found: 3, typ: NoCch })",
    ),
    (THREE, &[0; 4], "Ok(4)"),
    (THREE, &[0; 5], "Ok(4)"),
    (THREE, &[0; 6], "Ok(4)"),
    (THREE, &[0; 7], "Ok(4)"),
    (THREE, &[0; 8], "Ok(4)"),
    (THREE, &[0; 9], "Ok(4)"),
    (
        THREE,
        &[1; 1],
        "Err(Len { expected: 7, found: 1, typ: NoCch })",
    ),
    (
        THREE,
        &[1; 2],
        "Err(Len { expected: 7, found: 2, typ: NoCch })",
    ),
    (
        THREE,
        &[1; 3],
        "Err(Len { expected: 7, found: 3, typ: NoCch })",
    ),
    (
        THREE,
        &[1; 4],
        "Err(Len { expected: 7, found: 4, typ: NoCch })",
    ),
    (
        THREE,
        &[1; 5],
        "Err(Len { expected: 7, found: 5, typ: NoCch })",
    ),
    (
        THREE,
        &[1; 6],
        "Err(Len { expected: 7, found: 6, typ: NoCch })",
    ),
    (THREE, &[1; 7], "Ok(7)"),
    (THREE, &[1; 8], "Ok(7)"),
    (THREE, &[1; 9], "Ok(7)"),
];

fn answer_of(alloc: Global, call: Call, bytes: &[u8]) -> Result<String, AllocError> {
    match call {
        Call::Short(page, biff) => displayed(alloc, parse_short_string(alloc, bytes, &page, biff)),
        Call::Text(page, biff) => displayed(alloc, parse_string(alloc, bytes, &page, biff)),
        Call::Size(count) => displayed(alloc, size_of_uncounted(bytes, count)),
    }
}

#[test]
fn reads_strings_of_one_piece(rt: HostRuntime) -> Result<(), Fail> {
    for (call, bytes, wanted) in STRINGS.iter() {
        let answer = answer_of(rt.alloc(), *call, bytes)?;
        assert!(rt; answer.as_str() == *wanted, "{answer} of {bytes:?}");
    }
    Ok(())
}

#[test]
fn prints_a_refusal(rt: HostRuntime) -> Result<(), Fail> {
    let error = XlsError::Len {
        expected: 65_536,
        found: 12,
        typ: Part::Rk,
    };
    let text = format!(in rt.alloc(); "{error}")?;
    assert!(rt; text.as_str() == "Invalid rk length, expected at least 65536, found 12");
    Ok(())
}
