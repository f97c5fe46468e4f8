//! Expected values are those of the Unicode Standard, of CPython 3.11's decoders (`utf-8` and
//! `utf-16-le` with `replace`) and of the Windows code page table.

use std::alloc::{AllocError, Global};
use std::test::Fail;
use xls_text::{
    CfbError, XlsEncoding, one_utf8_reading, one_utf16_reading, push_units, text_of_units,
};

static PAGES: [(u16, Option<XlsEncoding>); 6] = [
    (1200, Some(XlsEncoding::Utf16)),
    (1252, Some(XlsEncoding::Windows1252)),
    (65001, Some(XlsEncoding::Utf8)),
    (28591, Some(XlsEncoding::Latin1)),
    (932, None),
    (1201, None),
];

#[test]
fn knows_four_pages(rt: HostRuntime) {
    for (number, page) in PAGES.iter() {
        assert_eq!(rt; XlsEncoding::from_codepage(*number).ok(), *page);
    }
    assert_eq!(rt;
        XlsEncoding::from_codepage(932),
        Err(CfbError::CodePageNotFound(932))
    );
}

fn prints_page(alloc: Global, page: u16, wanted: &str) -> Result<bool, AllocError> {
    let text = format!(in alloc; "{}", CfbError::CodePageNotFound(page))?;
    Ok(text.as_str() == wanted)
}

#[test]
fn prints_a_page_in_upper_hexadecimal(rt: HostRuntime) -> Result<(), Fail> {
    assert!(rt; prints_page(rt.alloc(), 932, "Codepage 3A4 not found")?);
    assert!(rt; prints_page(rt.alloc(), 0, "Codepage 0 not found")?);
    Ok(())
}

// Texts, and what bytes append to them: the page, the bytes, so many characters at most, whether each
// has two bytes, how many are appended of how many bytes, and the text then.
static APPENDED: [(
    &str,
    XlsEncoding,
    &[u8],
    usize,
    Option<bool>,
    (usize, usize),
    &str,
); 3] = [
    ("", XlsEncoding::Utf16, b"A\0", 1, Some(true), (1, 2), "A"),
    ("A", XlsEncoding::Utf16, b"A", 1, None, (1, 1), "AA"),
    (
        "prefix:",
        XlsEncoding::Windows1252,
        b"caf\xE9",
        4,
        None,
        (4, 4),
        "prefix:caf\u{E9}",
    ),
];

#[test]
fn appends_what_is_there(rt: HostRuntime) -> Result<(), Fail> {
    for (before, page, bytes, count, is_wide, taken, after) in APPENDED.iter() {
        let mut text = String::from_str(rt.alloc(), before)?;
        let found = page.decode_to(bytes, *count, &mut text, *is_wide)?;
        assert!(rt; found == *taken && text.as_str() == *after, "{after}");
    }
    Ok(())
}

#[test]
fn counts_no_more_than_asked_or_there(rt: HostRuntime) -> Result<(), Fail> {
    let mut text = String::new(rt.alloc());
    let bytes = [0x41, 0x00, 0x42, 0x00, 0x43];
    let two = XlsEncoding::Windows1252.decode_to(&bytes, 9, &mut text, Some(true))?;
    let one = XlsEncoding::Utf8.decode_to(&bytes, 1, &mut text, Some(true))?;
    let narrow = XlsEncoding::Utf8.decode_to(&[0xE9, 0x80], 1, &mut text, Some(false))?;
    let mark = XlsEncoding::Utf8.decode_to(&[0xC3, 0xA9, 0x41], 2, &mut text, None)?;
    let none = XlsEncoding::Latin1.decode_to(&[], 9, &mut text, None)?;
    // A unit of one byte is a character of its own number, whatever the page.
    let own = XlsEncoding::Windows1252.decode_to(&[0x80], 1, &mut text, Some(false))?;
    let counts = [two, one, narrow, mark, none, own];
    assert_eq!(rt; counts, [(2, 4), (1, 2), (1, 1), (2, 2), (0, 0), (1, 1)]);
    assert_eq!(rt; text.as_str(), "ABA\u{E9}\u{E9}\u{80}");
    Ok(())
}

fn reads(
    alloc: Global,
    page: XlsEncoding,
    bytes: &[u8],
    expected: &str,
) -> Result<bool, AllocError> {
    let text = page.decode_all(alloc, bytes)?;
    Ok(text.as_str() == expected)
}

static PAIRS: [(&[u8], &str); 6] = [
    (&[0x41, 0x00, 0x42], "A\u{FFFD}"),
    (&[0x3D, 0xD8, 0x00, 0xDE], "\u{1F600}"),
    (&[0x3D, 0xD8, 0x41, 0x00], "\u{FFFD}A"),
    (&[0x00, 0xDE, 0x3D, 0xD8], "\u{FFFD}\u{FFFD}"),
    (&[0xFF, 0xFE, 0x41, 0x00], "\u{FEFF}A"),
    // A half of a pair and an odd byte are one each.
    (&[0x3D, 0xD8, 0x00], "\u{FFFD}\u{FFFD}"),
];

#[test]
fn reads_utf_16(rt: HostRuntime) -> Result<(), Fail> {
    for (bytes, expected) in PAIRS.iter() {
        assert!(rt; reads(rt.alloc(), XlsEncoding::Utf16, bytes, expected)?);
    }
    Ok(())
}

static SEQUENCES: [(&[u8], &str); 10] = [
    (&[0x41, 0xFF], "A\u{FFFD}"),
    (&[0xE0, 0x80], "\u{FFFD}\u{FFFD}"),
    (&[0xED, 0xA0, 0x80], "\u{FFFD}\u{FFFD}\u{FFFD}"),
    (&[0xF0, 0x9F, 0x98], "\u{FFFD}"),
    (&[0xC3, 0x28], "\u{FFFD}("),
    (
        &[0xF4, 0x90, 0x80, 0x80],
        "\u{FFFD}\u{FFFD}\u{FFFD}\u{FFFD}",
    ),
    (&[0xF0, 0x9F, 0x98, 0x41], "\u{FFFD}A"),
    (
        &[0xE2, 0x82, 0xAC, 0xE2, 0x82, 0xE2],
        "\u{20AC}\u{FFFD}\u{FFFD}",
    ),
    (
        &[
            0x61, 0xC3, 0xA9, 0xFF, 0x62, 0xF0, 0x9F, 0x98, 0x80, 0xE2, 0x82,
        ],
        "a\u{E9}\u{FFFD}b\u{1F600}\u{FFFD}",
    ),
    (&[0xEF, 0xBB, 0xBF, 0x41], "\u{FEFF}A"),
];

#[test]
fn reads_utf_8_by_the_longest_begun_sequence(rt: HostRuntime) -> Result<(), Fail> {
    for (bytes, expected) in SEQUENCES.iter() {
        assert!(rt; reads(rt.alloc(), XlsEncoding::Utf8, bytes, expected)?);
    }
    Ok(())
}

// The upper half of page 1252, from 80 on.
const UPPER: &str =
    "€\u{81}‚ƒ„…†‡ˆ‰Š‹Œ\u{8D}Ž\u{8F}\u{90}‘’“”•–—˜™š›œ\u{9D}žŸ\u{A0}¡¢£¤¥¦§¨©ª«¬\u{AD}®¯°±²³´µ¶·¸¹º»¼½¾¿ÀÁÂÃÄÅÆÇÈÉÊËÌÍÎÏÐÑÒÓÔÕÖ×ØÙÚÛÜÝÞßàáâãäåæçèéêëìíîïðñòóôõö÷øùúûüýþÿ";

fn every_byte(alloc: Global) -> Result<Vec<u8>, AllocError> {
    let mut bytes = Vec::new(alloc);
    for byte in 0..=255u8 {
        bytes.push(byte)?;
    }
    Ok(bytes)
}

fn page_1252(alloc: Global) -> Result<String, AllocError> {
    let mut text = String::new(alloc);
    for byte in 0..128u8 {
        text.push(char::from(byte))?;
    }
    text.push_str(UPPER)?;
    Ok(text)
}

fn reads_page_1252(alloc: Global, bytes: &[u8]) -> Result<bool, AllocError> {
    let text = XlsEncoding::Windows1252.decode_all(alloc, bytes)?;
    let expected = page_1252(alloc)?;
    Ok(text.as_str() == expected.as_str() && text.as_str().chars().count() == 256)
}

#[test]
fn reads_every_byte_of_page_1252(rt: HostRuntime) -> Result<(), Fail> {
    let bytes = every_byte(rt.alloc())?;
    assert!(rt; reads_page_1252(rt.alloc(), bytes.as_slice())?);
    Ok(())
}

#[test]
fn reads_page_28591_as_numbers(rt: HostRuntime) -> Result<(), Fail> {
    assert!(rt;
        reads(
            rt.alloc(),
            XlsEncoding::Latin1,
            &[0x80, 0xE9],
            "\u{80}\u{E9}"
        )?
    );
    assert!(rt; reads(rt.alloc(), XlsEncoding::Windows1252, &[0x80], "\u{20AC}")?);
    Ok(())
}

#[test]
fn appends_units(rt: HostRuntime) -> Result<(), Fail> {
    let mut text = String::from_str(rt.alloc(), "x")?;
    push_units(&[0x41, 0xD83D, 0xDE00, 0xD83D], &mut text)?;
    assert_eq!(rt; text.as_str(), "xA\u{1F600}\u{FFFD}");
    push_units(&[0xDBFF, 0xDFFF, 0xE000], &mut text)?;
    assert_eq!(rt; text.as_str(), "xA\u{1F600}\u{FFFD}\u{10FFFF}\u{E000}");
    one_utf8_reading();
    one_utf16_reading();
    Ok(())
}

// Units of one, two and three bytes, a pair, and surrogates alone.
static UNITS: [u16; 9] = [
    0x7F, 0x80, 0x7FF, 0x800, 0xD83D, 0xDE00, 0xDE00, 0xFFFF, 0xD83D,
];

#[test]
fn allocates_a_text_at_its_size(rt: HostRuntime) -> Result<(), Fail> {
    let text = text_of_units(rt.alloc(), &UNITS)?;
    assert_eq!(rt; text.len(), 1 + 2 + 2 + 3 + 4 + 3 + 3 + 3);
    assert_eq!(rt; text.capacity(), text.len());
    Ok(())
}

// With memory refused at any number, what is written is all of the text or none of it.
#[test]
fn a_refusal_leaves_the_text(rt: HostRuntime) {
    let Ok(mut text) = String::from_str(rt.alloc(), "old") else {
        return;
    };
    let mut expected = "old";
    let bytes = [0x41, 0xE9, 0x42, 0x80, 0x43, 0xE9, 0x44, 0xE9, 0x45, 0xE9];
    if XlsEncoding::Windows1252
        .decode_to(&bytes, 10, &mut text, None)
        .is_ok()
    {
        expected = "oldA\u{E9}B\u{20AC}C\u{E9}D\u{E9}E\u{E9}";
    }
    assert_eq!(rt; text.as_str(), expected);
    let Ok(mut text) = String::from_str(rt.alloc(), "old") else {
        return;
    };
    let mut expected = "old";
    if push_units(&[0x41, 0xD83D, 0xDE00, 0x20AC, 0xD83D, 0x42], &mut text).is_ok() {
        expected = "oldA\u{1F600}\u{20AC}\u{FFFD}B";
    }
    assert_eq!(rt; text.as_str(), expected);
}
