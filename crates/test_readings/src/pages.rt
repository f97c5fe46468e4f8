//! Texts by code pages, whose bytes are those of Python's codecs.

use std::alloc::{AllocError, Global};
use std::test::Fail;
use xls_pages::{CodePage, no_ascii_is_lost};

static TEXTS: [(u16, &[u8], &str); 28] = [
    (437, &[0x43, 0x61, 0x66, 0x82, 0x20, 0xAB], "$Café ½"),
    (737, &[0x80, 0x9F, 0xE3, 0xA4, 0x98], "$Αθήνα"),
    (850, &[0x92, 0x72, 0x9B], "$Ærø"),
    (866, &[0x8C, 0xAE, 0xE1, 0xAA, 0xA2, 0xA0], "$Москва"),
    (874, &[0xE4, 0xB7, 0xC2], "$ไทย"),
    (
        932,
        &[0x95, 0x5C, 0x8C, 0x76, 0x8E, 0x5A, 0xB6, 0xC5],
        "$表計算ｶﾅ",
    ),
    (936, &[0xD6, 0xD0, 0xCE, 0xC4, 0xA3, 0xAC], "$中文，"),
    (949, &[0xC7, 0xD1, 0xB1, 0xB9, 0xBE, 0xEE], "$한국어"),
    (950, &[0xA4, 0xA4, 0xA4, 0xE5], "$中文"),
    (1250, &[0xA3, 0xF3, 0x64, 0x9F], "$Łódź"),
    (1251, &[0xCF, 0xF0, 0xE8, 0xE2, 0xE5, 0xF2], "$Привет"),
    (1253, &[0xC1, 0xE8, 0xDE, 0xED, 0xE1], "$Αθήνα"),
    (
        1254,
        &[0xDD, 0x73, 0x74, 0x61, 0x6E, 0x62, 0x75, 0x6C],
        "$İstanbul",
    ),
    (1255, &[0xF9, 0xEC, 0xE5, 0xED], "$שלום"),
    (1257, &[0x52, 0xEE, 0x67, 0x61], "$Rīga"),
    (1258, &[0xD0, 0xE0], "$Đà"),
    (10000, &[0x43, 0x61, 0x66, 0x8E], "$Café"),
    (10007, &[0x8F, 0xF0, 0xE8, 0xE2, 0xE5, 0xF2], "$Привет"),
    (20866, &[0xF0, 0xD2, 0xC9, 0xD7, 0xC5, 0xD4], "$Привет"),
    (28592, &[0xA3, 0xF3, 0x64, 0xBC], "$Łódź"),
    (28605, &[0x31, 0x30, 0x20, 0xA4], "$10 €"),
    (
        932,
        &[0x82, 0xA0, 0x82, 0x22, 0x81, 0xFF, 0xA0, 0x41, 0x82],
        "$あ�\"��A�",
    ),
    (949, &[0x80, 0xFF], "$��"),
    (367, &[0x80], "$€"),
    (32768, &[0x8E], "$é"),
    (32769, &[0x80], "$€"),
    (857, &[0x41, 0xD5], "$A�"),
    (1252, &[], "$"),
];

fn is_text(alloc: Global, number: u16, bytes: &[u8], expected: &str) -> Result<bool, AllocError> {
    let mut text = String::from_str(alloc, "$")?;
    let Some(page) = CodePage::of(number) else {
        return Ok(false);
    };
    page.push_text(bytes, &mut text)?;
    Ok(text.as_str() == expected)
}

#[test]
fn reads_texts_by_their_page(rt: HostRuntime) -> Result<(), Fail> {
    for (number, bytes, expected) in TEXTS.iter() {
        assert!(rt; is_text(rt.alloc(), *number, bytes, expected)?);
    }
    no_ascii_is_lost();
    Ok(())
}

#[test]
fn knows_no_other_page(rt: HostRuntime) -> Result<(), Fail> {
    for number in [0, 1200, 1361, 10001, 28591, 65001] {
        assert!(rt; CodePage::of(number).is_none());
    }
    Ok(())
}
