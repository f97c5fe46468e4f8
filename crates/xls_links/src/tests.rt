use crate::{LinkItem, Links};
use std::alloc::{AllocError, Global};
use xls_record::Biff;
use xls_text::XlsEncoding;

// A workbook of BIFF8 whose sheet begins at byte 48: a URL with a shown text and a tip.
static URL: [u8; 204] = [
    9, 8, 0x10, 0, 0, 6, 5, 0, 0, 0, 0, 0, 0, 0, 0, 0, 0, 0, 0, 0, 0x42, 0, 2, 0, 0xB0, 4, 0x85, 0,
    0x0E, 0, 0x30, 0, 0, 0, 0, 0, 6, 0, 0x53, 0x68, 0x65, 0x65, 0x74, 0x31, 0x0A, 0, 0, 0, 9, 8,
    0x10, 0, 0, 6, 0x10, 0, 0, 0, 0, 0, 0, 0, 0, 0, 0, 0, 0, 0, 0xB8, 1, 0x68, 0, 3, 0, 4, 0, 5, 0,
    6, 0, 0xD0, 0xC9, 0xEA, 0x79, 0xF9, 0xBA, 0xCE, 0x11, 0x8C, 0x82, 0, 0xAA, 0, 0x4B, 0xA9, 0x0B,
    2, 0, 0, 0, 0x17, 0, 0, 0, 5, 0, 0, 0, 0x68, 0, 0x65, 0, 0x72, 0, 0x65, 0, 0, 0, 0xE0, 0xC9,
    0xEA, 0x79, 0xF9, 0xBA, 0xCE, 0x11, 0x8C, 0x82, 0, 0xAA, 0, 0x4B, 0xA9, 0x0B, 0x26, 0, 0, 0,
    0x68, 0, 0x74, 0, 0x74, 0, 0x70, 0, 0x3A, 0, 0x2F, 0, 0x2F, 0, 0x61, 0, 0x2E, 0, 0x65, 0, 0x78,
    0, 0x61, 0, 0x6D, 0, 0x70, 0, 0x6C, 0, 0x65, 0, 0x2F, 0, 0xE9, 0, 0, 0, 0, 8, 0x14, 0, 0, 8, 3,
    0, 4, 0, 5, 0, 6, 0, 0x6C, 0, 0x6F, 0, 0x6F, 0, 0x6B, 0, 0, 0, 0x0A, 0, 0, 0,
];

// One with monikers: two above and a file, two above, an item, none.
static MONIKERS: [u8; 381] = [
    9, 8, 0x10, 0, 0, 6, 5, 0, 0, 0, 0, 0, 0, 0, 0, 0, 0, 0, 0, 0, 0x42, 0, 2, 0, 0xB0, 4, 0x85, 0,
    0x0E, 0, 0x30, 0, 0, 0, 0, 0, 6, 0, 0x53, 0x68, 0x65, 0x65, 0x74, 0x31, 0x0A, 0, 0, 0, 9, 8,
    0x10, 0, 0, 6, 0x10, 0, 0, 0, 0, 0, 0, 0, 0, 0, 0, 0, 0, 0, 0xB8, 1, 0x80, 0, 3, 0, 4, 0, 5, 0,
    6, 0, 0xD0, 0xC9, 0xEA, 0x79, 0xF9, 0xBA, 0xCE, 0x11, 0x8C, 0x82, 0, 0xAA, 0, 0x4B, 0xA9, 0x0B,
    2, 0, 0, 0, 1, 0, 0, 0, 9, 3, 0, 0, 0, 0, 0, 0, 0xC0, 0, 0, 0, 0, 0, 0, 0x46, 2, 0, 0, 0, 5, 3,
    0, 0, 0, 0, 0, 0, 0xC0, 0, 0, 0, 0, 0, 0, 0x46, 2, 0, 0, 0, 3, 3, 0, 0, 0, 0, 0, 0, 0xC0, 0, 0,
    0, 0, 0, 0, 0x46, 0, 0, 6, 0, 0, 0, 0x63, 0x2E, 0x78, 0x6C, 0x73, 0, 0xFF, 0xFF, 0xAD, 0xDE, 0,
    0, 0, 0, 0, 0, 0, 0, 0, 0, 0, 0, 0, 0, 0, 0, 0, 0, 0, 0, 0, 0, 0, 0, 0xB8, 1, 0x34, 0, 3, 0, 4,
    0, 5, 0, 6, 0, 0xD0, 0xC9, 0xEA, 0x79, 0xF9, 0xBA, 0xCE, 0x11, 0x8C, 0x82, 0, 0xAA, 0, 0x4B,
    0xA9, 0x0B, 2, 0, 0, 0, 1, 0, 0, 0, 5, 3, 0, 0, 0, 0, 0, 0, 0xC0, 0, 0, 0, 0, 0, 0, 0x46, 2, 0,
    0, 0, 0xB8, 1, 0x3D, 0, 3, 0, 4, 0, 5, 0, 6, 0, 0xD0, 0xC9, 0xEA, 0x79, 0xF9, 0xBA, 0xCE, 0x11,
    0x8C, 0x82, 0, 0xAA, 0, 0x4B, 0xA9, 0x0B, 2, 0, 0, 0, 1, 0, 0, 0, 4, 3, 0, 0, 0, 0, 0, 0, 0xC0,
    0, 0, 0, 0, 0, 0, 0x46, 2, 0, 0, 0, 0x21, 0, 3, 0, 0, 0, 0x61, 0x62, 0, 0xB8, 1, 0x34, 0, 3, 0,
    4, 0, 5, 0, 6, 0, 0xD0, 0xC9, 0xEA, 0x79, 0xF9, 0xBA, 0xCE, 0x11, 0x8C, 0x82, 0, 0xAA, 0, 0x4B,
    0xA9, 0x0B, 2, 0, 0, 0, 1, 0, 0, 0, 9, 3, 0, 0, 0, 0, 0, 0, 0xC0, 0, 0, 0, 0, 0, 0, 0x46, 0, 0,
    0, 0, 0x0A, 0, 0, 0,
];

// One with counts that pass the records.
static COUNTS: [u8; 323] = [
    9, 8, 0x10, 0, 0, 6, 5, 0, 0, 0, 0, 0, 0, 0, 0, 0, 0, 0, 0, 0, 0x42, 0, 2, 0, 0xB0, 4, 0x85, 0,
    0x0E, 0, 0x30, 0, 0, 0, 0, 0, 6, 0, 0x53, 0x68, 0x65, 0x65, 0x74, 0x31, 0x0A, 0, 0, 0, 9, 8,
    0x10, 0, 0, 6, 0x10, 0, 0, 0, 0, 0, 0, 0, 0, 0, 0, 0, 0, 0, 0xB8, 1, 0x24, 0, 3, 0, 4, 0, 5, 0,
    6, 0, 0xD0, 0xC9, 0xEA, 0x79, 0xF9, 0xBA, 0xCE, 0x11, 0x8C, 0x82, 0, 0xAA, 0, 0x4B, 0xA9, 0x0B,
    2, 0, 0, 0, 0x10, 0, 0, 0, 0xFF, 0xFF, 0xFF, 0xFF, 0xB8, 1, 0x2C, 0, 3, 0, 4, 0, 5, 0, 6, 0,
    0xD0, 0xC9, 0xEA, 0x79, 0xF9, 0xBA, 0xCE, 0x11, 0x8C, 0x82, 0, 0xAA, 0, 0x4B, 0xA9, 0x0B, 2, 0,
    0, 0, 0x10, 0, 0, 0, 0, 0, 0, 0x80, 0, 0, 0, 0, 0, 0, 0, 0, 0xB8, 1, 0x3D, 0, 3, 0, 4, 0, 5, 0,
    6, 0, 0xD0, 0xC9, 0xEA, 0x79, 0xF9, 0xBA, 0xCE, 0x11, 0x8C, 0x82, 0, 0xAA, 0, 0x4B, 0xA9, 0x0B,
    2, 0, 0, 0, 1, 0, 0, 0, 0xE0, 0xC9, 0xEA, 0x79, 0xF9, 0xBA, 0xCE, 0x11, 0x8C, 0x82, 0, 0xAA, 0,
    0x4B, 0xA9, 0x0B, 0xFF, 0xFF, 0xFF, 0xFF, 0, 0, 0, 0, 0, 0, 0, 0, 0, 0xB8, 1, 0x36, 0, 3, 0, 4,
    0, 5, 0, 6, 0, 0xD0, 0xC9, 0xEA, 0x79, 0xF9, 0xBA, 0xCE, 0x11, 0x8C, 0x82, 0, 0xAA, 0, 0x4B,
    0xA9, 0x0B, 2, 0, 0, 0, 1, 0, 0, 0, 3, 3, 0, 0, 0, 0, 0, 0, 0xC0, 0, 0, 0, 0, 0, 0, 0x46, 0, 0,
    0xFF, 0xFF, 0xFF, 0x7F, 0xB8, 1, 0x24, 0, 3, 0, 4, 0, 5, 0, 6, 0, 0xD0, 0xC9, 0xEA, 0x79, 0xF9,
    0xBA, 0xCE, 0x11, 0x8C, 0x82, 0, 0xAA, 0, 0x4B, 0xA9, 0x0B, 2, 0, 0, 0, 8, 0, 0, 0, 0xFF, 0xFF,
    0xFF, 0x7F, 0x0A, 0, 0, 0,
];

// One with a moniker of another kind.
static OTHER_KIND: [u8; 132] = [
    9, 8, 0x10, 0, 0, 6, 5, 0, 0, 0, 0, 0, 0, 0, 0, 0, 0, 0, 0, 0, 0x42, 0, 2, 0, 0xB0, 4, 0x85, 0,
    0x0E, 0, 0x30, 0, 0, 0, 0, 0, 6, 0, 0x53, 0x68, 0x65, 0x65, 0x74, 0x31, 0x0A, 0, 0, 0, 9, 8,
    0x10, 0, 0, 6, 0x10, 0, 0, 0, 0, 0, 0, 0, 0, 0, 0, 0, 0, 0, 0xB8, 1, 0x38, 0, 3, 0, 4, 0, 5, 0,
    6, 0, 0xD0, 0xC9, 0xEA, 0x79, 0xF9, 0xBA, 0xCE, 0x11, 0x8C, 0x82, 0, 0xAA, 0, 0x4B, 0xA9, 0x0B,
    2, 0, 0, 0, 9, 0, 0, 0, 0, 1, 2, 3, 4, 5, 6, 7, 8, 9, 0x0A, 0x0B, 0x0C, 0x0D, 0x0E, 0x0F, 2, 0,
    0, 0, 0x70, 0, 0, 0, 0x0A, 0, 0, 0,
];

// What an item says.
fn told(alloc: Global, item: &LinkItem) -> Result<String, AllocError> {
    match item {
        LinkItem::Link(l) => format!(in alloc;
            "{} {} {} {} {} {} {} {} {}",
            l.first_row,
            l.first_column,
            l.last_row,
            l.last_column,
            l.kind,
            l.target,
            l.place,
            l.shown,
            l.tip
        ),
        LinkItem::Damaged(d) => format!(in alloc; "{} {} {}", d.record_name, d.offset, d.flaw),
    }
}

// Whether the items of a part say these lines.
fn says(alloc: Global, part: &[u8], lines: &[&str]) -> Result<bool, AllocError> {
    let mut count = 0;
    for item in Links::new(alloc, part, 48, Biff::Biff8, XlsEncoding::Utf16) {
        let item = item?;
        let text = told(alloc, &item)?;
        if count >= lines.len() || text.as_str() != lines[count] {
            return Ok(false);
        }
        count += 1;
    }
    Ok(count == lines.len())
}

#[test]
fn tells_a_url_with_its_tip(rt: HostRuntime) -> Result<(), AllocError> {
    let done = says(
        rt.alloc(),
        &URL[48..],
        &["3 5 4 6 url http://a.example/\u{E9}  here look"],
    )?;
    assert!(rt; done);
    Ok(())
}

#[test]
fn joins_monikers(rt: HostRuntime) -> Result<(), AllocError> {
    let lines = [
        "3 5 4 6 file ..\\..\\c.xls   ",
        "3 5 4 6 file ..\\..\\   ",
        "3 5 4 6 file !ab   ",
        "3 5 4 6 file    ",
    ];
    let done = says(rt.alloc(), &MONIKERS[48..], &lines)?;
    assert!(rt; done);
    Ok(())
}

#[test]
fn tells_what_is_wrong(rt: HostRuntime) -> Result<(), AllocError> {
    let lines = [
        "HLink 68 it ends in its shown text",
        "HLink 108 it ends in its shown text",
        "HLink 156 it ends in its target",
        "HLink 221 it ends in its target",
        "HLink 279 it ends in its place",
    ];
    let done = says(rt.alloc(), &COUNTS[48..], &lines)?;
    assert!(rt; done);
    let lines = [
        "HLink 68 its target is of a kind that is not known: 000102030405060708090a0b0c0d0e0f",
    ];
    let done = says(rt.alloc(), &OTHER_KIND[48..], &lines)?;
    assert!(rt; done);
    Ok(())
}
