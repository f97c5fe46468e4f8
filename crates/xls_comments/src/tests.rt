use crate::{CommentItem, Comments};
use std::alloc::{AllocError, Global};
use xls_record::Biff;
use xls_text::XlsEncoding;

// A workbook of BIFF8 whose sheet begins at byte 48: the text of object 7 in three pieces, with a pair of surrogates
// in two of them and one alone, and a Note.
static TEXT_IN_PIECES: [u8; 203] = [
    9, 8, 0x10, 0, 0, 6, 5, 0, 0, 0, 0, 0, 0, 0, 0, 0, 0, 0, 0, 0, 0x42, 0, 2, 0, 0xB0, 4, 0x85, 0,
    0x0E, 0, 0x30, 0, 0, 0, 0, 0, 6, 0, 0x53, 0x68, 0x65, 0x65, 0x74, 0x31, 0x0A, 0, 0, 0, 9, 8,
    0x10, 0, 0, 6, 0x10, 0, 0, 0, 0, 0, 0, 0, 0, 0, 0, 0, 0, 0, 0xEC, 0, 8, 0, 0, 0, 0, 0, 0, 0, 0,
    0, 0x5D, 0, 0x34, 0, 0x15, 0, 0x12, 0, 0x19, 0, 7, 0, 0x11, 0x40, 0, 0, 0, 0, 0, 0, 0, 0, 0, 0,
    0, 0, 0x0D, 0, 0x16, 0, 0, 0, 0, 0, 0, 0, 0, 0, 0, 0, 0, 0, 0, 0, 0, 0, 0, 0, 0, 0, 0, 0, 0, 0,
    0, 0, 0xB6, 1, 0x12, 0, 0x12, 2, 0, 0, 0, 0, 0, 0, 0, 0, 4, 0, 0x10, 0, 0, 0, 0, 0, 0x3C, 0, 3,
    0, 1, 0x3D, 0xD8, 0x3C, 0, 5, 0, 1, 0, 0xDE, 0x3D, 0xD8, 0x3C, 0, 2, 0, 0, 0x7A, 0x1C, 0, 0x0F,
    0, 1, 0, 1, 0, 0, 0, 7, 0, 3, 0, 0, 0x41, 0x6E, 0x6E, 0, 0x0A, 0, 0, 0,
];

// One with Notes of 3, 7, 8, 10 and 13 bytes.
static SHORT_NOTES: [u8; 230] = [
    9, 8, 0x10, 0, 0, 6, 5, 0, 0, 0, 0, 0, 0, 0, 0, 0, 0, 0, 0, 0, 0x42, 0, 2, 0, 0xB0, 4, 0x85, 0,
    0x0E, 0, 0x30, 0, 0, 0, 0, 0, 6, 0, 0x53, 0x68, 0x65, 0x65, 0x74, 0x31, 0x0A, 0, 0, 0, 9, 8,
    0x10, 0, 0, 6, 0x10, 0, 0, 0, 0, 0, 0, 0, 0, 0, 0, 0, 0, 0, 0xEC, 0, 8, 0, 0, 0, 0, 0, 0, 0, 0,
    0, 0x5D, 0, 0x34, 0, 0x15, 0, 0x12, 0, 0x19, 0, 7, 0, 0x11, 0x40, 0, 0, 0, 0, 0, 0, 0, 0, 0, 0,
    0, 0, 0x0D, 0, 0x16, 0, 0, 0, 0, 0, 0, 0, 0, 0, 0, 0, 0, 0, 0, 0, 0, 0, 0, 0, 0, 0, 0, 0, 0, 0,
    0, 0, 0xB6, 1, 0x12, 0, 0x12, 2, 0, 0, 0, 0, 0, 0, 0, 0, 2, 0, 0x10, 0, 0, 0, 0, 0, 0x3C, 0, 3,
    0, 0, 0x61, 0x62, 0x1C, 0, 3, 0, 1, 0, 1, 0x1C, 0, 7, 0, 1, 0, 1, 0, 2, 0, 7, 0x1C, 0, 8, 0, 1,
    0, 1, 0, 2, 0, 7, 0, 0x1C, 0, 0x0A, 0, 1, 0, 1, 0, 2, 0, 7, 0, 4, 0, 0x1C, 0, 0x0D, 0, 1, 0, 1,
    0, 2, 0, 7, 0, 4, 0, 0, 0x41, 0x6E, 0x0A, 0, 0, 0,
];

// A workbook of BIFF5 whose sheet begins at byte 39: a text without its last piece, one with another record before it.
static TEXTS_OF_BIFF5: [u8; 132] = [
    9, 8, 8, 0, 0, 5, 5, 0, 0, 0, 0, 0, 0x42, 0, 2, 0, 0xE4, 4, 0x85, 0, 0x0D, 0, 0x27, 0, 0, 0, 0,
    0, 6, 0x53, 0x68, 0x65, 0x65, 0x74, 0x31, 0x0A, 0, 0, 0, 9, 8, 8, 0, 0, 5, 0x10, 0, 0, 0, 0, 0,
    0xEC, 0, 8, 0, 0, 0, 0, 0, 0, 0, 0, 0, 0x1C, 0, 9, 0, 1, 0, 2, 0, 9, 0, 0x61, 0x62, 0x63, 0x1C,
    0, 9, 0, 0xFF, 0xFF, 0, 0, 3, 0, 0x64, 0x65, 0x66, 0x1C, 0, 8, 0, 2, 0, 2, 0, 4, 0, 0x61, 0x62,
    0x1D, 0, 0, 0, 0x1C, 0, 8, 0, 0xFF, 0xFF, 0, 0, 2, 0, 0x63, 0x64, 0x1C, 0, 7, 0, 3, 0, 3, 0, 1,
    0, 0x71, 0x0A, 0, 0, 0,
];

// What an item says.
fn told(alloc: Global, item: &CommentItem) -> Result<String, AllocError> {
    match item {
        CommentItem::Comment(c) => format!(in alloc;
            "{} {} {} {} {}",
            c.row, c.column, c.visibility, c.author, c.text
        ),
        CommentItem::Damaged(d) => format!(in alloc; "{} {} {}", d.record_name, d.offset, d.flaw),
    }
}

// Whether the items of a part say these lines.
fn says(alloc: Global, comments: Comments<'_>, lines: &[&str]) -> Result<bool, AllocError> {
    let mut count = 0;
    for item in comments {
        let item = item?;
        let text = told(alloc, &item)?;
        if count >= lines.len() || text.as_str() != lines[count] {
            return Ok(false);
        }
        count += 1;
    }
    Ok(count == lines.len())
}

#[test]
fn joins_pairs_behind_all_pieces(rt: HostRuntime) -> Result<(), AllocError> {
    let comments = Comments::read(
        rt.alloc(),
        &TEXT_IN_PIECES[48..],
        48,
        Biff::Biff8,
        XlsEncoding::Windows1252,
    )?;
    let lines = ["1 1 hidden Ann \u{1F600}\u{FFFD}z"];
    let done = says(rt.alloc(), comments, &lines)?;
    assert!(rt; done);
    Ok(())
}

#[test]
fn tells_short_notes(rt: HostRuntime) -> Result<(), AllocError> {
    let comments = Comments::read(
        rt.alloc(),
        &SHORT_NOTES[48..],
        48,
        Biff::Biff8,
        XlsEncoding::Windows1252,
    )?;
    let lines = [
        "Note 165 shorter than 8 bytes: 3",
        "Note 172 shorter than 8 bytes: 7",
        "1 1 visible  ab",
        "1 1 visible  ab",
        "1 1 visible An ab",
    ];
    let done = says(rt.alloc(), comments, &lines)?;
    assert!(rt; done);
    Ok(())
}

#[test]
fn joins_texts_of_biff5(rt: HostRuntime) -> Result<(), AllocError> {
    let comments = Comments::read(
        rt.alloc(),
        &TEXTS_OF_BIFF5[39..],
        39,
        Biff::Biff5,
        XlsEncoding::Windows1252,
    )?;
    let lines = [
        "Note 63 its text ends after 6 of 9 bytes",
        "Note 89 its text ends after 2 of 4 bytes",
        "Note 105 it continues no comment",
        "3 3 hidden  q",
    ];
    let done = says(rt.alloc(), comments, &lines)?;
    assert!(rt; done);
    Ok(())
}
