//! References by the records of a workbook.

use std::alloc::{AllocError, Global};
use std::test::Fail;
use xls_defined_names::DefinedNames;
use xls_formula_books::{FormulaBooks, Here};
use xls_record::Biff;
use xls_shown_ptg::{NameLink, SheetLink};
use xls_strings::Strings;
use xls_text::XlsEncoding;

// The globals of a workbook of BIFF8: a SupBook of this workbook, and one of `C:\d\b.xls` with the sheet S and the name Tot; entries of
// ExternSheet for the first two sheets of this one, and for S; the name Rate, and an empty one of the second sheet.
static GLOBALS: [u8; 114] = [
    9, 8, 4, 0, 0, 6, 5, 0, 0xAE, 1, 4, 0, 1, 0, 1, 4, 0xAE, 1, 0x13, 0, 1, 0, 0x0A, 0, 0, 1, 1,
    b'C', b'd', 3, b'b', 0x2E, b'x', b'l', b's', 1, 0, 0, b'S', 0x23, 0, 0x0B, 0, 0, 0, 0, 0, 0, 0,
    3, 0, b'T', b'o', b't', 0x17, 0, 0x0E, 0, 2, 0, 0, 0, 0, 0, 1, 0, 1, 0, 0, 0, 0, 0, 0x18, 0,
    0x13, 0, 0, 0, 0, 4, 0, 0, 0, 0, 0, 0, 0, 0, 0, 0, 0, b'R', b'a', b't', b'e', 0x18, 0, 0x0F, 0,
    0, 0, 0, 0, 0, 0, 0, 0, 2, 0, 0, 0, 0, 0, 0,
];

// Those of one of BIFF5: an ExternSheet of the sheet Jan, and one of the sheet `S 1` of `C:\d\b`.
static EARLY: [u8; 37] = [
    9, 8, 4, 0, 0, 5, 5, 0, 0x17, 0, 5, 0, 3, 3, b'J', b'a', b'n', 0x17, 0, 0x0C, 0, 0x0B, 1, 1,
    b'C', b'd', 3, 0x5B, b'b', 0x5D, b'S', 0x20, 0x31, 0x0A, 0, 0, 0,
];

fn sheets(alloc: Global) -> Result<Strings, AllocError> {
    let mut sheets = Strings::new(alloc);
    sheets.push("Jan")?;
    sheets.push("It's")?;
    Ok(sheets)
}

// What references of BIFF8 are called, each in parentheses.
fn calls(alloc: Global) -> Result<String, AllocError> {
    let encoding = XlsEncoding::Windows1252;
    let books = FormulaBooks::read(alloc, &GLOBALS, Biff::Biff8, &encoding)?;
    let names = DefinedNames::read(alloc, &GLOBALS, Biff::Biff8, &encoding)?;
    let sheets = sheets(alloc)?;
    let here = Here {
        books: &books,
        names: &names,
        sheets: &sheets,
        sheet: 1,
    };
    let mut text = String::new(alloc);
    for number in 0..3 {
        here.append_sheets(SheetLink::Xti(number), &mut text)?;
        text.push(' ')?;
    }
    here.place(SheetLink::Xti(1)).append_cited(&mut text)?;
    text.push(' ')?;
    for number in 1..4 {
        here.append_name(number, &mut text)?;
        text.push(' ')?;
    }
    for ixti in 0..2 {
        here.append_name_x(NameLink::Xti { ixti, index: 1 }, &mut text)?;
        text.push(' ')?;
    }
    Ok(text)
}

// What references before BIFF8 are called.
fn early_calls(alloc: Global) -> Result<String, AllocError> {
    let encoding = XlsEncoding::Windows1252;
    let books = FormulaBooks::read(alloc, &EARLY, Biff::Biff5, &encoding)?;
    let names = DefinedNames::read(alloc, &EARLY, Biff::Biff5, &encoding)?;
    let sheets = sheets(alloc)?;
    let here = Here {
        books: &books,
        names: &names,
        sheets: &sheets,
        sheet: 1,
    };
    let mut text = String::new(alloc);
    for record in -1..4 {
        let link = SheetLink::Early {
            record,
            first: 0,
            last: 1,
        };
        here.append_sheets(link, &mut text)?;
        text.push(' ')?;
    }
    Ok(text)
}

#[test]
fn calls_sheets_and_names(rt: HostRuntime) -> Result<(), Fail> {
    let text = calls(rt.alloc())?;
    let expected =
        "'Jan:It''s' 'C:\\d\\[b.xls]S' #REF C:\\d\\[b.xls]S Rate 'It''s'! #NAME? [0]!Rate 'C:\\d\\b.xls'!Tot ";
    assert!(rt; text.as_str() == expected);
    Ok(())
}

#[test]
fn calls_sheets_before_biff8(rt: HostRuntime) -> Result<(), Fail> {
    let text = early_calls(rt.alloc())?;
    assert!(rt; text.as_str() == "'Jan:It''s' #REF Jan 'C:\\d\\[b]S 1' #REF ");
    Ok(())
}
