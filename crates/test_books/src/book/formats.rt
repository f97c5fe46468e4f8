use super::globals::{DIGITS, XF_BUILT_IN, XF_OWN, YEARS};
use super::*;
use std::test::*;
use xls_cell_formats::CellFormats;
use xls_formula::NumberStyle;
use xls_view::View;

// Format 50, `0%`, under whose identifier a workbook's own format decides no class.
const PERCENT: [u8; 11] = [0x1E, 0x04, 7, 0, 50, 0, 2, 0, 0, 0x30, 0x25];

// A MulRk of XFs 4 and 5 at (0, 1) and (0, 2), a Number of XF 3 at (1, 0), and a Formula of XF 6 at (2, 0), whose value
// is the text of the String behind it.
const RUN: [u8; 22] = [
    0xBD, 0, 18, 0, 0, 0, 1, 0, 4, 0, 6, 0, 0, 0, 5, 0, 10, 0, 0, 0, 2, 0,
];

const NUMBER: [u8; 18] = [
    0x03, 0x02, 14, 0, 1, 0, 0, 0, 3, 0, 0, 0, 0, 0, 0, 0, 0xF0, 0x3F,
];

const FORMULA: [u8; 26] = [
    0x06, 0, 22, 0, 2, 0, 0, 0, 6, 0, 0, 0, 0, 0, 0, 0, 0xFF, 0xFF, 0, 0, 0, 0, 0, 0, 0, 0,
];

const TEXT: [u8; 8] = [0x07, 0x02, 4, 0, 1, 0, 0, 0x61];

// What follows is one sheet at byte 25: in order, and not.
static SHEETS: [&[&[u8]]; 2] = [
    &[&G, &A, &E, &S, &RUN, &NUMBER, &FORMULA, &TEXT, &E],
    &[&G, &A, &E, &S, &FORMULA, &TEXT, &NUMBER, &RUN, &E],
];

// The cells of the first sheet, as `row,column=XF` with a space after each.
fn cell_formats(alloc: Global, parts: &[&[u8]]) -> Result<String, XlsError> {
    let bytes = joined(alloc, parts)?;
    let options = XlsOptions::defaults(alloc)?;
    let view = View::new(alloc, &bytes, &options, NumberStyle::Bits)?;
    let mut text = String::new(alloc);
    if let Some(sheet) = view.sheet_at(0) {
        for cell in sheet.formatted()?.iter() {
            write!(text, "{},{}={} ", cell.row, cell.column, cell.xf)?;
        }
    }
    Ok(text)
}

#[test]
fn each_cell_tells_its_xf(rt: HostRuntime) -> Result<(), Fail> {
    for parts in SHEETS.iter() {
        let text = cell_formats(rt.alloc(), parts)?;
        assert_eq!(rt; text.as_str(), "0,1=4 0,2=5 1,0=3 2,0=6 ");
    }
    Ok(())
}

#[test]
fn a_view_tells_identifiers_and_codes(rt: HostRuntime) -> Result<(), Fail> {
    let alloc = rt.alloc();
    let parts: [&[u8]; 7] = [&G, &XF_OWN, &XF_BUILT_IN, &YEARS, &PERCENT, &DIGITS, &E];
    let bytes = joined(alloc, &parts)?;
    let options = XlsOptions::defaults(alloc)?;
    let view = View::new(alloc, &bytes, &options, NumberStyle::Bits)?;
    assert_eq!(rt;
        (
            view.identifier_of(0),
            view.identifier_of(1),
            view.identifier_of(2)
        ),
        (164, 14, 0)
    );
    assert_eq!(rt; view.identifiers(), [164_u16, 14].as_slice());
    assert_eq!(rt; view.codes().len(), 3);
    // Of two codes of one identifier the last counts; a built-in one stands in no record, and 0 is General.
    let formats = CellFormats::new(alloc, &view)?;
    assert_eq!(rt;
        (formats.code(0), formats.code(1), formats.code(2)),
        ("0000", "m/d/yyyy", "General")
    );
    Ok(())
}
