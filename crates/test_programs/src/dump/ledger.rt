//! A whole workbook, made by hand of the records that Excel writes, and made streams.

use super::*;
use std::alloc::Global;
use xls_book::{Reader, Xls, XlsOptions};
use xls_command::generate_stream;
use xls_data::{Dimensions, HeaderRow};
use xls_strings::XlsError;

const BOF_OF_GLOBALS: [u8; 20] = [
    0x09, 0x08, 0x10, 0x00, 0x00, 0x06, 0x05, 0x00, 0xBB, 0x0D, 0xCC, 0x07, 0x00, 0x00, 0x00, 0x00,
    0x06, 0x00, 0x00, 0x00,
];

const CODE_PAGE: [u8; 6] = [0x42, 0x00, 0x02, 0x00, 0xB0, 0x04];

const FONT: [u8; 25] = [
    0x31, 0x00, 0x15, 0x00, 0xC8, 0x00, 0x00, 0x00, 0xFF, 0x7F, 0x90, 0x01, 0x00, 0x00, 0x00, 0x00,
    0x00, 0x00, 0x05, 0x00, 0x41, 0x72, 0x69, 0x61, 0x6C,
];

// `yyyy-mm-dd` as number 164.
const FORMAT_OF_DATES: [u8; 19] = [
    0x1E, 0x04, 0x0F, 0x00, 0xA4, 0x00, 0x0A, 0x00, 0x00, 0x79, 0x79, 0x79, 0x79, 0x2D, 0x6D, 0x6D,
    0x2D, 0x64, 0x64,
];

const XF_GENERAL: [u8; 24] = [
    0xE0, 0x00, 0x14, 0x00, 0x00, 0x00, 0x00, 0x00, 0x00, 0x00, 0x00, 0x00, 0x00, 0x00, 0x00, 0x00,
    0x00, 0x00, 0x00, 0x00, 0x00, 0x00, 0x00, 0x00,
];

const XF_OF_DATES: [u8; 24] = [
    0xE0, 0x00, 0x14, 0x00, 0x00, 0x00, 0xA4, 0x00, 0x00, 0x00, 0x00, 0x00, 0x00, 0x00, 0x00, 0x00,
    0x00, 0x00, 0x00, 0x00, 0x00, 0x00, 0x00, 0x00,
];

// The sheets `Data`, `Log` and `Old`, the last hidden, with the offsets of their parts.
const BOUND_SHEET_DATA: [u8; 16] = [
    0x85, 0x00, 0x0C, 0x00, 0x09, 0x01, 0x00, 0x00, 0x00, 0x00, 0x04, 0x00, 0x44, 0x61, 0x74, 0x61,
];

const BOUND_SHEET_LOG: [u8; 15] = [
    0x85, 0x00, 0x0B, 0x00, 0xE2, 0x01, 0x00, 0x00, 0x00, 0x00, 0x03, 0x00, 0x4C, 0x6F, 0x67,
];

const BOUND_SHEET_OLD: [u8; 15] = [
    0x85, 0x00, 0x0B, 0x00, 0x37, 0x02, 0x00, 0x00, 0x01, 0x00, 0x03, 0x00, 0x4F, 0x6C, 0x64,
];

const SUP_BOOK: [u8; 8] = [0xAE, 0x01, 0x04, 0x00, 0x03, 0x00, 0x01, 0x04];

const EXTERN_SHEET: [u8; 12] = [
    0x17, 0x00, 0x08, 0x00, 0x01, 0x00, 0x00, 0x00, 0x00, 0x00, 0x00, 0x00,
];

// `Total` names Data!$B$2.
const LBL_TOTAL: [u8; 31] = [
    0x18, 0x00, 0x1B, 0x00, 0x00, 0x00, 0x00, 0x05, 0x07, 0x00, 0x00, 0x00, 0x00, 0x00, 0x00, 0x00,
    0x00, 0x00, 0x00, 0x54, 0x6F, 0x74, 0x61, 0x6C, 0x3A, 0x00, 0x00, 0x01, 0x00, 0x01, 0x00,
];

// `Item`, `Café €` cut after its fifth character, and `Sum`.
const SST: [u8; 27] = [
    0xFC, 0x00, 0x17, 0x00, 0x03, 0x00, 0x00, 0x00, 0x03, 0x00, 0x00, 0x00, 0x04, 0x00, 0x00, 0x49,
    0x74, 0x65, 0x6D, 0x06, 0x00, 0x00, 0x43, 0x61, 0x66, 0xE9, 0x20,
];

const CONTINUE_OF_SST: [u8; 19] = [
    0x3C, 0x00, 0x0F, 0x00, 0x01, 0xAC, 0x20, 0x03, 0x00, 0x08, 0x01, 0x00, 0x53, 0x75, 0x6D, 0x00,
    0x00, 0x05, 0x00,
];

const BOF_OF_SHEET: [u8; 20] = [
    0x09, 0x08, 0x10, 0x00, 0x00, 0x06, 0x10, 0x00, 0xBB, 0x0D, 0xCC, 0x07, 0x00, 0x00, 0x00, 0x00,
    0x06, 0x00, 0x00, 0x00,
];

const INDEX: [u8; 20] = [
    0x0B, 0x02, 0x10, 0x00, 0x00, 0x00, 0x00, 0x00, 0x00, 0x00, 0x00, 0x00, 0x00, 0x00, 0x00, 0x00,
    0x00, 0x00, 0x00, 0x00,
];

const DIMENSIONS: [u8; 18] = [
    0x00, 0x02, 0x0E, 0x00, 0x00, 0x00, 0x00, 0x00, 0x03, 0x00, 0x00, 0x00, 0x00, 0x00, 0x03, 0x00,
    0x00, 0x00,
];

const ROW: [u8; 20] = [
    0x08, 0x02, 0x10, 0x00, 0x00, 0x00, 0x00, 0x00, 0x03, 0x00, 0xFF, 0x00, 0x00, 0x00, 0x00, 0x00,
    0x00, 0x01, 0x0F, 0x00,
];

// Shared strings by their row and column.
const LABEL_SST_0_0: [u8; 14] = [
    0xFD, 0x00, 0x0A, 0x00, 0x00, 0x00, 0x00, 0x00, 0x00, 0x00, 0x00, 0x00, 0x00, 0x00,
];

const LABEL_SST_0_1: [u8; 14] = [
    0xFD, 0x00, 0x0A, 0x00, 0x00, 0x00, 0x01, 0x00, 0x00, 0x00, 0x01, 0x00, 0x00, 0x00,
];

const LABEL_SST_1_0: [u8; 14] = [
    0xFD, 0x00, 0x0A, 0x00, 0x01, 0x00, 0x00, 0x00, 0x00, 0x00, 0x02, 0x00, 0x00, 0x00,
];

// SUM(A3:B3) at (1, 1), 4.5.
const FORMULA_SUM: [u8; 39] = [
    0x06, 0x00, 0x23, 0x00, 0x01, 0x00, 0x01, 0x00, 0x00, 0x00, 0x00, 0x00, 0x00, 0x00, 0x00, 0x00,
    0x12, 0x40, 0x00, 0x00, 0x00, 0x00, 0x00, 0x00, 0x0D, 0x00, 0x25, 0x02, 0x00, 0x02, 0x00, 0x00,
    0xC0, 0x01, 0xC0, 0x19, 0x10, 0x00, 0x00,
];

// 2 and 2.5 from (2, 0) on.
const MUL_RK: [u8; 22] = [
    0xBD, 0x00, 0x12, 0x00, 0x02, 0x00, 0x00, 0x00, 0x00, 0x00, 0x0A, 0x00, 0x00, 0x00, 0x00, 0x00,
    0xEB, 0x03, 0x00, 0x00, 0x01, 0x00,
];

// 43,831 under the class of dates, at (2, 2).
const NUMBER_OF_A_DATE: [u8; 18] = [
    0x03, 0x02, 0x0E, 0x00, 0x02, 0x00, 0x02, 0x00, 0x01, 0x00, 0x00, 0x00, 0x00, 0x00, 0xE0, 0x66,
    0xE5, 0x40,
];

// From (0, 1) to (0, 2).
const MERGE_CELLS: [u8; 14] = [
    0xE5, 0x00, 0x0A, 0x00, 0x01, 0x00, 0x00, 0x00, 0x00, 0x00, 0x01, 0x00, 0x02, 0x00,
];

// "x"&Data!A2 at (0, 0), whose text stands in the String after it.
const FORMULA_OF_A_TEXT: [u8; 38] = [
    0x06, 0x00, 0x22, 0x00, 0x00, 0x00, 0x00, 0x00, 0x00, 0x00, 0x00, 0x00, 0x00, 0x00, 0x00, 0x00,
    0xFF, 0xFF, 0x00, 0x00, 0x00, 0x00, 0x00, 0x00, 0x0C, 0x00, 0x17, 0x01, 0x00, 0x78, 0x3A, 0x00,
    0x00, 0x01, 0x00, 0x00, 0xC0, 0x08,
];

// `xSum`.
const STRING: [u8; 11] = [
    0x07, 0x02, 0x07, 0x00, 0x04, 0x00, 0x00, 0x78, 0x53, 0x75, 0x6D,
];

// #N/A at (1, 0).
const BOOL_ERR_NA: [u8; 12] = [
    0x05, 0x02, 0x08, 0x00, 0x01, 0x00, 0x00, 0x00, 0x00, 0x00, 0x2A, 0x01,
];

const NO_CELLS: [u8; 18] = [
    0x00, 0x02, 0x0E, 0x00, 0x00, 0x00, 0x00, 0x00, 0x00, 0x00, 0x00, 0x00, 0x00, 0x00, 0x00, 0x00,
    0x00, 0x00,
];

// The same sheets, with their parts in another order.
const BOUND_SHEET_DATA_MOVED: [u8; 16] = [
    0x85, 0x00, 0x0C, 0x00, 0x88, 0x01, 0x00, 0x00, 0x00, 0x00, 0x04, 0x00, 0x44, 0x61, 0x74, 0x61,
];

const BOUND_SHEET_LOG_MOVED: [u8; 15] = [
    0x85, 0x00, 0x0B, 0x00, 0x09, 0x01, 0x00, 0x00, 0x00, 0x00, 0x03, 0x00, 0x4C, 0x6F, 0x67,
];

const BOUND_SHEET_OLD_MOVED: [u8; 15] = [
    0x85, 0x00, 0x0B, 0x00, 0x5E, 0x01, 0x00, 0x00, 0x01, 0x00, 0x03, 0x00, 0x4F, 0x6C, 0x64,
];

// The same strings in one piece, `Café €` in two bytes for a character.
const SST_IN_ONE_PIECE: [u8; 46] = [
    0xFC, 0x00, 0x2A, 0x00, 0x03, 0x00, 0x00, 0x00, 0x03, 0x00, 0x00, 0x00, 0x04, 0x00, 0x00, 0x49,
    0x74, 0x65, 0x6D, 0x06, 0x00, 0x01, 0x43, 0x00, 0x61, 0x00, 0x66, 0x00, 0xE9, 0x00, 0x20, 0x00,
    0xAC, 0x20, 0x03, 0x00, 0x08, 0x01, 0x00, 0x53, 0x75, 0x6D, 0x00, 0x00, 0x05, 0x00,
];

// Three sheets: `Data` with numbers, shared texts, a date, a sum and a merged region; `Log` with a formula
// whose text follows in a String, and an error; `Old`, which is hidden and empty. One defined name.
pub const LEDGER: [&[u8]; 35] = [
    &BOF_OF_GLOBALS,
    &CODE_PAGE,
    &FONT,
    &FORMAT_OF_DATES,
    &XF_GENERAL,
    &XF_OF_DATES,
    &BOUND_SHEET_DATA,
    &BOUND_SHEET_LOG,
    &BOUND_SHEET_OLD,
    &SUP_BOOK,
    &EXTERN_SHEET,
    &LBL_TOTAL,
    &SST,
    &CONTINUE_OF_SST,
    &EOF,
    &BOF_OF_SHEET,
    &INDEX,
    &DIMENSIONS,
    &ROW,
    &LABEL_SST_0_0,
    &LABEL_SST_0_1,
    &LABEL_SST_1_0,
    &FORMULA_SUM,
    &MUL_RK,
    &NUMBER_OF_A_DATE,
    &MERGE_CELLS,
    &EOF,
    &BOF_OF_SHEET,
    &FORMULA_OF_A_TEXT,
    &STRING,
    &BOOL_ERR_NA,
    &EOF,
    &BOF_OF_SHEET,
    &NO_CELLS,
    &EOF,
];

// The same for functions: a constant is made anew at each use of it.
pub static LEDGER_PARTS: [&[u8]; 35] = LEDGER;

// The stream in another layout: the texts in one piece, one of them in two bytes for a character, and the
// parts of the sheets in another order.
static OTHER_LAYOUT: [&[u8]; 34] = [
    &BOF_OF_GLOBALS,
    &CODE_PAGE,
    &FONT,
    &FORMAT_OF_DATES,
    &XF_GENERAL,
    &XF_OF_DATES,
    &BOUND_SHEET_DATA_MOVED,
    &BOUND_SHEET_LOG_MOVED,
    &BOUND_SHEET_OLD_MOVED,
    &SUP_BOOK,
    &EXTERN_SHEET,
    &LBL_TOTAL,
    &SST_IN_ONE_PIECE,
    &EOF,
    &BOF_OF_SHEET,
    &FORMULA_OF_A_TEXT,
    &STRING,
    &BOOL_ERR_NA,
    &EOF,
    &BOF_OF_SHEET,
    &NO_CELLS,
    &EOF,
    &BOF_OF_SHEET,
    &INDEX,
    &DIMENSIONS,
    &ROW,
    &LABEL_SST_0_0,
    &LABEL_SST_0_1,
    &LABEL_SST_1_0,
    &FORMULA_SUM,
    &MUL_RK,
    &NUMBER_OF_A_DATE,
    &MERGE_CELLS,
    &EOF,
];

pub const LEDGER_SHEETS: &str =
    "sheet\tData\tworksheet\tvisible\nsheet\tLog\tworksheet\tvisible\nsheet\tOld\tworksheet\thidden\n";

pub const LEDGER_CSV: &str = "Item,Café €,\nSum,0x4012000000000000,\n2,2.5,2020-01-01\n";

pub const LEDGER_REFS: &str =
    "ref\tData\t1\t1\tData\t2\t0\t2\t1\nref\tLog\t0\t0\tData\t1\t0\t1\t0\n";

// What a command writes of a stream.
fn written(alloc: Global, word: &str, bytes: &[u8]) -> Result<Vec<u8>, AllocError> {
    let mut source = SteadySource::new(bytes.to_vec(alloc)?);
    let mut sink = MemorySink::new(alloc, 999, 999, Vec::new(alloc))?;
    let _ = run(alloc, &words_of(alloc, &[word])?, &mut source, &mut sink);
    sink.as_slice().to_vec(alloc)
}

// Whether a command writes this of a stream.
fn writes(alloc: Global, word: &str, bytes: &[u8], wanted: &[u8]) -> Result<bool, AllocError> {
    Ok(written(alloc, word, bytes)?.as_slice() == wanted)
}

#[test]
fn remakes_both_layouts_alike(rt: HostRuntime) -> Result<(), Fail> {
    let alloc = rt.alloc();
    let ledger = joined(alloc, &LEDGER_PARTS)?;
    let other = joined(alloc, &OTHER_LAYOUT)?;
    let remade = written(alloc, "remake", &ledger)?;
    assert_eq!(rt; remade.len(), 494);
    assert!(rt; writes(alloc, "remake", &other, &remade)?);
    assert!(rt; writes(alloc, "remake", &remade, &remade)?);
    assert!(rt; writes(alloc, "dump", &remade, &written(alloc, "dump", &ledger)?)?);
    Ok(())
}

#[test]
fn writes_the_same_for_another_layout(rt: HostRuntime) -> Result<(), Fail> {
    let alloc = rt.alloc();
    let (_, text) = outcome(alloc, &quiet(&["dump"], &LEDGER_PARTS))?;
    check(
        &rt,
        alloc,
        &quiet(&["dump"], &OTHER_LAYOUT),
        0,
        text.as_slice(),
    )
}

// What is generated doesn't come from the source, whose first read would fail.
#[test]
fn makes_a_stream_without_reading(rt: HostRuntime) -> Result<(), Fail> {
    let mut case = quiet(&["generate", "1"], &THREE_PARTS);
    case.read_fails = Some(0);
    check(&rt, rt.alloc(), &case, 0, b"rows\t1\ncells\t2\nsum\t0\n")
}

// The part of a sheet of one row: a whole number and a shared string.
const SAMPLE_INT: [u8; 14] = [0x7E, 0x02, 10, 0, 0, 0, 0, 0, 0, 0, 2, 0, 0, 0];

const SAMPLE_WORD: [u8; 14] = [0xFD, 0x00, 10, 0, 0, 0, 1, 0, 0, 0, 0, 0, 0, 0];

static SAMPLE_PART: [&[u8]; 4] = [&SHEET, &SAMPLE_INT, &SAMPLE_WORD, &EOF];

#[test]
fn makes_the_bytes_of_a_row(rt: HostRuntime) -> Result<(), Fail> {
    let stream = generate_stream(rt.alloc(), 1)?;
    let bytes = stream.as_slice();
    assert_eq!(rt; bytes.len(), 92);
    let part = joined(rt.alloc(), &SAMPLE_PART)?;
    assert_eq!(rt; &bytes[52..], part.as_slice());
    Ok(())
}

fn ledger(alloc: Global) -> Result<Xls, XlsError> {
    let mut source = SteadySource::new(joined(alloc, &LEDGER_PARTS)?);
    Xls::new_with_options(alloc, &mut source, XlsOptions::defaults(alloc)?)
}

// The formulas of a sheet, as `row,column=text` with a space after each.
fn formulas(alloc: Global, book: &Xls, n: usize) -> Result<String, AllocError> {
    let mut text = String::new(alloc);
    if let Some(formulas) = book.formulas_at(n) {
        for (row, column, formula) in formulas {
            write!(text, "{row},{column}={formula} ")?;
        }
    }
    Ok(text)
}

// The values of a sheet likewise.
fn values(alloc: Global, book: &Xls, n: usize) -> Result<String, AllocError> {
    let mut text = String::new(alloc);
    if let Some(values) = book.values_at(n) {
        for (row, column, value) in values {
            write!(text, "{row},{column}={value} ")?;
        }
    }
    Ok(text)
}

// The names of the sheets, each with a bar after it.
fn sheets(alloc: Global, book: &Xls) -> Result<String, XlsError> {
    let mut all = String::new(alloc);
    for name in &book.sheet_names(alloc)? {
        write!(all, "{name}|")?;
    }
    Ok(all)
}

#[test]
fn lists_the_sheets_in_order(rt: HostRuntime) -> Result<(), Fail> {
    let alloc = rt.alloc();
    let book = ledger(alloc)?;
    assert_eq!(rt; sheets(alloc, &book)?.as_str(), "Data|Log|Old|");
    assert_eq!(rt; book.worksheets(alloc)?.len(), 3);
    Ok(())
}

fn is_total(names: &[(String, String)]) -> bool {
    match names {
        [(name, text)] => name.as_str() == "Total" && text.as_str() == "Data!$B$2",
        _ => false,
    }
}

#[test]
fn tells_the_defined_names(rt: HostRuntime) -> Result<(), Fail> {
    let book = ledger(rt.alloc())?;
    assert!(rt; is_total(book.defined_names()) && is_total(&book.metadata().names));
    Ok(())
}

// The formulas of the first two sheets, a bar after each sheet, and the values of the second.
fn displayed(alloc: Global, book: &Xls) -> Result<String, AllocError> {
    let mut all = formulas(alloc, book, 0)?;
    write!(all, "|{}|", formulas(alloc, book, 1)?)?;
    all.push_str(values(alloc, book, 1)?.as_str())?;
    Ok(all)
}

// Neither the third sheet nor a missing one shows a formula.
fn has_no_other(book: &Xls) -> bool {
    match book.formulas_at(2) {
        Some(mut formulas) => formulas.next().is_none() && book.formulas_at(3).is_none(),
        None => false,
    }
}

#[test]
fn shows_the_formulas(rt: HostRuntime) -> Result<(), Fail> {
    let alloc = rt.alloc();
    let book = ledger(alloc)?;
    let wanted = "1,1=SUM(A3:B3) |0,0=\"x\"&Data!A2 |0,0=xSum 1,0=#N/A ";
    assert_eq!(rt; displayed(alloc, &book)?.as_str(), wanted);
    assert!(rt; has_no_other(&book));
    Ok(())
}

// The size of the range of a sheet's formulas, or whose name no sheet has.
fn formula_box(alloc: Global, book: &Xls, name: &str) -> Result<String, AllocError> {
    match book.worksheet_formula(alloc, name) {
        Ok(range) => format!(in alloc; "{} by {}", range.height(), range.width()),
        Err(error) => format!(in alloc; "{error}"),
    }
}

#[test]
fn a_range_of_formulas_is_their_box(rt: HostRuntime) -> Result<(), Fail> {
    let alloc = rt.alloc();
    let mut book = ledger(alloc)?;
    book.with_header_row(HeaderRow::Row(9));
    assert_eq!(rt; formula_box(alloc, &book, "Log")?.as_str(), "1 by 1");
    let missing = formula_box(alloc, &book, "X")?;
    assert_eq!(rt; missing.as_str(), "Worksheet 'X' not found");
    Ok(())
}

static REGION: [Dimensions; 1] = [Dimensions {
    start: (0, 1),
    end: (0, 2),
}];

// Whether the region is lent, and found by the name of its sheet, and none by another name or index.
fn finds_the_region(alloc: Global, book: &Xls) -> Result<bool, XlsError> {
    let by_name = book.merge_cells_by_sheet_name(alloc, "Data")?;
    let is_found = by_name.as_slice() == REGION.as_slice();
    let has_other = book.worksheet_merge_cells(alloc, "X")?.is_some()
        || book.worksheet_merge_cells_at(alloc, 3)?.is_some();
    Ok(is_found && book.merges_at(0) == Some(REGION.as_slice()) && !has_other)
}

#[test]
fn finds_the_merged_region(rt: HostRuntime) -> Result<(), Fail> {
    let alloc = rt.alloc();
    let book = ledger(alloc)?;
    assert!(rt; finds_the_region(alloc, &book)?);
    Ok(())
}

#[test]
fn without_property_streams_there_are_no_properties(rt: HostRuntime) -> Result<(), Fail> {
    let alloc = rt.alloc();
    let book = ledger(alloc)?;
    let properties = book.workbook_properties(alloc)?;
    assert!(rt; properties.title.is_none());
    assert!(rt; properties.custom_properties.is_empty());
    Ok(())
}
