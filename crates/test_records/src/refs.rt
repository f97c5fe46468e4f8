//! Expected values come from [MS-XLS] 2.5.198 and from the rules of this project.

use std::alloc::{AllocError, Global};
use std::test::*;
use xls_biff::{Biff, Part, Refs, Strings, XlsError};
use xls_book::XlsOptions;
use xls_formula::{FunctionTable, Names, read_token};
use xls_refs::*;
use xls_text::{CfbError, XlsEncoding};

/// The sheet, if there is one, and both positions.
fn push_cite(out: &mut String, cite: &Cite) -> Result<(), AllocError> {
    if let Some(name) = &cite.sheet {
        out.push_str(name.as_str())?;
        out.push('!')?;
    }
    let (first, last) = (cite.first, cite.last);
    write!(out, "{},{}:{},{} ", first.0, first.1, last.0, last.1)?;
    Ok(())
}

// ---- one formula

/// In a workbook of two sheets, `A` and `B`. The references name `B`, no sheet, a sheet that is missing
/// and `A`.
fn cites_in(alloc: Global, rgce: &[u8], biff: Biff) -> Result<Cites, XlsError> {
    let mut sheets = Strings::new(alloc);
    sheets.push("A")?;
    sheets.push("B")?;
    let mut refs = Refs::new(alloc);
    for first in [1, -1, 7, 0] {
        refs.push(first)?;
    }
    let functions = FunctionTable::shipped(alloc)?;
    let names = Names::new(alloc);
    let page = XlsEncoding::Utf16;
    cites_of_formula(alloc, rgce, &sheets, &names, &refs, &page, biff, &functions)
}

fn listed(alloc: Global, cites: &Cites) -> Result<String, AllocError> {
    let mut out = String::new(alloc);
    for i in 0..cites.len() {
        if let Some(cite) = cites.get(i) {
            push_cite(&mut out, cite)?;
        }
    }
    Ok(out)
}

fn cites_so(alloc: Global, rgce: &[u8], biff: Biff, wanted: &str) -> Result<bool, AllocError> {
    match cites_in(alloc, rgce, biff) {
        Ok(cites) => Ok(listed(alloc, &cites)?.as_str() == wanted),
        Err(XlsError::Memory) => Err(AllocError),
        Err(_) => Ok(false),
    }
}

/// Formulas and the cells that they cite, counted from 0.
static CITED: [(Biff, &[u8], &str); 11] = [
    // A1+A1: a repeat.
    (
        Biff::Biff8,
        b"\x0B\0\x24\0\0\0\xC0\x24\0\0\0\xC0\x03",
        "0,0:0,0 ",
    ),
    // An area whose corners stand the other way round.
    (
        Biff::Biff8,
        b"\x09\0\x25\x09\0\x02\0\x03\xC0\x01\xC0",
        "9,3:2,1 ",
    ),
    // A cell on the sheet of the first reference, which is the second one.
    (Biff::Biff8, b"\x07\0\x3A\0\0\x01\0\0\xC0", "B!1,0:1,0 "),
    // An area on it.
    (
        Biff::Biff8,
        b"\x0B\0\x5B\0\0\0\0\x09\0\x01\xC0\x02\x40",
        "B!0,1:9,2 ",
    ),
    // The same cell on sheets that aren't there.
    (
        Biff::Biff8,
        b"\x0F\0\x3A\x01\0\x01\0\0\xC0\x3A\x02\0\x01\0\0\xC0\x03",
        "#REF!1,0:1,0 ",
    ),
    // A1, B!A1 and A!A1 are three.
    (
        Biff::Biff8,
        b"\x15\0\x24\0\0\0\xC0\x3A\0\0\0\0\0\xC0\x3A\x03\0\0\0\0\xC0\x03\x03",
        "0,0:0,0 B!0,0:0,0 A!0,0:0,0 ",
    ),
    // SUM(B2,A1:C3,B2)
    (
        Biff::Biff8,
        b"\x17\0\x24\x01\0\x01\xC0\x25\0\0\x02\0\0\xC0\x02\xC0\x24\x01\0\x01\xC0\x22\x03\x04\0",
        "1,1:1,1 0,0:2,2 ",
    ),
    // Two areas that begin with one cell.
    (
        Biff::Biff8,
        b"\x13\0\x25\0\0\x01\0\0\xC0\x01\xC0\x25\0\0\x02\0\0\xC0\x01\xC0\x10",
        "0,0:1,1 0,0:2,1 ",
    ),
    // A name and a cell that is gone.
    (Biff::Biff8, b"\x0B\0\x23\x01\0\0\0\x2A\0\0\0\0\x03", ""),
    // A cell and an area before BIFF8.
    (Biff::Biff5, b"\x04\0\x44\x01\x80\x02", "1,2:1,2 "),
    (Biff::Biff5, b"\x07\0\x25\0\xC0\x09\xC0\0\x01", "0,0:9,1 "),
];

#[test]
fn cites_the_cells_of_formulas(rt: HostRuntime) -> Result<(), Fail> {
    for (biff, rgce, wanted) in CITED.iter() {
        assert!(rt; cites_so(rt.alloc(), rgce, *biff, wanted)?);
    }
    Ok(())
}

fn refuses(alloc: Global, rgce: &[u8], error: &XlsError) -> Result<bool, AllocError> {
    match cites_in(alloc, rgce, Biff::Biff8) {
        Ok(_) => Ok(false),
        Err(XlsError::Memory) => Err(AllocError),
        Err(e) => Ok(e == *error),
    }
}

#[test]
fn refuses_what_is_no_formula(rt: HostRuntime) -> Result<(), Fail> {
    let alloc = rt.alloc();
    let cut = XlsError::Len {
        expected: 4,
        found: 2,
        typ: Part::Ptg,
    };
    assert!(rt; refuses(alloc, &[1, 0, 3], &XlsError::StackLen)?);
    assert!(rt; refuses(alloc, &[4, 0, 0x22, 0, 72, 0], &XlsError::IfTab(72))?);
    assert!(rt; refuses(alloc, b"\x08\0\x24\0\0\0\xC0\x24\0\0", &cut)?);
    let two = XlsError::InvalidFormula { stack_size: 2 };
    assert!(rt; refuses(alloc, b"\x0A\0\x24\0\0\0\xC0\x24\0\0\0\xC0", &two)?);
    assert_eq!(rt; read_token(&[0x24, 0, 0], Biff::Biff8), Err(cut));
    Ok(())
}

// ---- a workbook

// BOF of the globals and of a sheet, and EOF.
static G: [u8; 8] = [0x09, 0x08, 4, 0, 0x00, 0x06, 0x05, 0x00];

static S: [u8; 8] = [0x09, 0x08, 4, 0, 0x00, 0x06, 0x10, 0x00];

static E: [u8; 4] = [0x0A, 0, 0, 0];

// BoundSheet8 of a visible worksheet whose part begins at this byte.
fn bound(offset: u8, name: u8) -> [u8; 13] {
    [0x85, 0, 9, 0, offset, 0, 0, 0, 0, 0, 1, 0, name]
}

// BoundSheet8 of `Data` and of `Log`.
static DATA: [u8; 16] = [
    0x85, 0, 12, 0, 61, 0, 0, 0, 0, 0, 4, 0, b'D', b'a', b't', b'a',
];

static LOG: [u8; 15] = [0x85, 0, 11, 0, 151, 0, 0, 0, 0, 0, 3, 0, b'L', b'o', b'g'];

// ExternSheet of two references, to the second sheet and to the first.
static REFERENCES: [u8; 18] = [0x17, 0, 14, 0, 2, 0, 0, 0, 1, 0, 1, 0, 0, 0, 0, 0, 0, 0];

// The head of a Formula record of the value 0 at a position, with so many bytes of tokens.
fn head(row: u8, column: u8, cce: u8) -> [u8; 26] {
    let mut head = [0; 26];
    head[0] = 0x06;
    head[2] = cce.wrapping_add(22);
    head[4] = row;
    head[6] = column;
    head[24] = cce;
    head
}

// A cell in row 0 and this column.
fn cell(column: u8) -> [u8; 5] {
    [0x24, 0, 0, column, 0xC0]
}

// SUM(A3:B3)
static SUM: [u8; 13] = [0x25, 2, 0, 2, 0, 0x00, 0xC0, 0x01, 0xC0, 0x19, 0x10, 0, 0];

// "x"&A2 on the sheet of the second reference
static JOINED: [u8; 12] = [0x17, 1, 0, 0x78, 0x3A, 1, 0, 1, 0, 0, 0xC0, 0x08];

// A1 and A1 on the sheet of the second reference, added
static TWICE: [u8; 13] = [0x24, 0, 0, 0, 0xC0, 0x3A, 1, 0, 0, 0, 0, 0xC0, 0x03];

fn joined(alloc: Global, parts: &[&[u8]]) -> Result<Vec<u8>, AllocError> {
    let mut bytes = Vec::new(alloc);
    for part in parts {
        bytes.extend_from_slice(part)?;
    }
    Ok(bytes)
}

/// Each citation after the sheet, the row and the column of its formula.
fn reported(alloc: Global, book: &BookCites) -> Result<String, AllocError> {
    let mut out = String::new(alloc);
    for i in 0..book.len() {
        if let Some(found) = book.get(i) {
            write!(out, "{} {} {} ", found.sheet, found.row, found.col)?;
            push_cite(&mut out, &found.cite)?;
        }
    }
    Ok(out)
}

fn book_of(alloc: Global, parts: &[&[u8]]) -> Result<BookCites, XlsError> {
    cites_of_book(
        alloc,
        joined(alloc, parts)?.as_slice(),
        &XlsOptions::defaults(alloc)?,
    )
}

// A cell without a sheet stands on its formula's own, after repeats were left out.
#[test]
fn cites_what_the_formulas_of_a_ledger_do(rt: HostRuntime) -> Result<(), Fail> {
    let alloc = rt.alloc();
    let book = book_of(
        alloc,
        &[
            &G,
            &DATA,
            &LOG,
            &REFERENCES,
            &E,
            &S,
            &head(1, 1, 13),
            &SUM,
            &head(2, 0, 13),
            &TWICE,
            &E,
            &S,
            &head(0, 0, 12),
            &JOINED,
            &E,
        ],
    )?;
    let wanted = "0 1 1 Data!2,0:2,1 0 2 0 Data!0,0:0,0 0 2 0 Data!0,0:0,0 1 0 0 Data!1,0:1,0 ";
    assert_eq!(rt; reported(alloc, &book)?.as_str(), wanted);
    assert_eq!(rt;
        (book.sheet_name(1), book.sheet_name(2)),
        (Some("Log"), None)
    );
    assert!(rt; book.get(4).is_none());
    Ok(())
}

// Of two sheets of one name both show the formulas of the second, by row and then column, at each
// position the last one; one that is refused cites nothing.
#[test]
fn a_name_shows_the_formulas_of_its_last_sheet(rt: HostRuntime) -> Result<(), Fail> {
    let alloc = rt.alloc();
    let book = book_of(
        alloc,
        &[
            &G,
            &bound(38, b'A'),
            &bound(81, b'A'),
            &E,
            &S,
            &head(0, 0, 5),
            &cell(9),
            &E,
            &S,
            &head(1, 0, 5),
            &cell(1),
            &head(0, 1, 5),
            &cell(2),
            &head(0, 1, 5),
            &cell(3),
            &head(0, 0, 6),
            &cell(4),
            &[3],
            &E,
        ],
    )?;
    let wanted = "0 0 1 A!0,3:0,3 0 1 0 A!0,1:0,1 1 0 1 A!0,3:0,3 1 1 0 A!0,1:0,1 ";
    assert_eq!(rt; reported(alloc, &book)?.as_str(), wanted);
    Ok(())
}

fn fault_under(
    alloc: Global,
    bytes: &[u8],
    options: &XlsOptions,
) -> Result<Option<XlsError>, AllocError> {
    match cites_of_book(alloc, bytes, options) {
        Ok(_) => Ok(None),
        Err(XlsError::Memory) => Err(AllocError),
        Err(e) => Ok(Some(e)),
    }
}

#[test]
fn tells_the_first_fault(rt: HostRuntime) -> Result<(), Fail> {
    let alloc = rt.alloc();
    let mut options = XlsOptions::defaults(alloc)?;
    assert_eq!(rt; cites_of_book(alloc, &[], &options)?.len(), 0);
    let cut = XlsError::EoStream(Part::RecordHeader);
    assert_eq!(rt; fault_under(alloc, &[1, 2, 3], &options)?, Some(cut));
    options.max_cells = 0;
    let one = joined(
        alloc,
        &[&G, &bound(25, b'A'), &E, &S, &head(0, 0, 5), &cell(0), &E],
    )?;
    let many = XlsError::TooManyCells { limit: 0 };
    assert_eq!(rt; fault_under(alloc, one.as_slice(), &options)?, Some(many));
    options.force_codepage = Some(437);
    let page = XlsError::Cfb(CfbError::CodePageNotFound(437));
    assert_eq!(rt; fault_under(alloc, one.as_slice(), &options)?, Some(page));
    Ok(())
}
