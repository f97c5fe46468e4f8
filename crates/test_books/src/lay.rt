//! Lists that are put together, read and written.

use std::alloc::{AllocError, Global};
use std::test::*;
use xls_biff::{Part, RecordIter, SstReader, XlsError};
use xls_lay::{LayError, Logical, canonical_length, logical_of, write_workbook};

/// BOF of the globals and of a sheet, and EOF.
const GLOBALS: [u8; 8] = [0x09, 0x08, 4, 0, 0x00, 0x06, 0x05, 0x00];

const SHEET: [u8; 8] = [0x09, 0x08, 4, 0, 0x00, 0x06, 0x10, 0x00];

const EOF: [u8; 4] = [0x0A, 0x00, 0, 0];

/// BoundSheet8 of a visible worksheet `A` at byte 25, 49 or 70.
const A_25: [u8; 13] = [0x85, 0x00, 9, 0, 25, 0, 0, 0, 0, 0, 1, 0, 0x41];

const A_49: [u8; 13] = [0x85, 0x00, 9, 0, 49, 0, 0, 0, 0, 0, 1, 0, 0x41];

const A_70: [u8; 13] = [0x85, 0x00, 9, 0, 70, 0, 0, 0, 0, 0, 1, 0, 0x41];

/// An RK record of 123.45 at (0, 0), and its body.
const CELL: [u8; 14] = [0x7E, 0x02, 10, 0, 0, 0, 0, 0, 0, 0, 0xE7, 0xC0, 0, 0];

static CELL_BODY: [u8; 10] = [0, 0, 0, 0, 0, 0, 0xE7, 0xC0, 0, 0];

/// XF with a format of 14, and the tail that a Continue record gives it.
const XF: [u8; 8] = [0xE0, 0x00, 4, 0, 0, 0, 14, 0];

const TAIL: [u8; 5] = [0x3C, 0x00, 1, 0, 0xFF];

/// A string with a run that is cut, in a table that says that it is shown seven times; the rest of the run;
/// and the canonical table.
const TABLE: [u8; 20] = [
    0xFC, 0x00, 16, 0, 7, 0, 0, 0, 1, 0, 0, 0, 1, 0, 8, 1, 0, 0x41, 0, 0,
];

const REST_OF_RUN: [u8; 6] = [0x3C, 0x00, 2, 0, 5, 0];

const CANONICAL_TABLE: [u8; 16] = [0xFC, 0x00, 12, 0, 1, 0, 0, 0, 1, 0, 0, 0, 1, 0, 0, 0x41];

/// Font and Row, which are loose.
const FONT: [u8; 6] = [0x31, 0x00, 2, 0, 9, 9];

const ROW: [u8; 5] = [0x08, 0x02, 1, 0, 0];

/// A sheet with one cell.
const ONE_CELL: [&[u8]; 6] = [&GLOBALS, &A_25, &EOF, &SHEET, &CELL, &EOF];

/// The same for functions: a constant is made anew at each use of it.
static ONE_CELL_PARTS: [&[u8]; 6] = ONE_CELL;

static NO_PART: [&[u8]; 2] = [&GLOBALS, &A_25];

fn joined(alloc: Global, pieces: &[&[u8]]) -> Result<Vec<u8>, AllocError> {
    let mut bytes = Vec::new(alloc);
    for piece in pieces {
        bytes.extend_from_slice(piece)?;
    }
    Ok(bytes)
}

/// Whether the list is written as these pieces.
fn is_written(alloc: Global, list: &Logical, wanted: &[&[u8]]) -> Result<bool, Fail> {
    let wanted = joined(alloc, wanted)?;
    Ok(write_workbook(alloc, list)?.as_slice() == wanted.as_slice())
}

#[test]
fn writes_what_was_pushed(rt: HostRuntime) -> Result<(), Fail> {
    let alloc = rt.alloc();
    let mut list = Logical::new(alloc);
    list.push_plain(0x0809, &[0x00, 0x06, 0x05, 0x00])?;
    assert!(rt; !list.ends_in_sheet());
    list.push_sheet(0, 0, &[1, 0, 0x41])?;
    if list.ends_in_sheet() {
        list.push_kept(0x027E, &CELL_BODY)?;
    }
    assert!(rt; list.last_len() == 1 && canonical_length(&list) == 51);
    assert!(rt; is_written(alloc, &list, &ONE_CELL_PARTS)?);
    Ok(())
}

// How many bytes stand in the table's record and in the one Continue record behind it, if it is one string
// of these units.
fn cut_of(alloc: Global, stream: &[u8], units: &[u16]) -> Result<(usize, usize), Fail> {
    let record = RecordIter::new(stream).next().ok_or("no record")??;
    let mut reader = SstReader::new(&record)?;
    let is_whole = reader.next_units(alloc)?.ok_or("no string")?.as_slice() == units;
    let has_more = reader.next_units(alloc)?.is_some();
    let mut pieces = record.pieces;
    let piece = pieces.next_piece().ok_or("no piece")?;
    if !is_whole || has_more || !pieces.is_empty() {
        return Err(Fail::from("another string or piece"));
    }
    Ok((record.body.len(), piece.len()))
}

#[test]
fn cuts_a_long_string(rt: HostRuntime) -> Result<(), Fail> {
    let alloc = rt.alloc();
    let units = vec![in alloc; 0x61u16; 9000]?;
    let mut list = Logical::new(alloc);
    list.push_table()?;
    if list.ends_in_table() && list.last_len() == 0 {
        list.push_string(&units)?;
    }
    let stream = write_workbook(alloc, &list)?;
    assert!(rt; cut_of(alloc, stream.as_slice(), &units)? == (8224, 788));
    Ok(())
}

/// The list that a stream of fewer than 2^32 bytes carries.
fn read(alloc: Global, pieces: &[&[u8]]) -> Result<Logical, XlsError> {
    let bytes = joined(alloc, pieces)?;
    if bytes.len() >= 4_294_967_296 {
        return Err(XlsError::Io);
    }
    logical_of(alloc, bytes.as_slice())
}

fn is_remade(alloc: Global, pieces: &[&[u8]], wanted: &[&[u8]]) -> Result<bool, Fail> {
    let list = read(alloc, pieces)?;
    is_written(alloc, &list, wanted)
}

/// What a case shows, a stream, and what is written of its list.
static REMADE: [(&str, &[&[u8]], &[&[u8]]); 3] = [
    (
        "a canonical stream is written as it was",
        &ONE_CELL,
        &ONE_CELL,
    ),
    ("an empty one is an EOF", &[], &[&EOF]),
    // Font and Row are loose; a chart with a cell stands in the sheet; XF has a tail.
    (
        "what the list does not hold is dropped",
        &[
            &GLOBALS,
            &FONT,
            &XF,
            &TAIL,
            &TABLE,
            &REST_OF_RUN,
            &A_70,
            &EOF,
            &ROW,
            &SHEET,
            &SHEET,
            &CELL,
            &EOF,
            &CELL,
            &EOF,
        ],
        &[
            &GLOBALS,
            &XF,
            &CANONICAL_TABLE,
            &A_49,
            &EOF,
            &SHEET,
            &CELL,
            &EOF,
        ],
    ),
];

#[test]
fn writes_the_list_of_a_stream(rt: HostRuntime) -> Result<(), Fail> {
    for (shows, pieces, wanted) in REMADE.iter() {
        assert!(rt; is_remade(rt.alloc(), pieces, wanted)?, "{shows}");
    }
    Ok(())
}

#[test]
fn answers_the_first_fault(rt: HostRuntime) {
    let fault = read(rt.alloc(), &NO_PART).err();
    assert!(rt; fault == Some(XlsError::EoStream(Part::SheetOffset)));
}

static REFUSALS: [(LayError, &str); 2] = [
    (
        LayError::TooLong {
            found: 4_294_967_296,
        },
        "Workbook of 4294967296 bytes is too long",
    ),
    (LayError::Memory, "Out of memory"),
];

fn is_printed(alloc: Global, error: LayError, text: &str) -> Result<bool, AllocError> {
    Ok(format!(in alloc; "{error}")?.as_str() == text)
}

#[test]
fn prints_a_refusal(rt: HostRuntime) -> Result<(), Fail> {
    for (error, text) in REFUSALS.iter() {
        assert!(rt; is_printed(rt.alloc(), *error, text)?, "{text}");
    }
    Ok(())
}
