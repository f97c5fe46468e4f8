//! Worked values. Those of dates come from the calendar.

use csv::{ByteRecord, Reader};
use std::alloc::{AllocError, Global};
use std::test::Fail;
use xls_biff::XlsError;
use xls_book::{Reader as _, SteadySource, StreamBytes, Xls, XlsOptions};
use xls_csv::{dense_boxes, export_csv, field_text, printed_fields, rows_of_sheet, write_rows};
use xls_data::{Cell, Data, Dimensions, ExcelDateTime, ExcelDateTimeType, Number};
use xls_formula::NumberStyle;
use xls_output::MemorySink;
use xls_range::Range;
use xls_view::View;

// BOF of the globals, BoundSheet8 of the sheet `A` at byte 25, EOF, and BOF of a sheet, in BIFF8.
const HEAD: [u8; 33] = [
    0x09, 0x08, 4, 0, 0x00, 0x06, 0x05, 0x00, 0x85, 0, 9, 0, 25, 0, 0, 0, 0, 0, 1, 0, 0x41, 0x0A,
    0, 0, 0, 0x09, 0x08, 4, 0, 0x00, 0x06, 0x10, 0x00,
];

const E: [u8; 4] = [0x0A, 0, 0, 0];

// RK of 1 at (1, 1), of 2 at (1, 3), and of 2 at (65535, 65535).
const ONE: [u8; 14] = [0x7E, 2, 10, 0, 1, 0, 1, 0, 0, 0, 6, 0, 0, 0];

const TWO: [u8; 14] = [0x7E, 2, 10, 0, 1, 0, 3, 0, 0, 0, 10, 0, 0, 0];

const FAR: [u8; 14] = [0x7E, 2, 10, 0, 0xFF, 0xFF, 0xFF, 0xFF, 0, 0, 10, 0, 0, 0];

// Label of `a,"b` at (3, 2).
const LABEL: [u8; 17] = [
    0x04, 2, 13, 0, 3, 0, 2, 0, 0, 0, 4, 0, 0, b'a', b',', b'"', b'b',
];

// RK of 1 at (0, 0), and of 2 at (2, 0).
const FIRST: [u8; 14] = [0x7E, 2, 10, 0, 0, 0, 0, 0, 0, 0, 6, 0, 0, 0];

const BELOW: [u8; 14] = [0x7E, 2, 10, 0, 2, 0, 0, 0, 0, 0, 10, 0, 0, 0];

// Streams with a sheet of these cells.
const THREE: [&[u8]; 5] = [&HEAD, &ONE, &TWO, &LABEL, &E];

static THREE_PARTS: [&[u8]; 5] = THREE;

static FAR_PARTS: [&[u8]; 4] = [&HEAD, &FIRST, &FAR, &E];

/// A value: a text, a number, or a date or a duration by its number.
#[derive(Clone, Copy)]
enum Value {
    Text(&'static str),
    Int(i64),
    Float(Number),
    Bool(bool),
    Empty,
    Date(Number),
    Date1904(Number),
    Duration(Number),
}

fn stream_of(alloc: Global, parts: &[&[u8]]) -> Result<Vec<u8>, AllocError> {
    let mut bytes = Vec::new(alloc);
    for part in parts {
        bytes.extend_from_slice(part)?;
    }
    Ok(bytes)
}

fn view_of(alloc: Global, bytes: &[u8]) -> Result<View<'_>, XlsError> {
    let options = XlsOptions::defaults(alloc)?;
    View::new(alloc, bytes, &options, NumberStyle::Bits)
}

fn data_of(alloc: Global, value: Value) -> Result<Data, AllocError> {
    let (number, kind, is_1904) = match value {
        Value::Text(text) => return Ok(Data::String(String::from_str(alloc, text)?)),
        Value::Int(n) => return Ok(Data::Int(n)),
        Value::Float(number) => return Ok(Data::Float(number)),
        Value::Bool(b) => return Ok(Data::Bool(b)),
        Value::Empty => return Ok(Data::Empty),
        Value::Date(number) => (number, ExcelDateTimeType::DateTime, false),
        Value::Date1904(number) => (number, ExcelDateTimeType::DateTime, true),
        Value::Duration(number) => (number, ExcelDateTimeType::TimeDelta, false),
    };
    Ok(Data::DateTime(ExcelDateTime::new(number, kind, is_1904)))
}

fn exported(alloc: Global, cells: &[((u32, u32), Value)]) -> Result<StreamBytes, Fail> {
    let mut list = Vec::new(alloc);
    for (position, value) in cells {
        list.push(Cell::new(*position, data_of(alloc, *value)?))?;
    }
    let range = Range::from_sparse(alloc, list)?;
    Ok(export_csv(alloc, &range)?)
}

// The CSV of the first sheet, up to so many bytes, as it is written into memory.
fn written(alloc: Global, view: &View<'_>, room: usize) -> Result<MemorySink, Fail> {
    let mut sink = MemorySink::new(alloc, room, 4_096, Vec::new(alloc))?;
    if let Some(cells) = view.cells_at(0)? {
        let _written = write_rows(alloc, &mut sink, &cells);
    }
    Ok(sink)
}

// The range of the sheet `A`, exported.
fn exported_of(alloc: Global, parts: &[&[u8]]) -> Result<StreamBytes, XlsError> {
    let mut source = SteadySource::new(stream_of(alloc, parts)?);
    let book = Xls::new(alloc, &mut source)?;
    Ok(export_csv(alloc, &book.worksheet_range(alloc, "A")?)?)
}

fn is_row(row: &ByteRecord, wanted: &[&str]) -> bool {
    for i in 0..wanted.len() {
        if row.get(i) != Some(wanted[i].as_bytes()) {
            return false;
        }
    }
    row.len() == wanted.len()
}

// Whether the default reader, which takes the first row for headers, reads these rows.
fn reads_back(alloc: Global, bytes: &[u8], wanted: &[&[&str]]) -> Result<bool, Fail> {
    let mut reader = Reader::from_reader(alloc, bytes);
    let mut row = ByteRecord::new(alloc);
    for i in 0..wanted.len() {
        let is_same = if i == 0 {
            is_row(reader.byte_headers()?, wanted[i])
        } else {
            reader.read_byte_record(&mut row)? && is_row(&row, wanted[i])
        };
        if !is_same {
            return Ok(false);
        }
    }
    Ok(!reader.read_byte_record(&mut row)?)
}

// Cells, their CSV, and the rows that are read of it: texts with commas and quotes; and the first sheet of a
// workbook, with three rows of texts, numbers and a date.
static EXPORTS: [(&[((u32, u32), Value)], &str, &[&[&str]]); 2] = [
    (
        &[
            ((0, 0), Value::Text("a,b")),
            ((0, 1), Value::Text("say \"x\"")),
        ],
        "\"a,b\",\"say \"\"x\"\"\"\n",
        &[&["a,b", "say \"x\""]],
    ),
    (
        &[
            ((0, 0), Value::Text("Item")),
            ((0, 1), Value::Text("Café €")),
            ((1, 0), Value::Text("Sum")),
            ((1, 1), Value::Float(Number::Bits(0x4012_0000_0000_0000))),
            ((2, 0), Value::Int(2)),
            ((2, 1), Value::Float(Number::Hundredths(250))),
            ((2, 2), Value::Date(Number::Whole(43831))),
        ],
        "Item,Café €,\nSum,0x4012000000000000,\n2,2.5,2020-01-01\n",
        &[
            &["Item", "Café €", ""],
            &["Sum", "0x4012000000000000", ""],
            &["2", "2.5", "2020-01-01"],
        ],
    ),
];

fn is_export(
    alloc: Global,
    cells: &[((u32, u32), Value)],
    text: &str,
    rows: &[&[&str]],
) -> Result<bool, Fail> {
    let bytes = exported(alloc, cells)?;
    Ok(bytes.as_slice() == text.as_bytes() && reads_back(alloc, bytes.as_slice(), rows)?)
}

// An empty range has no CSV.
#[test]
fn writes_texts_numbers_and_dates(rt: HostRuntime) -> Result<(), Fail> {
    for (cells, text, rows) in EXPORTS.iter() {
        assert!(rt; is_export(rt.alloc(), cells, text, rows)?, "{text}");
    }
    let none = export_csv(rt.alloc(), &Range::empty(rt.alloc()))?;
    assert!(rt; none.as_slice().is_empty());
    Ok(())
}

static FIELDS: [(Value, &str); 14] = [
    (Value::Bool(true), "true"),
    (Value::Empty, ""),
    (Value::Duration(Number::Whole(43831)), "43831"),
    (Value::Date(Number::Whole(0)), "0"),
    (Value::Date(Number::Whole(1)), "1900-01-01"),
    (Value::Date(Number::Whole(60)), "1900-02-29"),
    (Value::Date(Number::Whole(2_958_465)), "9999-12-31"),
    (Value::Date(Number::Whole(2_958_466)), "2958466"),
    (Value::Date(Number::Hundredths(4_383_100)), "2020-01-01"),
    (Value::Date(Number::Hundredths(4_383_150)), "43831.5"),
    (
        Value::Date(Number::Bits(0x40E5_66E0_0000_0000)),
        "2020-01-01",
    ),
    (Value::Date1904(Number::Whole(0)), "0"),
    (Value::Date1904(Number::Whole(1)), "1904-01-02"),
    (Value::Date1904(Number::Whole(2_957_003)), "9999-12-31"),
];

fn has_field(alloc: Global, value: Value, wanted: &str) -> Result<bool, AllocError> {
    let value = data_of(alloc, value)?;
    Ok(field_text(alloc, &value)?.as_str() == wanted)
}

#[test]
fn shows_days_as_dates(rt: HostRuntime) -> Result<(), Fail> {
    for (value, wanted) in FIELDS.iter() {
        assert!(rt; has_field(rt.alloc(), *value, wanted)?, "{wanted}");
    }
    Ok(())
}

// Streams, the CSV of their sheets, and the rows that are read of it: rows without a cell between others; no
// cell; and a row of one empty field, which is two quotes, so that it is read back as a row.
pub(crate) static SHEETS: [(&[&[u8]], &str, &[&[&str]]); 3] = [
    (
        &THREE,
        "1,,2\n,,\n,\"a,\"\"b\",\n",
        &[&["1", "", "2"], &["", "", ""], &["", "a,\"b", ""]],
    ),
    (&[&HEAD, &E], "", &[]),
    (
        &[&HEAD, &FIRST, &BELOW, &E],
        "1\n\"\"\n2\n",
        &[&["1"], &[""], &["2"]],
    ),
];

// Whether what is written, and the range exported, are this text, and whether these rows are read of it.
fn is_sheet(alloc: Global, parts: &[&[u8]], text: &str, rows: &[&[&str]]) -> Result<bool, Fail> {
    let stream = stream_of(alloc, parts)?;
    let sink = written(alloc, &view_of(alloc, &stream)?, 99)?;
    let exported = exported_of(alloc, parts)?;
    Ok(
        sink.as_slice() == text.as_bytes()
            && exported.as_slice() == text.as_bytes()
            && reads_back(alloc, sink.as_slice(), rows)?,
    )
}

#[test]
fn writes_rows_one_after_another(rt: HostRuntime) -> Result<(), Fail> {
    for (parts, text, rows) in SHEETS.iter() {
        assert!(rt; is_sheet(rt.alloc(), parts, text, rows)?, "{text}");
    }
    rows_of_sheet();
    dense_boxes();
    printed_fields();
    Ok(())
}

// Whether the box of the first sheet is the one from here to there, as the sheet and as its cells have it.
fn has_box(view: &View<'_>, bounds: Dimensions) -> Result<bool, AllocError> {
    match view.sheet_at(0) {
        Some(sheet) => Ok(
            sheet.bounds() == Some(bounds) && sheet.cells()?.bounds() == Some(bounds),
        ),
        None => Ok(false),
    }
}

// The box has 2^32 cells, and a row 65,536 bytes: the first row, which has a byte more, and a comma of the
// next one are written before there is no room.
#[test]
fn a_far_cell_takes_the_memory_of_a_piece(rt: HostRuntime) -> Result<(), Fail> {
    let stream = stream_of(rt.alloc(), &FAR_PARTS)?;
    let view = view_of(rt.alloc(), &stream)?;
    assert!(rt; has_box(&view, Dimensions::new((0, 0), (65_535, 65_535)))?);
    let sink = written(rt.alloc(), &view, 65_538)?;
    assert!(rt; sink.as_slice().len() == 65_538 && sink.as_slice().starts_with(b"1,,"));
    assert!(rt; sink.as_slice().ends_with(b",,\n,"));
    Ok(())
}
