//! Records, lists and texts.

use super::readers::*;
use super::*;
use xls_stream::types::{
    BOF, BOOL_ERR, DIMENSIONS, FORMULA, LABEL, LABEL_SST, MERGE_CELLS, MUL_RK, NUMBER, R_STRING,
    RK, STRING,
};

/// An SST of no bytes with Continue records of 7, of nothing, and of 8 and 9, and an EOF.
static IN_PIECES: [u8; 23] = [
    0xFC, 0, 0, 0, 0x3C, 0, 1, 0, 7, 0x3C, 0, 0, 0, 0x3C, 0, 2, 0, 8, 9, 10, 0, 0, 0,
];

#[test]
fn hands_out_the_pieces_of_a_record(rt: HostRuntime) -> Result<(), Fail> {
    let mut pieces = record_of(&IN_PIECES)?.pieces;
    assert!(rt; !pieces.is_empty());
    assert!(rt; matches!(pieces.next_piece(), Some([7])));
    assert!(rt; matches!(pieces.next_piece(), Some([])));
    assert!(rt; matches!(pieces.next_piece(), Some([8, 9])));
    assert!(rt; pieces.is_empty() && pieces.next_piece().is_none());
    Ok(())
}

#[test]
fn leaves_an_empty_continue_at_the_end(rt: HostRuntime) -> Result<(), Fail> {
    let mut records = RecordIter::new(&[0xFC, 0, 0, 0, 0x3C, 0, 0, 0]);
    let first = records.next().ok_or("no record")??;
    assert!(rt; first.pieces.is_empty());
    let second = records.next().ok_or("no record")??;
    assert!(rt; second.typ == 0x3C);
    assert!(rt; records.next().is_none());
    Ok(())
}

/// BOF, Number, a nested BOF with an RK and its EOF, LabelSst, EOF, Formula; all of them empty.
static PART: [u8; 32] = [
    9, 8, 0, 0, 3, 2, 0, 0, 9, 8, 0, 0, 0x7E, 2, 0, 0, 10, 0, 0, 0, 0xFD, 0, 0, 0, 10, 0, 0, 0, 6,
    0, 0, 0,
];

/// So many bytes of the part, and the types of their records outside nested substreams, 0203 for
/// Number and 00FD for LabelSst, with the error at the end.
static OUTER: [(usize, &str); 3] = [
    // the nested records are passed over
    (32, "0203 00FD "),
    // ends once where the part is cut
    (22, "0203 EoStream(RecordHeader)"),
    // an open substream goes on to the end
    (16, "0203 "),
];

fn outer_of(alloc: Global, part: &[u8]) -> Result<String, AllocError> {
    let mut types = String::new(alloc);
    for item in SheetRecords::new(part) {
        match item {
            Ok(r) => write!(types, "{:04X} ", r.typ)?,
            Err(e) => write!(types, "{e:?}")?,
        }
    }
    Ok(types)
}

#[test]
fn passes_over_nested_records_and_ends_once(rt: HostRuntime) -> Result<(), Fail> {
    for (len, wanted) in OUTER.iter() {
        let (part, _) = PART.split_at((*len).min(32));
        let types = outer_of(rt.alloc(), part)?;
        assert!(rt; types.as_str() == *wanted, "{len}: {types}");
    }
    Ok(())
}

#[test]
fn lists_grow_by_one(rt: HostRuntime) -> Result<(), Fail> {
    let mut strings = Strings::new(rt.alloc());
    strings.push("x")?;
    assert!(rt; strings.len() == 1);
    let mut refs = Refs::new(rt.alloc());
    refs.push(-1)?;
    assert!(rt; refs.len() == 1 && refs.first(0) == Some(-1));
    Ok(())
}

static WEIGHTS: [Row; 16] = [
    // of 20 bytes
    ("Number", Reader::Weight(NUMBER), &[0; 20], "1"),
    ("Label", Reader::Weight(LABEL), &[0; 20], "1"),
    ("RString", Reader::Weight(R_STRING), &[0; 20], "1"),
    ("BoolErr", Reader::Weight(BOOL_ERR), &[0; 20], "1"),
    ("String", Reader::Weight(STRING), &[0; 20], "1"),
    ("RK", Reader::Weight(RK), &[0; 20], "1"),
    ("LabelSst", Reader::Weight(LABEL_SST), &[0; 20], "1"),
    ("Formula", Reader::Weight(FORMULA), &[0; 20], "1"),
    ("Dimensions", Reader::Weight(DIMENSIONS), &[0; 20], "0"),
    ("MergeCells", Reader::Weight(MERGE_CELLS), &[0; 20], "0"),
    ("MulRk with a fault", Reader::Weight(MUL_RK), &[0; 20], "0"),
    ("BOF", Reader::Weight(BOF), &[0; 20], "0"),
    ("MulRk of one cell", Reader::Weight(MUL_RK), &[0; 12], "1"),
    (
        "MulRk of three cells",
        Reader::Weight(MUL_RK),
        &[
            0, 0, 7, 0, 0, 0, 6, 0, 0, 0, 0, 0, 6, 0, 0, 0, 0, 0, 6, 0, 0, 0, 9, 0,
        ],
        "3",
    ),
    (
        "a MulRk without a fault",
        Reader::Check(MUL_RK, Biff::Biff8),
        &[0; 12],
        "Ok(())",
    ),
    (
        "an RK that is too short",
        Reader::Check(RK, Biff::Biff8),
        &[0, 0],
        "Err(Len { expected: 10, found: 2, typ: Rk })",
    ),
];

#[test]
fn weighs_and_checks_records(rt: HostRuntime) -> Result<(), Fail> {
    rows_hold(&rt, rt.alloc(), &WEIGHTS)
}

static LISTINGS: [Row; 2] = [
    (
        "two bytes",
        Reader::Listing(0x42),
        &[0xB0, 4],
        "\nRecord = 0x0042, Length = 0x0002, 2\nB0 04 \n",
    ),
    (
        "sixteen bytes a line",
        Reader::Listing(0x0809),
        &[0xAB; 17],
        "\nRecord = 0x0809, Length = 0x0011, 17\nAB AB AB AB AB AB AB AB AB AB AB AB AB AB AB AB \nAB \n",
    ),
];

#[test]
fn lists_the_bytes_of_a_record(rt: HostRuntime) -> Result<(), Fail> {
    rows_hold(&rt, rt.alloc(), &LISTINGS)
}
