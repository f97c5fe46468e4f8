//! Expected numbers are those of IEEE 754, of [MS-XLS] and of `include/gaflwened.h`.

use std::alloc::{AllocError, Global};
use std::test::Fail;
use xls_arrays::{
    CellItem, Fault, FormulaItem, NameItem, Options, RegionItem, SheetItem, Sizes, Span, fault_of,
    fault_text, form_of, measure, read, refusal_of, serial, stream,
};
use xls_cell_formats::bits_of;
use xls_data::Number;

const BOF_OF_GLOBALS: [u8; 8] = [0x09, 0x08, 0x04, 0x00, 0x00, 0x06, 0x05, 0x00];

// One sheet `A`, whose part begins at byte 25.
const BOUND_SHEET: [u8; 13] = [
    0x85, 0x00, 0x09, 0x00, 0x19, 0x00, 0x00, 0x00, 0x00, 0x00, 0x01, 0x00, b'A',
];

const EOF: [u8; 4] = [0x0A, 0x00, 0x00, 0x00];

const BOF_OF_SHEET: [u8; 8] = [0x09, 0x08, 0x04, 0x00, 0x00, 0x06, 0x10, 0x00];

// 3 in B5.
const NUMBER: [u8; 18] = [
    0x03, 0x02, 0x0E, 0x00, 0x04, 0x00, 0x01, 0x00, 0x00, 0x00, 0x00, 0x00, 0x00, 0x00, 0x00, 0x00,
    0x08, 0x40,
];

const NO_FAULT: Fault = Fault {
    code: 0,
    part: 0,
    table: 0,
    reserved: 0,
    first: 0,
    second: 0,
    third: 0,
};

const NOTHING: Sizes = Sizes {
    sheets: 0,
    names: 0,
    cells: 0,
    formulas: 0,
    regions: 0,
    text_bytes: 0,
    is_1904: 0,
    reserved: 0,
};

const BLANK: CellItem = CellItem {
    row: 0,
    column: 0,
    kind: 0,
    form: 0,
    value: 0,
    length: 0,
};

const NO_TEXT: Span = Span {
    offset: 0,
    length: 0,
};

const NO_SHEET: SheetItem = SheetItem {
    name: NO_TEXT,
    first_cell: 0,
    cells: 0,
    first_formula: 0,
    formulas: 0,
    first_region: 0,
    regions: 0,
    kind: 0,
    visibility: 0,
};

const EVERYTHING: Options = Options {
    max_bytes: 0,
    max_cells: 0,
    sheet: 0,
    which: 0,
    code_page: 0,
    all_functions: 1,
};

// A stream with one sheet and one number.
fn small_stream(alloc: Global) -> Result<Vec<u8>, AllocError> {
    let mut bytes = Vec::new(alloc);
    bytes.extend_from_slice(&BOF_OF_GLOBALS)?;
    bytes.extend_from_slice(&BOUND_SHEET)?;
    bytes.extend_from_slice(&EOF)?;
    bytes.extend_from_slice(&BOF_OF_SHEET)?;
    bytes.extend_from_slice(&NUMBER)?;
    bytes.extend_from_slice(&EOF)?;
    Ok(bytes)
}

#[test]
fn counts_what_a_stream_holds(rt: HostRuntime) -> Result<(), Fail> {
    let bytes = small_stream(rt.alloc())?;
    let mut sizes = NOTHING;
    let mut fault = NO_FAULT;
    let code = measure(
        rt.alloc(),
        bytes.as_slice(),
        &EVERYTHING,
        &mut sizes,
        &mut fault,
    );
    assert_eq!(rt; code, 0);
    assert_eq!(rt; fault, NO_FAULT);
    assert_eq!(rt; sizes.sheets, 1);
    assert_eq!(rt; sizes.cells, 1);
    assert_eq!(rt; sizes.text_bytes, 1);
    Ok(())
}

#[test]
fn fills_arrays_with_it(rt: HostRuntime) -> Result<(), Fail> {
    let bytes = small_stream(rt.alloc())?;
    let mut sheets = [NO_SHEET; 1];
    let mut names: [NameItem; 0] = [];
    let mut cells = [BLANK; 1];
    let mut formulas: [FormulaItem; 0] = [];
    let mut regions: [RegionItem; 0] = [];
    let mut texts = [0u8; 1];
    let mut sizes = NOTHING;
    let mut fault = NO_FAULT;
    let code = read(
        rt.alloc(),
        bytes.as_slice(),
        &EVERYTHING,
        &mut sheets,
        &mut names,
        &mut cells,
        &mut formulas,
        &mut regions,
        &mut texts,
        &mut sizes,
        &mut fault,
    );
    assert_eq!(rt; code, 0);
    assert_eq!(rt; sizes.cells, 1);
    assert_eq!(rt;
        sheets[0].name,
        Span {
            offset: 0,
            length: 1
        }
    );
    assert_eq!(rt; sheets[0].cells, 1);
    assert_eq!(rt; texts[0], b'A');
    assert_eq!(rt; cells[0].row, 4);
    assert_eq!(rt; cells[0].column, 1);
    assert_eq!(rt; cells[0].kind, 1);
    assert_eq!(rt; cells[0].value, 0x4008_0000_0000_0000);
    Ok(())
}

#[test]
fn gives_the_stream_of_a_file(rt: HostRuntime) -> Result<(), Fail> {
    let bytes = small_stream(rt.alloc())?;
    let mut out = [0u8; 55];
    let mut size = 0;
    let mut fault = NO_FAULT;
    let code = stream(
        rt.alloc(),
        bytes.as_slice(),
        &mut out,
        &mut size,
        &mut fault,
    );
    assert_eq!(rt; code, 0);
    assert_eq!(rt; size, 55);
    assert_eq!(rt; out[0], 0x09);
    assert_eq!(rt; out[54], 0x00);
    Ok(())
}

#[test]
fn tells_what_a_file_is(rt: HostRuntime) -> Result<(), Fail> {
    let mut size = 0;
    let mut fault = NO_FAULT;
    let code = stream(rt.alloc(), &[], &mut [], &mut size, &mut fault);
    assert_eq!(rt; code, 48);
    let mut out = [0u8; 64];
    let reported = fault_text(rt.alloc(), &fault, &mut out, &mut size);
    assert_eq!(rt; reported, 0);
    assert!(rt; size <= 64);
    assert_eq!(rt;
        &out[..size as usize],
        b"no workbook: it is empty".as_slice()
    );
    let refusal = refusal_of(&fault).ok_or("an unknown fault")?;
    assert_eq!(rt; fault_of(&refusal), fault);
    Ok(())
}

#[test]
fn writes_a_date_and_time(rt: HostRuntime) -> Result<(), Fail> {
    let noon = bits_of(Number::Hundredths(4_383_150));
    assert_eq!(rt; noon, 0x40E5_66F0_0000_0000);
    assert_eq!(rt; form_of(Number::Hundredths(4_383_150)), 2);
    let mut out = [0u8; 64];
    let mut size = 0;
    let code = serial(rt.alloc(), noon, 0, 0, &mut out, &mut size);
    assert_eq!(rt; code, 0);
    assert!(rt; size <= 64);
    assert_eq!(rt; &out[..size as usize], b"2020-01-01T12:00:00".as_slice());
    Ok(())
}
