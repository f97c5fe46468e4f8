//! The first fault of a stream by `check_stream`, by opening it under the same page and bound, and by the
//! command `check`.

use super::*;
use xls_biff::XlsError;
use xls_book::{Xls, XlsOptions, check_stream};

// BoundSheet8 of a worksheet `A` at 38, 64 and 4,294,967,295.
const A_38: [u8; 13] = [0x85, 0, 9, 0, 38, 0, 0, 0, 0, 0, 1, 0, 0x41];

const A_64: [u8; 13] = [0x85, 0, 9, 0, 64, 0, 0, 0, 0, 0, 1, 0, 0x41];

const A_FAR: [u8; 13] = [0x85, 0, 9, 0, 0xFF, 0xFF, 0xFF, 0xFF, 0, 0, 1, 0, 0x41];

// Its state is 3.
const A_STATE: [u8; 13] = [0x85, 0, 9, 0, 25, 0, 0, 0, 3, 0, 1, 0, 0x41];

// RK of 1 at (0, 0), and of 2 at (1, 1).
const ONE: [u8; 14] = [0x7E, 2, 10, 0, 0, 0, 0, 0, 0, 0, 6, 0, 0, 0];

const TWO: [u8; 14] = [0x7E, 2, 10, 0, 1, 0, 1, 0, 0, 0, 10, 0, 0, 0];

// MulRk of three cells of row 0, and one whose last column is before its first.
const THREE_CELLS: [u8; 28] = [
    0xBD, 0, 24, 0, 0, 0, 0, 0, 0, 0, 6, 0, 0, 0, 0, 0, 6, 0, 0, 0, 0, 0, 6, 0, 0, 0, 2, 0,
];

const REVERSED: [u8; 16] = [0xBD, 0, 12, 0, 0, 0, 2, 0, 0, 0, 6, 0, 0, 0, 1, 0];

// A DateMode of one byte, and an XF of none.
const SHORT_DATE_MODE: [u8; 5] = [0x22, 0, 1, 0, 1];

const SHORT_XF: [u8; 4] = [0xE0, 0, 0, 0];

// The page that is forced on a stream, and the most cells of a sheet.
struct Options {
    force_codepage: Option<u16>,
    max_cells: u64,
}

const CELLS: u64 = 33_554_432;

const DEFAULTS: Options = Options {
    force_codepage: None,
    max_cells: CELLS,
};

// A stream by its records, the options that it is read with, and what is told of it.
static ROWS: [(&[&[u8]], Options, &str); 28] = [
    (
        &[&GLOBALS, &A_SHEET, &EOF, &SHEET, &ONE, &EOF],
        DEFAULTS,
        "ok",
    ),
    (&NO_SHEET, DEFAULTS, "End of stream 'sheet offset'"),
    (
        &[&GLOBALS, &A_FAR, &EOF],
        DEFAULTS,
        "End of stream 'sheet offset'",
    ),
    (
        &[&GLOBALS, &[0x85, 0, 5, 0, 0, 0, 0, 0, 0], &EOF],
        DEFAULTS,
        "Invalid BoundSheet8 length, expected at least 6, found 5",
    ),
    (
        &[&GLOBALS, &A_STATE, &EOF],
        DEFAULTS,
        "Unrecognized BoundSheet8:hsState: 0x3",
    ),
    (
        &[&GLOBALS, &[0x2F, 0, 0, 0], &EOF],
        DEFAULTS,
        "Invalid FilePass length, expected at least 2, found 0",
    ),
    (
        &[
            &GLOBALS,
            &[0x18, 0, 13, 0, 0, 0, 0, 0, 0, 0, 0, 0, 0, 0, 0, 0, 0],
            &EOF,
        ],
        DEFAULTS,
        "Invalid Lbl length, expected at least 14, found 13",
    ),
    (
        &[
            &GLOBALS,
            &A_SHEET,
            &EOF,
            &SHEET,
            &[0xE5, 0, 2, 0, 0xFF, 0xFF],
            &EOF,
        ],
        DEFAULTS,
        "Invalid merge cells length, expected at least 524282, found 2",
    ),
    (
        &[
            &GLOBALS,
            &A_SHEET,
            &EOF,
            &SHEET,
            &[
                0x06, 0, 19, 0, 0, 0, 0, 0, 0, 0, 0, 0, 0, 0, 0, 0, 0, 0, 0, 0, 0, 0, 0,
            ],
            &EOF,
        ],
        DEFAULTS,
        "Invalid Formula length, expected at least 20, found 19",
    ),
    (
        &[&GLOBALS, &EOF, &[0x3C, 0, 5, 0, 0]],
        DEFAULTS,
        "End of stream 'continue record length'",
    ),
    // The last four bytes aren't attached, and the walk has ended.
    (&[&GLOBALS, &EOF, &[0x3C, 0, 5, 0]], DEFAULTS, "ok"),
    (
        &[&GLOBALS, &A_SHEET, &EOF, &SHEET, &ONE, &TWO, &EOF],
        Options {
            force_codepage: None,
            max_cells: 2,
        },
        "ok",
    ),
    (
        &[&GLOBALS, &A_SHEET, &EOF, &SHEET, &ONE, &TWO, &EOF],
        Options {
            force_codepage: None,
            max_cells: 1,
        },
        "Sheet with more than 1 cells",
    ),
    (
        &[&GLOBALS, &A_SHEET, &EOF, &SHEET, &ONE, &TWO, &EOF],
        Options {
            force_codepage: None,
            max_cells: 0,
        },
        "Sheet with more than 0 cells",
    ),
    (
        &[&GLOBALS, &A_SHEET, &EOF, &SHEET, &THREE_CELLS, &EOF],
        Options {
            force_codepage: None,
            max_cells: 2,
        },
        "Sheet with more than 2 cells",
    ),
    (
        &[&GLOBALS, &A_SHEET, &EOF, &SHEET, &REVERSED, &EOF],
        Options {
            force_codepage: None,
            max_cells: 0,
        },
        "Invalid rk length, expected at least 65536, found 12",
    ),
    // Each sheet is counted by itself, and a nested cell isn't.
    (
        &[
            &GLOBALS, &A_38, &A_64, &EOF, &SHEET, &ONE, &EOF, &SHEET, &TWO, &EOF,
        ],
        Options {
            force_codepage: None,
            max_cells: 1,
        },
        "ok",
    ),
    (
        &[
            &GLOBALS, &A_SHEET, &EOF, &SHEET, &SHEET, &ONE, &EOF, &TWO, &EOF,
        ],
        Options {
            force_codepage: None,
            max_cells: 1,
        },
        "ok",
    ),
    (&PAGE, DEFAULTS, "Cfb error: Codepage 1B5 not found"),
    (
        &PAGE,
        Options {
            force_codepage: Some(1252),
            max_cells: CELLS,
        },
        "ok",
    ),
    (
        &[&GLOBALS, &EOF],
        Options {
            force_codepage: Some(437),
            max_cells: CELLS,
        },
        "Cfb error: Codepage 1B5 not found",
    ),
    // Under a forced page a short CodePage isn't read; 28591 is kept.
    (
        &[&GLOBALS, &[0x42, 0, 1, 0, 1], &EOF],
        Options {
            force_codepage: Some(1252),
            max_cells: CELLS,
        },
        "ok",
    ),
    (
        &[&GLOBALS, &[0x42, 0, 2, 0, 0xAF, 0x6F], &EOF],
        DEFAULTS,
        "ok",
    ),
    (
        &[&GLOBALS, &[0x2F, 0, 2, 0, 1, 0], &EOF],
        DEFAULTS,
        "Workbook is password protected",
    ),
    (&[&GLOBALS, &[0x2F, 0, 2, 0, 0, 0], &EOF], DEFAULTS, "ok"),
    // Of two short records the first is told.
    (
        &[&GLOBALS, &SHORT_DATE_MODE, &SHORT_XF, &EOF],
        DEFAULTS,
        "Invalid DateMode length, expected at least 2, found 1",
    ),
    (
        &[&GLOBALS, &SHORT_XF, &SHORT_DATE_MODE, &EOF],
        DEFAULTS,
        "Invalid xf length, expected at least 4, found 0",
    ),
    (
        &[
            &GLOBALS,
            &A_SHEET,
            &EOF,
            &SHEET,
            &[3, 2, 13, 0, 0, 0, 0, 0, 0, 0, 0, 0, 0, 0, 0, 0, 8],
            &EOF,
        ],
        DEFAULTS,
        "Invalid number length, expected at least 14, found 13",
    ),
];

/// What is told of a fault, or `ok`.
fn reported(alloc: Global, fault: Option<XlsError>) -> Result<String, AllocError> {
    match fault {
        None => String::from_str(alloc, "ok"),
        Some(error) => format!(in alloc; "{error}"),
    }
}

/// The first fault by the check and by opening, with the same options.
fn faults_of(
    alloc: Global,
    bytes: &[u8],
    options: &Options,
) -> Result<(Option<XlsError>, Option<XlsError>), AllocError> {
    let checked = check_stream(bytes, options.force_codepage, options.max_cells).err();
    let mut opening = XlsOptions::defaults(alloc)?;
    opening.force_codepage = options.force_codepage;
    opening.max_cells = options.max_cells;
    let mut source = SteadySource::new(bytes.to_vec(alloc)?);
    let opened = Xls::new_with_options(alloc, &mut source, opening).err();
    Ok((checked, opened))
}

/// The line that the command writes of what is told.
fn line_of(alloc: Global, reported: &str) -> Result<String, AllocError> {
    match reported {
        "ok" => String::from_str(alloc, "ok\n"),
        fault => format!(in alloc; "error\t{fault}\n"),
    }
}

// Whether the check and opening tell this of the bytes.
fn both_tell(
    alloc: Global,
    bytes: &[u8],
    options: &Options,
    wanted: &str,
) -> Result<bool, AllocError> {
    let (checked, opened) = faults_of(alloc, bytes, options)?;
    let is_checked = reported(alloc, checked)?.as_str() == wanted;
    Ok(is_checked && reported(alloc, opened)?.as_str() == wanted)
}

// Whether the command writes this.
fn writes_line(
    alloc: Global,
    parts: &'static [&'static [u8]],
    wanted: &str,
) -> Result<bool, AllocError> {
    let (_, written) = outcome(alloc, &quiet(&["check"], parts))?;
    Ok(written.as_slice() == line_of(alloc, wanted)?.as_bytes())
}

fn tell(
    rt: &impl Abort,
    alloc: Global,
    parts: &'static [&'static [u8]],
    options: &Options,
    wanted: &str,
) -> Result<(), Fail> {
    let bytes = joined(alloc, parts)?;
    assert!(rt; both_tell(alloc, &bytes, options, wanted)?, "{wanted}");
    if options.force_codepage == None && options.max_cells == CELLS {
        assert!(rt; writes_line(alloc, parts, wanted)?, "{wanted}");
    }
    Ok(())
}

#[test]
fn a_check_and_an_opening_tell_the_same_first_fault(rt: HostRuntime) -> Result<(), Fail> {
    for (parts, options, wanted) in ROWS.iter() {
        tell(&rt, rt.alloc(), parts, options, wanted)?;
    }
    Ok(())
}
