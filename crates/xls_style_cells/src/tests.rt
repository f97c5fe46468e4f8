use crate::{CellRuns, SheetStyles, StringRuns, StyleCell};
use std::alloc::AllocError;
use xls_record::Biff;

// A part: a MulBlank of row 1, columns 6 to 8, with the XF 22 to 24; a LabelSst of row 0, column 2, XF 15, with the
// string 5; and an RString of BIFF8 of row 1, column 6, XF 16, with one run.
static PART: [u8; 74] = [
    0x09, 0x08, 4, 0, 0, 6, 0x10, 0, 0xBE, 0, 12, 0, 1, 0, 6, 0, 22, 0, 23, 0, 24, 0, 8, 0, 0xFD,
    0, 10, 0, 0, 0, 2, 0, 15, 0, 5, 0, 0, 0, 0xD6, 0, 16, 0, 1, 0, 6, 0, 16, 0, 1, 0, 0, 0x61, 1,
    0, 0, 0, 4, 0, 0x0A, 0, 0, 0, 0x01, 0x02, 6, 0, 0, 0, 0, 0, 9, 0, 0, 0,
];

// The same cells as they ascend: the LabelSst; the RString; and a MulBlank of row 1, columns 7 and 8.
static ASCENDING: [u8; 60] = [
    0x09, 0x08, 4, 0, 0, 6, 0x10, 0, 0xFD, 0, 10, 0, 0, 0, 2, 0, 15, 0, 5, 0, 0, 0, 0xD6, 0, 16, 0,
    1, 0, 6, 0, 16, 0, 1, 0, 0, 0x61, 1, 0, 0, 0, 4, 0, 0xBE, 0, 10, 0, 1, 0, 7, 0, 23, 0, 24, 0,
    8, 0, 0x0A, 0, 0, 0,
];

fn has(cell: &StyleCell<'_>, row: u32, column: u32, xf: u16) -> bool {
    cell.row == row && cell.column == column && cell.xf == xf
}

fn has_own_run(cell: &StyleCell<'_>) -> bool {
    match cell.runs {
        CellRuns::Own(bytes) => bytes.len() == 6 && bytes[4] == 4,
        _ => false,
    }
}

#[test]
fn gives_the_cells_in_order(rt: HostRuntime) -> Result<(), AllocError> {
    let parts: [&[u8]; 2] = [&PART, &ASCENDING];
    for part in parts {
        let sheet = SheetStyles::read(rt.alloc(), part, Biff::Biff8)?;
        let mut cells = sheet.cells();
        let Some(first) = cells.next() else {
            panic!(rt; "no first cell");
        };
        assert!(rt; has(&first, 0, 2, 15));
        assert!(rt; matches!(first.runs, CellRuns::Shared(5)));
        let Some(second) = cells.next() else {
            panic!(rt; "no second cell");
        };
        assert!(rt; has(&second, 1, 6, 16) && has_own_run(&second));
        let Some(third) = cells.next() else {
            panic!(rt; "no third cell");
        };
        assert!(rt; has(&third, 1, 7, 23));
        assert!(rt; matches!(third.runs, CellRuns::Nothing));
        let Some(fourth) = cells.next() else {
            panic!(rt; "no fourth cell");
        };
        assert!(rt; has(&fourth, 1, 8, 24));
        assert!(rt; cells.next().is_none());
    }
    Ok(())
}

// Globals with an SST of two strings: `a`, and `bc` with a run from unit 1 on of the font 5, which a Continue cuts.
static GLOBALS: [u8; 43] = [
    0x09, 0x08, 0, 0, 0xFC, 0, 21, 0, 2, 0, 0, 0, 2, 0, 0, 0, 1, 0, 0, 0x61, 2, 0, 8, 1, 0, 0x62,
    0x63, 1, 0, 0x3C, 0, 2, 0, 5, 0, 0x0A, 0, 0, 0, 0, 0, 0, 0,
];

#[test]
fn gives_the_runs_of_a_text(rt: HostRuntime) -> Result<(), AllocError> {
    let strings = StringRuns::read(rt.alloc(), &GLOBALS)?;
    let mut runs = strings.of(Biff::Biff8, CellRuns::Shared(1));
    let Some(run) = runs.next() else {
        panic!(rt; "no run");
    };
    assert!(rt; run.unit == 1 && run.font == 5);
    assert!(rt; runs.next().is_none());
    assert!(rt;
        strings
            .of(Biff::Biff8, CellRuns::Shared(0))
            .next()
            .is_none()
    );
    let Some(own) = strings.of(Biff::Biff5, CellRuns::Own(&[1, 2, 3])).next() else {
        panic!(rt; "no run of its own");
    };
    assert!(rt; own.unit == 2 && own.font == 3);
    Ok(())
}
