//! The formats of cells.

ghost use Rattle.std.specs.Prelude.{◌≡◌, ◌≤◌, ◌<◌, ◌++◌, IfOk};
ghost use Rattle.xls_parts.specs.PartRecords.{globals_records};
ghost use Rattle.xls_styles.specs.Xfs as xfs;

use crate::fields::{bit, field, wide_field};
use std::alloc::{AllocError, Global};
use xls_parts::GlobalsRecords;
use xls_record::{Biff, is_biff8};
use xls_stream::types::XF;

/// A line of a cell's border: its number, and that of its colour.
#[derive(Clone, Copy, Debug, PartialEq, Eq)]
pub(crate) struct Line {
    pub(crate) line: u8,
    pub(crate) color: u8,
}

/// The fields of an XF, [MS-XLS] 2.4.353.
#[derive(Clone, Copy, Debug, PartialEq, Eq)]
pub(crate) struct Xf {
    pub(crate) font: u16,
    pub(crate) format: u16,
    pub(crate) is_locked: bool,
    pub(crate) is_concealed: bool,
    pub(crate) across: u8,
    pub(crate) is_wrapped: bool,
    pub(crate) down: u8,
    pub(crate) turn: u8,
    pub(crate) indent: u8,
    pub(crate) is_shrunk: bool,
    pub(crate) left: Line,
    pub(crate) right: Line,
    pub(crate) top: Line,
    pub(crate) bottom: Line,
    pub(crate) diagonals: u8,
    pub(crate) diagonal: Line,
    pub(crate) pattern: u8,
    pub(crate) color: u8,
    pub(crate) back: u8,
}

/// The degrees of a turn before BIFF8.
fn turn_before_biff8(turn: u8) -> u8
    ensures { result ≡ xfs.turn_before_biff8 turn }
{
    match turn {
        1 => 255,
        2 => 90,
        3 => 180,
        _ => 0,
    }
}

/// The fields of an XF of BIFF8.
fn xf_of_biff8(body: &[u8]) -> Xf
    ensures { result ≡ xfs.xf_of_biff8 body.now }
{
    Xf {
        font: wide_field(body, 0, 0, 16),
        format: wide_field(body, 2, 0, 16),
        is_locked: bit(body, 4, 0),
        is_concealed: bit(body, 4, 1),
        across: field(body, 6, 0, 3),
        is_wrapped: bit(body, 6, 3),
        down: field(body, 6, 4, 3),
        turn: field(body, 7, 0, 8),
        indent: field(body, 8, 0, 4),
        is_shrunk: bit(body, 8, 4),
        left: Line {
            line: field(body, 10, 0, 4),
            color: field(body, 10, 16, 7),
        },
        right: Line {
            line: field(body, 10, 4, 4),
            color: field(body, 10, 23, 7),
        },
        top: Line {
            line: field(body, 10, 8, 4),
            color: field(body, 14, 0, 7),
        },
        bottom: Line {
            line: field(body, 10, 12, 4),
            color: field(body, 14, 7, 7),
        },
        diagonals: field(body, 10, 30, 2),
        diagonal: Line {
            line: field(body, 14, 21, 4),
            color: field(body, 14, 14, 7),
        },
        pattern: field(body, 14, 26, 6),
        color: field(body, 18, 0, 7),
        back: field(body, 18, 7, 7),
    }
}

/// The fields of an XF before BIFF8, which has no indent, no shrinking and no diagonals.
fn xf_before_biff8(body: &[u8]) -> Xf
    ensures { result ≡ xfs.xf_before_biff8 body.now }
{
    Xf {
        font: wide_field(body, 0, 0, 16),
        format: wide_field(body, 2, 0, 16),
        is_locked: bit(body, 4, 0),
        is_concealed: bit(body, 4, 1),
        across: field(body, 6, 0, 3),
        is_wrapped: bit(body, 6, 3),
        down: field(body, 6, 4, 3),
        turn: turn_before_biff8(field(body, 7, 0, 2)),
        indent: 0,
        is_shrunk: false,
        left: Line {
            line: field(body, 12, 3, 3),
            color: field(body, 12, 16, 7),
        },
        right: Line {
            line: field(body, 12, 6, 3),
            color: field(body, 12, 23, 7),
        },
        top: Line {
            line: field(body, 12, 0, 3),
            color: field(body, 12, 9, 7),
        },
        bottom: Line {
            line: field(body, 8, 22, 3),
            color: field(body, 8, 25, 7),
        },
        diagonals: 0,
        diagonal: Line { line: 0, color: 0 },
        pattern: field(body, 8, 16, 6),
        color: field(body, 8, 0, 7),
        back: field(body, 8, 7, 7),
    }
}

/// The fields of an XF.
fn xf_of(version: Biff, body: &[u8]) -> Xf
    ensures { result ≡ xfs.xf_of version body.now }
{
    if is_biff8(version) {
        xf_of_biff8(body)
    } else {
        xf_before_biff8(body)
    }
}

/// The formats of cells of the globals, in order.
pub(crate) fn read_xfs(alloc: Global, stream: &[u8], version: Biff) -> Result<Vec<Xf>, AllocError>
    ensures { IfOk result (λ found. found.items ≡ xfs.xfs_of version (globals_records stream.now)) }
{
    let mut found = Vec::new(alloc);
    'records: for r in GlobalsRecords::new(stream) {
        if r.typ == XF {
            found.push(xf_of(version, r.body))?;
        }
    }
    Ok(found)
}
