//! What a record says of its cells.

ghost use Rattle.std.specs.Prelude.{◌≡◌, ◌≤◌, ◌<◌, ◌^◌, ◌+◌, length};
ghost use Rattle.xls_parts.specs.PartRecords.{placed_of};
ghost use Rattle.xls_range.specs.Positions.{Position};
ghost use Rattle.xls_strings.specs.Strings.{string_prefix};
ghost use Rattle.xls_style_cells.specs.Cells as cells;
ghost use Rattle.xls_style_cells.specs.Places.{cell_given, source_given};

use crate::fields::{bytes_from, u16_at, u32_at};
use crate::types::{BLANK, MUL_BLANK};
use xls_parts::PartRecord;
use xls_record::Biff;
use xls_stream::types::{BOOL_ERR, FORMULA, LABEL, LABEL_SST, MUL_RK, NUMBER, R_STRING, RK};
use xls_strings::split_string;

/// Which formatting runs the text of a cell has.
#[derive(Clone, Copy, Debug)]
pub enum CellRuns<'a> {
    Nothing,
    /// Those of a string of the string table, by its index.
    Shared(u32),
    /// Its own, in the bytes behind its text.
    Own(&'a [u8]),
}

/// A cell that has a format.
#[derive(Clone, Copy, Debug)]
pub struct StyleCell<'a> {
    /// Counted from 0.
    pub row: u32,
    /// Counted from 0.
    pub column: u32,
    /// The index of its XF.
    pub xf: u16,
    pub runs: CellRuns<'a>,
}

/// Whether a record is that of one cell.
fn is_cell_type(typ: u16) -> bool
    ensures { result ≡ cells.is_cell_type typ }
{
    matches!(
        typ,
        BLANK | NUMBER | LABEL | R_STRING | BOOL_ERR | RK | LABEL_SST | FORMULA
    )
}

/// Whether a record holds the cells of a run of columns.
fn is_run_type(typ: u16) -> bool
    ensures { result ≡ cells.is_run_type typ }
{
    typ == MUL_RK || typ == MUL_BLANK
}

/// How many bytes from one XF index of a run to the next.
fn step_of(typ: u16) -> usize
    ensures { result ≡ cells.step_of typ }
{
    if typ == MUL_RK { 6 } else { 2 }
}

fn first_column(body: &[u8]) -> u32
    ensures column { result ≡ cells.first_column body.now }
    ensures small { result < 2 ^ 16 }
{
    u32::from(u16_at(body, 2))
}

/// How many cells of a run have their bytes and a column.
fn run_count(step: usize, body: &[u8]) -> u32
    requires some { 0 < step }
    requires head { 6 ≤ length body.now }
    ensures count { result ≡ cells.run_count step body.now }
{
    let whole = (body.len() - 6) / step;
    let most = 0x1_0000 - first_column(body);
    whole.min(most as usize) as u32
}

/// How many cells a record has.
pub(crate) fn cell_count(r: &PartRecord<'_>) -> u32
    ensures count { result ≡ cells.cell_count (placed_of r.now) }
    ensures few { result ≤ 2 ^ 16 }
{
    if r.body.len() < 6 {
        return 0;
    }
    if is_run_type(r.typ) {
        return run_count(step_of(r.typ), r.body);
    }
    u32::from(is_cell_type(r.typ))
}

/// Where the cell of this number of a record stands.
pub(crate) fn position_in(body: &[u8], i: u32) -> (u32, u32)
    requires { i ≤ 2 ^ 16 }
    ensures { result ≡ cells.position_in body.now i }
{
    (u32::from(u16_at(body, 0)), first_column(body) + i)
}

/// The XF index of the cell of a record at a position.
fn xf_at(r: &PartRecord<'_>, position: (u32, u32)) -> u16
    ensures { result ≡ cells.xf_at (placed_of r.now) position }
{
    let nth = position.1.saturating_sub(first_column(r.body)) as usize;
    u16_at(r.body, 4 + step_of(r.typ) * nth)
}

/// The bytes behind the text of a string.
fn behind_text(version: Biff, bytes: &[u8]) -> &[u8]
    ensures { result.now ≡ cells.behind_text (string_prefix version bytes.now) }
{
    match split_string(bytes, version) {
        Ok((count, Some(true), text)) => bytes_from(bytes_from(text, count), count),
        Ok((count, _, text)) => bytes_from(text, count),
        Err(_) => &[],
    }
}

/// Which runs the text of a record's cell has.
fn source_of<'a>(version: Biff, r: &PartRecord<'a>) -> CellRuns<'a>
    ensures { source_given result ≡ cells.source_of version (placed_of r.now) }
{
    match r.typ {
        LABEL_SST if r.body.len() >= 10 => CellRuns::Shared(u32_at(r.body, 6)),
        R_STRING => CellRuns::Own(behind_text(version, bytes_from(r.body, 6))),
        _ => CellRuns::Nothing,
    }
}

/// The cell of a record at a position.
pub(crate) fn cell_at<'a>(version: Biff, r: &PartRecord<'a>, position: (u32, u32)) -> StyleCell<'a>
    ensures { cell_given result ≡ (position, cells.style_at version (placed_of r.now) position) }
{
    let (row, column) = position;
    StyleCell {
        row,
        column,
        xf: xf_at(r, position),
        runs: source_of(version, r),
    }
}
