//! What one record of a sheet's own says.

ghost use Rattle.std.specs.Prelude.{◌≡◌};
ghost use Rattle.xls_parts.specs.PartRecords.{placed_of};
ghost use Rattle.xls_hidden.specs.Said as said;

use crate::damage::{Damage, DamagedRecord, Flaw};
use crate::fields::{
    ColumnMarks, Pane, RowMark, Window, columns_at, default_hides_at, pane_at, row_at, window_at,
};
use crate::types::{
    COL_INFO, DEFAULT_ROW_HEIGHT, FILTER_MODE, PANE, ROW, ROWS, ROWS_BEFORE_BIFF8, WINDOW_2,
};
use xls_bytes::read_u16;
use xls_parts::PartRecord;
use xls_record::{Biff, is_biff8};

/// What one record says.
#[derive(Clone, Copy, Debug, PartialEq, Eq)]
pub enum Said {
    /// Nothing of what is hidden.
    Nothing,
    Row(RowMark),
    Columns(ColumnMarks),
    /// Whether rows without a Row record are hidden.
    OtherRows(bool),
    /// A filter hides rows.
    Filter,
    Window(Window),
    Pane(Pane),
    Damaged(Damage),
}

/// How many rows a sheet has.
pub fn row_count(version: Biff) -> u32
    ensures { result ≡ said.row_count version }
{
    if is_biff8(version) {
        ROWS
    } else {
        ROWS_BEFORE_BIFF8
    }
}

/// The 16-bit number at the beginning, where two bytes are there.
fn first_number(body: &[u8]) -> Option<u16>
    ensures { result ≡ said.first_number body.now }
{
    if body.len() < 2 {
        return None;
    }
    Some(read_u16(body))
}

fn row_said(version: Biff, r: &PartRecord<'_>) -> Said
    ensures { result ≡ said.row_said version (placed_of r.now) }
{
    let Some(row) = row_at(r.body) else {
        return Said::Damaged(Damage {
            record_name: DamagedRecord::Row,
            offset: r.offset,
            row: first_number(r.body),
            column: None,
            flaw: Flaw::Short {
                least: 16,
                found: r.body.len(),
            },
        });
    };
    if row.row as u32 >= row_count(version) {
        return Said::Damaged(Damage {
            record_name: DamagedRecord::Row,
            offset: r.offset,
            row: Some(row.row),
            column: None,
            flaw: Flaw::PastLastRow,
        });
    }
    Said::Row(row)
}

fn columns_said(r: &PartRecord<'_>) -> Said
    ensures { result ≡ said.columns_said (placed_of r.now) }
{
    match columns_at(r.body) {
        Some(columns) => Said::Columns(columns),
        None => Said::Damaged(Damage {
            record_name: DamagedRecord::ColInfo,
            offset: r.offset,
            row: None,
            column: first_number(r.body),
            flaw: Flaw::Short {
                least: 10,
                found: r.body.len(),
            },
        }),
    }
}

fn other_rows_said(r: &PartRecord<'_>) -> Said
    ensures { result ≡ said.other_rows_said (placed_of r.now) }
{
    match default_hides_at(r.body) {
        Some(hides) => Said::OtherRows(hides),
        None => Said::Damaged(Damage {
            record_name: DamagedRecord::DefaultRowHeight,
            offset: r.offset,
            row: None,
            column: None,
            flaw: Flaw::Short {
                least: 4,
                found: r.body.len(),
            },
        }),
    }
}

fn window_said(body: &[u8]) -> Said
    ensures { result ≡ said.window_said body.now }
{
    match window_at(body) {
        Some(window) => Said::Window(window),
        None => Said::Nothing,
    }
}

fn pane_said(body: &[u8]) -> Said
    ensures { result ≡ said.pane_said body.now }
{
    match pane_at(body) {
        Some(pane) => Said::Pane(pane),
        None => Said::Nothing,
    }
}

/// What a record says under a version. Takes no memory.
pub fn said_of(version: Biff, r: &PartRecord<'_>) -> Said
    ensures { result ≡ said.said_of version (placed_of r.now) }
{
    match r.typ {
        ROW => row_said(version, r),
        COL_INFO => columns_said(r),
        DEFAULT_ROW_HEIGHT => other_rows_said(r),
        FILTER_MODE => Said::Filter,
        WINDOW_2 => window_said(r.body),
        PANE => pane_said(r.body),
        _ => Said::Nothing,
    }
}
