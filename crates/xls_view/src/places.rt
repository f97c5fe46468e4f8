//! Where the cells and the formulas of a part stand, for parts whose records don't ascend.

ghost use Rattle.std.specs.Prelude.{◌≡◌, ◌≤◌, ◌<◌, ◌^◌, ◌+◌, ◌++◌, ◌∷◌, ◌-◌, [], ℕ, List, OnOk, Ok, drop, length, map, slice_get, take};
ghost use Rattle.xls_bytes.specs.Numbers.{le};
ghost use Rattle.std.specs.Option.{option_map};
ghost use Rattle.xls_biff.specs.SheetTable.{SheetRecord};
ghost use Rattle.xls_biff.specs.Walking.{group_of};
ghost use Rattle.xls_stream.specs.Listing.{kept_group};
ghost use Rattle.xls_meaning.specs.SheetTable.{adds, kept_line};
ghost use Rattle.xls_biff.specs.Records.Rk.{first_column, mul_rk_at};
ghost use Rattle.xls_biff.specs.Cells.{CellEntry};
ghost use Rattle.xls_range.specs.Positions.{Entry, numbered_entry};
ghost use Rattle.xls_view.specs.Formats.{with_formats, xf_at, xf_in};
ghost use Rattle.xls_view.specs.Formatting.{place_of};
ghost use Rattle.xls_view.specs.Placed.{cell_in, cell_placed, first_kept, formula_placed, record_at, value_at};
ghost use Rattle.xls_view.specs.SheetPlacing.{found_kept, value_or_blank};
ghost use Rattle.xls_view.specs.Walking.{LendsNext};
ghost use Rattle.xls_stream.specs.Walks.{IsBytes};
ghost use Rattle.xls_view.specs.Groups.{groups_in};
ghost use Rattle.xls_view.specs.Walking.{formula_seen};
ghost use Rattle.xls_view.specs.Values.{formatted_entry, lent_content};

use crate::cell_place::CellPlace;
use crate::formats::{LastFormula, xf_at, xf_in};
use crate::formulas::formula_of;
use crate::record::cell_of;
use crate::value::{BareCell, CellValue, FormulaCell, SheetCell};
use std::alloc::AllocError;
use xls_biff::{Record, RecordIter, check_sheet_record, count_mul_rk, read_mul_rk};
use xls_bytes::read_u16;
use xls_data::{Cell, CellType};
use xls_open::Settings;
use xls_range::{Numbered, Unsettled};
use xls_stream::types::MUL_RK;

/// The first of these records, if there is one.
fn first_of<'c>(records: &mut RecordIter<'c>) -> Option<Record<'c>>
    requires { IsBytes records.old }
    ensures { found_kept result ≡ first_kept (groups_in records.old).0 }
{
    let item = match records.next() {
        Some(item) => item,
        None => return None,
    };
    let record = match item {
        Ok(record) => record,
        Err(_) => return None,
    };
    Some(record)
}

/// The bytes from an offset on, and none past the end.
#[inline]
pub fn part_at(bytes: &[u8], offset: usize) -> &[u8]
    ensures { result.now ≡ drop offset bytes.now }
{
    if bytes.len() < offset {
        return &[];
    }
    let (_, part) = bytes.split_at(offset);
    part
}

/// The record that begins at an offset of a part.
fn record_at<'c>(part: &'c [u8], at: usize) -> Option<Record<'c>>
    ensures { found_kept result ≡ record_at part.now at }
{
    first_of(&mut RecordIter::new(part_at(part, at)))
}

/// The first column of a MulRk record.
fn first_column(body: &[u8]) -> u32
    requires { 4 ≤ length body.now }
    ensures column { result ≡ first_column body.now }
    ensures small { result < 2 ^ 16 }
{
    let (_, following) = body.split_at(2);
    u32::from(read_u16(following))
}

/// The value of the cell at a column of a MulRk record without a fault.
fn value_in_run<'c>(body: &'c [u8], column: u32, settings: &Settings<'c>) -> Option<CellValue<'c>>
    ensures { (cells : List CellEntry) → mul_rk_at settings.now.cells.classes settings.now.cells.is_1904 body.now ≡ Ok cells
        → option_map lent_content result ≡ option_map (λ (c : CellEntry). c.1) (slice_get cells (column - first_column body.now)) }
{
    let count = match count_mul_rk(body) {
        Ok(count) => count,
        Err(_) => return None,
    };
    let nth = column.saturating_sub(first_column(body)) as usize;
    if nth >= count {
        return None;
    }
    let (_, value) = read_mul_rk(body, nth, settings.classes, settings.is_1904);
    Some(CellValue::Number(value))
}

/// The value of the cell of a record without a fault at a position, if the record has it.
fn value_in<'c>(
    r: &Record<'c>,
    position: (u32, u32),
    settings: &Settings<'c>,
) -> Option<CellValue<'c>>
    ensures { (g : SheetRecord) → kept_line settings.now.cells (kept_group (group_of r.now)) ≡ Ok g
        → value_or_blank result ≡ cell_in settings.now position (kept_group (group_of r.now)) }
{
    if r.typ == MUL_RK {
        return value_in_run(r.body, position.1, settings);
    }
    match cell_of(r, position, settings) {
        Some(cell) => Some(cell.value),
        None => None,
    }
}

/// The value of the cell at a position whose record begins at an offset of a part, if the record has it.
fn placed_value<'c>(
    part: &'c [u8],
    position: (u32, u32),
    at: usize,
    settings: &Settings<'c>,
) -> Option<CellValue<'c>>
    ensures { value_or_blank result ≡ value_at settings.now part.now position at }
{
    let record = match record_at(part, at) {
        Some(record) => record,
        None => return None,
    };
    match check_sheet_record(&record, settings.version) {
        Ok(()) => value_in(&record, position, settings),
        Err(_) => None,
    }
}

/// The cell at a position whose record stands at a place of a part; blank where the record has none.
pub(crate) fn placed_cell<'c>(
    part: &'c [u8],
    position: (u32, u32),
    place: CellPlace,
    settings: &Settings<'c>,
) -> SheetCell<'c>
    ensures { formatted_entry result ≡ cell_placed settings.now part.now (position, place) }
{
    let value = match placed_value(part, position, place.offset, settings) {
        Some(value) => value,
        None => CellValue::Empty,
    };
    BareCell { position, value }.with_format(place.xf)
}

/// The next of some places.
pub(crate) fn next_place<T: CellType + Copy>(places: &mut &[Numbered<T>]) -> Option<((u32, u32), T)>
    ensures { LendsNext (λ (c : Entry T). c) (map numbered_entry places.old.now) result (map numbered_entry places.new.now) }
{
    if places.is_empty() {
        return None;
    }
    let (first, rest) = places.split_at(1);
    *places = rest;
    let cell = &first[0].cell;
    Some((cell.get_position(), *cell.get_value()))
}

/// The formula at a position whose record begins at an offset of a part; without tokens where the record is
/// none.
pub(crate) fn placed_formula<'c>(part: &'c [u8], position: (u32, u32), at: usize) -> FormulaCell<'c>
    ensures { formula_seen result ≡ formula_placed part.now (position, at) }
{
    let (row, column) = position;
    let rgce = match record_at(part, at) {
        Some(record) => match formula_of(&record) {
            Some(formula) => formula.rgce,
            None => &[],
        },
        None => &[],
    };
    FormulaCell { row, column, rgce }
}

/// Puts a place after those so far.
fn push_place(
    places: &mut Unsettled<CellPlace>,
    position: (u32, u32),
    place: CellPlace,
) -> Result<(), AllocError>
    ensures { OnOk result (places.new ≡ places.old ++ (position, place) ∷ []) }
{
    places.push(Cell::new(position, place))?;
    Ok(())
}

/// Where a cell of a MulRk record stands, by its number there.
pub(crate) fn run_position(body: &[u8], i: usize) -> (u32, u32)
    requires head { 4 ≤ length body.now }
    requires few { i < 2 ^ 16 }
    ensures { result ≡ (le (take 2 body.now), first_column body.now + i) }
{
    (u32::from(read_u16(body)), first_column(body) + i as u32)
}

/// Puts the places of the cells of a MulRk record without a fault.
fn push_run(
    places: &mut Unsettled<CellPlace>,
    body: &[u8],
    offset: usize,
    settings: &Settings<'_>,
) -> Result<(), AllocError>
    ensures { (cells : List CellEntry) → mul_rk_at settings.now.cells.classes settings.now.cells.is_1904 body.now ≡ Ok cells
        → OnOk result (places.new ≡ places.old ++ map (place_of offset) (with_formats (xf_at body.now) 0 cells)) }
{
    let count = match count_mul_rk(body) {
        Ok(count) => count,
        Err(_) => return Ok(()),
    };
    for i in 0..count {
        let xf = xf_at(body, i);
        push_place(places, run_position(body, i), CellPlace { offset, xf })?;
    }
    Ok(())
}

/// Puts the places of the cells of a record without a fault, which begins at this offset of its part, where
/// this is the last Formula before it.
pub(crate) fn push_cells(
    places: &mut Unsettled<CellPlace>,
    r: &Record<'_>,
    last: LastFormula,
    offset: usize,
    settings: &Settings<'_>,
) -> Result<(), AllocError>
    ensures { (g : SheetRecord) (part : List ℕ) → kept_line settings.now.cells (kept_group (group_of r.now)) ≡ Ok g
        → record_at part offset ≡ kept_group (group_of r.now)
        → OnOk result (map (cell_placed settings.now part) places.new
        ≡ map (cell_placed settings.now part) places.old
        ++ with_formats (xf_in last.xf (kept_group (group_of r.now))) 0 (adds settings.now.formulas last.at g).cells) }
{
    if r.typ == MUL_RK {
        return push_run(places, r.body, offset, settings);
    }
    let xf = xf_in(r, last.xf);
    match cell_of(r, last.at, settings) {
        Some(cell) => push_place(places, cell.position, CellPlace { offset, xf }),
        None => Ok(()),
    }
}
