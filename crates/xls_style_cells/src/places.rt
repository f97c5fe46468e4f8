//! The cells of a part by the places of their records, where they don't ascend.

ghost use Rattle.std.specs.Prelude.{◌≡◌, ◌++◌, ◌+◌, ◌<◌, ◌^◌, IfOk, OnOk, List, length, map};
ghost use Rattle.std.specs.Option.{option_map};
ghost use Rattle.xls_parts.specs.PartRecords.{own_records, placed_of};
ghost use Rattle.xls_parts.specs.Steps.{Steps};
ghost use Rattle.xls_range.specs.Positions.{Entry, numbered_entry};
ghost use Rattle.xls_style_cells.specs.Cells.{cells_of};
ghost use Rattle.xls_style_cells.specs.Places as places;
ghost use Rattle.xls_style_cells.specs.Places.{cell_given, cell_placed, places_in, places_of};

use crate::records::{CellRuns, StyleCell, cell_at, cell_count, position_in};
use std::alloc::{AllocError, Global};
use std::marker::Model;
use xls_data::Cell;
use xls_parts::{PartRecord, PartRecords, WholeRecords};
use xls_range::{Numbered, Settled, Unsettled};
use xls_record::Biff;

/// The record that begins at a place of a part.
fn record_at<'a>(part: &'a [u8], at: usize) -> Option<PartRecord<'a>>
    ensures { option_map placed_of result ≡ places.record_at part.now at }
{
    if part.len() < at {
        return None;
    }
    let (_, rest) = part.split_at(at);
    WholeRecords::new(rest, at as u64).next()
}

/// The cell at a position whose record begins at a place of a part.
fn placed_cell<'a>(version: Biff, part: &'a [u8], position: (u32, u32), at: usize) -> StyleCell<'a>
    ensures { cell_given result ≡ cell_placed version part.now (position, at) }
{
    match record_at(part, at) {
        Some(r) => cell_at(version, &r, position),
        None => StyleCell {
            row: position.0,
            column: position.1,
            xf: 0,
            runs: CellRuns::Nothing,
        },
    }
}

/// Puts the places of a record's cells behind those so far.
fn push_places(places: &mut Unsettled<usize>, r: &PartRecord<'_>) -> Result<(), AllocError>
    ensures { OnOk result (places.new ≡ places.old ++ places_of (placed_of r.now)) }
{
    let count = cell_count(r);
    'cells: for i in 0..count {
        places.push(Cell::new(position_in(r.body, i), r.offset as usize))?;
    }
    Ok(())
}

/// The places of the cells of a part, in the order of its records.
fn read_places(alloc: Global, part: &[u8]) -> Result<Unsettled<usize>, AllocError>
    ensures { IfOk result (λ found. found ≡ places_in (own_records 0 part.now)) }
{
    let mut found = Unsettled::with_room(alloc, 0)?;
    'records: for r in PartRecords::new(part, 0) {
        push_places(&mut found, &r)?;
    }
    Ok(found)
}

/// The places of the cells of a part by row and then by column, of those of one position the last.
pub(crate) fn places_in_order(alloc: Global, part: &[u8]) -> Result<Settled<usize>, AllocError>
    ensures { (version : Biff) → IfOk result (λ found. map (cell_placed version part.now) found
        ≡ cells_of version (own_records 0 part.now)) }
{
    let found = read_places(alloc, part)?;
    Ok(found.settled())
}

/// The next of some places.
fn next_place(places: &mut &[Numbered<usize>]) -> Option<((u32, u32), usize)>
    ensures { Steps (map numbered_entry places.old.now) result (map numbered_entry places.new.now) }
{
    if places.is_empty() {
        return None;
    }
    let (first, rest) = places.split_at(1);
    *places = rest;
    let cell = &first[0].cell;
    Some((cell.get_position(), *cell.get_value()))
}

/// The cells at some places of a part that are left. Contracts see the list of them.
#[derive(Drop)]
pub(crate) struct PlacedCells<'p, 'a> {
    version: Biff,
    part: &'a [u8],
    places: &'p [Numbered<usize>],
}

impl<'p, 'a> Model for PlacedCells<'p, 'a> {
    ghost use Rattle.std.specs.Prelude.{List, map};
    ghost use Rattle.xls_range.specs.Positions.{numbered_entry};
    ghost use Rattle.xls_style_cells.specs.Cells.{Cell};
    ghost use Rattle.xls_style_cells.specs.Places.{cell_placed};

    ghost Value = { List Cell };

    ghost view = { λ s. map (cell_placed s.version s.part.now) (map numbered_entry s.places.now) };
}

impl<'p, 'a> PlacedCells<'p, 'a> {
    /// Those at all of these places, under a version.
    pub(crate) fn new(
        version: Biff,
        part: &'a [u8],
        places: &'p Settled<usize>,
    ) -> PlacedCells<'p, 'a>
        ensures { result ≡ map (cell_placed version part.entry.now) places.entry.now }
    {
        PlacedCells {
            version,
            part,
            places: places.as_slice(),
        }
    }
}

impl<'p, 'a> Iterator for PlacedCells<'p, 'a> {
    ghost use Rattle.std.specs.Prelude.{length};
    ghost use Rattle.std.specs.Iterator.{at_most};
    ghost use Rattle.xls_parts.specs.Steps.{StepsBy};
    ghost use Rattle.xls_style_cells.specs.Places.{cell_given};

    type Item = StyleCell<'a>;

    ghost next_gives = { StepsBy cell_given };

    ghost remaining = { λ cells. at_most (length cells) };

    fn next(&mut self) -> Option<StyleCell<'a>> {
        let (position, at) = next_place(&mut self.places)?;
        Some(placed_cell(self.version, self.part, position, at))
    }
}
