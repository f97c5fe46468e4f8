//! The cells of a sheet with the formats that they name.

ghost use Rattle.std.specs.Prelude.{◌≡◌, IfOk, map};
ghost use Rattle.xls_range.specs.Bounds.{bounds_of};
ghost use Rattle.xls_range.specs.Positions.{IsAscending};
ghost use Rattle.xls_view.specs.Formats.{FormattedCell, formatted_after, no_formula, plain};
ghost use Rattle.xls_view.specs.SheetContents.{cells_after, formatted_by, kept_in, settled};
ghost use Rattle.xls_view.specs.Placed.{cell_placed, cells_held};
ghost use Rattle.xls_view.specs.Surveying.{IsFound};
ghost use Rattle.xls_view.specs.Walking.{IsSoundPart};

use crate::cell_place::CellPlace;
use crate::formats::LastFormula;
use crate::places::{next_place, placed_cell, push_cells};
use crate::survey::FoundCells;
use crate::value::SheetCell;
use crate::walk::CellWalk;
use std::alloc::{AllocError, Global};
use std::marker::Model;
use xls_biff::PlacedRecords;
use xls_data::Dimensions;
use xls_open::Settings;
use xls_range::{Numbered, Settled, Unsettled};

/// Where the cells of a part stand. So many are expected.
fn places_of(
    alloc: Global,
    part: &[u8],
    settings: &Settings<'_>,
    count: usize,
) -> Result<Unsettled<CellPlace>, AllocError>
    requires { IsSoundPart settings.now (part.now, 0) }
    ensures { IfOk result (λ places. map (cell_placed settings.now part.now) places
        ≡ formatted_after settings.now no_formula (kept_in part.now 0)) }
{
    let mut places = Unsettled::with_room(alloc, count)?;
    let mut last = LastFormula::none();
    for item in PlacedRecords::new(part) {
        let (start, record) = match item {
            Ok(placed) => placed,
            Err(_) => return Ok(places),
        };
        let offset = part.len() - start.len();
        push_cells(&mut places, &record, last, offset, settings)?;
        last = last.after(&record);
    }
    Ok(places)
}

/// Likewise by position, of those of one position the last.
fn in_order(
    alloc: Global,
    part: &[u8],
    settings: &Settings<'_>,
    count: usize,
) -> Result<Settled<CellPlace>, AllocError>
    requires { IsSoundPart settings.now (part.now, 0) }
    ensures { IfOk result (λ places. map (cell_placed settings.now part.now) places
        ≡ formatted_by settings.now (kept_in part.now 0)) }
{
    let places = places_of(alloc, part, settings, count)?;
    Ok(places.settled())
}

/// Where the cells of a part stand in order, where its records don't ascend.
fn order_of(
    alloc: Global,
    part: &[u8],
    settings: &Settings<'_>,
    found: FoundCells,
) -> Result<Option<Settled<CellPlace>>, AllocError>
    requires sound { IsSoundPart settings.now (part.now, 0) }
    requires found { IsFound found (cells_after settings.now (0, 0) (kept_in part.now 0)) }
    ensures { IfOk result (λ o. cells_held settings.now part.now o ≡ formatted_by settings.now (kept_in part.now 0)) }
{
    if found.ascends() {
        return Ok(None);
    }
    let sorted = in_order(alloc, part, settings, found.count())?;
    Ok(Some(sorted))
}

/// How many cells there are, of which this was found: as many as places, where they have places.
fn count_of(sorted: &Option<Settled<CellPlace>>, found: FoundCells) -> usize {
    match sorted {
        Some(places) => places.as_slice().len(),
        None => found.count(),
    }
}

/// The cells of a sheet, by row, then column, of those of one position the last. Contracts see the list of them,
/// each with its XF index.
#[derive(Drop)]
pub struct FormattedSheet<'v> {
    settings: Settings<'v>,
    part: &'v [u8],
    /// Where the cells stand, in order, where the records don't ascend.
    sorted: Option<Settled<CellPlace>>,
    /// How many they are, as far as a `usize` tells.
    count: usize,
    /// The smallest box that holds them.
    bounds: Option<Dimensions>,
}

impl<'v> Model for FormattedSheet<'v> {
    ghost use Rattle.std.specs.Prelude.{◌≡◌, List};
    ghost use Rattle.xls_range.specs.Bounds.{bounds_of};
    ghost use Rattle.xls_view.specs.Formats.{FormattedCell};
    ghost use Rattle.xls_view.specs.Placed.{cells_held};
    ghost use Rattle.xls_view.specs.Walking.{IsSoundPart};

    ghost Value = { List FormattedCell };

    ghost view = { λ c. cells_held c.settings c.part.now c.sorted };

    ghost invariant = { λ c. IsSoundPart c.settings (c.part.now, 0) × (c.bounds ≡ bounds_of (cells_held c.settings c.part.now c.sorted)) };
}

impl<'v> FormattedSheet<'v> {
    /// The cells of a part whose records have no fault, of which this was found. Takes memory only where they
    /// don't ascend.
    pub(crate) fn new(
        alloc: Global,
        settings: Settings<'v>,
        part: &'v [u8],
        found: FoundCells,
    ) -> Result<FormattedSheet<'v>, AllocError>
        requires sound { IsSoundPart settings (part.now, 0) }
        requires found { IsFound found (cells_after settings (0, 0) (kept_in part.now 0)) }
        ensures settled { IfOk result (λ cells. cells ≡ formatted_by settings.entry (kept_in part.now 0)) }
        ensures plain { IfOk result (λ cells. map plain cells ≡ settled (cells_after settings.entry (0, 0) (kept_in part.now 0))) }
        ensures ordered { IfOk result (λ cells. IsAscending (map (λ (c : FormattedCell). c.0) cells)) }
    {
        let sorted = order_of(alloc, part, &settings, found)?;
        let count = count_of(&sorted, found);
        Ok(FormattedSheet {
            settings,
            part,
            sorted,
            count,
            bounds: found.bounds(),
        })
    }

    /// The smallest box that holds the cells, from its first row and column to its last; `None` exactly where
    /// there is no cell. Takes no memory.
    pub fn bounds(&self) -> Option<Dimensions>
        ensures { result ≡ bounds_of self.now }
    {
        self.bounds
    }

    /// For how many cells a list of them needs room. No contract rests on it. Takes no memory.
    pub fn room(&self) -> usize {
        self.count
    }

    /// The cells in order. Takes no memory.
    pub fn iter(&self) -> FormattedCells<'_>
        ensures { result ≡ self.now }
    {
        match &self.sorted {
            None => FormattedCells::new(
                CellWalk::new(&self.settings, self.part),
                &self.settings,
                self.part,
                &[],
            ),
            Some(places) => FormattedCells::new(
                CellWalk::none(&self.settings),
                &self.settings,
                self.part,
                places.as_slice(),
            ),
        }
    }
}

/// The cells of a sheet that are left: each once, by row, then column. Contracts see the list of them, each
/// with its XF index.
#[derive(Drop)]
pub struct FormattedCells<'c> {
    /// The cells of the records that are left, where these ascend.
    walk: CellWalk<'c>,
    settings: &'c Settings<'c>,
    part: &'c [u8],
    /// Else the places that are left.
    places: &'c [Numbered<CellPlace>],
}

impl<'c> Model for FormattedCells<'c> {
    ghost use Rattle.std.specs.Prelude.{◌++◌, List, map};
    ghost use Rattle.xls_stream.specs.Walks.{IsBytes};
    ghost use Rattle.xls_range.specs.Positions.{numbered_entry};
    ghost use Rattle.xls_view.specs.Formats.{FormattedCell};
    ghost use Rattle.xls_view.specs.Placed.{cell_placed};

    ghost Value = { List FormattedCell };

    ghost view = { λ c. c.walk ++ map (cell_placed c.settings.now c.part.now) (map numbered_entry c.places.now) };

    ghost invariant = { λ c. IsBytes c.part.now };
}

impl<'c> Iterator for FormattedCells<'c> {
    ghost use Rattle.std.specs.Prelude.{length};
    ghost use Rattle.std.specs.Iterator.{at_most};
    ghost use Rattle.xls_view.specs.Walking.{FormattedSteps};

    type Item = SheetCell<'c>;

    ghost next_gives = { FormattedSteps };

    ghost remaining = { λ cells. at_most (length cells) };

    #[inline(always)]
    fn next(&mut self) -> Option<SheetCell<'c>> {
        if let Some(cell) = self.walk.next() {
            return Some(cell);
        }
        let (position, at) = next_place(&mut self.places)?;
        Some(placed_cell(self.part, position, at, self.settings))
    }
}

impl<'c> FormattedCells<'c> {
    ghost use Rattle.std.specs.Prelude.{◌≡◌, ◌++◌, map};
    ghost use Rattle.xls_stream.specs.Walks.{IsBytes};
    ghost use Rattle.xls_range.specs.Positions.{numbered_entry};
    ghost use Rattle.xls_view.specs.Placed.{cell_placed};

    /// These cells, and those at some places of a part.
    fn new(
        walk: CellWalk<'c>,
        settings: &'c Settings<'c>,
        part: &'c [u8],
        places: &'c [Numbered<CellPlace>],
    ) -> FormattedCells<'c>
        requires { IsBytes part.now }
        ensures { result ≡ walk.entry ++ map (cell_placed settings.now part.now) (map numbered_entry places.now) }
    {
        FormattedCells {
            walk,
            settings,
            part,
            places,
        }
    }

    /// The same cells, to be gone through once more. Takes no memory.
    pub fn again(&self) -> FormattedCells<'c>
        ensures { result ≡ self.now }
    {
        FormattedCells {
            walk: self.walk.again(),
            settings: self.settings,
            part: self.part,
            places: self.places,
        }
    }
}
