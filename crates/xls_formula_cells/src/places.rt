//! The formulas of a sheet by row and column.

ghost use Rattle.std.specs.Prelude.{◌≡◌, ◌<◌, ◌+◌, ◌^◌, IfOk, IfErr, false, None, length, map};
ghost use Rattle.xls_parts.specs.PartRecords.{own_records};
ghost use Rattle.xls_bodies.specs.Bodies.{body_of, bytes_of};
ghost use Rattle.xls_range.specs.Positions.{cell_position};
ghost use Rattle.xls_style_cells.specs.Order.{ascends};
ghost use Rattle.xls_formula_cells.specs.Formulas.{formulas_in, formulas_of, places_of};
ghost use Rattle.xls_formula_cells.specs.Held.{AreSmall, held};

use crate::ascent::is_ascending;
use crate::order::{in_order, next_place};
use crate::place::FormulaPlace;
use crate::walk::FormulaWalk;
use std::alloc::{AllocError, Global};
use std::marker::Model;
use xls_bodies::{Bytes, body_of};
use xls_range::{Numbered, Settled};

/// The formulas of a sheet. Contracts see where they stand: by row and then by column, of those of one cell the last in the
/// stream.
///
/// Where the cells of the part's Formula records ascend strictly, by row and then by column, holds nothing of them: they are
/// given as they stand. Else holds of each its cell and where its record stands, 24 bytes.
#[derive(Drop)]
pub struct FormulaPlaces<'a> {
    part: &'a [u8],
    offset: u64,
    /// Those in order, where the part's don't ascend.
    sorted: Option<Settled<usize>>,
}

impl<'a> Model for FormulaPlaces<'a> {
    ghost use Rattle.std.specs.Prelude.{◌+◌, ◌<◌, ◌^◌, length, map};
    ghost use Rattle.xls_formula_cells.specs.Formulas.{SheetPlaces, place_of};
    ghost use Rattle.xls_formula_cells.specs.Held.{AreSmall, held};

    ghost Value = { SheetPlaces };

    ghost view = { λ f. record {
      offset = f.offset;
      part = f.part.now;
      places = map place_of (held f.offset f.part.now f.sorted);
    } };

    ghost invariant = { λ f. (f.offset + length f.part.now < 2 ^ 64) × AreSmall f.sorted };
}

/// The formulas of a part in order, where they don't ascend. Takes memory only there.
fn sorted_of(alloc: Global, part: &[u8], offset: u64) -> Result<Option<Settled<usize>>, AllocError>
    requires { offset + length part.now < 2 ^ 64 }
    ensures order { IfOk result (λ sorted. held offset part.now sorted ≡ formulas_of (own_records offset part.now)) }
    ensures small { IfOk result AreSmall }
    ensures memory { IfErr result (λ _. ascends None (map cell_position (formulas_in (own_records offset part.now))) ≡ false) }
{
    if is_ascending(FormulaWalk::new(part, offset)) {
        return Ok(None);
    }
    let sorted = in_order(alloc, FormulaWalk::new(part, offset))?;
    Ok(Some(sorted))
}

impl<'a> FormulaPlaces<'a> {
    /// Those of the sheet whose part begins with the first byte, which stands at this offset of the stream. Takes memory only
    /// where their cells don't ascend strictly; running out of it is the one refusal. Linear time, and n log n there.
    pub fn read(alloc: Global, part: &'a [u8], offset: u64) -> Result<FormulaPlaces<'a>, AllocError>
        requires { offset + length part.now < 2 ^ 64 }
        ensures ok { IfOk result (λ formulas. formulas ≡ record {
          offset = offset;
          part = part.entry.now;
          places = places_of (own_records offset part.entry.now);
        }) }
        ensures memory { IfErr result (λ _. ascends None (map cell_position (formulas_in (own_records offset part.entry.now))) ≡ false) }
    {
        let sorted = sorted_of(alloc, part, offset)?;
        Ok(FormulaPlaces {
            part,
            offset,
            sorted,
        })
    }

    /// Where the formulas stand, in order. Takes no memory.
    pub fn iter(&self) -> FormulaPlaceIter<'_>
        ensures { result ≡ self.now.places }
    {
        match &self.sorted {
            None => FormulaPlaceIter::new(FormulaWalk::new(self.part, self.offset), &[]),
            Some(sorted) => FormulaPlaceIter::new(FormulaWalk::none(), sorted.as_slice()),
        }
    }

    /// The body of the Formula record at a place, with those of the Continue records directly behind it, by which
    /// `formula_contents` answers. Borrowed where there are none; else only running out of memory refuses.
    pub fn body_of(&self, alloc: Global, place: &FormulaPlace) -> Result<Bytes<'a>, AllocError>
        ensures { IfOk result (λ bytes. bytes_of bytes ≡ body_of self.now.offset self.now.part place.now.offset) }
    {
        body_of(self.part, self.offset, place.offset).into_bytes(alloc)
    }
}

/// Where the formulas of a sheet stand that are left. Contracts see the list of them.
#[derive(Drop)]
pub struct FormulaPlaceIter<'c> {
    walk: FormulaWalk<'c>,
    /// Those behind the walk.
    sorted: &'c [Numbered<usize>],
}

impl<'c> Model for FormulaPlaceIter<'c> {
    ghost use Rattle.std.specs.Prelude.{◌++◌, List, map};
    ghost use Rattle.std.specs.List.{AllByRecursion};
    ghost use Rattle.xls_range.specs.Positions.{numbered_entry};
    ghost use Rattle.xls_formula_cells.specs.Formulas.{place_of};
    ghost use Rattle.xls_formula_cells.specs.Held.{IsSmall};
    ghost use Rattle.xls_formula_cells.specs.declared.place.FormulaPlace.{FormulaPlace};

    ghost Value = { List FormulaPlace };

    ghost view = { λ s. map place_of (s.walk ++ map numbered_entry s.sorted.now) };

    ghost invariant = { λ s. AllByRecursion IsSmall (map numbered_entry s.sorted.now) };
}

impl<'c> FormulaPlaceIter<'c> {
    ghost use Rattle.std.specs.Prelude.{◌≡◌, ◌++◌, map};
    ghost use Rattle.std.specs.List.{AllByRecursion};
    ghost use Rattle.xls_range.specs.Positions.{numbered_entry};
    ghost use Rattle.xls_formula_cells.specs.Formulas.{place_of};
    ghost use Rattle.xls_formula_cells.specs.Held.{IsSmall};

    /// Those of a walk, and those behind it.
    fn new(walk: FormulaWalk<'c>, sorted: &'c [Numbered<usize>]) -> FormulaPlaceIter<'c>
        requires { AllByRecursion IsSmall (map numbered_entry sorted.now) }
        ensures { result ≡ map place_of (walk.entry ++ map numbered_entry sorted.now) }
    {
        FormulaPlaceIter { walk, sorted }
    }
}

impl<'c> Iterator for FormulaPlaceIter<'c> {
    ghost use Rattle.std.specs.Prelude.{length};
    ghost use Rattle.std.specs.Iterator.{at_most};
    ghost use Rattle.xls_parts.specs.Steps.{Steps};

    type Item = FormulaPlace;

    ghost next_gives = { Steps };

    ghost remaining = { λ places. at_most (length places) };

    fn next(&mut self) -> Option<FormulaPlace> {
        if let Some(place) = self.walk.next() {
            return Some(place);
        }
        next_place(&mut self.sorted)
    }
}
