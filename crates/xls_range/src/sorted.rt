//! Cells in order of their positions, from cells in order of a stream.

ghost use Rattle.std.specs.Prelude.{◌≡◌, ◌↔◌, ◌≤◌, ◌<◌, ◌+◌, IfOk, IsTrue, map, length, get_or, drop};
ghost use Rattle.xls_range.specs.Positions.{Position, Precedes, IsAscending, last_at, IsNumbered, IsInOrder, cell_position, numbered_entry, HasSame, PutsEntry, EndsAt, kept_cells};

use std::alloc::{AllocError, Global};
use std::marker::Model;
use xls_data::{Cell, CellType};

/// A cell, and its number in the order in which the cells were given.
#[derive(Drop)]
pub struct Numbered<T: CellType> {
    pub cell: Cell<T>,
    pub number: u64,
}

/// Whether one position comes before another: in an earlier row, or in the same one in an earlier
/// column.
fn precedes(before: (u32, u32), after: (u32, u32)) -> bool
    ensures { IsTrue result ↔ Precedes before after }
{
    before.0 < after.0 || before.0 == after.0 && before.1 < after.1
}

/// Whether each position comes before the next one.
fn is_ascending<T: CellType>(cells: &[Cell<T>]) -> bool
    ensures { IsTrue result → IsAscending (map cell_position cells.now) }
{
    for i in 1..cells.len() {
        if !precedes(cells[i - 1].get_position(), cells[i].get_position()) {
            return false;
        }
    }
    true
}

/// Sorts cells by row, column and number, where their numbers ascend at first.
fn sort_numbered<T: CellType>(input: &mut Vec<Numbered<T>>)
    requires { IsNumbered input.old.items }
    ensures order { IsInOrder input.new.items }
    ensures same { HasSame (map numbered_entry input.old.items) input.new.items }
{
    input.sort_unstable_by_key(|each| {
        let (row, column) = each.cell.get_position();
        (row, column, each.number)
    });
}

/// Whether the last of the first cells has the position of a later one.
fn ends_at<T: CellType>(input: &[Numbered<T>], kept: usize, i: usize) -> bool
    requires within { kept ≤ i }
    requires room { i < length input.now }
    ensures some { IsTrue result → 0 < kept }
    ensures ends { (c : Numbered T) → IsTrue result ↔ EndsAt (kept_cells kept input.now) (get_or input.now i c).cell.0.0 (get_or input.now i c).cell.0.1 }
{
    kept > 0 && input[kept - 1].cell.get_position() == input[i].cell.get_position()
}

/// Puts a cell after the first ones, in place of the last of them if that has its position, and answers how
/// many they are then.
fn put<T: CellType>(input: &mut Vec<Numbered<T>>, kept: usize, i: usize) -> usize
    requires within { kept ≤ i }
    requires room { i < length input.old.items }
    ensures puts { (c : Numbered T) → PutsEntry (kept_cells kept input.old.items) (numbered_entry (get_or input.old.items i c)) (kept_cells result input.new.items) }
    ensures rest { drop (i + 1) input.new.items ≡ drop (i + 1) input.old.items }
    ensures len { length input.new.items ≡ length input.old.items }
    ensures few { result ≤ i + 1 }
{
    if ends_at(input, kept, i) {
        input.swap(kept - 1, i);
        return kept;
    }
    input.swap(kept, i);
    kept + 1
}

/// Sorts cells by row and column, where their numbers ascend at first; of those of one position the one
/// with the greatest number stays. Takes no memory.
fn settle<T: CellType>(input: &mut Vec<Numbered<T>>)
    requires { IsNumbered input.old.items }
    ensures ascending { IsAscending (map cell_position (map numbered_entry input.new.items)) }
    ensures last { (p : Position) → last_at (map numbered_entry input.new.items) p ≡ last_at (map numbered_entry input.old.items) p }
{
    sort_numbered(input);
    let mut kept = 0;
    for i in 0..input.len() {
        kept = put(input, kept, i);
    }
    input.truncate(kept);
}

/// Cells in the order in which they are given, each with its number. Contracts see the list of the cells.
#[derive(Drop)]
pub struct Unsettled<T: CellType> {
    input: Vec<Numbered<T>>,
}

impl<T: CellType> Model for Unsettled<T> {
    ghost use Rattle.std.specs.Prelude.{List, length, map};
    ghost use Rattle.xls_range.specs.Positions.{Entry, IsNumberedTo, numbered_entry};

    ghost Value = { List (Entry T) };

    ghost view = { λ u. map numbered_entry u.input.items };

    ghost invariant = { λ u. IsNumberedTo (length u.input.items) u.input.items };
}

impl<T: CellType> Unsettled<T> {
    ghost use Rattle.std.specs.Prelude.{◌≡◌, ◌++◌, ◌∷◌, [], IfOk, OnOk, map};
    ghost use Rattle.xls_range.specs.Positions.{Position, IsAscending, cell_position, last_at};

    /// No cells, and room for so many. Only running out of memory refuses.
    pub fn with_room(alloc: Global, count: usize) -> Result<Unsettled<T>, AllocError>
        ensures { IfOk result (λ u. u ≡ []) }
    {
        Ok(Unsettled {
            input: Vec::with_capacity(alloc, count)?,
        })
    }

    /// Puts a cell after those given so far. Takes memory where there is no room; running out of it is the one
    /// refusal.
    pub fn push(&mut self, cell: Cell<T>) -> Result<(), AllocError>
        ensures { OnOk result (self.new ≡ self.old ++ cell ∷ []) }
    {
        let number = self.input.len() as u64;
        self.input.push(Numbered { cell, number })?;
        Ok(())
    }

    /// The cells in strictly ascending order of their positions, row before column; of those of one position
    /// the one that was given last. Takes no memory.
    pub fn settled(self) -> Settled<T>
        ensures ascending { IsAscending (map cell_position result) }
        ensures last { (p : Position) → last_at result p ≡ last_at self p }
    {
        let Unsettled { mut input } = self;
        settle(&mut input);
        Settled { input }
    }
}

/// Cells in strictly ascending order of their positions. Contracts see the list of them.
#[derive(Drop)]
pub struct Settled<T: CellType> {
    input: Vec<Numbered<T>>,
}

impl<T: CellType> Model for Settled<T> {
    ghost use Rattle.std.specs.Prelude.{List, map};
    ghost use Rattle.xls_range.specs.Positions.{Entry, numbered_entry};

    ghost Value = { List (Entry T) };

    ghost view = { λ s. map numbered_entry s.input.items };
}

impl<T: CellType> Settled<T> {
    ghost use Rattle.std.specs.Prelude.{◌≡◌, IfOk, map};
    ghost use Rattle.xls_range.specs.Positions.{numbered_entry};

    /// The cells, each with the number that it had before. Takes no memory.
    pub fn as_slice(&self) -> &[Numbered<T>]
        ensures { map numbered_entry result.now ≡ self.now }
    {
        &self.input
    }

    /// The cells alone.
    fn into_cells(self, alloc: Global) -> Result<Vec<Cell<T>>, AllocError>
        ensures { IfOk result (λ v. v.items ≡ self) }
    {
        let mut cells = Vec::with_capacity(alloc, self.input.len())?;
        for each in self.input {
            cells.push(each.cell)?;
        }
        Ok(cells)
    }
}

/// The cells, to be settled.
fn in_input_order<T: CellType>(
    alloc: Global,
    cells: Vec<Cell<T>>,
) -> Result<Unsettled<T>, AllocError>
    ensures { IfOk result (λ u. u ≡ cells.items) }
{
    let mut input = Unsettled::with_room(alloc, cells.len())?;
    for cell in cells {
        input.push(cell)?;
    }
    Ok(input)
}

/// The cells in strictly ascending order of their positions, row before column. Of the cells of one
/// position that stays which was given last. Cells that stand so already are handed back as they are.
pub fn sorted_cells<T: CellType>(
    alloc: Global,
    cells: Vec<Cell<T>>,
) -> Result<Vec<Cell<T>>, AllocError>
    ensures ascending { IfOk result (λ v. IsAscending (map cell_position v.items)) }
    ensures last { IfOk result (λ v. (p : Position) → last_at v.items p ≡ last_at cells.items p) }
{
    if is_ascending(&cells) {
        return Ok(cells);
    }
    let input = in_input_order(alloc, cells)?;
    input.settled().into_cells(alloc)
}
