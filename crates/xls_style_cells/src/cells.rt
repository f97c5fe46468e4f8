//! The cells of a sheet by row and column.

ghost use Rattle.std.specs.Prelude.{◌≡◌, IfOk};
ghost use Rattle.xls_parts.specs.PartRecords.{own_records};
ghost use Rattle.xls_style_cells.specs.Cells.{cells_of};
ghost use Rattle.xls_style_cells.specs.Held.{cells_held};

use crate::ascent::is_ascending;
use crate::places::{PlacedCells, places_in_order};
use crate::records::StyleCell;
use crate::walk::CellWalk;
use std::alloc::{AllocError, Global};
use std::marker::Model;
use xls_range::Settled;
use xls_record::Biff;

/// In which order the cells of a part are given.
#[derive(Drop)]
enum Order {
    /// As they stand: they ascend.
    Stream,
    /// By their places, which ascend.
    Places(Settled<usize>),
}

/// In which order the cells of a part are given, under a version. Takes memory only where they don't ascend.
fn order_of(alloc: Global, part: &[u8], version: Biff) -> Result<Order, AllocError>
    ensures { IfOk result (λ order. cells_held version part.now order ≡ cells_of version (own_records 0 part.now)) }
{
    if is_ascending(CellWalk::new(version, part)) {
        return Ok(Order::Stream);
    }
    let places = places_in_order(alloc, part)?;
    Ok(Order::Places(places))
}

/// The cells of a sheet that have a format, those of blank cells among them. Contracts see the list of them: by row and
/// then by column, of those of one position the last in the stream.
///
/// Where the cells of the part ascend strictly, by row and then by column, holds nothing of them: they are given as
/// they stand. Else holds of each where its record begins, 24 bytes a cell.
#[derive(Drop)]
pub struct SheetStyles<'a> {
    version: Biff,
    part: &'a [u8],
    order: Order,
}

impl<'a> Model for SheetStyles<'a> {
    ghost use Rattle.std.specs.Prelude.{List};
    ghost use Rattle.xls_style_cells.specs.Cells.{Cell};
    ghost use Rattle.xls_style_cells.specs.Held.{cells_held};

    ghost Value = { List Cell };

    ghost view = { λ s. cells_held s.version s.part.now s.order };
}

impl<'a> SheetStyles<'a> {
    /// Those of the sheet whose part begins with the first byte, under a version. Takes memory, 24 bytes a cell, only
    /// where the cells don't ascend; running out of it is the one refusal.
    pub fn read(alloc: Global, part: &'a [u8], version: Biff) -> Result<SheetStyles<'a>, AllocError>
        ensures { IfOk result (λ cells. cells ≡ cells_of version (own_records 0 part.entry.now)) }
    {
        let order = order_of(alloc, part, version)?;
        Ok(SheetStyles {
            version,
            part,
            order,
        })
    }

    /// The cells in order. Takes no memory.
    pub fn cells(&self) -> StyleCells<'_, 'a>
        ensures { result ≡ self.now }
    {
        match &self.order {
            Order::Stream => StyleCells {
                cells: CellsLeft::Walked(CellWalk::new(self.version, self.part)),
            },
            Order::Places(places) => StyleCells {
                cells: CellsLeft::Placed(PlacedCells::new(self.version, self.part, places)),
            },
        }
    }
}

/// The cells that are left, by how they are found.
#[derive(Drop)]
enum CellsLeft<'p, 'a> {
    Walked(CellWalk<'a>),
    Placed(PlacedCells<'p, 'a>),
}

/// The cells that are left. Contracts see the list of them.
#[derive(Drop)]
pub struct StyleCells<'p, 'a> {
    cells: CellsLeft<'p, 'a>,
}

impl<'p, 'a> Model for StyleCells<'p, 'a> {
    ghost use Rattle.std.specs.Prelude.{List};
    ghost use Rattle.xls_style_cells.specs.Cells.{Cell};
    ghost use Rattle.xls_style_cells.specs.Held.{cells_left};

    ghost Value = { List Cell };

    ghost view = { λ s. cells_left s.cells };
}

impl<'p, 'a> Iterator for StyleCells<'p, 'a> {
    ghost use Rattle.std.specs.Prelude.{length};
    ghost use Rattle.std.specs.Iterator.{at_most};
    ghost use Rattle.xls_parts.specs.Steps.{StepsBy};
    ghost use Rattle.xls_style_cells.specs.Places.{cell_given};

    type Item = StyleCell<'a>;

    ghost next_gives = { StepsBy cell_given };

    ghost remaining = { λ cells. at_most (length cells) };

    fn next(&mut self) -> Option<StyleCell<'a>> {
        match &mut self.cells {
            CellsLeft::Walked(cells) => cells.next(),
            CellsLeft::Placed(cells) => cells.next(),
        }
    }
}
