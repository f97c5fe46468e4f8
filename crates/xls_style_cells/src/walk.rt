//! The cells of a part in the order of its records.

ghost use Rattle.std.specs.Prelude.{◌≡◌, ◌++◌, []};
ghost use Rattle.xls_parts.specs.PartRecords.{own_records, placed_of};
ghost use Rattle.xls_parts.specs.Steps.{StepsBy};
ghost use Rattle.xls_style_cells.specs.Cells.{cells_at, cells_in};
ghost use Rattle.xls_style_cells.specs.Places.{cell_given};

use crate::records::{StyleCell, cell_at, cell_count, position_in};
use std::marker::Model;
use xls_parts::{PartRecord, PartRecords};
use xls_record::Biff;

/// The cells of a record that are left. Contracts see the list of them.
#[derive(Drop)]
struct RecordCells<'a> {
    version: Biff,
    cited: PartRecord<'a>,
    /// The number of the next one in the record.
    next: u32,
    /// How many the record has.
    count: u32,
}

impl<'a> Model for RecordCells<'a> {
    ghost use Rattle.std.specs.Prelude.{◌≤◌, ◌^◌, ◌-◌, List, map};
    ghost use Rattle.std.specs.List.{range_with_len};
    ghost use Rattle.xls_parts.specs.PartRecords.{placed_of};
    ghost use Rattle.xls_style_cells.specs.Cells.{Cell, position_in, with_style};

    ghost Value = { List Cell };

    ghost view = { λ s. map (with_style s.version (placed_of s.cited))
        (map (position_in s.cited.body.now) (range_with_len s.next (s.count - s.next))) };

    ghost invariant = { λ s. (s.next ≤ s.count) × (s.count ≤ 2 ^ 16) };
}

impl<'a> RecordCells<'a> {
    /// No cells.
    fn none(version: Biff) -> RecordCells<'a>
        ensures { result ≡ [] }
    {
        let cited = PartRecord {
            offset: 0,
            typ: 0,
            body: &[],
        };
        RecordCells {
            version,
            cited,
            next: 0,
            count: 0,
        }
    }

    /// Those of a record, under a version.
    fn new(version: Biff, cited: PartRecord<'a>) -> RecordCells<'a>
        ensures { result ≡ cells_at version (placed_of cited.entry) }
    {
        let count = cell_count(&cited);
        RecordCells {
            version,
            cited,
            next: 0,
            count,
        }
    }

    /// The next one.
    fn next(&mut self) -> Option<StyleCell<'a>>
        ensures { StepsBy cell_given self.old result self.new }
    {
        if self.next == self.count {
            return None;
        }
        let position = position_in(self.cited.body, self.next);
        let cell = cell_at(self.version, &self.cited, position);
        self.next += 1;
        Some(cell)
    }
}

/// The cells of a part that are left, in the order of its records. Contracts see the list of them.
#[derive(Drop)]
pub(crate) struct CellWalk<'a> {
    version: Biff,
    records: PartRecords<'a>,
    /// Those of the record that was read last.
    cells: RecordCells<'a>,
}

impl<'a> Model for CellWalk<'a> {
    ghost use Rattle.std.specs.Prelude.{◌++◌, List};
    ghost use Rattle.xls_style_cells.specs.Cells.{Cell, cells_in};

    ghost Value = { List Cell };

    ghost view = { λ s. s.cells ++ cells_in s.version s.records };
}

/// The first cell of the records that are left; those after it in its record are left in `cells`.
fn first_cell<'a>(
    version: Biff,
    records: &mut PartRecords<'a>,
    cells: &mut RecordCells<'a>,
) -> Option<StyleCell<'a>>
    requires { cells.old ≡ [] }
    ensures { StepsBy cell_given (cells_in version records.old) result (cells.new ++ cells_in version records.new) }
{
    'records: while let Some(r) = records.next() {
        *cells = RecordCells::new(version, r);
        if let Some(cell) = cells.next() {
            return Some(cell);
        }
    }
    None
}

impl<'a> CellWalk<'a> {
    /// The cells of the sheet whose part begins with the first byte, under a version.
    pub(crate) fn new(version: Biff, part: &'a [u8]) -> CellWalk<'a>
        ensures { result ≡ cells_in version (own_records 0 part.entry.now) }
    {
        CellWalk {
            version,
            records: PartRecords::new(part, 0),
            cells: RecordCells::none(version),
        }
    }
}

impl<'a> Iterator for CellWalk<'a> {
    ghost use Rattle.std.specs.Prelude.{length};
    ghost use Rattle.std.specs.Iterator.{at_most};
    ghost use Rattle.xls_parts.specs.Steps.{StepsBy};
    ghost use Rattle.xls_style_cells.specs.Places.{cell_given};

    type Item = StyleCell<'a>;

    ghost next_gives = { StepsBy cell_given };

    ghost remaining = { λ cells. at_most (length cells) };

    fn next(&mut self) -> Option<StyleCell<'a>> {
        if let Some(cell) = self.cells.next() {
            return Some(cell);
        }
        first_cell(self.version, &mut self.records, &mut self.cells)
    }
}
