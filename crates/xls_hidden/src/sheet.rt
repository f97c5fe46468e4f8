//! What is hidden in a sheet.

ghost use Rattle.std.specs.Prelude.{◌≡◌, ◌<◌, ◌+◌, ◌^◌, if◌then◌else◌, None, IfOk, length};
ghost use Rattle.xls_hidden.specs.Hidden.{said_in, IsHiddenIn};
ghost use Rattle.xls_hidden.specs.Lines.{why_at};

use crate::damage::Damage;
use crate::fields::Pane;
use crate::lines::{FilterArea, Lines, Run, Runs, Why};
use crate::reading::read_records;
use crate::said::{Said, row_count, said_of};
use crate::types::COLUMNS;
use std::alloc::{AllocError, Global};
use std::marker::Model;
use xls_parts::PartRecords;
use xls_record::Biff;

/// Something hidden in a sheet, or a record that would say so and is damaged.
#[derive(Clone, Copy, Debug, PartialEq, Eq)]
pub enum HiddenItem {
    Rows(Run),
    Columns(Run),
    /// Panes are frozen: so many rows above, so many columns on the left, not both 0.
    Frozen(Pane),
    /// Cells that are zero are shown as empty.
    Zeros,
    Damaged(Damage),
}

/// What is hidden in a sheet, a byte for each row and each column.
///
/// Contracts see why each row and each column can't be seen, and the list of the items.
#[derive(Drop)]
pub struct HiddenSheet<'a> {
    part: &'a [u8],
    offset: u64,
    version: Biff,
    rows: Lines,
    columns: Lines,
    frozen: Option<Pane>,
    hides_zeros: bool,
}

impl<'a> Model for HiddenSheet<'a> {
    ghost use Rattle.std.specs.Prelude.{◌+◌, ◌<◌, ◌^◌, length};
    ghost use Rattle.xls_hidden.specs.Hidden.{Hidden, items_of, said_in, damages_in};
    ghost use Rattle.xls_hidden.specs.Lines.{why_at};
    ghost use Rattle.xls_hidden.specs.Runs.{runs_from};
    ghost use Rattle.xls_hidden.specs.Said.{row_count};
    ghost use Rattle.xls_hidden.specs.declared.types.TheConstants as types;

    ghost Value = { Hidden };

    ghost view = { λ s. record {
      rows = s.rows;
      columns = s.columns;
      items = items_of (runs_from (why_at s.rows) 0 (row_count s.version)) (runs_from (why_at s.columns) 0 types.COLUMNS)
          s.frozen s.hides_zeros (damages_in (said_in s.version s.offset s.part.now));
    } };

    ghost invariant = { λ s. s.offset + length s.part.now < 2 ^ 64 };
}

/// The area of a filter, where a filter hides rows.
fn area_if(is_filtered: bool, area: Option<FilterArea>) -> Option<FilterArea>
    ensures { result ≡ (if is_filtered then area else None) }
{
    if is_filtered { area } else { None }
}

/// Reads what is hidden in the sheet whose part begins with the first byte, which stands at this offset of the stream;
/// under a version, and where a filter has this area, if there is one. Refused where memory runs out.
pub fn read_hidden<'a>(
    alloc: Global,
    part: &'a [u8],
    offset: u64,
    version: Biff,
    area: Option<FilterArea>,
) -> Result<HiddenSheet<'a>, AllocError>
    requires { offset + length part.now < 2 ^ 64 }
    ensures { IfOk result (IsHiddenIn version area (said_in version offset part.now)) }
{
    let reading = read_records(alloc, PartRecords::new(part, offset), version)?;
    Ok(HiddenSheet {
        part,
        offset,
        version,
        frozen: reading.window.frozen(),
        hides_zeros: reading.window.hides_zeros(),
        rows: Lines {
            marks: reading.rows,
            hides_unsaid: reading.hides_others,
            area: area_if(reading.is_filtered, area),
        },
        columns: Lines {
            marks: reading.columns,
            hides_unsaid: false,
            area: None,
        },
    })
}

impl<'a> HiddenSheet<'a> {
    /// Why a row can't be seen; none where it can.
    pub fn row(&self, row: u32) -> Option<Why>
        ensures { result ≡ why_at self.now.rows row }
    {
        self.rows.why(row)
    }

    /// Why a column can't be seen; none where it can.
    pub fn column(&self, column: u32) -> Option<Why>
        ensures { result ≡ why_at self.now.columns column }
    {
        self.columns.why(column)
    }

    /// All that is hidden: runs of rows, runs of columns, frozen panes, zeros, then what is damaged, in the order of the
    /// stream. Takes no memory.
    pub fn items(&self) -> HiddenItems<'_, 'a>
        ensures { result ≡ self.now.items }
    {
        HiddenItems {
            rows: Runs::new(&self.rows, row_count(self.version)),
            columns: Runs::new(&self.columns, COLUMNS),
            frozen: self.frozen,
            hides_zeros: self.hides_zeros,
            damages: Damages {
                records: PartRecords::new(self.part, self.offset),
                version: self.version,
            },
        }
    }
}

/// The damaged records, in the order of the stream. Contracts see the list of those that are left.
#[derive(Drop)]
struct Damages<'a> {
    records: PartRecords<'a>,
    version: Biff,
}

impl<'a> Model for Damages<'a> {
    ghost use Rattle.std.specs.Prelude.{List, map};
    ghost use Rattle.xls_hidden.specs.declared.damage.Damage.{Damage};
    ghost use Rattle.xls_hidden.specs.Hidden.{damages_in};
    ghost use Rattle.xls_hidden.specs.Said.{said_of};

    ghost Value = { List Damage };

    ghost view = { λ s. damages_in (map (said_of s.version) s.records) };
}

impl<'a> Iterator for Damages<'a> {
    ghost use Rattle.std.specs.Prelude.{length};
    ghost use Rattle.std.specs.Iterator.{at_most};
    ghost use Rattle.xls_parts.specs.Steps.{Steps};

    type Item = Damage;

    ghost next_gives = { Steps };

    ghost remaining = { λ damages. at_most (length damages) };

    fn next(&mut self) -> Option<Damage> {
        while let Some(r) = self.records.next() {
            if let Said::Damaged(damage) = said_of(self.version, &r) {
                return Some(damage);
            }
        }
        None
    }
}

/// What is hidden in a sheet, one after another. Contracts see the list of what is left.
#[derive(Drop)]
pub struct HiddenItems<'s, 'a> {
    rows: Runs<'s>,
    columns: Runs<'s>,
    frozen: Option<Pane>,
    hides_zeros: bool,
    damages: Damages<'a>,
}

impl<'s, 'a> Model for HiddenItems<'s, 'a> {
    ghost use Rattle.std.specs.Prelude.{List};
    ghost use Rattle.xls_hidden.specs.declared.sheet.HiddenItem.{HiddenItem};
    ghost use Rattle.xls_hidden.specs.Hidden.{items_of};

    ghost Value = { List HiddenItem };

    ghost view = { λ s. items_of s.rows s.columns s.frozen s.hides_zeros s.damages };
}

impl<'s, 'a> Iterator for HiddenItems<'s, 'a> {
    ghost use Rattle.std.specs.Prelude.{length};
    ghost use Rattle.std.specs.Iterator.{at_most};
    ghost use Rattle.xls_parts.specs.Steps.{Steps};

    type Item = HiddenItem;

    ghost next_gives = { Steps };

    ghost remaining = { λ items. at_most (length items) };

    fn next(&mut self) -> Option<HiddenItem> {
        if let Some(run) = self.rows.next() {
            return Some(HiddenItem::Rows(run));
        }
        if let Some(run) = self.columns.next() {
            return Some(HiddenItem::Columns(run));
        }
        if let Some(pane) = self.frozen {
            self.frozen = None;
            return Some(HiddenItem::Frozen(pane));
        }
        if self.hides_zeros {
            self.hides_zeros = false;
            return Some(HiddenItem::Zeros);
        }
        match self.damages.next() {
            Some(damage) => Some(HiddenItem::Damaged(damage)),
            None => None,
        }
    }
}
