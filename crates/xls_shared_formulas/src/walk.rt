//! The formulas of ranges of a sheet, in the order of its records.

ghost use Rattle.std.specs.Prelude.{◌≡◌, ◌<◌, ◌+◌, ◌^◌, None, length};
ghost use Rattle.xls_parts.specs.PartRecords.{own_records, placed_of};
ghost use Rattle.xls_shared_formulas.specs.Fields.{or_else};
ghost use Rattle.xls_shared_formulas.specs.Found.{formula_at, formulas_from, formulas_in};

use crate::fields::{CellPlace, formula_cell, kind_of, least_size, range_in};
use crate::found::RangeFormula;
use std::marker::Model;
use xls_bodies::body_of;
use xls_parts::{PartRecord, PartRecords};
use xls_record::Biff;
use xls_stream::types::FORMULA;

/// A cell, or the one before where there is none.
fn or_else(cell: Option<CellPlace>, before: Option<CellPlace>) -> Option<CellPlace>
    ensures { result ≡ or_else cell before }
{
    match cell {
        Some(cell) => Some(cell),
        None => before,
    }
}

/// The formula of a range that a record holds, where a cell with a formula stands before it.
fn formula_at(
    part: &[u8],
    offset: u64,
    version: Biff,
    anchor: Option<CellPlace>,
    r: &PartRecord<'_>,
) -> Option<RangeFormula>
    ensures { result ≡ formula_at version offset part.now anchor (placed_of r.now) }
{
    let anchor = anchor?;
    let kind = kind_of(version, r.typ)?;
    let range = range_in(body_of(part, offset, r.offset), least_size(kind))?;
    Some(RangeFormula {
        offset: r.offset,
        kind,
        range,
        anchor,
    })
}

/// The formulas of ranges that a sheet's own records hold, in the order of the stream. One that stands before all cells with
/// formulas, or in a record that is too short, is none. Takes no memory.
///
/// Contracts see the list of those that are left.
#[derive(Drop)]
pub struct RangeFormulas<'a> {
    part: &'a [u8],
    offset: u64,
    version: Biff,
    anchor: Option<CellPlace>,
    records: PartRecords<'a>,
}

impl<'a> Model for RangeFormulas<'a> {
    ghost use Rattle.std.specs.Prelude.{List};
    ghost use Rattle.xls_shared_formulas.specs.Found.{formulas_from};
    ghost use Rattle.xls_shared_formulas.specs.declared.found.RangeFormula.{RangeFormula};

    ghost Value = { List RangeFormula };

    ghost view = { λ s. formulas_from s.version s.offset s.part.now s.anchor s.records };
}

impl<'a> RangeFormulas<'a> {
    /// Those of the sheet whose part begins with the first byte, which stands at this offset of the stream.
    pub fn new(part: &'a [u8], offset: u64, version: Biff) -> RangeFormulas<'a>
        requires { offset + length part.now < 2 ^ 64 }
        ensures { result ≡ formulas_in version offset part.now }
    {
        RangeFormulas {
            part,
            offset,
            version,
            anchor: None,
            records: PartRecords::new(part, offset),
        }
    }
}

impl<'a> Iterator for RangeFormulas<'a> {
    ghost use Rattle.std.specs.Prelude.{length};
    ghost use Rattle.std.specs.Iterator.{at_most};
    ghost use Rattle.xls_parts.specs.Steps.{Steps};

    type Item = RangeFormula;

    ghost next_gives = { Steps };

    ghost remaining = { λ formulas. at_most (length formulas) };

    fn next(&mut self) -> Option<RangeFormula> {
        'records: while let Some(r) = self.records.next() {
            if r.typ == FORMULA {
                self.anchor = or_else(formula_cell(r.body), self.anchor);
            } else if let Some(found) = formula_at(
                self.part,
                self.offset,
                self.version,
                self.anchor,
                &r,
            ) {
                return Some(found);
            }
        }
        None
    }
}
