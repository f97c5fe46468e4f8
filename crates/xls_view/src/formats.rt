//! The formats that cells name by their XF indices.

ghost use Rattle.std.specs.Prelude.{◌≡◌, ◌≤◌, ◌^◌, Ok, take};
ghost use Rattle.xls_bytes.specs.Numbers.{le};
ghost use Rattle.xls_stream.specs.Listing.{kept_group};
ghost use Rattle.xls_biff.specs.SheetTable.{CellContext, SheetRecord};
ghost use Rattle.xls_biff.specs.Walking.{group_of};
ghost use Rattle.xls_meaning.specs.SheetTable.{kept_line};
ghost use Rattle.xls_view.specs.Formats.{formula_after, last_formula, no_formula, xf_at, xf_in};

use crate::places::part_at;
use xls_biff::{Record, formula_position};
use xls_bytes::read_u16;
use xls_stream::types::STRING;

/// The unsigned number that the first two bytes are, little-endian, or those that are there.
#[inline(always)]
fn low_number(bytes: &[u8]) -> u16
    ensures { result ≡ le (take 2 bytes.now) }
{
    match bytes.len() {
        0 => 0,
        1 => u16::from(bytes[0]),
        _ => read_u16(bytes),
    }
}

/// The XF index of a record's cell by the cell's number there.
#[inline(always)]
pub(crate) fn xf_at(body: &[u8], i: usize) -> u16
    requires { i ≤ 2 ^ 16 }
    ensures { result ≡ xf_at body.now i }
{
    low_number(part_at(body, 4 + 6 * i))
}

/// The XF index of a record's first cell, where that of the last Formula before it is this.
#[inline(always)]
pub(crate) fn xf_in(r: &Record<'_>, last: u16) -> u16
    ensures { result ≡ xf_in last (kept_group (group_of r.now)) 0 }
{
    if r.typ == STRING {
        return last;
    }
    xf_at(r.body, 0)
}

/// The last Formula so far: where it stands, and its XF index.
#[derive(Clone, Copy)]
pub(crate) struct LastFormula {
    pub(crate) at: (u32, u32),
    pub(crate) xf: u16,
}

impl LastFormula {
    /// Before the first one.
    pub(crate) fn none() -> LastFormula
        ensures { last_formula result ≡ no_formula }
    {
        LastFormula { at: (0, 0), xf: 0 }
    }

    /// After a record without a fault.
    #[inline(always)]
    pub(crate) fn after(self, r: &Record<'_>) -> LastFormula
        ensures { (s : CellContext) (g : SheetRecord) → kept_line s (kept_group (group_of r.now)) ≡ Ok g
            → last_formula result ≡ formula_after s (last_formula self) (kept_group (group_of r.now)) }
    {
        match formula_position(r) {
            Some(at) => LastFormula {
                at,
                xf: xf_at(r.body, 0),
            },
            None => self,
        }
    }
}
