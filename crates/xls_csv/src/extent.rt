//! The box of a sheet's cells.

ghost use Rattle.std.specs.Prelude.{◌≡◌, ◌≤◌, ◌^◌, ◌+◌};
ghost use Rattle.xls_csv.specs.Dense.{box_between, box_of, from_a1};

use xls_data::Dimensions;
use xls_view::FormattedSheet;

/// A box: its first row and column, and how many rows and columns it has.
#[derive(Clone, Copy, Debug, PartialEq, Eq)]
pub struct Extent {
    pub top: u64,
    pub left: u64,
    pub height: u64,
    pub width: u64,
}

impl Extent {
    /// The same rows and columns, and those before them.
    pub fn from_a1(self) -> Extent
        requires rows { self.top + self.height ≤ 2 ^ 32 }
        requires columns { self.left + self.width ≤ 2 ^ 32 }
        ensures { result ≡ from_a1 self }
    {
        Extent {
            top: 0,
            left: 0,
            height: self.top + self.height,
            width: self.left + self.width,
        }
    }
}

/// The box from one position to another, both included.
fn extent_between(bounds: Dimensions) -> Extent
    requires rows { bounds.start.0 ≤ bounds.end.0 }
    requires columns { bounds.start.1 ≤ bounds.end.1 }
    ensures between { result ≡ box_between bounds.start bounds.end }
    ensures rows { result.top + result.height ≤ 2 ^ 32 }
    ensures columns { result.left + result.width ≤ 2 ^ 32 }
{
    let top = u64::from(bounds.start.0);
    let left = u64::from(bounds.start.1);
    Extent {
        top,
        left,
        height: u64::from(bounds.end.0) + 1 - top,
        width: u64::from(bounds.end.1) + 1 - left,
    }
}

/// The smallest box that holds all of these cells, or the one without a position. Takes no memory.
pub fn extent_of(cells: &FormattedSheet<'_>) -> Extent
    ensures smallest { result ≡ box_of cells.now }
    ensures rows { result.top + result.height ≤ 2 ^ 32 }
    ensures columns { result.left + result.width ≤ 2 ^ 32 }
{
    match cells.bounds() {
        Some(bounds) => extent_between(bounds),
        None => Extent {
            top: 0,
            left: 0,
            height: 0,
            width: 0,
        },
    }
}
