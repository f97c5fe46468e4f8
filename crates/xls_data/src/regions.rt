//! Regions of a sheet, and where its table begins.

ghost use Rattle.std.specs.Prelude.{◌≡◌, ◌+◌, ◌-◌, ◌*◌, ◌<◌, ◌≤◌, ◌^◌, ◌↔◌, IsTrue};
ghost use Rattle.xls_data.specs.Regions.{Lies, positions};

/// The positions between two corners, both included. A position is a row and a column, counted
/// from 0. Regions are ordered by their starts, then by their ends, a row before a column.
#[derive(Clone, Copy, Debug, PartialEq, Eq, PartialOrd, Ord, Hash)]
pub struct Dimensions {
    /// The first row and the first column.
    pub start: (u32, u32),
    /// The last row and the last column.
    pub end: (u32, u32),
}

impl Default for Dimensions {
    ghost use Rattle.std.specs.Prelude.{◌≡◌};

    ghost is_default = { λ d. d ≡ record { start = (0, 0); end = (0, 0) } };

    fn default() -> Dimensions {
        Dimensions::new((0, 0), (0, 0))
    }
}

impl Dimensions {
    /// The region between two corners.
    pub fn new(start: (u32, u32), end: (u32, u32)) -> Self
        ensures { result ≡ record { start = start; end = end } }
    {
        Dimensions { start, end }
    }

    /// Whether a position lies between the corners, both included.
    pub fn contains(&self, row: u32, col: u32) -> bool
        ensures { IsTrue result ↔ Lies row col self.now }
    {
        self.start.0 <= row && row <= self.end.0 && self.start.1 <= col && col <= self.end.1
    }

    /// The number of positions. The corners are ordered, and the number is within u64.
    pub fn len(&self) -> u64
        requires rows { self.now.start.0 ≤ self.now.end.0 }
        requires columns { self.now.start.1 ≤ self.now.end.1 }
        requires fits { positions self.now < 2 ^ 64 }
        ensures { result ≡ positions self.now }
    {
        let height = (self.end.0 - self.start.0) as u64 + 1;
        let width = (self.end.1 - self.start.1) as u64 + 1;
        height * width
    }
}

/// The row of a sheet where its table begins.
#[derive(Clone, Copy, Debug, PartialEq, Eq)]
pub enum HeaderRow {
    /// The first row that has a value.
    FirstNonEmptyRow,
    /// The row of this number, counted from 0.
    Row(u32),
}

impl Default for HeaderRow {
    ghost use Rattle.std.specs.Prelude.{◌≡◌};
    ghost use Rattle.xls_data.specs.declared.regions.HeaderRow.TheVariants.{FirstNonEmptyRow};

    ghost is_default = { λ h. h ≡ FirstNonEmptyRow };

    fn default() -> HeaderRow {
        HeaderRow::FirstNonEmptyRow
    }
}
