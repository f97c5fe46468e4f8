//! How many bytes a string table takes, cut where a record body or piece is full.

ghost use Rattle.std.specs.Prelude.{◌≡◌, ◌+◌, ◌≤◌};
ghost use Rattle.xls_layouts.specs.LaidStrings.{marks_of_steps, marks_of_string};
ghost use Rattle.xls_layouts.specs.Canonical.{record_limit, unit_size, canonical_steps, canonical_string, is_narrow};
ghost use Rattle.xls_lay.specs.Filling.{IsFilled, Fills, TakesMarks};

/// How many bytes a record body or piece has at most.
pub(crate) const FULL: usize = 8224;

/// Whether all units are below 256.
pub(crate) fn is_all_narrow(units: &[u16]) -> bool
    ensures { result ≡ is_narrow units.now }
{
    for unit in units {
        if *unit >= 256 {
            return false;
        }
    }
    true
}

/// How many bytes a unit has.
pub(crate) fn size_of_unit(is_wide: bool) -> usize
    ensures { result ≡ unit_size is_wide }
{
    if is_wide { 2 } else { 1 }
}

/// What is used of the last record body or piece, and how many bytes were added, saturated.
#[derive(Clone, Copy)]
pub(crate) struct Fill {
    used: usize,
    pub size: u64,
}

impl Fill {
    /// A body of eight bytes.
    pub(crate) fn new() -> Fill
        ensures { result ≡ record { used = 8; size = 0 } }
    {
        Fill { used: 8, size: 0 }
    }

    /// Adds so many bytes that aren't parted, to a new piece that begins with so many where they would take this
    /// one past its size.
    fn add(&mut self, prefix: usize, more: usize)
        requires room { IsFilled self.old }
        requires short { prefix + more ≤ record_limit }
        ensures { TakesMarks self.old prefix more self.new }
    {
        if self.used + more > FULL {
            self.size = self.size.saturating_add(4 + prefix as u64);
            self.used = prefix;
        }
        self.size = self.size.saturating_add(more as u64);
        self.used += more;
    }

    fn add_units(&mut self, is_wide: bool, units: &[u16])
        requires { IsFilled self.old }
        ensures { Fills self.old (marks_of_steps is_wide (canonical_steps is_wide self.old.used units.now)) self.new }
    {
        let size = size_of_unit(is_wide);
        for _ in units {
            self.add(1, size);
        }
    }

    /// Adds a string.
    pub(crate) fn add_string(&mut self, units: &[u16])
        requires { IsFilled self.old }
        ensures { Fills self.old (marks_of_string (canonical_string self.old.used units.now)) self.new }
    {
        let is_wide = !is_all_narrow(units);
        self.add(0, 3);
        self.add_units(is_wide, units);
    }
}
