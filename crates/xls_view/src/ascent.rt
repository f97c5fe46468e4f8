//! Whether positions ascend.

ghost use Rattle.std.specs.Prelude.{◌≡◌, ◌==◌, ◌<◌, ◌^◌, ◌⊎◌, ◌↔◌, ◌++◌, ◌∷◌, [], IsTrue, List};
ghost use Rattle.xls_range.specs.Positions.{Position};
ghost use Rattle.xls_view.specs.SheetPlacing.{IsAscent, number_of};

/// Whether the positions so far ascend strictly, row before column, the last one of them, and how many they are
/// (at most so many as a `usize` tells). All fields have one size, so that it is copied without padding.
#[derive(Clone, Copy)]
pub(crate) struct Ascent {
    /// The last position as one number; 0 where there is none.
    last: u64,
    /// How many of them don't come after the one before them.
    falls: usize,
    count: usize,
}

/// A position as one number, by which positions ascend.
#[inline(always)]
fn number_of(row: u32, column: u32) -> u64
    ensures number { result ≡ number_of (row, column) }
    ensures small { column < 2 ^ 32 }
{
    u64::from(row) * 0x1_0000_0000 + u64::from(column)
}

impl Ascent {
    /// No positions.
    pub(crate) fn new() -> Ascent
        ensures { IsAscent result [] }
    {
        Ascent {
            last: 0,
            falls: 0,
            count: 0,
        }
    }

    /// Whether a position, by its number, comes after the last one, if there is one.
    #[inline(always)]
    fn is_before(self, next: u64) -> bool
        ensures { IsTrue result ↔ ((self.count ≡ 0) ⊎ (self.last < next)) }
    {
        self.count == 0 || self.last < next
    }

    /// How many fall with one more position, by its number.
    #[inline(always)]
    fn falls_with(self, next: u64) -> usize
        ensures { result ≡ 0 → (self.falls ≡ 0) × ((self.count ≡ 0) ⊎ (self.last < next)) }
    {
        if self.is_before(next) {
            return self.falls;
        }
        self.falls.saturating_add(1)
    }

    /// After one more position.
    #[inline(always)]
    pub(crate) fn with(self, position: (u32, u32)) -> Ascent
        ensures steps { (ps : List Position) → IsAscent self ps → IsAscent result (ps ++ position ∷ []) }
        ensures some { 0 < result.count }
    {
        let (row, column) = position;
        let last = number_of(row, column);
        let count = self.count.saturating_add(1);
        Ascent {
            last,
            falls: self.falls_with(last),
            count,
        }
    }

    /// One more position, for positions that are rare: where they are found stays in memory.
    #[inline(never)]
    pub(crate) fn add(&mut self, position: (u32, u32))
        ensures { (ps : List Position) → IsAscent self.old ps → IsAscent self.new (ps ++ position ∷ []) }
    {
        *self = self.with(position);
    }

    /// Whether all of them ascend.
    pub(crate) fn is_strict(self) -> bool
        ensures { IsTrue result ↔ (self.falls ≡ 0) }
    {
        self.falls == 0
    }

    /// How many they are, as far as a `usize` tells.
    pub(crate) fn count(self) -> usize
        ensures { result ≡ self.count }
    {
        self.count
    }

    /// Whether there is none.
    pub(crate) fn is_empty(self) -> bool
        ensures none { result ≡ (self.count == 0) }
        ensures empty { (ps : List Position) → IsAscent self ps → IsTrue result → ps ≡ [] }
    {
        self.count == 0
    }
}
