//! The cells of a MulRk record.

ghost use Rattle.std.specs.Prelude.{◌≡◌, ◌+◌, ◌*◌, ◌≤◌, ◌^◌, [], length, map};
ghost use Rattle.std.specs.List.{range_with_len};
ghost use Rattle.xls_view.specs.Formats.{formatted_rk};

use crate::formats::xf_at;
use crate::value::{SheetCell, number_cell};
use std::marker::Model;
use xls_biff::read_mul_rk;
use xls_data::CellFormat;

/// The cells of a MulRk record that are left. Contracts see the list of them.
#[derive(Drop)]
pub(crate) struct Run<'c> {
    body: &'c [u8],
    next: usize,
    count: usize,
    classes: &'c [CellFormat],
    is_1904: bool,
}

impl<'c> Model for Run<'c> {
    ghost use Rattle.std.specs.Prelude.{◌≤◌, ◌<◌, ◌+◌, ◌-◌, ◌*◌, ◌^◌, ℕ, List, map, length};
    ghost use Rattle.std.specs.List.{range_with_len};
    ghost use Rattle.xls_view.specs.Formats.{FormattedCell, formatted_rk};

    ghost Value = { List FormattedCell };

    ghost view = { λ r. map (formatted_rk r.classes.now r.is_1904 r.body.now) (range_with_len r.next (r.count - r.next)) };

    ghost invariant = { λ r. (r.next ≤ r.count) × (r.count ≤ 2 ^ 16)
        × ((i : ℕ) → i < r.count → 10 + 6 * i ≤ length r.body.now) };
}

impl<'c> Run<'c> {
    ghost use Rattle.xls_view.specs.Walking.{FormattedSteps};

    /// No cells.
    pub(crate) fn none() -> Run<'c>
        ensures { result ≡ [] }
    {
        Run {
            body: &[],
            next: 0,
            count: 0,
            classes: &[],
            is_1904: false,
        }
    }

    /// The cells of a MulRk record's body, which are so many.
    pub(crate) fn new(
        body: &'c [u8],
        count: usize,
        classes: &'c [CellFormat],
        is_1904: bool,
    ) -> Run<'c>
        requires sized { length body.now ≡ 6 + 6 * count }
        requires few { count ≤ 2 ^ 16 }
        ensures { result ≡ map (formatted_rk classes.entry.now is_1904 body.entry.now) (range_with_len 0 count) }
    {
        Run {
            body,
            next: 0,
            count,
            classes,
            is_1904,
        }
    }

    /// The same cells, to be gone through once more.
    pub(crate) fn again(&self) -> Run<'c>
        ensures { result ≡ self.now }
    {
        Run {
            body: self.body,
            next: self.next,
            count: self.count,
            classes: self.classes,
            is_1904: self.is_1904,
        }
    }

    /// The next cell.
    #[inline(always)]
    pub(crate) fn next(&mut self) -> Option<SheetCell<'c>>
        ensures { FormattedSteps self.old result self.new }
    {
        if self.next == self.count {
            return None;
        }
        let cell = read_mul_rk(self.body, self.next, self.classes, self.is_1904);
        let xf = xf_at(self.body, self.next);
        self.next += 1;
        Some(number_cell(cell).with_format(xf))
    }
}
