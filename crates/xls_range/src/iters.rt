//! What goes over the rows and the cells of a range, from both ends. Contracts see an iterator as
//! the list of the rows or cells that are left.

ghost use Rattle.std.specs.Prelude.{◌≡◌, Some, IfSome, length};
ghost use Rattle.std.specs.Iterator.{YieldsFirstBy, YieldsLastBy, item_count, UpTo};
ghost use Rattle.std.specs.Iterator.SizeHint.{IsWithinCount};

use std::marker::Model;
use xls_data::CellType;

/// The rows, from the top.
#[derive(Debug, Drop)]
pub struct Rows<'a, T> {
    cells: &'a [T],
    width: usize,
    count: usize,
}

impl<'a, T> Model for Rows<'a, T> {
    ghost use Rattle.std.specs.Prelude.{◌≡◌, ◌*◌, List, length};
    ghost use Rattle.xls_range.specs.Lists.{rows_of};

    ghost Value = { List (List T) };

    ghost view = { λ r. rows_of r.count r.width r.cells.now };

    ghost invariant = { λ r. length r.cells.now ≡ r.count * r.width };
}

impl<'a, T> Rows<'a, T> {
    ghost use Rattle.std.specs.Prelude.{◌≡◌, ◌*◌, length};
    ghost use Rattle.xls_range.specs.Lists.{rows_of};

    pub(crate) fn new(cells: &'a [T], width: usize, count: usize) -> Rows<'a, T>
        requires { length cells.now ≡ count * width }
        ensures { result ≡ rows_of count width cells.now }
    {
        Rows {
            cells,
            width,
            count,
        }
    }
}

impl<'a, T> Iterator for Rows<'a, T> {
    type Item = &'a [T];

    ghost next_gives = { YieldsFirstBy (λ row. row.now) (λ rows. rows) };

    ghost remaining = { item_count (λ rows. rows) };

    #[tactic(auto, using(crate::proofs::RowLemmas::rows_first, crate::proofs::RowLemmas::one_row))]
    fn next(&mut self) -> Option<&'a [T]> {
        if self.count == 0 {
            return None;
        }
        let (first, others) = self.cells.split_at(self.width);
        self.cells = others;
        self.count -= 1;
        Some(first)
    }

    #[tactic(auto, using(crate::proofs::RowLemmas::rows_count))]
    fn size_hint(&self) -> (usize, Option<usize>)
        ensures lower { IsWithinCount result.0 (item_count (λ rows. rows) self.now) }
        ensures upper { IfSome result.1 (UpTo (item_count (λ rows. rows) self.now)) }
        ensures value { result ≡ (length self.now, Some (length self.now)) }
    {
        (self.count, Some(self.count))
    }
}

impl<'a, T> DoubleEndedIterator for Rows<'a, T> {
    ghost next_back_gives = { YieldsLastBy (λ row. row.now) (λ rows. rows) };

    #[tactic(auto, using(crate::proofs::RowLemmas::rows_last, crate::proofs::RowLemmas::rows_count, crate::proofs::RowLemmas::one_row))]
    fn next_back(&mut self) -> Option<&'a [T]> {
        if self.count == 0 {
            return None;
        }
        self.count -= 1;
        let (others, last) = self.cells.split_at(self.count * self.width);
        self.cells = others;
        Some(last)
    }
}

impl<'a, T> ExactSizeIterator for Rows<'a, T> {
    #[tactic(auto, using(crate::proofs::RowLemmas::rows_count))]
    fn len(&self) -> usize {
        self.count
    }
}

/// The cells, each with its row and its column, from the top left.
#[derive(Debug, Drop)]
pub struct Cells<'a, T> {
    cells: &'a [T],
    width: usize,
    prefix: usize,
}

impl<'a, T> Model for Cells<'a, T> {
    ghost use Rattle.std.specs.Prelude.{ℕ, ◌+◌, ◌<◌, ◌≤◌, ◌^◌, List, length};
    ghost use Rattle.xls_range.specs.Lists.{cells_from};

    ghost Value = { List (ℕ × ℕ × T) };

    ghost view = { λ r. cells_from r.prefix r.width r.cells.now };

    ghost invariant = { λ r.
        (r.prefix + length r.cells.now < 2 ^ 64) × (0 < length r.cells.now → 0 < r.width) };
}

impl<'a, T> Cells<'a, T> {
    ghost use Rattle.std.specs.Prelude.{◌≡◌, ◌<◌, ◌^◌, length};
    ghost use Rattle.xls_range.specs.Lists.{cells_from};

    pub(crate) fn new(cells: &'a [T], width: usize) -> Cells<'a, T>
        requires wide { 0 < length cells.now → 0 < width }
        requires count { length cells.now < 2 ^ 64 }
        ensures { result ≡ cells_from 0 width cells.now }
    {
        Cells {
            cells,
            width,
            prefix: 0,
        }
    }
}

impl<'a, T> Iterator for Cells<'a, T> {
    type Item = (usize, usize, &'a T);

    ghost next_gives = { YieldsFirstBy (λ cell. (cell.0, cell.1, cell.2.now)) (λ cells. cells) };

    ghost remaining = { item_count (λ cells. cells) };

    fn next(&mut self) -> Option<(usize, usize, &'a T)> {
        let (first, others) = self.cells.split_first()?;
        let at = self.prefix;
        self.cells = others;
        self.prefix += 1;
        Some((at / self.width, at % self.width, first))
    }

    #[tactic(auto, using(crate::proofs::RowLemmas::cells_count))]
    fn size_hint(&self) -> (usize, Option<usize>)
        ensures lower { IsWithinCount result.0 (item_count (λ cells. cells) self.now) }
        ensures upper { IfSome result.1 (UpTo (item_count (λ cells. cells) self.now)) }
        ensures value { result ≡ (length self.now, Some (length self.now)) }
    {
        (self.cells.len(), Some(self.cells.len()))
    }
}

impl<'a, T> DoubleEndedIterator for Cells<'a, T> {
    ghost next_back_gives = { YieldsLastBy (λ cell. (cell.0, cell.1, cell.2.now)) (λ cells. cells) };

    #[tactic(auto, using(crate::proofs::RowLemmas::cells_snoc, crate::proofs::RowLemmas::cells_count))]
    fn next_back(&mut self) -> Option<(usize, usize, &'a T)> {
        let (last, others) = self.cells.split_last()?;
        let at = self.prefix + others.len();
        self.cells = others;
        Some((at / self.width, at % self.width, last))
    }
}

impl<'a, T> ExactSizeIterator for Cells<'a, T> {
    #[tactic(auto, using(crate::proofs::RowLemmas::cells_count))]
    fn len(&self) -> usize {
        self.cells.len()
    }
}

/// The cells that are not blank.
#[derive(Debug, Drop)]
pub struct UsedCells<'a, T: CellType> {
    cells: Cells<'a, T>,
}

impl<'a, T: CellType> Model for UsedCells<'a, T> {
    ghost use Rattle.std.specs.Prelude.{ℕ, List};

    ghost Value = { List (ℕ × ℕ × T) };

    ghost view = { λ r. r.cells };
}

impl<'a, T: CellType> UsedCells<'a, T> {
    ghost use Rattle.std.specs.Prelude.{◌≡◌};

    pub(crate) fn new(cells: Cells<'a, T>) -> UsedCells<'a, T>
        ensures { result ≡ cells.entry }
    {
        UsedCells { cells }
    }
}

impl<'a, T: CellType> Iterator for UsedCells<'a, T> {
    type Item = (usize, usize, &'a T);

    ghost use Rattle.std.specs.Prelude.{◌≡◌, [], ⊤, Some, None, IfSome, MatchOption, length};
    ghost use Rattle.std.specs.Iterator.{YieldsFirstBy, MakesProgress, item_count, UpTo};
    ghost use Rattle.std.specs.Iterator.SizeHint.{IsWithinCount};
    ghost use Rattle.xls_range.specs.Lists.{used, first_used};

    ghost next_gives = { YieldsFirstBy (λ cell. (cell.0, cell.1, cell.2.now)) (used T.blank_test) };

    ghost remaining = { item_count (used T.blank_test) };

    /// The first cell that is not blank. Those after it are left.
    fn next(&mut self) -> Option<(usize, usize, &'a T)>
        ensures steps { YieldsFirstBy (λ cell. (cell.0, cell.1, cell.2.now)) (used T.blank_test)
            self.old result self.new }
        ensures goes { MakesProgress (λ _. ⊤) (item_count (used T.blank_test))
            self.old result self.new }
        ensures exact { MatchOption result
            ((first_used T.blank_test self.old ≡ None) × (self.new ≡ []))
            (λ cell. first_used T.blank_test self.old
            ≡ Some ((cell.0, cell.1, cell.2.now), self.new)) }
    {
        while let Some(cell) = self.cells.next() {
            if !cell.2.is_blank() {
                return Some(cell);
            }
        }
        None
    }

    /// 0, and how many cells are left, blank or not.
    #[tactic(auto, using(crate::proofs::RowLemmas::used_count))]
    fn size_hint(&self) -> (usize, Option<usize>)
        ensures lower { IsWithinCount result.0 (item_count (used T.blank_test) self.now) }
        ensures upper { IfSome result.1 (UpTo (item_count (used T.blank_test) self.now)) }
        ensures value { result ≡ (0, Some (length self.now)) }
    {
        (0, Some(self.cells.len()))
    }
}

impl<'a, T: CellType> DoubleEndedIterator for UsedCells<'a, T> {
    ghost use Rattle.std.specs.Prelude.{◌≡◌, [], ⊤, Some, None, MatchOption};
    ghost use Rattle.std.specs.Iterator.{YieldsLastBy, MakesProgress, item_count};
    ghost use Rattle.xls_range.specs.Lists.{used, last_used};

    ghost next_back_gives = { YieldsLastBy (λ cell. (cell.0, cell.1, cell.2.now)) (used T.blank_test) };

    /// The last cell that is not blank. Those before it are left.
    #[tactic(auto, using(crate::proofs::RowLemmas::used_last_blank, crate::proofs::RowLemmas::used_last_kept, crate::proofs::RowLemmas::used_last_longer, crate::proofs::RowLemmas::last_used_blank, crate::proofs::RowLemmas::last_used_kept))]
    fn next_back(&mut self) -> Option<(usize, usize, &'a T)>
        ensures steps { YieldsLastBy (λ cell. (cell.0, cell.1, cell.2.now)) (used T.blank_test)
            self.old result self.new }
        ensures goes { MakesProgress (λ _. ⊤) (item_count (used T.blank_test))
            self.old result self.new }
        ensures exact { MatchOption result
            ((last_used T.blank_test self.old ≡ None) × (self.new ≡ []))
            (λ cell. last_used T.blank_test self.old
            ≡ Some ((cell.0, cell.1, cell.2.now), self.new)) }
    {
        while let Some(cell) = self.cells.next_back() {
            if !cell.2.is_blank() {
                return Some(cell);
            }
        }
        None
    }
}
