//! Rows and columns that can't be seen, and their runs.

ghost use Rattle.std.specs.Prelude.{◌≡◌, ◌↔◌, ◌+◌, ◌-◌, ◌<◌, ◌≤◌, ◌^◌, [], ◌∷◌, Some, IsTrue, MatchOption, length};
ghost use Rattle.xls_hidden.specs.States as states;
ghost use Rattle.xls_hidden.specs.Runs.{is_same, runs_from};
ghost use Rattle.xls_hidden.specs.Walking.{IsFirstUnseen};
ghost use Rattle.xls_hidden.specs.Lines.{why_at};

use crate::fields::Mark;
use std::fmt;
use std::marker::Model;

/// The rows of a filter's area, from its first row, which has the arrows, to its last.
#[derive(Clone, Copy, Debug, PartialEq, Eq)]
pub struct FilterArea {
    pub first: u16,
    pub last: u16,
}

/// Why a row or a column can't be seen.
#[derive(Clone, Copy, Debug, PartialEq, Eq)]
pub enum Why {
    Hidden,
    /// A row in the area of a filter is hidden, by the filter or by hand.
    Filtered,
    /// Its height or width is 0.
    Flat,
}

/// Rows or columns one after another that can't be seen, from the first to the last, for one reason.
#[derive(Clone, Copy, Debug, PartialEq, Eq)]
pub struct Run {
    pub first: u32,
    pub last: u32,
    pub why: Why,
}

/// Whether a row is below the first row of a filter's area, and not below its last.
fn is_in_area(area: Option<FilterArea>, row: u32) -> bool
    ensures { result ≡ states.is_in_area area row }
{
    match area {
        Some(area) => (area.first as u32) < row && row <= area.last as u32,
        None => false,
    }
}

/// Why a row or a column of this mark can't be seen.
fn why_of(hides_unsaid: bool, area: Option<FilterArea>, line: u32, mark: Mark) -> Option<Why>
    ensures { result ≡ states.why_of hides_unsaid area line mark }
{
    match mark {
        Mark::Unsaid => {
            if hides_unsaid {
                Some(Why::Hidden)
            } else {
                None
            }
        }
        Mark::Shown => None,
        Mark::Hidden => {
            if is_in_area(area, line) {
                Some(Why::Filtered)
            } else {
                Some(Why::Hidden)
            }
        }
        Mark::Flat => Some(Why::Flat),
    }
}

fn is_same(a: Why, b: Why) -> bool
    ensures { result ≡ is_same a b }
{
    match a {
        Why::Hidden => matches!(b, Why::Hidden),
        Why::Filtered => matches!(b, Why::Filtered),
        Why::Flat => matches!(b, Why::Flat),
    }
}

/// The rows or the columns of a sheet, with a mark for each. Contracts see the marks as a list.
#[derive(Drop)]
pub(crate) struct Lines {
    pub(crate) marks: Vec<Mark>,
    /// Whether those of which no record speaks are hidden.
    pub(crate) hides_unsaid: bool,
    /// The area of a filter that hides rows.
    pub(crate) area: Option<FilterArea>,
}

impl Model for Lines {
    ghost use Rattle.xls_hidden.specs.Lines.{Table};

    ghost Value = { Table };

    ghost view = { λ s. record {
      marks = s.marks.items;
      hides_unsaid = s.hides_unsaid;
      area = s.area;
    } };
}

impl Lines {
    /// Why a row or a column can't be seen; none where it can, or isn't one of the sheet's.
    pub(crate) fn why(&self, line: u32) -> Option<Why>
        ensures { result ≡ why_at self.now line }
    {
        match self.marks.get(line as usize) {
            Some(mark) => why_of(self.hides_unsaid, self.area, line, *mark),
            None => None,
        }
    }

    /// The first row or column from this one on that can't be seen, and why.
    fn first_unseen(&self, from: u32, count: u32) -> Option<(u32, Why)>
        requires { from ≤ count }
        ensures { MatchOption result (runs_from (why_at self.now) from (count - from) ≡ [])
            (λ x. IsFirstUnseen (why_at self.now) from count x.0 x.1) }
    {
        let mut line = from;
        while line < count {
            if let Some(why) = self.why(line) {
                return Some((line, why));
            }
            line += 1;
        }
        None
    }

    /// Whether a row or a column can't be seen for this reason.
    fn goes_on(&self, line: u32, why: Why) -> bool
        ensures { IsTrue result ↔ (why_at self.now line ≡ Some why) }
    {
        match self.why(line) {
            Some(other) => is_same(other, why),
            None => false,
        }
    }

    /// The row or column behind the run that begins with this one.
    fn end_of_run(&self, first: u32, count: u32, why: Why) -> u32
        requires within { first < count }
        requires begun { why_at self.now first ≡ Some why }
        ensures run { runs_from (why_at self.now) first (count - first)
            ≡ record { first = first; last = result - 1; why = why } ∷ runs_from (why_at self.now) result (count - result) }
        ensures within { (first < result) × (result ≤ count) }
    {
        let mut end = first + 1;
        while end < count && self.goes_on(end, why) {
            end += 1;
        }
        end
    }
}

/// The runs of rows or columns that can't be seen, ascending, as long as they can be for one reason. Contracts see
/// the list of those that are left.
#[derive(Drop)]
pub struct Runs<'s> {
    lines: &'s Lines,
    from: u32,
    count: u32,
}

impl<'s> Model for Runs<'s> {
    ghost use Rattle.std.specs.Prelude.{List, ◌-◌, ◌≤◌};
    ghost use Rattle.xls_hidden.specs.declared.lines.Run.{Run};
    ghost use Rattle.xls_hidden.specs.Runs.{runs_from};
    ghost use Rattle.xls_hidden.specs.Lines.{why_at};

    ghost Value = { List Run };

    ghost view = { λ s. runs_from (why_at s.lines.now) s.from (s.count - s.from) };

    ghost invariant = { λ s. s.from ≤ s.count };
}

impl<'s> Runs<'s> {
    /// The runs of the first rows or columns, so many.
    pub(crate) fn new(lines: &'s Lines, count: u32) -> Runs<'s>
        ensures { result ≡ runs_from (why_at lines.now) 0 count }
    {
        Runs {
            lines,
            from: 0,
            count,
        }
    }
}

impl<'s> Iterator for Runs<'s> {
    ghost use Rattle.std.specs.Prelude.{length};
    ghost use Rattle.std.specs.Iterator.{at_most};
    ghost use Rattle.xls_parts.specs.Steps.{Steps};

    type Item = Run;

    ghost next_gives = { Steps };

    ghost remaining = { λ runs. at_most (length runs) };

    fn next(&mut self) -> Option<Run> {
        let Some((first, why)) = self.lines.first_unseen(self.from, self.count) else {
            self.from = self.count;
            return None;
        };
        let end = self.lines.end_of_run(first, self.count, why);
        self.from = end;
        Some(Run {
            first,
            last: end - 1,
            why,
        })
    }
}

/// The word for a reason.
impl fmt::Display for Why {
    ghost use Rattle.std.specs.Prelude.{Some};
    ghost use Rattle.xls_hidden.specs.Texts.{why_text};

    ghost output = { λ why. Some (why_text why) };

    fn fmt<W: fmt::Write>(&self, f: &mut fmt::Formatter<W>) -> fmt::Result {
        f.write_str(match self {
            Why::Hidden => "hidden",
            Why::Filtered => "filtered",
            Why::Flat => "flat",
        })
    }
}
