//! Cells that are cited.

ghost use Rattle.std.specs.Prelude.{◌≡◌, length, slice_get};
ghost use Rattle.std.specs.Option.{option_map};
ghost use Rattle.std.specs.Str.{chars};
ghost use Rattle.xls_refs.specs.Citations.{citation_of};
ghost use Rattle.xls_refs.specs.Cited.{book_citation_of};
ghost use Rattle.xls_refs.specs.Views.{lent_citation_of};

use std::marker::Model;
use xls_biff::Strings;

/// Cells that a formula cites: the name of their sheet, where the formula tells one, and the first and
/// the last of them, each by row and column from 0. They stand as the formula has them; a single cell
/// is its own last one.
#[derive(Debug, Drop)]
pub struct Cite {
    pub sheet: Option<String>,
    pub first: (u32, u32),
    pub last: (u32, u32),
}

/// The cells that a formula cites, from left to right, none twice.
#[derive(Debug, Drop)]
pub struct Cites {
    pub(crate) items: Vec<Cite>,
}

impl Model for Cites {
    ghost use Rattle.std.specs.Prelude.{List, map};
    ghost use Rattle.xls_refs.specs.Citations.{Citation, citation_of};

    ghost Value = { List Citation };

    ghost view = { λ c. map citation_of c.items.items };
}

impl Cites {
    /// How many there are.
    pub fn len(&self) -> usize
        ensures { result ≡ length self.now }
    {
        self.items.len()
    }

    /// The one of an index, and `None` exactly past the end.
    pub fn get(&self, i: usize) -> Option<&Cite>
        ensures { option_map (λ c. citation_of c.now) result ≡ slice_get self.now i }
    {
        self.items.get(i)
    }
}

/// Cells that a formula of a workbook cites: the index of the sheet that shows the formula, its row and
/// column from 0, and the cells, which always have the name of a sheet.
#[derive(Debug, Drop)]
pub struct BookCite {
    pub sheet: usize,
    pub row: u32,
    pub col: u32,
    pub cite: Cite,
}

/// Cells that a formula of a sheet cites, with the names lent: the index of the sheet, the formula's row and
/// column from 0, and of the cells the name of their sheet, the first and the last.
#[derive(Clone, Copy)]
pub struct CitedCells<'c> {
    pub sheet: usize,
    pub row: u32,
    pub col: u32,
    /// The name of the sheet on which the cells stand.
    pub on: &'c str,
    pub first: (u32, u32),
    pub last: (u32, u32),
}

/// The cells that a formula of a sheet cites, from left to right. Contracts see the list of them, all with the
/// name of a sheet.
#[derive(Drop)]
pub struct CitedFormula<'c> {
    pub(crate) sheet: usize,
    /// The name of the sheet.
    pub(crate) name: &'c str,
    pub(crate) row: u32,
    pub(crate) col: u32,
    /// As the formula has them.
    pub(crate) cites: Cites,
}

impl<'c> Model for CitedFormula<'c> {
    ghost use Rattle.std.specs.Prelude.{List, map};
    ghost use Rattle.std.specs.Str.{chars};
    ghost use Rattle.xls_refs.specs.Cited.{BookCitation, cited_from};

    ghost Value = { List BookCitation };

    ghost view = { λ c. map (cited_from c.sheet (chars c.name.now) (c.row, c.col)) c.cites };
}

impl<'c> CitedFormula<'c> {
    /// How many there are.
    pub fn len(&self) -> usize
        ensures { result ≡ length self.now }
    {
        self.cites.len()
    }

    /// The one of an index, and `None` exactly past the end.
    pub fn get(&self, i: usize) -> Option<CitedCells<'_>>
        ensures { option_map lent_citation_of result ≡ slice_get self.now i }
    {
        let cite = self.cites.get(i)?;
        let on = match &cite.sheet {
            Some(name) => name.as_str(),
            None => self.name,
        };
        Some(CitedCells {
            sheet: self.sheet,
            row: self.row,
            col: self.col,
            on,
            first: cite.first,
            last: cite.last,
        })
    }
}

/// The cells that the formulas of a workbook cite: sheet by sheet, by the formula's row and then
/// column, and from left to right. Contracts see the names of the sheets beside them.
#[derive(Debug, Drop)]
pub struct BookCites {
    pub(crate) names: Strings,
    pub(crate) items: Vec<BookCite>,
}

impl Model for BookCites {
    ghost use Rattle.std.specs.Prelude.{map};
    ghost use Rattle.xls_refs.specs.Cited.{BookCited, book_citation_of};

    ghost Value = { BookCited };

    ghost view = { λ b. record { names = b.names; cites = map book_citation_of b.items.items } };
}

impl BookCites {
    /// How many there are.
    pub fn len(&self) -> usize
        ensures { result ≡ length self.now.cites }
    {
        self.items.len()
    }

    /// The one of an index, and `None` exactly past the end.
    pub fn get(&self, i: usize) -> Option<&BookCite>
        ensures { option_map (λ c. book_citation_of c.now) result ≡ slice_get self.now.cites i }
    {
        self.items.get(i)
    }

    /// The name of the sheet of an index, and `None` exactly past the last sheet.
    pub fn sheet_name(&self, sheet: usize) -> Option<&str>
        ensures { option_map (λ name. chars name.now) result ≡ slice_get self.now.names sheet }
    {
        self.names.get(sheet)
    }
}
