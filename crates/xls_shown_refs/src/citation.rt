//! Cells that are cited.

ghost use Rattle.std.specs.Prelude.{◌≡◌, ◌++◌, OnOk};
ghost use Rattle.xls_strings.specs.Texts.{text_of};
ghost use Rattle.xls_formula_books.specs.Places.{place_view};
ghost use Rattle.xls_ptg.specs.Cites.{position_of};
ghost use Rattle.xls_shown_refs.specs.Items as specs;
ghost use Rattle.xls_shown_refs.specs.Views.{citation_view};

use std::alloc::AllocError;
use xls_formula_books::SheetPlace;
use xls_ptg::Corner;

/// Cells that a formula cites, by their sheets, and the first and the last of them, each by row and column from 0. They stand as the
/// formula has them; a single cell is its own last one.
#[derive(Clone, Copy, Debug)]
pub struct Citation<'a> {
    pub sheets: SheetPlace<'a>,
    pub first: (u32, u32),
    pub last: (u32, u32),
}

impl<'a> Citation<'a> {
    /// Appends the text of the sheets, without apostrophes: `Sheet`, `First:Last`, `DIR[FILE]Sheet`. Where memory runs out, which alone
    /// refuses, a part may be left.
    pub fn append_sheets(&self, out: &mut String) -> Result<(), AllocError>
        ensures { OnOk result (text_of out.new ≡ text_of out.old ++ (citation_view self.now).sheet) }
    {
        self.sheets.append_cited(out)
    }
}

fn position(corner: Corner) -> (u32, u32)
    ensures { result ≡ position_of corner }
{
    (u32::from(corner.row), u32::from(corner.column))
}

/// The cells between two corners.
pub(crate) fn cells_between<'a>(sheets: SheetPlace<'a>, first: Corner, last: Corner) -> Citation<'a>
    ensures { citation_view result ≡ specs.cells_between (place_view sheets.entry) first last }
{
    Citation {
        sheets,
        first: position(first),
        last: position(last),
    }
}
