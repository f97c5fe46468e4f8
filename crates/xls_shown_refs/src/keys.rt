//! By what a citation is found again.

ghost use Rattle.std.specs.Prelude.{◌≡◌, nat_eq, refl, Some};
ghost use Rattle.std.specs.Cmp.{on_equiv, on_per, on_po, on_total, partial_equiv_from_equiv};
ghost use Rattle.std.specs.Cmp.Lexicographic.{nat_list_cmp_total, nat_list_eq_equiv, pointwise, slice_cmp, texts_po, texts_ties};
ghost use Rattle.std.specs.Ordering.{nat_cmp};
ghost use Rattle.xls_shown_refs.specs.Keys.{AreTexts, key_view};
ghost use Rattle.xls_shown_refs.specs.Views.{citation_view};

use crate::citation::Citation;
use crate::letters::compare;
use std::cmp::Ordering;
use xls_formula_books::SheetPlace;
use xls_formula_names::Sheets;

/// Sheets, compared by the bytes of their text.
#[derive(Clone, Copy)]
pub(crate) struct SheetsKey<'a> {
    sheets: SheetPlace<'a>,
}

impl<'a> PartialEq for SheetsKey<'a> {
    ghost use Rattle.xls_shown_refs.specs.Keys.{key_bytes};

    ghost eq = { λ x y. pointwise nat_eq (key_bytes x) (key_bytes y) };

    ghost laws = { on_per key_bytes (partial_equiv_from_equiv nat_list_eq_equiv) };

    fn eq(&self, other: &Self) -> bool {
        compare(self.sheets, other.sheets).is_eq()
    }
}

impl<'a> Eq for SheetsKey<'a> {
    ghost use Rattle.xls_shown_refs.specs.Keys.{key_bytes};

    ghost laws = { on_equiv key_bytes nat_list_eq_equiv };
}

impl<'a> PartialOrd for SheetsKey<'a> {
    ghost use Rattle.xls_shown_refs.specs.Keys.{key_bytes};

    ghost partial_cmp = { λ x y. Some (slice_cmp nat_cmp (key_bytes x) (key_bytes y)) };

    ghost laws = { on_po key_bytes texts_po };

    fn partial_cmp(&self, other: &Self) -> Option<Ordering> {
        Some(self.cmp(other))
    }
}

impl<'a> Ord for SheetsKey<'a> {
    ghost use Rattle.xls_shown_refs.specs.Keys.{key_bytes};

    ghost cmp = { λ x y. slice_cmp nat_cmp (key_bytes x) (key_bytes y) };

    ghost total = { on_total key_bytes nat_list_cmp_total };

    ghost matches_partial_cmp = { λ x y. refl };

    ghost matches_eq = { λ x y. texts_ties (key_bytes x) (key_bytes y) };

    fn cmp(&self, other: &Self) -> Ordering {
        compare(self.sheets, other.sheets)
    }
}

/// By what a citation is found again: its sheets, and its cells.
pub(crate) type Key<'a> = (SheetsKey<'a>, (u32, u32), (u32, u32));

/// Sheets, of whose names contracts then see that they are texts.
fn texts_of<'a>(sheets: SheetPlace<'a>) -> SheetPlace<'a>
    ensures is { result ≡ sheets.entry }
    ensures texts { AreTexts result }
{
    match sheets {
        SheetPlace::Here(Sheets::Gone) => SheetPlace::Here(Sheets::Gone),
        SheetPlace::Here(Sheets::One(name)) => SheetPlace::Here(Sheets::One(name)),
        SheetPlace::Here(Sheets::Range(first, last)) => SheetPlace::Here(Sheets::Range(
            first, last,
        )),
        SheetPlace::Book(dir, file, Sheets::Gone) => SheetPlace::Book(dir, file, Sheets::Gone),
        SheetPlace::Book(dir, file, Sheets::One(name)) => {
            SheetPlace::Book(dir, file, Sheets::One(name))
        }
        SheetPlace::Book(dir, file, Sheets::Range(first, last)) => {
            SheetPlace::Book(dir, file, Sheets::Range(first, last))
        }
        SheetPlace::File(dir, file) => SheetPlace::File(dir, file),
        SheetPlace::Link(app, topic) => SheetPlace::Link(app, topic),
    }
}

/// The key of a citation.
pub(crate) fn key_of<'a>(citation: Citation<'a>) -> Key<'a>
    ensures is { key_view result ≡ citation_view citation.entry }
    ensures texts { AreTexts result.0.sheets }
{
    let sheets = texts_of(citation.sheets);
    (SheetsKey { sheets }, citation.first, citation.last)
}
