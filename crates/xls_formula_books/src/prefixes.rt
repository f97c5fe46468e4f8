//! What stands before the `!` of a reference to other sheets, in BIFF8.

ghost use Rattle.std.specs.Prelude.{◌≡◌, map};
ghost use Rattle.std.specs.List.{slice_get};
ghost use Rattle.xls_strings.specs.Texts.{text_of};
ghost use Rattle.xls_formula_names.specs.Prefixes.{named};
ghost use Rattle.xls_formula_names.specs.Tables.{lent_text};
ghost use Rattle.xls_formula_books.specs.Prefixes as specs;
ghost use Rattle.xls_formula_books.specs.Sources.{source_view};
ghost use Rattle.xls_formula_books.specs.Places.{place_view};

use crate::here::Here;
use crate::places::SheetPlace;
use crate::sources::{Kind, Source};
use xls_formula_names::Sheets;
use xls_other_books::Entry;
use xls_strings::Strings;

/// The sheet of a name, if that is there.
pub(crate) fn one_or_gone(name: Option<&str>) -> Sheets<'_>
    ensures { named result ≡ specs.one_or_gone (lent_text name.entry) }
{
    match name {
        Some(name) => Sheets::One(name),
        None => Sheets::Gone,
    }
}

/// The sheets from one to another, if both are there.
fn range_or_gone<'a>(first: Option<&'a str>, last: Option<&'a str>) -> Sheets<'a>
    ensures { named result ≡ specs.range_or_gone (lent_text first.entry) (lent_text last.entry) }
{
    match (first, last) {
        (Some(first), Some(last)) => Sheets::Range(first, last),
        _ => Sheets::Gone,
    }
}

/// The sheets of this workbook from one number to another, from 0.
pub(crate) fn between(sheets: &Strings, first: u16, last: u16) -> Sheets<'_>
    ensures { named result ≡ specs.between sheets.now first last }
{
    if first == last {
        return one_or_gone(sheets.get(usize::from(first)));
    }
    range_or_gone(
        sheets.get(usize::from(first)),
        sheets.get(usize::from(last)),
    )
}

/// The sheet of this number from 0.
pub(crate) fn sheet_at(sheets: &[String], number: usize) -> Option<&str>
    ensures { lent_text result ≡ slice_get (map text_of sheets.now) number }
{
    match sheets.get(number) {
        Some(sheet) => Some(sheet.as_str()),
        None => None,
    }
}

/// The sheets of a list from one number to another, from 0.
fn between_of(sheets: &[String], first: u16, last: u16) -> Sheets<'_>
    ensures { named result ≡ specs.between (map text_of sheets.now) first last }
{
    if first == last {
        return one_or_gone(sheet_at(sheets, usize::from(first)));
    }
    range_or_gone(
        sheet_at(sheets, usize::from(first)),
        sheet_at(sheets, usize::from(last)),
    )
}

/// Sheets that are gone.
pub(crate) fn nowhere<'a>() -> SheetPlace<'a>
    ensures { place_view result ≡ specs.nowhere }
{
    SheetPlace::Here(Sheets::Gone)
}

/// The place of an entry's sheets.
fn entry_place<'a>(sheets: &'a Strings, entry: Entry, source: &'a Source) -> SheetPlace<'a>
    ensures { place_view result ≡ specs.entry_place sheets.now entry (source_view source.now) }
{
    match source.kind {
        Kind::This => SheetPlace::Here(between(sheets, entry.first, entry.last)),
        Kind::Workbook => {
            let named = between_of(&source.sheets, entry.first, entry.last);
            SheetPlace::Book(&source.dir, &source.file, named)
        }
        Kind::Program => SheetPlace::Link(&source.app, &source.topic),
        _ => nowhere(),
    }
}

/// The place of an entry of ExternSheet.
pub(crate) fn xti_place<'a>(here: &Here<'a>, number: u16) -> SheetPlace<'a>
    ensures { place_view result ≡ specs.xti_place here.now number }
{
    let Some(entry) = here.books.entry(number) else {
        return nowhere();
    };
    match here.books.source(usize::from(entry.book)) {
        Some(source) => entry_place(here.sheets, entry, source),
        None => nowhere(),
    }
}
