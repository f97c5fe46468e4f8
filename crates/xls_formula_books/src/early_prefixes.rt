//! What stands before the `!` of a reference to other sheets, before BIFF8.

ghost use Rattle.std.specs.Prelude.{◌≡◌};
ghost use Rattle.std.specs.List.{list_any, slice_get};
ghost use Rattle.std.specs.Option.{option_map};
ghost use Rattle.std.specs.Str.{bytes_eq, chars};
ghost use Rattle.xls_formula_names.specs.Prefixes.{named};
ghost use Rattle.xls_formula_names.specs.Tables.{lent_text};
ghost use Rattle.xls_formula_books.specs.Prefixes as specs;
ghost use Rattle.xls_formula_books.specs.Sources.{source_view};
ghost use Rattle.xls_formula_books.specs.Places.{place_view};

use crate::books::FormulaBooks;
use crate::here::Here;
use crate::places::SheetPlace;
use crate::prefixes::{between, nowhere, one_or_gone, sheet_at};
use crate::sources::{Kind, Source};
use xls_formula_names::Sheets;
use xls_strings::Strings;

/// What an ExternSheet record of this number, from 1, refers to.
pub(crate) fn numbered_source(books: &FormulaBooks, reference: i16) -> Option<&Source>
    ensures { option_map (λ s. source_view s.now) result ≡ specs.numbered_source books.now reference }
{
    let number = usize::from(reference.unsigned_abs());
    if number == 0 {
        return None;
    }
    books.source(number - 1)
}

/// The sheet of this workbook with a number from 1.
pub(crate) fn numbered_sheet(sheets: &Strings, number: usize) -> Sheets<'_>
    ensures { named result ≡ specs.numbered_sheet sheets.now number }
{
    if number == 0 {
        return Sheets::Gone;
    }
    one_or_gone(sheets.get(number - 1))
}

/// Whether two texts have the same characters.
fn is_same(a: &str, b: &str) -> bool
    ensures { result ≡ bytes_eq (chars a.now) (chars b.now) }
{
    a == b
}

/// Whether the sheet of a number has this name.
fn has_name(sheets: &Strings, number: usize, name: &str) -> bool
    ensures { result ≡ specs.has_name (chars name.now) (slice_get sheets.now number) }
{
    match sheets.get(number) {
        Some(sheet) => is_same(name, sheet),
        None => false,
    }
}

/// Whether a sheet has this name.
fn has_sheet(sheets: &Strings, name: &str) -> bool
    ensures { result ≡ list_any (bytes_eq (chars name.now)) sheets.now }
{
    let count = sheets.len();
    let mut number = 0;
    'sheets: while number < count {
        if has_name(sheets, number, name) {
            return true;
        }
        number += 1;
    }
    false
}

/// The sheet of this workbook with this name.
fn named_sheet<'a>(sheets: &Strings, name: Option<&'a str>) -> Sheets<'a>
    ensures { named result ≡ specs.named_sheet sheets.now (lent_text name.entry) }
{
    match name {
        Some(name) if has_sheet(sheets, name) => Sheets::One(name),
        _ => Sheets::Gone,
    }
}

/// The place of another workbook's sheet, or of the workbook alone.
pub(crate) fn workbook_place<'a>(source: &'a Source, sheet: Option<&'a str>) -> SheetPlace<'a>
    ensures { place_view result ≡ specs.workbook_place (source_view source.now) (lent_text sheet.entry) }
{
    match sheet {
        Some(sheet) => SheetPlace::Book(&source.dir, &source.file, Sheets::One(sheet)),
        None => SheetPlace::File(&source.dir, &source.file),
    }
}

/// The place of what an ExternSheet refers to.
fn source_place<'a>(here: &Here<'a>, source: &'a Source) -> SheetPlace<'a>
    ensures { place_view result ≡ specs.early_source_place here.now (source_view source.now) }
{
    let first = sheet_at(&source.sheets, 0);
    match source.kind {
        Kind::Sheet => SheetPlace::Here(named_sheet(here.sheets, first)),
        Kind::Own => SheetPlace::Here(numbered_sheet(here.sheets, here.sheet)),
        Kind::Workbook => workbook_place(source, first),
        Kind::Program => SheetPlace::Link(&source.app, &source.topic),
        _ => nowhere(),
    }
}

/// The place by the number of an ExternSheet record, or below 0 by the numbers of the first and the last sheet.
pub(crate) fn early_place<'a>(
    here: &Here<'a>,
    reference: i16,
    first: u16,
    last: u16,
) -> SheetPlace<'a>
    ensures { place_view result ≡ specs.early_place here.now reference first last }
{
    if reference.is_negative() {
        return SheetPlace::Here(between(here.sheets, first, last));
    }
    match numbered_source(here.books, reference) {
        Some(source) => source_place(here, source),
        None => nowhere(),
    }
}
