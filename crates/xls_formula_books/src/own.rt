//! What of this workbook formulas refer to.

ghost use Rattle.std.specs.Prelude.{◌≡◌};
ghost use Rattle.xls_formula_books.specs.Own as specs;
ghost use Rattle.xls_formula_books.specs.Places.{place_view};
ghost use Rattle.xls_formula_books.specs.Sources.{source_view};

use crate::early_names::is_this;
use crate::early_prefixes::{numbered_sheet, numbered_source};
use crate::here::Here;
use crate::names::numbered_name;
use crate::places::SheetPlace;
use crate::sources::{Kind, Source};
use xls_shown_ptg::NameLink;

/// The number of a defined name through an entry of ExternSheet.
fn xti_number(here: &Here<'_>, ixti: u16, number: u32) -> Option<u32>
    ensures { result ≡ specs.own_name here.now (NameLink.Xti ixti number) }
{
    let entry = here.books.entry(ixti)?;
    match here.books.source(usize::from(entry.book)) {
        Some(source) if matches!(source.kind, Kind::This) => Some(number),
        _ => None,
    }
}

/// The number of a defined name of what an ExternSheet record refers to.
fn source_number(source: &Source, number: u32) -> Option<u32>
    ensures { result ≡ specs.early_source_number number (source_view source.now) }
{
    if !is_this(source.kind) {
        return None;
    }
    match numbered_name(source, number) {
        Some(_) => None,
        None => Some(number),
    }
}

/// The number of a defined name by the number of an ExternSheet record, or of this workbook where that is below 0.
fn early_number(here: &Here<'_>, reference: i16, index: u16) -> Option<u32>
    ensures { result ≡ specs.early_number here.now reference index }
{
    let number = u32::from(index);
    if reference.is_negative() {
        return Some(number);
    }
    match numbered_source(here.books, reference) {
        Some(source) => source_number(source, number),
        None => None,
    }
}

impl<'a> Here<'a> {
    /// The sheet in which the formula stands. Takes no memory.
    pub fn own_place(&self) -> SheetPlace<'a>
        ensures { place_view result ≡ specs.own_place self.now }
    {
        SheetPlace::Here(numbered_sheet(self.sheets, self.sheet))
    }

    /// The number, from 1, of the defined name of this workbook that a name by reference is; `None` where it is another book's, a
    /// program's, an added function's or an ExternName of this workbook. There may be no name of the number. Takes no memory.
    pub fn own_name(&self, link: NameLink) -> Option<u32>
        ensures { result ≡ specs.own_name self.now link }
    {
        match link {
            NameLink::Xti { ixti, index } => xti_number(self, ixti, index),
            NameLink::Early { record, index } => early_number(self, record, index),
        }
    }
}
