//! Where a formula stands, and what it may name.

ghost use Rattle.std.specs.Prelude.{◌≡◌, ◌++◌, OnOk};
ghost use Rattle.xls_strings.specs.Texts.{text_of};
ghost use Rattle.xls_formula_books.specs.Names as names;
ghost use Rattle.xls_formula_books.specs.Prefixes as prefixes;
ghost use Rattle.xls_formula_books.specs.Places.{place_view};

use crate::books::FormulaBooks;
use crate::early_names::append_early_name;
use crate::early_prefixes::early_place;
use crate::names::{append_local, append_xti_name};
use crate::places::SheetPlace;
use crate::prefixes::xti_place;
use std::alloc::AllocError;
use std::marker::Model;
use xls_defined_names::DefinedNames;
use xls_shown_ptg::{NameLink, SheetLink};
use xls_strings::Strings;

/// What a formula may name: other books, before BIFF8 those of its sheet's own records where it has some; the defined names; the names of
/// this workbook's sheets, in the order of their records; and the number of the sheet in which the formula stands, from 1, 0 for a name of
/// the workbook.
#[derive(Drop)]
pub struct Here<'a> {
    pub books: &'a FormulaBooks,
    pub names: &'a DefinedNames,
    pub sheets: &'a Strings,
    pub sheet: usize,
}

impl<'a> Model for Here<'a> {
    ghost use Rattle.xls_formula_books.specs.Prefixes.{Here as HereView};

    ghost Value = { HereView };

    ghost view = { λ s. record { books = s.books.now; names = s.names.now; sheets = s.sheets.now; sheet = s.sheet } };
}

impl<'a> Here<'a> {
    /// What a reference to sheets names. Takes no memory.
    pub fn place(&self, link: SheetLink) -> SheetPlace<'a>
        ensures { place_view result ≡ prefixes.place self.now link }
    {
        match link {
            SheetLink::Xti(number) => xti_place(self, number),
            SheetLink::Early {
                record,
                first,
                last,
            } => early_place(self, record, first, last),
        }
    }

    /// Appends what stands before the `!` of a reference to other sheets: `Sheet`, `First:Last`, those of another workbook behind
    /// `DIR[FILE]`, `APP|TOPIC`, each between apostrophes where it needs them, and `#REF` where there is none. Only running out of memory
    /// refuses.
    pub fn append_sheets(&self, link: SheetLink, out: &mut String) -> Result<(), AllocError>
        ensures { OnOk result (text_of out.new ≡ text_of out.old ++ prefixes.prefix self.now link) }
    {
        self.place(link).append(out)
    }

    /// Appends the defined name whose number from 1 a token holds (PtgName), of whose four bytes two count: its text, behind `Sheet!`
    /// where it is another sheet's, and `#NAME?` where there is none. Where memory runs out, which alone refuses, a part of it may be left.
    pub fn append_name(&self, number: u32, out: &mut String) -> Result<(), AllocError>
        ensures { OnOk result (text_of out.new ≡ text_of out.old ++ names.name self.now number) }
    {
        append_local(self, number, out)
    }

    /// Appends a name by reference (PtgNameX): `Sheet!Name` or `[0]!Name` of this workbook, `DIR[FILE]Sheet!Name` or `FILE!Name` of
    /// another one, `APP|TOPIC!item` of a program, an added function's name, and `#NAME?` where there is none. Where memory runs
    /// out, which alone refuses, a part of it may be left.
    pub fn append_name_x(&self, link: NameLink, out: &mut String) -> Result<(), AllocError>
        ensures { OnOk result (text_of out.new ≡ text_of out.old ++ names.name_x self.now link) }
    {
        match link {
            NameLink::Xti { ixti, index } => append_xti_name(self, ixti, index, out),
            NameLink::Early { record, index } => append_early_name(self, record, index, out),
        }
    }
}
