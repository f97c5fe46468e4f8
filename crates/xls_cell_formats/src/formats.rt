//! The formats of a workbook's cells.

ghost use Rattle.std.specs.Prelude.{◌≡◌, IfOk, OnOk, OnErr};
ghost use Rattle.std.specs.String.{string_bytes};
ghost use Rattle.std.specs.Str.{chars};
ghost use Rattle.xls_data.specs.Numeric.{numeric_content};
ghost use Rattle.xls_data.specs.Refs.{ref_content_of};
ghost use Rattle.xls_shown.specs.Shown.{Gains};
ghost use Rattle.xls_view.specs.Values.{formatted_entry};
ghost use Rattle.xls_cell_formats.specs.CellCodes.{built_in_or_general, code_of_identifier, code_of_xf};
ghost use Rattle.xls_cell_formats.specs.Cells.{classed_cell};
ghost use Rattle.xls_cell_formats.specs.Contents.{IsContentShown};
ghost use Rattle.xls_cell_formats.specs.Kept.{AreKept, AreLast};
ghost use Rattle.xls_cell_formats.specs.Numbers.{content_under};

use crate::contents::push_content;
use crate::kept::KeptFormats;
use crate::numbers::{numeric_under, numeric_under_code};
use crate::places::{last_code, last_places};
use std::alloc::{AllocError, Global};
use std::marker::Model;
use xls_data::{DataRef, Numeric};
use xls_number_formats::built_in_code;
use xls_shown::ShownFormat;
use xls_view::{CellValue, SheetCell, View};

/// The code of a built-in format, and `General` where the identifier has none.
fn built_in_or_general(identifier: u16) -> &'static str
    ensures { result.now ≡ built_in_or_general identifier }
{
    match built_in_code(identifier) {
        Some(code) => code,
        None => "General",
    }
}

/// The code of a format identifier, by the places of the last Format records.
fn code_of_identifier<'v>(view: &'v View<'v>, places: &[usize], identifier: u16) -> &'v str
    requires { AreLast view.now.codes view.now.codes places.now }
    ensures { chars result.now ≡ code_of_identifier view.now.codes identifier }
{
    match last_code(view.codes(), places, identifier) {
        Some(code) => code,
        None => built_in_or_general(identifier),
    }
}

/// The place of the last Format record of each identifier.
fn places_of(alloc: Global, view: &View<'_>) -> Result<Vec<usize>, AllocError>
    ensures { IfOk result (λ places. AreLast view.now.codes view.now.codes places.items) }
{
    last_places(alloc, view.codes())
}

/// The number formats of a workbook's cells. The code of each that an XF record names is read once, and borrowed from
/// the view: so much memory is taken as the codes in use have items. Contracts see the view.
#[derive(Drop)]
pub struct CellFormats<'v> {
    alloc: Global,
    view: &'v View<'v>,
    /// The place of the last Format record of each identifier, from 1 on, and 0 where it has none.
    places: Vec<usize>,
    kept: KeptFormats<'v>,
}

impl<'v> Model for CellFormats<'v> {
    ghost use Rattle.xls_view.specs.Viewing.{Viewed};
    ghost use Rattle.xls_cell_formats.specs.CellCodes.{code_of_identifier};
    ghost use Rattle.xls_cell_formats.specs.Kept.{AreKept, AreLast};

    ghost Value = { Viewed };

    ghost view = { λ f. f.view.now };

    ghost invariant = { λ f. AreLast f.view.now.codes f.view.now.codes f.places.items
        × AreKept (code_of_identifier f.view.now.codes) f.kept.places.items f.kept.formats.items };
}

/// Keeps the format of an identifier, if it isn't kept yet.
fn keep<'v>(
    alloc: Global,
    kept: &mut KeptFormats<'v>,
    view: &'v View<'v>,
    places: &[usize],
    identifier: u16,
) -> Result<(), AllocError>
    requires { AreLast view.now.codes view.now.codes places.now }
    ensures { OnOk result (AreKept (code_of_identifier view.now.codes) kept.old.places.items kept.old.formats.items
        → AreKept (code_of_identifier view.now.codes) kept.new.places.items kept.new.formats.items) }
{
    match kept.get(identifier) {
        Some(_) => Ok(()),
        None => kept.keep(
            alloc,
            identifier,
            code_of_identifier(view, places, identifier),
        ),
    }
}

/// The formats of all XF records, each once, and that of a cell without one.
fn keep_all<'v>(
    alloc: Global,
    view: &'v View<'v>,
    places: &[usize],
) -> Result<KeptFormats<'v>, AllocError>
    requires { AreLast view.now.codes view.now.codes places.now }
    ensures { IfOk result (λ kept. AreKept (code_of_identifier view.now.codes) kept.places.items kept.formats.items) }
{
    let mut kept = KeptFormats::new(alloc);
    keep(alloc, &mut kept, view, places, 0)?;
    'identifiers: for identifier in view.identifiers() {
        keep(alloc, &mut kept, view, places, *identifier)?;
    }
    Ok(kept)
}

impl<'v> CellFormats<'v> {
    /// The formats of the cells of a view. Only running out of memory refuses.
    pub fn new(alloc: Global, view: &'v View<'v>) -> Result<CellFormats<'v>, AllocError>
        ensures { IfOk result (λ formats. formats ≡ view.now) }
    {
        let places = places_of(alloc, view)?;
        let kept = keep_all(alloc, view, &places)?;
        Ok(CellFormats {
            alloc,
            view,
            places,
            kept,
        })
    }

    /// The view whose cells they are of. Takes no memory.
    pub fn view(&self) -> &'v View<'v>
        ensures { result.now ≡ self.now }
    {
        self.view
    }

    /// The code of an XF index: that of the last Format record with the format identifier of its XF record, else the
    /// built-in one, else `General`. An index without an XF record has identifier 0. Takes no memory.
    pub fn code(&self, xf: u16) -> &'v str
        ensures { chars result.now ≡ code_of_xf self.now.codes self.now.identifiers xf }
    {
        code_of_identifier(self.view, &self.places, self.view.identifier_of(xf))
    }

    /// Appends what Excel shows of a content in a cell of this XF index, in the workbook's date system, as
    /// `push_content` does. Only running out of memory refuses, and then the text is as it was.
    pub fn push_shown(
        &self,
        xf: u16,
        value: &DataRef<'_>,
        buf: &mut String,
    ) -> Result<(), AllocError>
        ensures ok { OnOk result (Gains (IsContentShown (code_of_xf self.now.codes self.now.identifiers xf)
            self.now.book.is_1904 (ref_content_of value.now)) (chars (string_bytes buf.old)) (chars (string_bytes buf.new))) }
        ensures err { OnErr result (string_bytes buf.new ≡ string_bytes buf.old) }
    {
        let is_1904 = self.view.has_1904_epoch();
        let identifier = self.view.identifier_of(xf);
        match self.kept.get(identifier) {
            Some(format) => push_content(format, value, is_1904, buf),
            None => {
                let code = code_of_identifier(self.view, &self.places, identifier);
                let format = ShownFormat::new(self.alloc, code)?;
                push_content(&format, value, is_1904, buf)
            }
        }
    }

    /// A number in a cell of this XF index, with the class that it has under the cell's code.
    #[inline(always)]
    fn number_under(&self, xf: u16, number: Numeric) -> Numeric
        ensures { numeric_content result ≡ content_under (code_of_xf self.now.codes self.now.identifiers xf)
            self.now.book.is_1904 (numeric_content number) }
    {
        let is_1904 = self.view.has_1904_epoch();
        let identifier = self.view.identifier_of(xf);
        match self.kept.get(identifier) {
            Some(format) => numeric_under(format, number, is_1904),
            None => {
                let code = code_of_identifier(self.view, &self.places, identifier);
                numeric_under_code(code, number, is_1904)
            }
        }
    }

    /// A cell whose number, if it holds one, is a date, a duration or a number as the code of its format says,
    /// whatever class it was given. Takes no memory.
    #[inline(always)]
    pub fn classed<'c>(&self, cell: SheetCell<'c>) -> SheetCell<'c>
        ensures { formatted_entry result ≡ classed_cell self.now (formatted_entry cell.entry) }
    {
        let CellValue::Number(number) = cell.value else {
            return cell;
        };
        SheetCell {
            row: cell.row,
            column: cell.column,
            xf: cell.xf,
            value: CellValue::Number(self.number_under(cell.xf, number)),
        }
    }
}
