//! The formulas of a sheet.

ghost use Rattle.std.specs.Prelude.{◌≡◌, ◌<◌, ◌+◌, ◌^◌, ◌++◌, IfOk, length, false};
ghost use Rattle.std.specs.Str.{chars};
ghost use Rattle.xls_shared_formulas.specs.Contents.{bytes_view, contents_view};
ghost use Rattle.xls_bodies.specs.Bodies.{body_of, bytes_of};
ghost use Rattle.xls_shared_formulas.specs.Found.{formula_for, lines_in, table_for};
ghost use Rattle.xls_shown_ptg.specs.Reading.{gives};
ghost use Rattle.xls_formula_shown.specs.Scope.{scope_of};
ghost use Rattle.xls_formula_shown.specs.Steps.{Tells};
ghost use Rattle.xls_shown_formulas.specs.Books as books;
ghost use Rattle.xls_shown_formulas.specs.Refusals.{told_of_cell};
ghost use Rattle.xls_shown_formulas.specs.Sheets as specs;
ghost use Rattle.xls_shown_formulas.specs.Workbooks.{places_in};

use crate::book::ShownBook;
use crate::buffer::ShownBuffer;
use crate::texts::nothing;
use std::alloc::{AllocError, Global};
use std::marker::Model;
use xls_bodies::Bytes;
use xls_formula_books::{FormulaBooks, Here};
use xls_formula_cells::{FormulaPlace, FormulaPlaceIter, FormulaPlaces, formula_contents};
use xls_formula_shown::Scope;
use xls_shared_formulas::{
    CellPlace, CellRange, Contents, FormulaBytes, FormulaKind, FormulaStart, RangeFormula,
    RangeLines, SheetFormulas, contents_of, read_start,
};
use xls_shown_ptg::Fault;

/// The formulas of a sheet. Contracts see what they are read by.
#[derive(Drop)]
pub struct ShownSheet<'a> {
    book: &'a ShownBook<'a>,
    /// The sheet's number from 1.
    number: usize,
    /// Before BIFF8 other books by the records of the sheet's own, where it has some.
    own: Option<FormulaBooks>,
    known: SheetFormulas<'a>,
    places: FormulaPlaces<'a>,
}

impl<'a> Model for ShownSheet<'a> {
    ghost use Rattle.std.specs.Prelude.{◌≡◌};
    ghost use Rattle.std.specs.Option.{option_map};
    ghost use Rattle.xls_parts.specs.PartRecords.{own_records};
    ghost use Rattle.xls_shared_formulas.specs.Found.{IsReadFrom};
    ghost use Rattle.xls_formula_cells.specs.Formulas.{places_of};
    ghost use Rattle.xls_shown_formulas.specs.Books.{here_by, or_books};
    ghost use Rattle.xls_shown_formulas.specs.Sheets.{Sheet, known_of};

    ghost Value = { Sheet };

    ghost view = { λ s. record {
      book = s.book.now;
      here = here_by s.book.now (or_books s.book.now.books (option_map (λ own. own) s.own)) s.number;
      known = known_of s.known.version s.known.offset s.known.part;
    } };

    ghost invariant = { λ s. IsReadFrom s.known.version s.known.offset s.known.part s.known
        × (s.places ≡ record {
          offset = s.known.offset;
          part = s.known.part;
          places = places_of (own_records s.known.offset s.known.part);
        }) };
}

/// The cell from which the offsets of a formula of a range count: of an array the first one of the range, else the one that has it.
pub fn place_in(kind: FormulaKind, range: CellRange, cell: CellPlace) -> CellPlace
    ensures { result ≡ specs.place_in kind range cell }
{
    match kind {
        FormulaKind::Array => CellPlace {
            row: range.first_row,
            column: u16::from(range.first_column),
        },
        _ => cell,
    }
}

/// What stands before the text of a formula of a range in a cell that points to it.
#[tactic(auto, unfolding(std::specs::Prelude::chars))]
fn opening(kind: FormulaKind) -> &'static str
    ensures { chars result.now ≡ specs.opening kind }
{
    match kind {
        FormulaKind::Shared => "",
        _ => "{=",
    }
}

/// What stands behind it.
#[tactic(auto, unfolding(std::specs::Prelude::chars))]
fn closing(kind: FormulaKind) -> &'static str
    ensures { chars result.now ≡ specs.closing kind }
{
    match kind {
        FormulaKind::Shared => "",
        _ => "}",
    }
}

impl<'a> ShownSheet<'a> {
    /// Reads those of the sheet of this number from 1, whose part begins with the first byte, which stands at this offset of the stream.
    pub(crate) fn read(
        alloc: Global,
        book: &'a ShownBook<'a>,
        number: usize,
        part: &'a [u8],
        offset: u64,
    ) -> Result<ShownSheet<'a>, AllocError>
        requires { offset + length part.now < 2 ^ 64 }
        ensures { IfOk result (λ s. s ≡ specs.sheet_of book.entry.now number offset part.entry.now) }
    {
        let version = book.version();
        let encoding = book.encoding();
        Ok(ShownSheet {
            book,
            number,
            own: FormulaBooks::read_own(alloc, part, offset, version, &encoding)?,
            known: SheetFormulas::read(alloc, part, offset, version)?,
            places: FormulaPlaces::read(alloc, part, offset)?,
        })
    }

    /// The workbook.
    pub fn book(&self) -> &'a ShownBook<'a>
        ensures { result.now ≡ self.now.book }
    {
        self.book
    }

    /// What the formulas of the sheet may name.
    pub fn here(&self) -> Here<'_>
        ensures { result ≡ self.now.here }
    {
        self.book.here(self.own.as_ref(), self.number)
    }

    /// The shared formula or array to which the token 01 (PtgExp) of a cell points; `NoFormula` where there is none.
    pub fn formula_for(&self, token: CellPlace, cell: CellPlace) -> Result<RangeFormula, Fault>
        ensures { result ≡ formula_for self.now.known.formulas token cell }
    {
        self.known.formula_for(token, cell)
    }

    /// The data table to which the token 02 (PtgTbl) of a cell points; `NoTable` where there is none.
    pub fn table_for(&self, token: CellPlace, cell: CellPlace) -> Result<RangeFormula, Fault>
        ensures { result ≡ table_for self.now.known.tables token cell }
    {
        self.known.table_for(token, cell)
    }

    /// The bytes of the record that holds a formula of a range, by which `xls_shared_formulas::contents_of` answers. Only running out of
    /// memory refuses.
    pub fn bytes_of(&self, alloc: Global, formula: &RangeFormula) -> Result<Bytes<'a>, AllocError>
        ensures { IfOk result (λ bytes. bytes_of bytes
            ≡ body_of self.now.known.offset self.now.known.part formula.now.offset) }
    {
        self.known.bytes_of(alloc, formula)
    }

    /// The body of the Formula record at a place, by which `xls_formula_cells::formula_contents` answers. Only running out of memory
    /// refuses.
    pub fn body_of(&self, alloc: Global, place: &FormulaPlace) -> Result<Bytes<'a>, AllocError>
        ensures { IfOk result (λ bytes. bytes_of bytes
            ≡ body_of self.now.known.offset self.now.known.part place.now.offset) }
    {
        self.places.body_of(alloc, place)
    }

    /// What the tokens of a formula are read by whose offsets count from a cell.
    fn scope(&self, at: CellPlace) -> Scope<'_>
        ensures { scope_of result ≡ books.scope self.now.book self.now.here false at }
    {
        self.book.scope(self.here(), false, at)
    }

    /// Writes the text of what a record holds behind `opening`, where offsets count from a cell.
    fn write_contents(
        &self,
        buffer: &mut ShownBuffer,
        opening: &str,
        at: CellPlace,
        contents: Contents<'_>,
    ) -> Result<(), Fault>
        ensures { Tells (λ u. buffer.new) result
            (gives (λ t. chars opening.now ++ t) (specs.content_text self.now at (contents_view contents.entry))) }
    {
        match contents {
            Contents::Formula(bytes) => buffer.write_tokens(&self.scope(at), opening, bytes),
            Contents::Table(inputs) => {
                buffer.write_table(opening, inputs)?;
                Ok(())
            }
        }
    }

    /// Writes the text of a formula of a range behind `opening`.
    fn write_range(
        &self,
        buffer: &mut ShownBuffer,
        opening: &str,
        cell: CellPlace,
        formula: &RangeFormula,
    ) -> Result<(), Fault>
        ensures { Tells (λ u. buffer.new) result
            (gives (λ t. chars opening.now ++ t) (specs.range_text self.now cell formula.now)) }
    {
        let record = self.known.bytes_of(buffer.allocator(), formula)?;
        let contents = contents_of(formula.kind, record.as_slice())?;
        let at = place_in(formula.kind, formula.range, cell);
        self.write_contents(buffer, opening, at, contents)
    }

    /// Writes the text of a formula of a range to which a cell points: of an array or a table in braces.
    fn write_pointed(
        &self,
        buffer: &mut ShownBuffer,
        cell: CellPlace,
        formula: &RangeFormula,
    ) -> Result<(), Fault>
        ensures { Tells (λ u. buffer.new) result (specs.pointed_text self.now cell formula.now) }
    {
        self.write_range(buffer, opening(formula.kind), cell, formula)?;
        buffer.push(closing(formula.kind))?;
        Ok(())
    }

    /// Writes the text of the tokens of a cell.
    fn write_cell(
        &self,
        buffer: &mut ShownBuffer,
        cell: CellPlace,
        bytes: FormulaBytes<'_>,
    ) -> Result<(), Fault>
        ensures { Tells (λ u. buffer.new) result
            (specs.cell_text self.now cell (bytes_view bytes.entry).0 (bytes_view bytes.entry).1) }
    {
        match read_start(bytes.tokens)? {
            FormulaStart::Own => buffer.write_own(&self.scope(cell), bytes),
            FormulaStart::Exp(token) => {
                let formula = self.known.formula_for(token, cell)?;
                self.write_pointed(buffer, cell, &formula)
            }
            FormulaStart::Tbl(token) => {
                let formula = self.known.table_for(token, cell)?;
                self.write_pointed(buffer, cell, &formula)
            }
        }
    }

    /// Writes the text of a formula.
    fn write_formula(&self, buffer: &mut ShownBuffer, place: &FormulaPlace) -> Result<(), Fault>
        ensures { Tells (λ u. buffer.new) result (specs.text_at self.now place.now) }
    {
        let record = self.places.body_of(buffer.allocator(), place)?;
        let bytes = formula_contents(record.as_slice())?;
        let cell = CellPlace {
            row: place.row,
            column: place.column,
        };
        self.write_cell(buffer, cell, bytes)
    }

    /// The cells with formulas, by row and then by column, of two records of one cell the last. Takes no memory.
    pub fn formulas(&self) -> FormulaPlaceIter<'_>
        ensures { result ≡ places_in self.now }
    {
        self.places.iter()
    }

    /// The text of a cell's formula, one of `formulas`, made in a buffer in place of the one before: that of its tokens, that of the shared
    /// formula, array or data table to which they point, of these last two in braces, `{=A1:A3*2}`; or why it isn't spelled. Only running out
    /// of memory refuses.
    pub fn text_of<'b>(
        &self,
        buffer: &'b mut ShownBuffer,
        place: FormulaPlace,
    ) -> Result<&'b str, AllocError>
        ensures { IfOk result (λ text. chars text.now ≡ told_of_cell (specs.cell_of place) (specs.text_at self.now place)) }
    {
        let done = self.write_formula(buffer, &place);
        let cell = CellPlace {
            row: place.row,
            column: place.column,
        };
        buffer.told_of_cell(cell, done)
    }

    /// The arrays and data tables that count, in the order of the stream. Takes no memory.
    pub fn ranges(&'a self) -> RangeLines<'a>
        ensures { result ≡ lines_in self.entry.now.known }
    {
        self.known.lines()
    }

    /// The text of an array or a data table, one of `ranges`, made in a buffer in place of the one before: without braces, or why it isn't
    /// spelled. Only running out of memory refuses.
    pub fn range_text<'b>(
        &self,
        buffer: &'b mut ShownBuffer,
        formula: &RangeFormula,
    ) -> Result<&'b str, AllocError>
        ensures { IfOk result (λ text. chars text.now
            ≡ told_of_cell formula.now.anchor (specs.range_text self.now formula.now.anchor formula.now)) }
    {
        let done = self.write_range(buffer, nothing(), formula.anchor, formula);
        buffer.told_of_cell(formula.anchor, done)
    }
}
