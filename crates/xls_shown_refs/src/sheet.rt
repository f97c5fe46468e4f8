//! The cells that the formulas of a sheet cite.

ghost use Rattle.std.specs.Prelude.{◌≡◌, OnOk};
ghost use Rattle.xls_shared_formulas.specs.Contents.{bytes_view, contents_view};
ghost use Rattle.xls_shown_ptg.specs.Reading.{gives};
ghost use Rattle.xls_shown_refs.specs.Items.{or_none};
ghost use Rattle.xls_shown_refs.specs.Sheets as specs;

use crate::citations::Citations;
use crate::citing::Citing;
use std::alloc::AllocError;
use xls_formula_cells::{FormulaPlace, formula_contents};
use xls_formula_leaves::Place;
use xls_shared_formulas::{
    CellPlace, Contents, FormulaBytes, FormulaStart, RangeFormula, contents_of, read_start,
};
use xls_shown_formulas::{ShownSheet, place_in};
use xls_shown_ptg::Fault;

fn place_of(at: CellPlace) -> Place
    ensures { result ≡ specs.place_of at }
{
    Place {
        row: at.row,
        column: at.column,
    }
}

/// The formula of a cell, by what it cites cells.
fn citing<'a>(sheet: &'a ShownSheet<'a>, cell: CellPlace, at: CellPlace) -> Citing<'a>
    ensures { result ≡ specs.citing sheet.entry.now cell at }
{
    let book = sheet.book();
    Citing {
        biff: book.version(),
        cell: place_of(cell),
        place: place_of(at),
        here: sheet.here(),
        globals: book.books(),
        stream: book.stream(),
    }
}

impl<'a> Citations<'a> {
    /// The citations of what a record holds, for a cell, where its own offsets count from another one.
    fn read_contents(
        &mut self,
        sheet: &'a ShownSheet<'a>,
        cell: CellPlace,
        at: CellPlace,
        contents: Contents<'_>,
    ) -> Result<(), AllocError>
        ensures { OnOk result (self.new ≡ specs.content_citations sheet.entry.now cell at (contents_view contents.entry)) }
    {
        match contents {
            Contents::Formula(bytes) => {
                self.read(&citing(sheet, cell, at), bytes.tokens, bytes.extra)
            }
            Contents::Table(inputs) => self.read_table(&sheet.here(), inputs),
        }
    }

    /// Those of a formula of a range for a cell.
    fn read_range(
        &mut self,
        sheet: &'a ShownSheet<'a>,
        cell: CellPlace,
        formula: &RangeFormula,
    ) -> Result<(), AllocError>
        ensures { OnOk result (self.new ≡ specs.range_citations sheet.entry.now cell formula.now) }
    {
        let record = sheet.bytes_of(self.alloc, formula)?;
        let Ok(contents) = contents_of(formula.kind, record.as_slice()) else {
            self.clear();
            return Ok(());
        };
        let at = place_in(formula.kind, formula.range, cell);
        self.read_contents(sheet, cell, at, contents)
    }

    /// Those of the formula of a range to which a cell points; none where it points to none.
    fn read_pointed(
        &mut self,
        sheet: &'a ShownSheet<'a>,
        cell: CellPlace,
        found: Result<RangeFormula, Fault>,
    ) -> Result<(), AllocError>
        ensures { OnOk result (self.new ≡ or_none (gives (specs.range_citations sheet.entry.now cell) found)) }
    {
        match found {
            Ok(formula) => self.read_range(sheet, cell, &formula),
            Err(_) => {
                self.clear();
                Ok(())
            }
        }
    }

    /// Those of the tokens of a cell.
    fn read_cell(
        &mut self,
        sheet: &'a ShownSheet<'a>,
        cell: CellPlace,
        bytes: FormulaBytes<'_>,
    ) -> Result<(), AllocError>
        ensures { OnOk result (self.new
            ≡ specs.cell_citations sheet.entry.now cell (bytes_view bytes.entry).0 (bytes_view bytes.entry).1) }
    {
        match read_start(bytes.tokens) {
            Ok(FormulaStart::Own) => self.read(
                &citing(sheet, cell, cell),
                bytes.tokens,
                bytes.extra,
            ),
            Ok(FormulaStart::Exp(token)) => {
                self.read_pointed(sheet, cell, sheet.formula_for(token, cell))
            }
            Ok(FormulaStart::Tbl(token)) => {
                self.read_pointed(sheet, cell, sheet.table_for(token, cell))
            }
            Err(_) => {
                self.clear();
                Ok(())
            }
        }
    }

    /// The citations of a cell's formula, one of the sheet's `formulas`, in place of those before: those of its tokens, or of the shared
    /// formula, array or data table to which they point. Of an array all cells cite the same, but for the cells of names that count by offsets from the citing one, of a data table its inputs that are there. A
    /// formula that can't be spelled as Excel shows it cites nothing. Only running out of memory refuses, and then some may be left.
    pub fn read_at(
        &mut self,
        sheet: &'a ShownSheet<'a>,
        place: FormulaPlace,
    ) -> Result<(), AllocError>
        ensures { OnOk result (self.new ≡ specs.cited_at sheet.entry.now place) }
    {
        let record = sheet.body_of(self.alloc, &place)?;
        let Ok(bytes) = formula_contents(record.as_slice()) else {
            self.clear();
            return Ok(());
        };
        let cell = CellPlace {
            row: place.row,
            column: place.column,
        };
        self.read_cell(sheet, cell, bytes)
    }
}
