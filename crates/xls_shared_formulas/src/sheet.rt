//! The formulas of ranges of a sheet, by the cells to which they belong.

ghost use Rattle.std.specs.Prelude.{◌≡◌, ◌<◌, ◌+◌, ◌^◌, IfOk, IsTrue, length};
ghost use Rattle.xls_bodies.specs.Bodies.{body_of, bytes_of};
ghost use Rattle.xls_shared_formulas.specs.Found.{IsReadFrom, counts, formula_for, formulas_of, last_for, lines_in, table_for, tables_of};

use crate::fields::CellPlace;
use crate::found::{RangeFormula, last_at, sort};
use crate::walk::RangeFormulas;
use std::alloc::{AllocError, Global};
use std::marker::Model;
use xls_bodies::{Bytes, body_of};
use xls_record::Biff;
use xls_shown_ptg::Fault;

/// The formulas of ranges of a sheet, 24 bytes each. Contracts see those of shared formulas and arrays, and the tables, in
/// the order of the cells to which they belong.
#[derive(Drop)]
pub struct SheetFormulas<'a> {
    part: &'a [u8],
    offset: u64,
    version: Biff,
    formulas: Vec<RangeFormula>,
    tables: Vec<RangeFormula>,
}

impl<'a> Model for SheetFormulas<'a> {
    ghost use Rattle.std.specs.Prelude.{◌+◌, ◌<◌, ◌^◌, length};
    ghost use Rattle.std.specs.List.Sorted.{IsNonDecreasingBy};
    ghost use Rattle.xls_shared_formulas.specs.Found.{Known, anchor_number};

    ghost Value = { Known };

    ghost view = { λ s. record {
      version = s.version;
      offset = s.offset;
      part = s.part.now;
      formulas = s.formulas.items;
      tables = s.tables.items;
    } };

    ghost invariant = { λ s. IsNonDecreasingBy anchor_number s.formulas.items × IsNonDecreasingBy anchor_number s.tables.items
        × (s.offset + length s.part.now < 2 ^ 64) };
}

/// Formulas of ranges, apart from tables, in the order of the stream.
#[derive(Drop)]
struct Sorts {
    formulas: Vec<RangeFormula>,
    tables: Vec<RangeFormula>,
}

/// All formulas of a sheet by their sorts.
fn read_sorts(alloc: Global, walk: RangeFormulas<'_>) -> Result<Sorts, AllocError>
    ensures formulas { IfOk result (λ sorts. sorts.formulas.items ≡ formulas_of walk.entry) }
    ensures tables { IfOk result (λ sorts. sorts.tables.items ≡ tables_of walk.entry) }
{
    let mut formulas = Vec::new(alloc);
    let mut tables = Vec::new(alloc);
    'formulas: for formula in walk {
        if formula.kind.is_table() {
            tables.push(formula)?;
        } else {
            formulas.push(formula)?;
        }
    }
    Ok(Sorts { formulas, tables })
}

impl<'a> SheetFormulas<'a> {
    /// Reads those of the sheet whose part begins with the first byte, which stands at this offset of the stream. Only
    /// running out of memory refuses.
    pub fn read(
        alloc: Global,
        part: &'a [u8],
        offset: u64,
        version: Biff,
    ) -> Result<SheetFormulas<'a>, AllocError>
        requires { offset + length part.now < 2 ^ 64 }
        ensures { IfOk result (IsReadFrom version offset part.now) }
    {
        let Sorts {
            mut formulas,
            mut tables,
        } = read_sorts(alloc, RangeFormulas::new(part, offset, version))?;
        sort(&mut formulas)?;
        sort(&mut tables)?;
        Ok(SheetFormulas {
            part,
            offset,
            version,
            formulas,
            tables,
        })
    }

    /// The shared formula or array to which the token 01 (PtgExp) of a cell points: the last of the token's cell, if its range
    /// holds the one that has the token; else `NoFormula`. Takes logarithmic time.
    pub fn formula_for(&self, token: CellPlace, cell: CellPlace) -> Result<RangeFormula, Fault>
        ensures { result ≡ formula_for self.now.formulas token cell }
    {
        match last_at(&self.formulas, token) {
            Some(found) if found.range.holds(cell) => Ok(found),
            _ => Err(Fault::NoFormula {
                row: token.row,
                column: token.column,
            }),
        }
    }

    /// The table to which the token 02 (PtgTbl) of a cell points: the last of the token's cell, if its range holds the one
    /// that has the token; else `NoTable`. Takes logarithmic time.
    pub fn table_for(&self, token: CellPlace, cell: CellPlace) -> Result<RangeFormula, Fault>
        ensures { result ≡ table_for self.now.tables token cell }
    {
        match last_at(&self.tables, token) {
            Some(found) if found.range.holds(cell) => Ok(found),
            _ => Err(Fault::NoTable {
                row: token.row,
                column: token.column,
            }),
        }
    }

    /// The last formula of the same cell, which counts: among shared formulas and arrays, or among tables.
    fn last_for(&self, formula: &RangeFormula) -> Option<RangeFormula>
        ensures { result ≡ last_for self.now formula.now }
    {
        if formula.kind.is_table() {
            last_at(&self.tables, formula.anchor)
        } else {
            last_at(&self.formulas, formula.anchor)
        }
    }

    /// Whether a formula of the sheet counts: no later one belongs to its cell, of shared formulas and arrays, or of tables.
    /// Takes logarithmic time.
    pub fn counts(&self, formula: &RangeFormula) -> bool
        ensures { result ≡ counts self.now formula.now }
    {
        match self.last_for(formula) {
            Some(last) => last.offset == formula.offset,
            None => false,
        }
    }

    /// The bytes of the record that holds a formula, with those of the Continue records directly behind it, by which
    /// `contents_of` answers. Borrowed where there are none; else only running out of memory refuses.
    pub fn bytes_of(&self, alloc: Global, formula: &RangeFormula) -> Result<Bytes<'a>, AllocError>
        ensures { IfOk result (λ bytes. bytes_of bytes ≡ body_of self.now.offset self.now.part formula.now.offset) }
    {
        body_of(self.part, self.offset, formula.offset).into_bytes(alloc)
    }

    /// The arrays and tables that count, in the order of the stream, which is walked once more. Takes no memory.
    pub fn lines(&'a self) -> RangeLines<'a>
        ensures { result ≡ lines_in self.now }
    {
        RangeLines {
            known: self,
            walk: RangeFormulas::new(self.part, self.offset, self.version),
        }
    }
}

/// The arrays and tables that count. Contracts see the list of those that are left.
#[derive(Drop)]
pub struct RangeLines<'a> {
    known: &'a SheetFormulas<'a>,
    walk: RangeFormulas<'a>,
}

impl<'a> Model for RangeLines<'a> {
    ghost use Rattle.std.specs.Prelude.{List};
    ghost use Rattle.xls_shared_formulas.specs.Found.{lines_from};
    ghost use Rattle.xls_shared_formulas.specs.declared.found.RangeFormula.{RangeFormula};

    ghost Value = { List RangeFormula };

    ghost view = { λ s. lines_from s.known.now s.walk };
}

impl<'a> Iterator for RangeLines<'a> {
    ghost use Rattle.std.specs.Prelude.{length};
    ghost use Rattle.std.specs.Iterator.{at_most};
    ghost use Rattle.xls_parts.specs.Steps.{Steps};

    type Item = RangeFormula;

    ghost next_gives = { Steps };

    ghost remaining = { λ lines. at_most (length lines) };

    fn next(&mut self) -> Option<RangeFormula> {
        'formulas: while let Some(formula) = self.walk.next() {
            if formula.kind.has_line() && self.known.counts(&formula) {
                return Some(formula);
            }
        }
        None
    }
}
