//! The fields of the records that hold a formula for a range of cells.

ghost use Rattle.std.specs.Prelude.{◌≡◌, ◌≤◌, ◌+◌, length};
ghost use Rattle.xls_shared_formulas.specs.Fields as fields;
ghost use Rattle.xls_shared_formulas.specs.Found.{has_line, is_table};

use crate::types::{ARRAY, EARLY_SHR_FMLA, SHR_FMLA, TABLE};
use xls_bodies::Body;
use xls_ptg::word_at;
use xls_record::{Biff, is_biff8};

/// What a record holds for the cells of its range.
#[derive(Clone, Copy, Debug, PartialEq, Eq)]
pub enum FormulaKind {
    /// ShrFmla: one formula, of which each cell has its own copy.
    Shared,
    /// Array: one formula, of whose result each cell has a part.
    Array,
    /// Table: a data table.
    Table,
}

impl FormulaKind {
    /// Whether it is a data table.
    pub(crate) fn is_table(self) -> bool
        ensures { result ≡ is_table self }
    {
        matches!(self, FormulaKind::Table)
    }

    /// Whether it is told in a line of its own.
    pub(crate) fn has_line(self) -> bool
        ensures { result ≡ has_line self }
    {
        !matches!(self, FormulaKind::Shared)
    }
}

/// A cell by its row and column from 0.
#[derive(Clone, Copy, Debug, PartialEq, Eq)]
pub struct CellPlace {
    pub row: u16,
    pub column: u16,
}

/// A range of cells by its first and last row and column from 0 ([MS-XLS] RefU).
#[derive(Clone, Copy, Debug, PartialEq, Eq)]
pub struct CellRange {
    pub first_row: u16,
    pub last_row: u16,
    pub first_column: u8,
    pub last_column: u8,
}

impl CellRange {
    /// Whether a cell is in it.
    pub fn holds(&self, cell: CellPlace) -> bool
        ensures { result ≡ fields.holds self.now cell }
    {
        self.first_row <= cell.row
            && cell.row <= self.last_row
            && u16::from(self.first_column) <= cell.column
            && cell.column <= u16::from(self.last_column)
    }
}

/// What the records of a type hold, if it is one of these.
pub(crate) fn kind_of(version: Biff, typ: u16) -> Option<FormulaKind>
    ensures { result ≡ fields.kind_of version typ }
{
    match typ {
        SHR_FMLA => Some(FormulaKind::Shared),
        EARLY_SHR_FMLA if !is_biff8(version) => Some(FormulaKind::Shared),
        ARRAY => Some(FormulaKind::Array),
        TABLE => Some(FormulaKind::Table),
        _ => None,
    }
}

/// How many bytes stand before the tokens of a record, or are all of a Table.
pub(crate) fn least_size(kind: FormulaKind) -> usize
    ensures exact { result ≡ fields.least_size kind }
    ensures range { 6 ≤ result }
{
    match kind {
        FormulaKind::Shared => 10,
        FormulaKind::Array => 14,
        FormulaKind::Table => 16,
    }
}

/// The cell of a Formula record; none where its row and column aren't there.
pub(crate) fn formula_cell(body: &[u8]) -> Option<CellPlace>
    ensures { result ≡ fields.formula_cell body.now }
{
    if body.len() < 4 {
        return None;
    }
    Some(CellPlace {
        row: word_at(body, 0),
        column: word_at(body, 2),
    })
}

/// The range that a body begins with, where it has so many bytes or more.
pub(crate) fn range_in(body: Body<'_>, least: usize) -> Option<CellRange>
    requires { 6 ≤ least }
    ensures { result ≡ fields.range_in least body.entry }
{
    let mut left = body;
    let first_row = left.take_word()?;
    let last_row = left.take_word()?;
    let first_column = left.take_byte()?;
    let last_column = left.take_byte()?;
    if !left.skip(least - 6) {
        return None;
    }
    Some(CellRange {
        first_row,
        last_row,
        first_column,
        last_column,
    })
}
