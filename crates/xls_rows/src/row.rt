//! One row of a range, as it is read.

ghost use Rattle.std.specs.Prelude.{◌≡◌, ◌<◌, ℕ, List, [], ◌∷◌, Option, Some, MatchOption, IfSome, All, length, slice_get};
ghost use Rattle.std.specs.Option.{option_map};
ghost use Rattle.xls_rows.specs.HeaderTexts.{header_texts};
ghost use Rattle.xls_rows.specs.Rows.{header_at};
ghost use Rattle.xls_rows.specs.Readers.{is_empty_cell};
ghost use Rattle.xls_rows.specs.Filled.{IsFirstFilled};

use crate::{DeError, ReadCell};
use std::marker::Model;

/// A row of cells that is read from its first cell on. It exposes the cells of some columns, in the
/// order of their indexes, and may know a header for each column. Contracts see the exposed cells
/// that are left, the cell that is kept for its value, and the position.
#[derive(Debug, Drop)]
pub struct RowDeserializer<'h, 'c, T> {
    column_indexes: &'h [usize],
    headers: Option<&'h [String]>,
    cells: &'c [T],
    kept: Option<&'c T>,
    pos: (u32, u32),
}

impl<'h, 'c, T> Model for RowDeserializer<'h, 'c, T> {
    ghost use Rattle.std.specs.Prelude.{is_some};
    ghost use Rattle.std.specs.Option.{option_copied};
    ghost use Rattle.xls_rows.specs.HeaderTexts.{header_texts};
    ghost use Rattle.xls_rows.specs.Rows.{Row, exposed_of, AreWithin};

    ghost Value = { Row T };

    ghost view = { λ r. record {
      exposed = exposed_of (header_texts r.headers) r.cells.now r.column_indexes.now;
      kept = option_copied r.kept;
      named = is_some r.headers;
      place = r.pos;
    } };

    ghost invariant = { λ r.
        AreWithin (header_texts r.headers) r.cells.now r.column_indexes.now };
}

impl<'h, 'c, T> RowDeserializer<'h, 'c, T> {
    ghost use Rattle.std.specs.Prelude.{◌≡◌, IsTrue, None, []};
    ghost use Rattle.std.specs.Option.{option_copied};
    ghost use Rattle.xls_rows.specs.HeaderTexts.{header_texts};
    ghost use Rattle.xls_rows.specs.Rows.{row_of, AreWithin, first_value, after_cell};
    ghost use Rattle.xls_rows.specs.Rows.{kept_or_end, ok_copied};

    /// The row of some cells. Each index is below the number of cells and, with headers, below
    /// theirs. The position is the row's number and the range's first column.
    pub fn new(
        column_indexes: &'h [usize],
        headers: Option<&'h [String]>,
        cells: &'c [T],
        pos: (u32, u32),
    ) -> Self
        requires { AreWithin (header_texts headers) cells.now column_indexes.now }
        ensures { result
            ≡ row_of (header_texts headers.entry) column_indexes.now cells.now pos }
    {
        RowDeserializer {
            column_indexes,
            headers,
            cells,
            kept: None,
            pos,
        }
    }

    /// Whether the columns have headers.
    pub fn has_headers(&self) -> bool
        ensures { result ≡ self.now.named }
    {
        self.headers.is_some()
    }

    /// The row's number and the range's first column.
    pub fn position(&self) -> (u32, u32)
        ensures { result ≡ self.now.place }
    {
        self.pos
    }

    /// The next exposed cell; `None` where none is left.
    pub fn next_cell(&mut self) -> Option<&'c T>
        ensures cell { option_copied result ≡ first_value self.old.exposed }
        ensures row { self.new ≡ after_cell self.old }
    {
        match first_index(self.column_indexes) {
            None => None,
            Some((first, others)) => {
                self.column_indexes = others;
                Some(cell_of(self.cells, first))
            }
        }
    }

    /// The cell that `next_key` kept, which is then forgotten; `UnexpectedEndOfRow` exactly where
    /// none is kept.
    pub fn next_value(&mut self) -> Result<&'c T, DeError>
        ensures value { ok_copied result ≡ kept_or_end self.old.place self.old.kept }
        ensures row { self.new ≡ record self.old { kept = None } }
    {
        match self.kept.take() {
            Some(cell) => Ok(cell),
            None => Err(DeError::UnexpectedEndOfRow { pos: self.pos }),
        }
    }

    // The same row, to be read apart.
    pub(crate) fn rest(&self) -> RowDeserializer<'h, 'c, T>
        ensures { result ≡ self.now }
    {
        RowDeserializer {
            column_indexes: self.column_indexes,
            headers: self.headers,
            cells: self.cells,
            kept: self.kept,
            pos: self.pos,
        }
    }

    // Passes over all cells that are left.
    pub(crate) fn finish(&mut self)
        ensures { self.new ≡ record self.old { exposed = [] } }
    {
        self.column_indexes = &[];
    }
}

impl<'h, 'c, T: ReadCell> RowDeserializer<'h, 'c, T> {
    ghost use Rattle.std.specs.Prelude.{◌≡◌, IsTrue, IsNone, ◌↔◌, []};
    ghost use Rattle.std.specs.Option.{option_map};
    ghost use Rattle.xls_rows.specs.Readers.{is_empty_cell};
    ghost use Rattle.xls_rows.specs.Rows.{from_filled, first_header, after_key};

    /// The header of the next exposed cell that is not empty, and that cell is kept; `None` where
    /// no such cell is left.
    pub fn next_key(&mut self) -> Option<&'h str>
        requires { IsTrue self.old.named }
        ensures none { IsNone result
            ↔ (from_filled (λ x. is_empty_cell (T.content x)) self.old.exposed ≡ []) }
        ensures key { option_map (λ s. s.now) result
            ≡ first_header (from_filled (λ x. is_empty_cell (T.content x)) self.old.exposed) }
        ensures row { self.new ≡ after_key (λ x. is_empty_cell (T.content x)) self.old }
    {
        match first_filled(self.cells, self.column_indexes) {
            None => {
                self.column_indexes = &[];
                None
            }
            Some((first, cell, others)) => {
                self.column_indexes = others;
                self.kept = Some(cell);
                header_of(self.headers, first)
            }
        }
    }
}

// The first of some columns, and the others.
fn first_index(column_indexes: &[usize]) -> Option<(usize, &[usize])>
    ensures { MatchOption result (column_indexes.now ≡ [])
        (λ p. column_indexes.now ≡ p.0 ∷ p.1.now) }
{
    match column_indexes.split_first() {
        Some((first, others)) => Some((*first, others)),
        None => None,
    }
}

// The cell of a column.
fn cell_of<T>(cells: &[T], i: usize) -> &T
    requires { i < length cells.now }
    ensures { slice_get cells.now i ≡ Some result.now }
{
    &cells[i]
}

// The header of a column, where there are headers.
#[tactic(auto, using(std::proofs::lemmas::Grind::common_steps, crate::proofs::RowLemmas::text_of_header))]
fn header_of<'h>(headers: Option<&'h [String]>, i: usize) -> Option<&'h str>
    ensures { option_map (λ s. s.now) result ≡ header_at (header_texts headers.entry) i }
{
    match headers {
        None => None,
        Some(headers) => match headers.get(i) {
            None => None,
            Some(header) => Some(header.as_str()),
        },
    }
}

// The first of some columns whose cell is not empty, that cell, and the columns after it.
fn first_filled<'i, 'c, T: ReadCell>(
    cells: &'c [T],
    column_indexes: &'i [usize],
) -> Option<(usize, &'c T, &'i [usize])>
    requires { All (λ k. k < length cells.now) column_indexes.now }
    ensures filled { (headers : Option (List (List ℕ))) → IsFirstFilled
        (λ x. is_empty_cell (T.content x)) headers cells.now column_indexes.now result }
    ensures within { (n : ℕ) → All (λ k. k < n) column_indexes.now
        → IfSome result (λ p. (p.0 < n) × All (λ k. k < n) p.2.now) }
{
    let mut indexes = column_indexes;
    while let Some((first, others)) = first_index(indexes) {
        let cell = cell_of(cells, first);
        if !cell.is_empty() {
            return Some((first, cell, others));
        }
        indexes = others;
    }
    None
}
