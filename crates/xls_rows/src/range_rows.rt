//! The rows of a range, each read as a value.

ghost use Rattle.std.specs.Prelude.{◌≡◌, Some, IfSome, length};
ghost use Rattle.std.specs.Iterator.{item_count, UpTo};
ghost use Rattle.std.specs.Iterator.SizeHint.{IsWithinCount};
ghost use Rattle.xls_rows.specs.Answers.{AnswersFirst};
ghost use Rattle.xls_rows.specs.HeaderTexts.{header_texts, owned_texts};

use crate::row::RowDeserializer;
use crate::{DeError, FromRow, ReadCell};
use std::marker::{Model, PhantomData};
use xls_range::Rows;

/// Goes over the rows of a range, and answers for each what it is read as, or why it is not. After
/// an error it goes on with the next row. Contracts see the rows that are left.
#[derive(Debug, Drop)]
pub struct RangeDeserializer<'c, T, D> {
    column_indexes: Vec<usize>,
    headers: Option<Vec<String>>,
    rows: Rows<'c, T>,
    row: usize,
    left: u32,
    answers: PhantomData<D>,
}

impl<'c, T, D> Model for RangeDeserializer<'c, T, D> {
    ghost use Rattle.std.specs.Prelude.{◌+◌, ◌^◌, ◌≤◌, List, All, length};
    ghost use Rattle.xls_rows.specs.HeaderTexts.{owned_texts};
    ghost use Rattle.xls_rows.specs.Rows.{Row, AreWithin};
    ghost use Rattle.xls_rows.specs.Ranges.{rows_from};

    ghost Value = { List (Row T) };

    ghost view = { λ r.
        rows_from (owned_texts r.headers) r.column_indexes.items r.row r.left r.rows };

    ghost invariant = { λ r.
        All (λ cells. AreWithin (owned_texts r.headers) cells r.column_indexes.items) r.rows
        × (r.row + length r.rows ≤ 2 ^ 32) };
}

impl<'c, T, D> RangeDeserializer<'c, T, D> {
    ghost use Rattle.std.specs.Prelude.{◌≡◌, ◌+◌, ◌^◌, ◌≤◌, All, length};
    ghost use Rattle.xls_rows.specs.HeaderTexts.{owned_texts};
    ghost use Rattle.xls_rows.specs.Rows.{AreWithin};
    ghost use Rattle.xls_rows.specs.Ranges.{rows_from};

    pub(crate) fn new(
        column_indexes: Vec<usize>,
        headers: Option<Vec<String>>,
        rows: Rows<'c, T>,
        row: usize,
        left: u32,
    ) -> RangeDeserializer<'c, T, D>
        requires within { All
            (λ cells. AreWithin (owned_texts headers) cells column_indexes.items) rows }
        requires count { row + length rows ≤ 2 ^ 32 }
        ensures { result
            ≡ rows_from (owned_texts headers) column_indexes.items row left rows.entry }
    {
        RangeDeserializer {
            column_indexes,
            headers,
            rows,
            row,
            left,
            answers: PhantomData,
        }
    }
}

impl<'c, T: ReadCell, D: FromRow> Iterator for RangeDeserializer<'c, T, D> {
    type Item = Result<D, DeError>;

    ghost next_gives = { λ rows answer rest.
        AnswersFirst (D.answers T T.content) rows answer rest };

    ghost remaining = { item_count (λ rows. rows) };

    fn next(&mut self) -> Option<Result<D, DeError>> {
        let cells = self.rows.next()?;
        let pos = (self.row as u32, self.left);
        self.row += 1;
        let headers = header_slice(&self.headers);
        let alloc = *self.column_indexes.allocator();
        let mut row = RowDeserializer::new(self.column_indexes.as_slice(), headers, cells, pos);
        Some(D::from_row(alloc, &mut row))
    }

    fn size_hint(&self) -> (usize, Option<usize>)
        ensures lower { IsWithinCount result.0 (item_count (λ rows. rows) self.now) }
        ensures upper { IfSome result.1 (UpTo (item_count (λ rows. rows) self.now)) }
        ensures value { result ≡ (length self.now, Some (length self.now)) }
    {
        self.rows.size_hint()
    }
}

// The headers as a slice, where there are headers.
fn header_slice(headers: &Option<Vec<String>>) -> Option<&[String]>
    ensures { header_texts result ≡ owned_texts headers.now }
{
    match headers {
        Some(headers) => Some(headers.as_slice()),
        None => None,
    }
}
