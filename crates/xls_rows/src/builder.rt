//! Which rows and columns of a range are read.

ghost use Rattle.std.specs.Prelude.{◌≡◌, ◌+◌, ◌^◌, ◌<◌, ◌≤◌, None, Ok, map, length, All, IfOk};
ghost use Rattle.std.specs.String.{string_bytes};
ghost use Rattle.xls_rows.specs.Choices.{every};
ghost use Rattle.xls_rows.specs.Columns.{numbers_from};
ghost use Rattle.xls_rows.specs.Readers.{text_read};
ghost use Rattle.xls_rows.specs.Refusals.{Gives};
ghost use Rattle.xls_rows.specs.Rows.{all_read};
ghost use Rattle.xls_rows.specs.Ranges.{choice_of, is_unnamed, columns_by};
ghost use Rattle.xls_rows.specs.Ranges.{rows_from, rows_after, rows_read};

use crate::columns::{all_columns, columns_with, texts_of};
use crate::range_rows::RangeDeserializer;
use crate::{DeError, FromRow, ReadCell};
use std::alloc::Global;
use xls_data::CellType;
use xls_range::{Range, Rows};

/// The headers of a range.
#[derive(Clone, Copy, Debug)]
pub enum Headers<'h> {
    /// There are none: each row is one of values.
    None,
    /// The first row is one of headers, and all columns are read.
    All,
    /// The first row is one of headers, and the columns with these are read, in this order.
    Custom(&'h [String]),
}

/// Makes the iterator over the rows of a range. Contracts see what it chose.
#[derive(Clone, Copy, Debug)]
pub struct RangeDeserializerBuilder<'h> {
    headers: Headers<'h>,
}

impl<'h> RangeDeserializerBuilder<'h> {
    ghost use Rattle.std.specs.Prelude.{◌≡◌, map, if◌then◌else◌};
    ghost use Rattle.std.specs.String.{string_bytes};
    ghost use Rattle.xls_rows.specs.Choices.{unnamed, every, wanted};
    ghost use Rattle.xls_rows.specs.Chosen.{chosen};
    ghost use Rattle.xls_rows.specs.Refusals.{Gives};
    ghost use Rattle.xls_rows.specs.Ranges.{rows_read};

    /// A builder with all headers of the first row.
    pub fn new() -> Self
        ensures { chosen result ≡ every }
    {
        RangeDeserializerBuilder {
            headers: Headers::All,
        }
    }

    /// Whether the first row is one of headers, of which all are read.
    pub fn has_headers(&mut self, yes: bool) -> &mut Self
        ensures same { result.ghost_name ≡ self.entry.ghost_name }
        ensures value { chosen result.now ≡ (if yes then every else unnamed) }
    {
        self.headers = if yes { Headers::All } else { Headers::None };
        self
    }

    /// A builder with these headers.
    pub fn with_headers(headers: &'h [String]) -> Self
        ensures { chosen result ≡ wanted (map string_bytes headers.now) }
    {
        RangeDeserializerBuilder {
            headers: Headers::Custom(headers),
        }
    }

    /// The rows of a range. `CellError` at the range's start for the first error cell of a row of
    /// headers; `HeaderNotFound` for the first wanted header, trimmed, that is in no column. An
    /// empty range gives no rows.
    pub fn from_range<'c, T: ReadCell, D: FromRow>(
        &self,
        alloc: Global,
        range: &'c Range<T>,
    ) -> Result<RangeDeserializer<'c, T, D>, DeError>
        ensures { Gives (λ rows. rows) result (rows_read (chosen self.now) T.content range.now) }
    {
        let (top, left) = first_position(range);
        let width = range.width();
        let mut rows = range.rows();
        if has_no_names(self.headers) {
            return unnamed_rows(alloc, rows, width, top as usize, left);
        }
        match rows.next() {
            None => Ok(RangeDeserializer::new(Vec::new(alloc), None, rows, 0, 0)),
            Some(first) => named_rows(alloc, self.headers, first, rows, (top, left)),
        }
    }
}

impl<'h> Default for RangeDeserializerBuilder<'h> {
    ghost use Rattle.std.specs.Prelude.{◌≡◌};
    ghost use Rattle.xls_rows.specs.Choices.{every};
    ghost use Rattle.xls_rows.specs.Chosen.{chosen};

    ghost is_default = { λ builder. chosen builder ≡ every };

    /// A builder with all headers of the first row.
    fn default() -> Self {
        RangeDeserializerBuilder::new()
    }
}

// The first row and the first column of a range.
fn first_position<T: CellType>(range: &Range<T>) -> (u32, u32)
    ensures { result ≡ (range.now.top, range.now.left) }
{
    let _size = range.get_size();
    match range.start() {
        Some(start) => start,
        None => (0, 0),
    }
}

// Whether there are no headers.
fn has_no_names(headers: Headers<'_>) -> bool
    ensures { result ≡ is_unnamed (choice_of headers.entry) }
{
    matches!(headers, Headers::None)
}

// The columns that are read, of as many as there are headers.
fn chosen_columns(
    alloc: Global,
    choice: Headers<'_>,
    width: usize,
    headers: &[String],
) -> Result<Vec<usize>, DeError>
    requires { length headers.now ≡ width }
    ensures value { Gives (λ v. v.items) result
        (columns_by (choice_of choice.entry) width (map string_bytes headers.now)) }
    ensures below { IfOk result (λ v. All (λ k. k < width) v.items) }
{
    match choice {
        Headers::Custom(names) => columns_with(alloc, headers, names),
        Headers::All => all_columns(alloc, width),
        Headers::None => all_columns(alloc, width),
    }
}

// All rows, with all columns.
fn unnamed_rows<'c, T, D>(
    alloc: Global,
    rows: Rows<'c, T>,
    width: usize,
    top: usize,
    left: u32,
) -> Result<RangeDeserializer<'c, T, D>, DeError>
    requires wide { All (λ row. length row ≡ width) rows }
    requires count { top + length rows ≤ 2 ^ 32 }
    ensures { Gives (λ rows. rows) result
        (Ok (rows_from None (numbers_from 0 width) top left rows.entry)) }
{
    match all_columns(alloc, width) {
        Ok(indexes) => Ok(RangeDeserializer::new(indexes, None, rows, top, left)),
        Err(e) => Err(e),
    }
}

// The rows after the first one, whose texts are headers.
fn named_rows<'c, T: ReadCell, D>(
    alloc: Global,
    choice: Headers<'_>,
    first: &[T],
    rows: Rows<'c, T>,
    start: (u32, u32),
) -> Result<RangeDeserializer<'c, T, D>, DeError>
    requires wide { All (λ row. length row ≡ length first.now) rows }
    requires count { start.0 + 1 + length rows ≤ 2 ^ 32 }
    ensures { Gives (λ rows. rows) result (rows_after (choice_of choice.entry) (length first.now)
        (all_read (text_read start) (map T.content first.now)) (start.0 + 1) start.1 rows.entry) }
{
    let headers = match texts_of(alloc, first, start) {
        Ok(headers) => headers,
        Err(e) => return Err(e),
    };
    match chosen_columns(alloc, choice, first.len(), headers.as_slice()) {
        Ok(indexes) => Ok(RangeDeserializer::new(
            indexes,
            Some(headers),
            rows,
            start.0 as usize + 1,
            start.1,
        )),
        Err(e) => Err(e),
    }
}

/// The rows of a range whose first row is one of headers.
pub fn deserialize<'c, T: ReadCell, D: FromRow>(
    alloc: Global,
    range: &'c Range<T>,
) -> Result<RangeDeserializer<'c, T, D>, DeError>
    ensures { Gives (λ rows. rows) result (rows_read every T.content range.now) }
{
    RangeDeserializerBuilder::new().from_range(alloc, range)
}
