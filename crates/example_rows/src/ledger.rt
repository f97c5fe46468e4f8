//! The rows of a sheet.

ghost use Rattle.std.specs.Prelude.{◌≡◌, ◌⊎◌, IfErr, IfOk, map};
ghost use Rattle.std.specs.String.{string_bytes};
ghost use Rattle.xls_data.specs.Data.{content_of};
ghost use Rattle.xls_data.specs.declared.values.Data.{Data};
ghost use Rattle.xls_rows.specs.Choices.{every, wanted};
ghost use Rattle.example_rows.specs.Entries.{ReadsEntry};
ghost use Rattle.example_rows.specs.Fields.{ReadsFields};
ghost use Rattle.example_rows.specs.Ledger.{AreEntries, AreFields, EachGives, IsOfBook, IsSheetIn, RanOut, RefusesRange, RefusesRow, entry_columns};

use crate::entry::Entry;
use crate::error::LedgerError;
use crate::fields::Fields;
use std::alloc::{AllocError, Global};
use xls_book::{Reader, SteadySource, Xls, open_workbook_from_rs};
use xls_data::Data;
use xls_range::Range;
use xls_rows::{FromRow, RangeDeserializer, RangeDeserializerBuilder, deserialize};

/// The cells of the sheet of this name, in the workbook whose stream these bytes are.
pub fn sheet_of(alloc: Global, bytes: Vec<u8>, sheet: &str) -> Result<Range<Data>, LedgerError>
    ensures range { IfOk result (IsSheetIn ⟦<Data as PartialEq>⟧.eq bytes.items sheet.now) }
    ensures refused { IfErr result IsOfBook }
{
    let mut source = SteadySource::new(bytes);
    let book: Xls = open_workbook_from_rs(alloc, &mut source)?;
    let range = book.worksheet_range(alloc, sheet)?;
    Ok(range)
}

/// The headers of the columns that an entry is read from, in the order of its fields.
fn headers(alloc: Global) -> Result<Vec<String>, AllocError>
    ensures { IfOk result (λ all. map string_bytes all.items ≡ entry_columns) }
{
    let mut headers = Vec::new(alloc);
    headers.push(String::from_str(alloc, "name")?)?;
    headers.push(String::from_str(alloc, "amount")?)?;
    Ok(headers)
}

/// What the rows that are left are read as.
fn all_of<D: FromRow + Drop>(
    alloc: Global,
    rows: RangeDeserializer<'_, Data, D>,
) -> Result<Vec<D>, LedgerError>
    ensures values { IfOk result (λ all. EachGives (D.answers Data content_of) rows.entry all.items) }
    ensures refused { IfErr result (λ e. RanOut e ⊎ RefusesRow (D.answers Data content_of) rows.entry e) }
{
    let mut all = Vec::new(alloc);
    for row in rows {
        all.push(row?)?;
    }
    Ok(all)
}

/// The entries of a range whose first row is one of headers.
pub fn entries_in(alloc: Global, range: &Range<Data>) -> Result<Vec<Entry>, LedgerError>
    ensures entries { IfOk result (λ all. AreEntries range.now all.items) }
    ensures refused { IfErr result (RefusesRange (wanted entry_columns)
        (λ row answer after. ReadsEntry content_of row answer) range.now) }
{
    let headers = headers(alloc)?;
    let builder = RangeDeserializerBuilder::with_headers(&headers);
    let rows = builder.from_range(alloc, range)?;
    all_of(alloc, rows)
}

/// The rows of a range as fields, by all headers of its first row.
pub fn fields_in(alloc: Global, range: &Range<Data>) -> Result<Vec<Fields>, LedgerError>
    ensures fields { IfOk result (λ all. AreFields range.now all.items) }
    ensures refused { IfErr result (RefusesRange every
        (λ row answer after. ReadsFields content_of row answer) range.now) }
{
    let rows = deserialize(alloc, range)?;
    all_of(alloc, rows)
}
