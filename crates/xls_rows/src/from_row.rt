//! Whole rows read as values.

ghost use Rattle.std.specs.Prelude.{map, Result};
ghost use Rattle.std.specs.String.{string_bytes};
ghost use Rattle.xls_data.specs.Content.{Content};
ghost use Rattle.xls_data.specs.Data.{content_of};
ghost use Rattle.xls_rows.specs.Readers.{data_in, text_read};
ghost use Rattle.xls_rows.specs.Rows.{Row, ReadsRow};
ghost use Rattle.xls_rows.specs.declared.error.DeError.{DeError};

use crate::row::RowDeserializer;
use crate::{DeError, ReadCell};
use std::alloc::Global;
use xls_data::Data;

/// A value that is read from a row.
pub trait FromRow: Sized {
    /// How a row, whose cells have these contents, the answer and the row afterwards belong
    /// together.
    ghost answers: { (T : Type 0) → (T → Content) → Row T → Result Self DeError → Row T → Type 0 };

    /// The value of a row.
    fn from_row<T: ReadCell>(
        alloc: Global,
        row: &mut RowDeserializer<'_, '_, T>,
    ) -> Result<Self, DeError>
        ensures { answers T T.content row.old result row.new };
}

impl FromRow for Vec<Data> {
    ghost answers = { λ T content old result new.
        ReadsRow (λ v. map content_of v.items) data_in content old result new };

    fn from_row<T: ReadCell>(
        alloc: Global,
        row: &mut RowDeserializer<'_, '_, T>,
    ) -> Result<Vec<Data>, DeError> {
        let pos = row.position();
        let mut rest = row.rest();
        let mut values = Vec::new(alloc);
        while let Some(cell) = rest.next_cell() {
            match cell.read_data(alloc, pos) {
                Ok(value) => {
                    if values.push(value).is_err() {
                        return Err(DeError::Memory);
                    }
                }
                Err(e) => return Err(e),
            }
        }
        row.finish();
        Ok(values)
    }
}

impl FromRow for Vec<String> {
    ghost answers = { λ T content old result new.
        ReadsRow (λ v. map string_bytes v.items) text_read content old result new };

    fn from_row<T: ReadCell>(
        alloc: Global,
        row: &mut RowDeserializer<'_, '_, T>,
    ) -> Result<Vec<String>, DeError> {
        let pos = row.position();
        let mut rest = row.rest();
        let mut values = Vec::new(alloc);
        while let Some(cell) = rest.next_cell() {
            match cell.read_text(alloc, pos) {
                Ok(value) => {
                    if values.push(value).is_err() {
                        return Err(DeError::Memory);
                    }
                }
                Err(e) => return Err(e),
            }
        }
        row.finish();
        Ok(values)
    }
}
