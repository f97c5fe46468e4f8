//! The cells of a row by their headers, whatever these are.

ghost use Rattle.std.specs.Prelude.{◌≡◌, [], Some, IsTrue, MatchOption};
ghost use Rattle.xls_rows.specs.Laws.{named_values};
ghost use Rattle.xls_rows.specs.Readers.{is_empty_cell};
ghost use Rattle.xls_rows.specs.Refusals.{Gives};
ghost use Rattle.example_rows.specs.Fields.{IsNextField, field_in, field_view};

use std::alloc::Global;
use xls_rows::{DeError, FromRow, ReadCell, RowDeserializer};

/// Headers and printed texts of the cells that aren't empty.
#[derive(Drop)]
pub struct Fields {
    pub fields: Vec<(String, String)>,
}

impl FromRow for Fields {
    ghost use Rattle.example_rows.specs.Fields.{ReadsFields};

    ghost answers = { λ T content row answer rest. ReadsFields content row answer };

    fn from_row<T: ReadCell>(
        alloc: Global,
        row: &mut RowDeserializer<'_, '_, T>,
    ) -> Result<Fields, DeError> {
        let pos = row.position();
        let mut fields = Vec::new(alloc);
        if !row.has_headers() {
            return Ok(Fields { fields });
        }
        while let Some((header, cell)) = next_field(row) {
            match field_of(alloc, pos, header, cell) {
                Ok(field) => {
                    if fields.push(field).is_err() {
                        return Err(DeError::Memory);
                    }
                }
                Err(refusal) => return Err(refusal),
            }
        }
        Ok(Fields { fields })
    }
}

// The next cell that isn't empty, with its header.
fn next_field<'h, 'c, T: ReadCell>(row: &mut RowDeserializer<'h, 'c, T>) -> Option<(&'h str, &'c T)>
    requires { IsTrue row.old.named }
    ensures { MatchOption result
        (named_values (λ x. is_empty_cell (T.content x)) row.old.exposed ≡ [])
        (λ f. IsNextField (λ x. is_empty_cell (T.content x)) row.old row.new (f.0.now, f.1.now)) }
{
    let Some(header) = row.next_key() else {
        return None;
    };
    let Ok(cell) = row.next_value() else {
        return None;
    };
    Some((header, cell))
}

// A header and the printed text of its cell.
fn field_of<T: ReadCell>(
    alloc: Global,
    pos: (u32, u32),
    header: &str,
    cell: &T,
) -> Result<(String, String), DeError>
    ensures { Gives field_view result (field_in T.content pos (Some header.now, cell.now)) }
{
    let text = match cell.read_text(alloc, pos) {
        Ok(text) => text,
        Err(refusal) => return Err(refusal),
    };
    match String::from_str(alloc, header) {
        Ok(header) => Ok((header, text)),
        Err(_) => Err(DeError::Memory),
    }
}
