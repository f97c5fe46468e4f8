//! An entry of a ledger, as it is read from a row.

ghost use Rattle.xls_data.specs.Data.{content_of};
ghost use Rattle.xls_rows.specs.Refusals.{Gives, Refuses};
ghost use Rattle.example_rows.specs.Entries.{number_in, no_number};

use std::alloc::Global;
use xls_data::{Data, Number};
use xls_rows::{DeError, FromRow, ReadCell, RowDeserializer};

/// A name and an amount.
#[derive(Drop)]
pub struct Entry {
    /// The printed text of the first cell.
    pub name: String,
    /// The number of the second cell.
    pub amount: Number,
}

impl FromRow for Entry {
    ghost use Rattle.example_rows.specs.Entries.{ReadsEntry};

    ghost answers = { λ T content row answer rest. ReadsEntry content row answer };

    fn from_row<T: ReadCell>(
        alloc: Global,
        row: &mut RowDeserializer<'_, '_, T>,
    ) -> Result<Entry, DeError> {
        let pos = row.position();
        let (Some(name), Some(amount)) = (row.next_cell(), row.next_cell()) else {
            return Err(DeError::UnexpectedEndOfRow { pos });
        };
        let name = match name.read_text(alloc, pos) {
            Ok(name) => name,
            Err(refusal) => return Err(refusal),
        };
        let amount = match amount.read_data(alloc, pos) {
            Ok(amount) => amount,
            Err(refusal) => return Err(refusal),
        };
        match number_of(alloc, pos.0, &amount) {
            Ok(amount) => Ok(Entry { name, amount }),
            Err(refusal) => Err(refusal),
        }
    }
}

// The number that a cell of a row holds.
fn number_of(alloc: Global, row: u32, cell: &Data) -> Result<Number, DeError>
    ensures { Gives (λ n. n) result (number_in row (content_of cell.now)) }
{
    match cell {
        Data::Int(n) => Ok(Number::Whole(*n)),
        Data::Float(number) => Ok(*number),
        _ => Err(not_a_number(alloc, row)),
    }
}

// The refusal of another cell.
fn not_a_number(alloc: Global, row: u32) -> DeError
    ensures { Refuses (no_number row) result }
{
    match format!(in alloc; "row {row}: the amount isn't a number") {
        Ok(text) => DeError::Custom(text),
        Err(_) => DeError::Memory,
    }
}
