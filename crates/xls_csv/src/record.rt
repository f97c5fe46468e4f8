//! A record of fields, in memory that is used again for each row.

ghost use Rattle.std.specs.Prelude.{◌≡◌, ◌∷◌, ◌++◌, [], map, IfOk, OnOk};
ghost use Rattle.csv.specs.Records.{fields_of, partial_of};
ghost use Rattle.xls_data.specs.Data.{content_of};
ghost use Rattle.xls_csv.specs.Fields.{field};

use crate::fields::push_value;
use csv::ByteRecord;
use std::alloc::{AllocError, Global};
use std::marker::Model;
use xls_data::Data;

/// Adds a field. After a refusal there is none.
fn add(fields: &mut ByteRecord, field: &[u8]) -> Result<(), AllocError>
    requires { partial_of fields.old ≡ [] }
    ensures ok { OnOk result (fields_of fields.new ≡ fields_of fields.old ++ field.now ∷ []) }
    ensures whole { partial_of fields.new ≡ [] }
{
    match fields.push_field(field) {
        Ok(()) => Ok(()),
        Err(error) => {
            fields.clear();
            Err(error)
        }
    }
}

/// The fields of a row. Contracts see the list of their texts.
#[derive(Drop)]
pub(crate) struct Record {
    fields: ByteRecord,
    /// The field that is being added.
    printed: String,
}

impl Model for Record {
    ghost use Rattle.std.specs.Prelude.{◌≡◌, [], ℕ, List};
    ghost use Rattle.csv.specs.Records.{fields_of, partial_of};

    ghost Value = { List (List ℕ) };

    ghost view = { λ r. fields_of r.fields };

    ghost invariant = { λ r. partial_of r.fields ≡ [] };
}

impl Record {
    /// No field.
    pub(crate) fn new(alloc: Global) -> Record
        ensures { result ≡ [] }
    {
        Record {
            fields: ByteRecord::new(alloc),
            printed: String::new(alloc),
        }
    }

    /// Takes all fields out.
    pub(crate) fn clear(&mut self)
        ensures { self.new ≡ [] }
    {
        self.fields.clear();
    }

    /// Adds the field of a value.
    pub(crate) fn push(&mut self, value: &Data) -> Result<(), AllocError>
        ensures { OnOk result (self.new ≡ self.old ++ field (content_of value.now) ∷ []) }
    {
        if let Data::String(text) = value {
            return add(&mut self.fields, text.as_bytes());
        }
        self.printed.clear();
        push_value(value, &mut self.printed)?;
        add(&mut self.fields, self.printed.as_bytes())
    }

    pub(crate) fn as_record(&self) -> &ByteRecord
        ensures { fields_of result.now ≡ self.now }
    {
        &self.fields
    }
}
