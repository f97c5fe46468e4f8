//! The CSV of a range.

ghost use Rattle.std.specs.Prelude.{◌≡◌, ◌++◌, map, IfOk, OnOk};
ghost use Rattle.xls_data.specs.Data.{content_of};
ghost use Rattle.xls_csv.specs.Fields.{field};
ghost use Rattle.xls_csv.specs.Steps.{IsBetweenRecords, written};
ghost use Rattle.xls_csv.specs.Text.{contents_of, csv_text, row_csv};

use crate::record::Record;
use csv::Writer;
use std::alloc::{AllocError, Global};
use xls_data::Data;
use xls_range::Range;
use xls_record::StreamBytes;

/// Fills a record with the fields of a row.
fn fill(fields: &mut Record, row: &[Data]) -> Result<(), AllocError>
    ensures { OnOk result (fields.new ≡ map field (map content_of row.now)) }
{
    fields.clear();
    for value in row {
        fields.push(value)?;
    }
    Ok(())
}

/// Writes the record of a row, whose fields are gathered in another one.
fn write_row(
    writer: &mut Writer<Vec<u8>>,
    fields: &mut Record,
    row: &[Data],
) -> Result<(), AllocError>
    requires { IsBetweenRecords writer.old }
    ensures between { OnOk result (IsBetweenRecords writer.new) }
    ensures written { OnOk result (written writer.new ≡ written writer.old ++ row_csv (map content_of row.now)) }
{
    fill(fields, row)?;
    match writer.write_byte_record(fields.as_record()) {
        Ok(()) => Ok(()),
        Err(_) => Err(AllocError),
    }
}

/// The CSV of a range: a record for each row, in the fields that `field_text` gives, with quotes only
/// where a field needs them, commas, and a newline at the end of each. An empty range has the empty text.
pub fn export_csv(alloc: Global, range: &Range<Data>) -> Result<StreamBytes, AllocError>
    ensures { IfOk result (λ bytes. bytes ≡ csv_text (contents_of range.now)) }
{
    let mut writer = Writer::from_writer(Vec::new(alloc));
    let mut fields = Record::new(alloc);
    for row in range.rows() {
        write_row(&mut writer, &mut fields, row)?;
    }
    match writer.into_inner() {
        Ok(bytes) => Ok(StreamBytes::from_vec(bytes)),
        Err(_) => Err(AllocError),
    }
}
