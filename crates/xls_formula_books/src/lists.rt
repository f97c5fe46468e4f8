//! All that records refer to.

ghost use Rattle.std.specs.Prelude.{◌≡◌, ◌<◌, ◌+◌, ◌^◌, ◌++◌, ◌∷◌, [], length, IfOk, OnOk};
ghost use Rattle.xls_parts.specs.PartRecords.{globals_records, own_records, placed_of};
ghost use Rattle.xls_formula_books.specs.ExternNames.{name_view};
ghost use Rattle.xls_formula_books.specs.Lists as specs;
ghost use Rattle.xls_formula_books.specs.Sources.{source_view, sources_view};

use crate::extern_names::{ExternName, extern_name};
use crate::sheet_refs::sheet_ref;
use crate::sources::Source;
use crate::sup_books::read_sup_book;
use std::alloc::{AllocError, Global};
use xls_other_books::Cursor;
use xls_other_books::types::{EXTERN_NAME, SUP_BOOK};
use xls_parts::{GlobalsRecords, PartRecord, PartRecords};
use xls_record::Biff;
use xls_stream::types::EXTERN_SHEET;
use xls_text::XlsEncoding;

/// Puts a name behind those of the last source.
fn add_name(found: &mut Vec<Source>, name: ExternName) -> Result<(), AllocError>
    ensures { OnOk result (sources_view found.new.items ≡ specs.with_name (name_view name) (sources_view found.old.items)) }
{
    let Some(mut last) = found.pop() else {
        return Ok(());
    };
    last.names.push(name)?;
    found.push(last)?;
    Ok(())
}

/// Puts what an ExternName says behind the names of the last source; other records say nothing.
fn add_other(
    alloc: Global,
    version: Biff,
    encoding: &XlsEncoding,
    r: &PartRecord<'_>,
    found: &mut Vec<Source>,
) -> Result<(), AllocError>
    ensures { OnOk result (sources_view found.new.items
        ≡ specs.with_other version encoding.now (placed_of r.now) (sources_view found.old.items)) }
{
    if r.typ != EXTERN_NAME {
        return Ok(());
    }
    add_name(found, extern_name(alloc, version, encoding, r.body)?)
}

/// What the SupBook records of the globals refer to.
pub(crate) fn read_sup_books(
    alloc: Global,
    stream: &[u8],
    encoding: &XlsEncoding,
) -> Result<Vec<Source>, AllocError>
    ensures { IfOk result (λ found. sources_view found.items ≡ specs.sup_books encoding.now [] (globals_records stream.now)) }
{
    let mut found = Vec::new(alloc);
    let mut records = Cursor::new(stream);
    'records: while let Some(r) = records.take() {
        if r.typ == SUP_BOOK {
            let (source, left) = read_sup_book(alloc, r.body, records)?;
            found.push(source)?;
            records = left;
        } else {
            add_other(alloc, Biff::Biff8, encoding, &r, &mut found)?;
        }
    }
    Ok(found)
}

/// Puts what a record says before BIFF8 behind what others do.
fn add_early(
    alloc: Global,
    encoding: &XlsEncoding,
    r: &PartRecord<'_>,
    found: &mut Vec<Source>,
) -> Result<(), AllocError>
    ensures { OnOk result (sources_view found.new.items
        ≡ specs.with_early encoding.now (placed_of r.now) (sources_view found.old.items)) }
{
    if r.typ != EXTERN_SHEET {
        return add_other(alloc, Biff::Biff5, encoding, r, found);
    }
    found.push(sheet_ref(alloc, encoding, r.body)?)?;
    Ok(())
}

/// What the ExternSheet records of the globals refer to.
pub(crate) fn read_sheet_refs(
    alloc: Global,
    stream: &[u8],
    encoding: &XlsEncoding,
) -> Result<Vec<Source>, AllocError>
    ensures { IfOk result (λ found. sources_view found.items ≡ specs.sheet_refs encoding.now [] (globals_records stream.now)) }
{
    let mut found = Vec::new(alloc);
    'records: for r in GlobalsRecords::new(stream) {
        add_early(alloc, encoding, &r, &mut found)?;
    }
    Ok(found)
}

/// What the ExternSheet records of a sheet's own part refer to.
pub(crate) fn read_own_refs(
    alloc: Global,
    part: &[u8],
    offset: u64,
    encoding: &XlsEncoding,
) -> Result<Vec<Source>, AllocError>
    requires { offset + length part.now < 2 ^ 64 }
    ensures { IfOk result (λ found. sources_view found.items ≡ specs.sheet_refs encoding.now [] (own_records offset part.now)) }
{
    let mut found = Vec::new(alloc);
    'records: for r in PartRecords::new(part, offset) {
        add_early(alloc, encoding, &r, &mut found)?;
    }
    Ok(found)
}
