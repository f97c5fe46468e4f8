//! The logical list that a stream carries.

ghost use Rattle.std.specs.Prelude.{◌≡◌, ◌↔◌, IsTrue, ℕ, List, ◌<◌, ◌≤◌, ◌^◌, length, drop, slice_index, None, true, false};
ghost use Rattle.xls_stream.specs.Stream.{group_bytes};
ghost use Rattle.xls_stream.specs.Walks.{IsBytes};
ghost use Rattle.xls_stream.specs.Listing.{Kept, Item, IsItem, IsWholeItem, entry_of, is_globals_type, IsShared, table_of};
ghost use Rattle.xls_stream.specs.Listing.{IsPart, IsSheetPart, offset_at, table_entry, sheet_entry};
ghost use Rattle.xls_layouts.specs.Layout.{IsPlainType};
ghost use Rattle.xls_biff.specs.Walking.{group_of};
ghost use Rattle.xls_lay.specs.Reading.{ReadsList};
ghost use Rattle.xls_lay.specs.Pushing.{EndsInSheet};
ghost use Rattle.xls_lay.specs.Taking.{TakesEntry, TakesNothing, TakesPart};

use crate::logical::Logical;
use std::alloc::Global;
use xls_biff::{Record, RecordIter, SheetRecords, SstReader, XlsError};
use xls_bytes::read_usize;
use xls_open::{MAX_CELLS, check_stream};
use xls_stream::types::{
    BOF, BOUND_SHEET_8, CODE_PAGE, DATE_MODE, EOF, EXTERN_SHEET, FILE_PASS, FORMAT, LBL, SST, XF,
};

/// Whether records of this type are plain records of the globals.
fn is_plain_type(typ: u16) -> bool
    ensures { IsTrue result ↔ IsPlainType typ }
{
    matches!(
        typ,
        BOF | FILE_PASS | CODE_PAGE | DATE_MODE | FORMAT | XF | LBL | EXTERN_SHEET
    )
}

/// Appends the string table of an SST record.
fn take_table(alloc: Global, list: &mut Logical, r: &Record<'_>) -> Result<(), XlsError>
    requires small { length (group_bytes (group_of r.now)) < 2 ^ 32 }
    requires bytes { IsBytes (group_bytes (group_of r.now)) }
    ensures { (strings : List (List ℕ)) → IsShared (group_of r.now) (table_of strings)
        → TakesEntry list.old (table_entry strings) result list.new }
{
    list.push_table()?;
    let mut reader = SstReader::new(r)?;
    while let Some(units) = reader.next_units(alloc)? {
        list.push_string(&units)?;
    }
    Ok(())
}

/// Appends the records of a sheet part to the sheet that the list ends in.
fn take_part(list: &mut Logical, part: &[u8]) -> Result<(), XlsError>
    requires { EndsInSheet list.old }
    ensures { (kept : List Kept) → IsPart part.now kept None → TakesPart list.old kept result list.new }
{
    for record in SheetRecords::new(part) {
        let record = record?;
        list.push_kept(record.typ, record.body)?;
    }
    Ok(())
}

/// Appends the sheet of a BoundSheet8 record, with the records of its part.
fn take_sheet(list: &mut Logical, stream: &[u8], body: &[u8]) -> Result<(), XlsError>
    requires long { 6 ≤ length body.now }
    requires short { length body.now < 2 ^ 16 }
    requires inside { offset_at body.now ≤ length stream.now }
    ensures { (kept : List Kept) → IsSheetPart stream.now (offset_at body.now) kept None
        → TakesEntry list.old (sheet_entry (slice_index body.now 4) (slice_index body.now 5) (drop 6 body.now) kept) result list.new }
{
    let (_, name) = body.split_at(6);
    list.push_sheet(body[4], body[5], name)?;
    let (_, part) = stream.split_at(read_usize(body));
    take_part(list, part)
}

/// Appends the entry of a record of the globals, if it has one.
fn take_record(
    alloc: Global,
    list: &mut Logical,
    stream: &[u8],
    r: &Record<'_>,
) -> Result<(), XlsError>
    requires small { length (group_bytes (group_of r.now)) < 2 ^ 32 }
    requires bytes { IsBytes (group_bytes (group_of r.now)) }
    requires fits { length r.now.body.now < 2 ^ 16 }
    requires whole { is_globals_type (group_of r.now) ≡ true
        → (i : Item) × IsItem stream.now (group_of r.now) i × IsWholeItem i }
    ensures entry { is_globals_type (group_of r.now) ≡ true
        → (i : Item) → IsItem stream.now (group_of r.now) i → IsWholeItem i → TakesEntry list.old (entry_of i) result list.new }
    ensures other { is_globals_type (group_of r.now) ≡ false → TakesNothing list.old result list.new }
{
    if is_plain_type(r.typ) {
        list.push_plain(r.typ, r.body)?;
        return Ok(());
    }
    if r.typ == SST {
        return take_table(alloc, list, r);
    }
    if r.typ == BOUND_SHEET_8 {
        return take_sheet(list, stream, r.body);
    }
    Ok(())
}

/// The logical list that a stream of fewer than 2^32 bytes carries. The first fault that `check_stream` answers
/// under no forced page and a bound of 33,554,432 cells; else only running out of memory.
pub fn logical_of(alloc: Global, bytes: &[u8]) -> Result<Logical, XlsError>
    requires { length bytes.now < 2 ^ 32 }
    ensures { ReadsList bytes.now result }
{
    check_stream(bytes, None, MAX_CELLS)?;
    let mut list = Logical::new(alloc);
    for record in RecordIter::new(bytes) {
        let record = record?;
        if record.typ == EOF {
            return Ok(list);
        }
        take_record(alloc, &mut list, bytes, &record)?;
    }
    Ok(list)
}
