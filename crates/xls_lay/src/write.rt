//! The canonical stream of a list.

ghost use Rattle.std.specs.Prelude.{◌≡◌, ◌+◌, ◌<◌, ◌^◌, ◌++◌, length, IfOk, OnOk};
ghost use Rattle.xls_stream.specs.Stream.{record_bytes};
ghost use Rattle.xls_stream.specs.declared.types.TheConstants as types;
ghost use Rattle.xls_layouts.specs.LaidStrings.{le32};
ghost use Rattle.xls_layouts.specs.Layout.{sheet_body};
ghost use Rattle.xls_layouts.specs.Canonical.{Fits};
ghost use Rattle.xls_output.specs.Gathering.{Delivers};
ghost use Rattle.xls_output.specs.Output.{Puts};
ghost use Rattle.xls_lay.specs.BytesOutput.{bytes_output};
ghost use Rattle.xls_lay.specs.Counted.{CountedEntry, Counted};
ghost use Rattle.xls_lay.specs.Writing.{WritesList, canonical_bytes};
ghost use Rattle.xls_lay.specs.Entries.{entry_in, entries_in};
ghost use Rattle.xls_lay.specs.Cutting.{part_of, part_bytes, table_bytes, entry_bytes, globals_from, parts_from};

use crate::entry::Entry;
use crate::error::LayError;
use crate::kept::KeptRecords;
use crate::length::{TOO_LONG, globals_length, part_size, parts_length};
use crate::logical::Logical;
use crate::table::TableWriter;
use crate::units::UnitLists;
use crate::whole::Whole;
use std::alloc::{AllocError, Global};
use xls_output::{Sink, Stop, Writer};
use xls_record::StreamBytes;
use xls_stream::types::{BOF, EOF};

/// Appends a 32-bit number.
pub(crate) fn push_u32(out: &mut Vec<u8>, n: u32) -> Result<(), AllocError>
    ensures { OnOk result (out.new.items ≡ out.old.items ++ le32 n) }
{
    let bytes = [
        (n % 256) as u8,
        (n / 256 % 256) as u8,
        (n / 65_536 % 256) as u8,
        (n / 16_777_216) as u8,
    ];
    out.extend_from_slice(&bytes)
}

/// Appends a record without Continue records.
pub(crate) fn push_record(out: &mut Vec<u8>, typ: u16, body: &[u8]) -> Result<(), AllocError>
    requires { length body.now < 2 ^ 16 }
    ensures { OnOk result (out.new.items ≡ out.old.items ++ record_bytes typ body.now) }
{
    let size = body.len();
    let head = [
        (typ % 256) as u8,
        (typ / 256) as u8,
        (size % 256) as u8,
        (size / 256) as u8,
    ];
    out.extend_from_slice(&head)?;
    out.extend_from_slice(body)
}

/// Puts a record without Continue records.
pub(crate) fn put_record<K: Sink>(
    out: &mut Writer<'_, K, Vec<u8>>,
    typ: u16,
    body: &[u8],
) -> Result<(), Stop>
    requires { length body.now < 2 ^ 16 }
    ensures { Puts (bytes_output K.state out.old) (bytes_output K.state out.new) (record_bytes typ body.now) result }
{
    push_record(out.buffer, typ, body)?;
    out.pass()
}

/// Appends the BoundSheet8 record of a sheet, whose part begins at this offset.
fn push_sheet(
    out: &mut Vec<u8>,
    offset: u32,
    state: u8,
    kind: u8,
    name: &[u8],
) -> Result<(), AllocError>
    requires { 6 + length name.now < 2 ^ 16 }
    ensures { OnOk result (out.new.items ≡ out.old.items ++ record_bytes types.BOUND_SHEET_8 (sheet_body offset state kind name.now)) }
{
    let size = 6 + name.len();
    out.extend_from_slice(&[0x85, 0x00, (size % 256) as u8, (size / 256) as u8])?;
    push_u32(out, offset)?;
    out.extend_from_slice(&[state, kind])?;
    out.extend_from_slice(name)
}

/// Puts it.
fn put_sheet<K: Sink>(
    out: &mut Writer<'_, K, Vec<u8>>,
    offset: u32,
    state: u8,
    kind: u8,
    name: &[u8],
) -> Result<(), Stop>
    requires { 6 + length name.now < 2 ^ 16 }
    ensures { Puts (bytes_output K.state out.old) (bytes_output K.state out.new)
        (record_bytes types.BOUND_SHEET_8 (sheet_body offset state kind name.now)) result }
{
    push_sheet(out.buffer, offset, state, kind, name)?;
    out.pass()
}

/// Puts the SST record of a table, with its Continue records.
fn put_table<K: Sink>(
    alloc: Global,
    out: &mut Writer<'_, K, Vec<u8>>,
    strings: &UnitLists,
) -> Result<(), Stop>
    requires { length strings.now < 2 ^ 32 }
    ensures { Puts (bytes_output K.state out.old) (bytes_output K.state out.new) (table_bytes strings.now) result }
{
    let mut table = TableWriter::new(alloc, strings.len() as u32)?;
    strings.put(&mut table, out)?;
    table.finish(out)?;
    Ok(())
}

/// Puts an entry of the globals; its part begins at this offset, if it is a sheet.
fn put_entry<K: Sink>(
    alloc: Global,
    out: &mut Writer<'_, K, Vec<u8>>,
    offset: u32,
    entry: &Entry,
) -> Result<(), Stop>
    requires { CountedEntry (entry_in entry.now) }
    ensures { Puts (bytes_output K.state out.old) (bytes_output K.state out.new)
        (entry_bytes offset (entry_in entry.now)) result }
{
    match entry {
        Entry::Plain { typ, body } => put_record(out, *typ, body),
        Entry::Sheet {
            state,
            kind,
            name,
            ..
        } => put_sheet(out, offset, *state, *kind, name),
        Entry::Table { strings } => put_table(alloc, out, strings),
    }
}

/// Puts the globals, with their EOF; the first part begins at this offset.
fn put_globals<K: Sink>(
    alloc: Global,
    out: &mut Writer<'_, K, Vec<u8>>,
    mut offset: u64,
    entries: &[Entry],
) -> Result<(), Stop>
    requires fits { Counted (entries_in entries.now) }
    requires short { offset + length (parts_from (entries_in entries.now)) < 2 ^ 32 }
    ensures { Puts (bytes_output K.state out.old) (bytes_output K.state out.new)
        (globals_from offset (entries_in entries.now)) result }
{
    for entry in entries {
        put_entry(alloc, out, offset as u32, entry)?;
        offset += part_size(entry);
    }
    put_record(out, EOF, &[])
}

/// Puts the part of a sheet.
fn put_sheet_part<K: Sink>(out: &mut Writer<'_, K, Vec<u8>>, kept: &KeptRecords) -> Result<(), Stop>
    ensures { Puts (bytes_output K.state out.old) (bytes_output K.state out.new) (part_of kept.now) result }
{
    put_record(out, BOF, &[0x00, 0x06, 0x10, 0x00])?;
    kept.put(out)?;
    put_record(out, EOF, &[])?;
    Ok(())
}

/// Puts the part of an entry, if it is a sheet.
fn put_part<K: Sink>(out: &mut Writer<'_, K, Vec<u8>>, entry: &Entry) -> Result<(), Stop>
    ensures { Puts (bytes_output K.state out.old) (bytes_output K.state out.new)
        (part_bytes (entry_in entry.now)) result }
{
    match entry {
        Entry::Sheet { kept, .. } => put_sheet_part(out, kept),
        _ => Ok(()),
    }
}

/// Puts the parts of the sheets in order.
fn put_parts<K: Sink>(out: &mut Writer<'_, K, Vec<u8>>, entries: &[Entry]) -> Result<(), Stop>
    ensures { Puts (bytes_output K.state out.old) (bytes_output K.state out.new)
        (parts_from (entries_in entries.now)) result }
{
    for entry in entries {
        put_part(out, entry)?;
    }
    Ok(())
}

/// Writes the globals and then the parts; the first part begins at this offset.
fn write_entries<K: Sink>(
    alloc: Global,
    sink: &mut K,
    offset: u64,
    entries: &[Entry],
) -> Result<(), Stop>
    requires fits { Counted (entries_in entries.now) }
    requires short { offset + length (parts_from (entries_in entries.now)) < 2 ^ 32 }
    ensures { Delivers (K.state sink.old) (K.state sink.new)
        (globals_from offset (entries_in entries.now) ++ parts_from (entries_in entries.now)) result }
{
    let mut gathered = Vec::new(alloc);
    let mut out = Writer::new(&mut gathered, sink);
    put_globals(alloc, &mut out, offset, entries)?;
    put_parts(&mut out, entries)?;
    out.finish()?;
    Ok(())
}

/// Writes the canonical stream of a list that offsets of 32 bits reach, as `canonical_length` tells. At most
/// 64 KiB and one record or string are gathered. Only a write that fails, or running out of memory, stops it.
pub fn write_stream<K: Sink>(alloc: Global, sink: &mut K, list: &Logical) -> Result<(), Stop>
    requires short { length (canonical_bytes list.now) < 2 ^ 32 }
    ensures { Delivers (K.state sink.old) (K.state sink.new) (canonical_bytes list.now) result }
{
    let entries = list.entries();
    let globals = globals_length(entries);
    write_entries(alloc, sink, globals, entries)
}

/// The globals and then the parts, which have so many bytes; the first part begins at this offset.
fn put_all(
    alloc: Global,
    size: usize,
    offset: u64,
    entries: &[Entry],
) -> Result<Vec<u8>, AllocError>
    requires fits { Counted (entries_in entries.now) }
    requires short { offset + length (parts_from (entries_in entries.now)) < 2 ^ 32 }
    ensures { IfOk result (λ v. v.items ≡ globals_from offset (entries_in entries.now) ++ parts_from (entries_in entries.now)) }
{
    let mut whole = Whole::new(alloc, size)?;
    match write_entries(alloc, &mut whole, offset, entries) {
        Ok(()) => Ok(whole.into_bytes()),
        Err(_) => Err(AllocError),
    }
}

/// The canonical stream of a list. `TooLong` exactly where it would have 2^32 bytes or more; else only
/// running out of memory.
pub fn write_workbook(alloc: Global, list: &Logical) -> Result<StreamBytes, LayError>
    ensures writes { WritesList list.now result }
    ensures fits { Fits list.now }
{
    let entries = list.entries();
    let globals = globals_length(entries);
    let found = globals.saturating_add(parts_length(entries));
    if found >= TOO_LONG {
        return Err(LayError::TooLong { found });
    }
    let bytes = put_all(alloc, found as usize, globals, entries)?;
    Ok(StreamBytes::from_vec(bytes))
}
