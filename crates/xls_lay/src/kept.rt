//! The kept records of a sheet, their bodies in one run of bytes.

ghost use Rattle.std.specs.Prelude.{◌≡◌, ◌<◌, ◌≤◌, ◌^◌, ◌++◌, ◌∷◌, [], drop, length, take, OnOk, OnErr};
ghost use Rattle.std.specs.List.{flat_map};
ghost use Rattle.xls_stream.specs.Stream.{record_bytes};
ghost use Rattle.xls_output.specs.Output.{Puts};
ghost use Rattle.xls_lay.specs.BytesOutput.{bytes_output};
ghost use Rattle.xls_lay.specs.Writing.{saturated};
ghost use Rattle.xls_lay.specs.Cutting.{kept_bytes};
ghost use Rattle.xls_lay.specs.Inside.{records_of, sizes_sum};

use crate::write::put_record;
use std::alloc::{AllocError, Global};
use std::marker::Model;
use xls_output::{Sink, Stop, Writer};

/// The type of a record and the size of its body.
#[derive(Clone, Copy)]
pub(crate) struct RecordHead {
    pub typ: u16,
    pub size: u16,
}

/// Puts the record of a head, whose body stands first.
fn put_first<K: Sink>(
    head: &RecordHead,
    bytes: &[u8],
    out: &mut Writer<'_, K, Vec<u8>>,
) -> Result<(), Stop>
    requires { head.now.size ≤ length bytes.now }
    ensures { Puts (bytes_output K.state out.old) (bytes_output K.state out.new)
        (record_bytes head.now.typ (take head.now.size bytes.now)) result }
{
    put_record(out, head.typ, bytes.split_at(head.size as usize).0)
}

/// The bytes after the body of a head.
fn after_first<'b>(head: &RecordHead, bytes: &'b [u8]) -> &'b [u8]
    requires { head.now.size ≤ length bytes.now }
    ensures { result.now ≡ drop head.now.size bytes.now }
{
    bytes.split_at(head.size as usize).1
}

/// Puts the records of these heads, whose bodies stand one after the other.
fn put_records<K: Sink>(
    heads: &[RecordHead],
    bytes: &[u8],
    out: &mut Writer<'_, K, Vec<u8>>,
) -> Result<(), Stop>
    requires { sizes_sum heads.now ≡ length bytes.now }
    ensures { Puts (bytes_output K.state out.old) (bytes_output K.state out.new)
        (flat_map kept_bytes (records_of heads.now bytes.now)) result }
{
    let mut rest = bytes;
    for head in heads {
        put_first(head, rest, out)?;
        rest = after_first(head, rest);
    }
    Ok(())
}

/// Kept records in order. Contracts see the list of them.
#[derive(Drop)]
pub(crate) struct KeptRecords {
    heads: Vec<RecordHead>,
    bytes: Vec<u8>,
}

impl Model for KeptRecords {
    ghost use Rattle.std.specs.Prelude.{◌≡◌, List, length};
    ghost use Rattle.xls_stream.specs.Listing.{Kept};
    ghost use Rattle.xls_lay.specs.Inside.{records_of, sizes_sum};

    ghost Value = { List Kept };

    ghost view = { λ k. records_of k.heads.items k.bytes.items };

    ghost invariant = { λ k. sizes_sum k.heads.items ≡ length k.bytes.items };
}

impl KeptRecords {
    /// No records. Takes no memory.
    pub(crate) fn new(alloc: Global) -> KeptRecords
        ensures { result ≡ [] }
    {
        KeptRecords {
            heads: Vec::new(alloc),
            bytes: Vec::new(alloc),
        }
    }

    /// Appends a record.
    pub(crate) fn push(&mut self, typ: u16, body: &[u8]) -> Result<(), AllocError>
        requires { length body.now < 2 ^ 16 }
        ensures ok { OnOk result (self.new ≡ self.old ++ record { typ = typ; body = body.now } ∷ []) }
        ensures err { OnErr result (self.new ≡ self.old) }
    {
        let size = body.len() as u16;
        self.heads.reserve(1)?;
        self.bytes.extend_from_slice(body)?;
        self.heads.push(RecordHead { typ, size })?;
        Ok(())
    }

    /// How many records there are.
    pub(crate) fn len(&self) -> usize
        ensures { result ≡ length self.now }
    {
        self.heads.len()
    }

    /// How many bytes the records have in a stream.
    pub(crate) fn size(&self) -> u64
        ensures { result ≡ saturated (length (flat_map kept_bytes self.now)) }
    {
        let heads = (self.heads.len() as u64).saturating_mul(4);
        heads.saturating_add(self.bytes.len() as u64)
    }

    /// Puts the bytes of the records, as they stand in a stream.
    pub(crate) fn put<K: Sink>(&self, out: &mut Writer<'_, K, Vec<u8>>) -> Result<(), Stop>
        ensures { Puts (bytes_output K.state out.old) (bytes_output K.state out.new)
            (flat_map kept_bytes self.now) result }
    {
        put_records(&self.heads, &self.bytes, out)
    }
}
