//! The records of the globals, and those of a sheet's own, with their places: outside nested substreams and custom views.

ghost use Rattle.std.specs.Prelude.{◌≡◌, ◌<◌, ◌≤◌, ◌+◌, ◌^◌, false, length, MatchOption};
ghost use Rattle.xls_parts.specs.PartRecords.{globals_records, own_records, records_at, starts_whole};
ghost use Rattle.xls_parts.specs.Walking.{SplitsFirst};

use crate::types::{USER_S_VIEW_BEGIN, USER_S_VIEW_END};
use std::marker::Model;
use xls_bytes::read_u16;
use xls_stream::types::{BOF, EOF};

/// A record of a stream, [MS-XLS] 2.1.4, borrowed from it.
#[derive(Clone, Copy, Debug)]
pub struct PartRecord<'a> {
    /// The place of its header in the stream.
    pub offset: u64,
    /// The type, as in `types`.
    pub typ: u16,
    /// The body, of at most 65,535 bytes.
    pub body: &'a [u8],
}

/// The type and the body of the first record, where it is there whole, and the bytes after it.
fn split_record(bytes: &[u8]) -> Option<(u16, &[u8], &[u8])>
    ensures { MatchOption result (starts_whole bytes.now ≡ false) (λ x. SplitsFirst bytes.now x.0 x.1.now x.2.now) }
{
    if bytes.len() < 4 {
        return None;
    }
    let size = read_u16(&bytes[2..]) as usize;
    if bytes.len() < 4 + size {
        return None;
    }
    let typ = read_u16(bytes);
    let (record, rest) = bytes.split_at(4 + size);
    let (_, body) = record.split_at(4);
    Some((typ, body, rest))
}

/// The records of some bytes one after another, up to the first that isn't whole. A Continue is one as all others.
/// Contracts see the list of the records that are left.
#[derive(Drop)]
pub struct WholeRecords<'a> {
    bytes: &'a [u8],
    offset: u64,
}

impl<'a> Model for WholeRecords<'a> {
    ghost use Rattle.std.specs.Prelude.{List, ◌+◌, ◌<◌, ◌^◌, length};
    ghost use Rattle.xls_parts.specs.PartRecords.{Placed, records_at};

    ghost Value = { List Placed };

    ghost view = { λ s. records_at s.offset s.bytes.now };

    ghost invariant = { λ s. s.offset + length s.bytes.now < 2 ^ 64 };
}

impl<'a> WholeRecords<'a> {
    /// The records of these bytes, the first of which stands at this offset of the stream. Takes no memory.
    pub fn new(bytes: &'a [u8], offset: u64) -> WholeRecords<'a>
        requires { offset + length bytes.now < 2 ^ 64 }
        ensures value { result ≡ records_at offset bytes.now }
        ensures few { length result ≤ length bytes.now }
    {
        WholeRecords { bytes, offset }
    }
}

impl<'a> Iterator for WholeRecords<'a> {
    ghost use Rattle.std.specs.Prelude.{length};
    ghost use Rattle.std.specs.Iterator.{at_most};
    ghost use Rattle.xls_parts.specs.PartRecords.{placed_of};
    ghost use Rattle.xls_parts.specs.Steps.{StepsBy};

    type Item = PartRecord<'a>;

    ghost next_gives = { StepsBy placed_of };

    ghost remaining = { λ records. at_most (length records) };

    fn next(&mut self) -> Option<PartRecord<'a>> {
        let Some((typ, body, rest)) = split_record(self.bytes) else {
            self.bytes = &[];
            return None;
        };
        let record = PartRecord {
            offset: self.offset,
            typ,
            body,
        };
        self.offset += 4 + body.len() as u64;
        self.bytes = rest;
        Some(record)
    }
}

/// The records of the globals, which a workbook's stream begins with: those before the first EOF. Takes no memory.
///
/// Contracts see the list of the records that are left.
#[derive(Drop)]
pub struct GlobalsRecords<'a> {
    records: WholeRecords<'a>,
}

impl<'a> Model for GlobalsRecords<'a> {
    ghost use Rattle.std.specs.Prelude.{List};
    ghost use Rattle.xls_parts.specs.PartRecords.{Placed, until_eof};

    ghost Value = { List Placed };

    ghost view = { λ s. until_eof s.records };
}

impl<'a> GlobalsRecords<'a> {
    /// Those of a stream.
    pub fn new(stream: &'a [u8]) -> GlobalsRecords<'a>
        ensures { result ≡ globals_records stream.now }
    {
        GlobalsRecords {
            records: WholeRecords::new(stream, 0),
        }
    }
}

impl<'a> Iterator for GlobalsRecords<'a> {
    ghost use Rattle.std.specs.Prelude.{length};
    ghost use Rattle.std.specs.Iterator.{at_most};
    ghost use Rattle.xls_parts.specs.PartRecords.{placed_of};
    ghost use Rattle.xls_parts.specs.Steps.{StepsBy};

    type Item = PartRecord<'a>;

    ghost next_gives = { StepsBy placed_of };

    ghost remaining = { λ records. at_most (length records) };

    fn next(&mut self) -> Option<PartRecord<'a>> {
        let Some(record) = self.records.next() else {
            return None;
        };
        if record.typ == EOF {
            self.records = WholeRecords::new(&[], 0);
            return None;
        }
        Some(record)
    }
}

/// The records outside nested substreams, up to the EOF of the part, where so many BOF records are open. Contracts
/// see the list of those that are left.
#[derive(Drop)]
struct OuterRecords<'a> {
    records: WholeRecords<'a>,
    depth: u64,
}

impl<'a> Model for OuterRecords<'a> {
    ghost use Rattle.std.specs.Prelude.{List, ◌+◌, ◌<◌, ◌^◌, length};
    ghost use Rattle.xls_parts.specs.PartRecords.{Placed, outer_from};

    ghost Value = { List Placed };

    ghost view = { λ s. outer_from s.depth s.records };

    ghost invariant = { λ s. s.depth + length s.records < 2 ^ 64 };
}

impl<'a> Iterator for OuterRecords<'a> {
    ghost use Rattle.std.specs.Prelude.{length};
    ghost use Rattle.std.specs.Iterator.{at_most};
    ghost use Rattle.xls_parts.specs.PartRecords.{placed_of};
    ghost use Rattle.xls_parts.specs.Steps.{StepsBy};

    type Item = PartRecord<'a>;

    ghost next_gives = { StepsBy placed_of };

    ghost remaining = { λ records. at_most (length records) };

    fn next(&mut self) -> Option<PartRecord<'a>> {
        while let Some(record) = self.records.next() {
            if record.typ == BOF {
                self.depth += 1;
            } else if record.typ == EOF {
                if self.depth <= 1 {
                    self.records = WholeRecords::new(&[], 0);
                    return None;
                }
                self.depth -= 1;
            } else if self.depth <= 1 {
                return Some(record);
            }
        }
        None
    }
}

/// The records of a sheet's own, in order: those of its part up to the part's EOF, outside nested substreams
/// (from BOF to EOF) and custom views (from UserSViewBegin to UserSViewEnd). Takes no memory.
///
/// Contracts see the list of the records that are left.
#[derive(Drop)]
pub struct PartRecords<'a> {
    records: OuterRecords<'a>,
    is_in_view: bool,
}

impl<'a> Model for PartRecords<'a> {
    ghost use Rattle.std.specs.Prelude.{List};
    ghost use Rattle.xls_parts.specs.PartRecords.{Placed, own_from};

    ghost Value = { List Placed };

    ghost view = { λ s. own_from s.is_in_view s.records };
}

impl<'a> PartRecords<'a> {
    /// The records of the part that begins with the first byte, which stands at this offset of the stream.
    pub fn new(part: &'a [u8], offset: u64) -> PartRecords<'a>
        requires { offset + length part.now < 2 ^ 64 }
        ensures { result ≡ own_records offset part.now }
    {
        PartRecords {
            records: OuterRecords {
                records: WholeRecords::new(part, offset),
                depth: 0,
            },
            is_in_view: false,
        }
    }
}

impl<'a> Iterator for PartRecords<'a> {
    ghost use Rattle.std.specs.Prelude.{length};
    ghost use Rattle.std.specs.Iterator.{at_most};
    ghost use Rattle.xls_parts.specs.PartRecords.{placed_of};
    ghost use Rattle.xls_parts.specs.Steps.{StepsBy};

    type Item = PartRecord<'a>;

    ghost next_gives = { StepsBy placed_of };

    ghost remaining = { λ records. at_most (length records) };

    fn next(&mut self) -> Option<PartRecord<'a>> {
        while let Some(record) = self.records.next() {
            if record.typ == USER_S_VIEW_BEGIN {
                self.is_in_view = true;
            } else if record.typ == USER_S_VIEW_END {
                self.is_in_view = false;
            } else if !self.is_in_view {
                return Some(record);
            }
        }
        None
    }
}
