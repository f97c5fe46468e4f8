//! The records of a sheet part outside nested substreams.

ghost use Rattle.std.specs.Prelude.{◌≡◌, ◌+◌, ◌<◌, ◌≤◌, ◌^◌, length};
ghost use Rattle.xls_biff.specs.Outer.{PlacedSteps};

use crate::sheet_record::is_sheet_type;
use crate::walk::RecordIter;
use std::marker::Model;
use xls_stream::types::{BOF, EOF};
use xls_strings::{Record, XlsError};

/// The next record of a sheet's types outside nested substreams, where so many BOF records are open, and
/// the bytes from its header on.
#[inline(always)]
fn next_outer<'a>(
    records: &mut RecordIter<'a>,
    depth: &mut u64,
) -> Option<Result<(&'a [u8], Record<'a>), XlsError>>
    requires { depth.old + length records.old < 2 ^ 64 }
    ensures steps { PlacedSteps records.old depth.old result records.new depth.new }
    ensures room { depth.new + length records.new ≤ depth.old + length records.old }
{
    let mut start = records.rest();
    while let Some(item) = records.next() {
        let r = match item {
            Ok(r) => r,
            Err(e) => return Some(Err(e)),
        };
        if r.typ == BOF {
            *depth += 1;
        } else if r.typ == EOF {
            if *depth <= 1 {
                *records = RecordIter::new(&[]);
                return None;
            }
            *depth -= 1;
        } else if *depth <= 1 && is_sheet_type(r.typ) {
            return Some(Ok((start, r)));
        }
        start = records.rest();
    }
    None
}

/// The records of a sheet part outside nested substreams whose type is one of a sheet's, in
/// order, then at most one error, which is `EoStream`, and `None` for good. Takes no memory.
///
/// The part's EOF ends it. Nested substreams, from BOF to EOF, are passed over, and so are records of
/// other types.
#[derive(Drop)]
pub struct SheetRecords<'a> {
    records: RecordIter<'a>,
    depth: u64,
}

impl<'a> Model for SheetRecords<'a> {
    ghost use Rattle.std.specs.Prelude.{List, ℕ, ◌+◌, ◌<◌, ◌^◌, length};

    ghost Value = { List ℕ × ℕ };

    ghost view = { λ s. (s.records, s.depth) };

    ghost invariant = { λ s. s.depth + length s.records < 2 ^ 64 };
}

impl<'a> SheetRecords<'a> {
    /// The records of the part from its first byte on.
    pub fn new(part: &'a [u8]) -> SheetRecords<'a>
        ensures { result ≡ (part.now, 0) }
    {
        SheetRecords {
            records: RecordIter::new(part),
            depth: 0,
        }
    }

    /// The records that are left, to be gone through once more. Takes no memory.
    pub fn again(&self) -> SheetRecords<'a>
        ensures { result ≡ self.now }
    {
        SheetRecords {
            records: self.records.again(),
            depth: self.depth,
        }
    }
}

impl<'a> Iterator for SheetRecords<'a> {
    ghost use Rattle.std.specs.Prelude.{length};
    ghost use Rattle.std.specs.Iterator.{at_most};
    ghost use Rattle.xls_biff.specs.Outer.{OuterSteps};

    type Item = Result<Record<'a>, XlsError>;

    ghost next_gives = { λ s r t. OuterSteps s.0 s.1 r t.0 t.1 };

    ghost remaining = { λ s. at_most (length s.0) };

    #[inline(always)]
    fn next(&mut self) -> Option<Result<Record<'a>, XlsError>> {
        match next_outer(&mut self.records, &mut self.depth) {
            Some(Ok((_, record))) => Some(Ok(record)),
            Some(Err(e)) => Some(Err(e)),
            None => None,
        }
    }
}

/// The records that `SheetRecords` gives, each with the bytes of the part from its header on, which stand
/// first in the pair, then at most one error, which is `EoStream`, and `None` for good. Takes no memory.
#[derive(Drop)]
pub struct PlacedRecords<'a> {
    records: RecordIter<'a>,
    depth: u64,
}

impl<'a> Model for PlacedRecords<'a> {
    ghost use Rattle.std.specs.Prelude.{List, ℕ, ◌+◌, ◌<◌, ◌^◌, length};

    ghost Value = { List ℕ × ℕ };

    ghost view = { λ s. (s.records, s.depth) };

    ghost invariant = { λ s. s.depth + length s.records < 2 ^ 64 };
}

impl<'a> PlacedRecords<'a> {
    /// The records of the part from its first byte on.
    pub fn new(part: &'a [u8]) -> PlacedRecords<'a>
        ensures { result ≡ (part.now, 0) }
    {
        PlacedRecords {
            records: RecordIter::new(part),
            depth: 0,
        }
    }

    /// The records that are left, to be gone through once more. Takes no memory.
    pub fn again(&self) -> PlacedRecords<'a>
        ensures { result ≡ self.now }
    {
        PlacedRecords {
            records: self.records.again(),
            depth: self.depth,
        }
    }
}

impl<'a> Iterator for PlacedRecords<'a> {
    ghost use Rattle.std.specs.Prelude.{length};
    ghost use Rattle.std.specs.Iterator.{at_most};
    ghost use Rattle.xls_biff.specs.Outer.{PlacedSteps};

    type Item = Result<(&'a [u8], Record<'a>), XlsError>;

    ghost next_gives = { λ s r t. PlacedSteps s.0 s.1 r t.0 t.1 };

    ghost remaining = { λ s. at_most (length s.0) };

    fn next(&mut self) -> Option<Result<(&'a [u8], Record<'a>), XlsError>> {
        next_outer(&mut self.records, &mut self.depth)
    }
}
