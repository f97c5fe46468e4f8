//! A walk over the records of a stream.

ghost use Rattle.std.specs.Prelude.{◌≡◌, ◌≢◌, ◌↔◌, ◌<◌, [], IsTrue, MatchResult, length};
ghost use Rattle.xls_stream.specs.Stream.{Begins, IsRecord, StartsContinue};
ghost use Rattle.xls_stream.specs.Cut.{Cut};
ghost use Rattle.xls_biff.specs.Walking.{group_of, Steps};

use std::marker::Model;
use xls_bytes::read_u16;
use xls_stream::types::CONTINUE;
use xls_strings::{Part, Pieces, Record, XlsError};

/// The type and the body of the first record, and the bytes after it.
#[inline(always)]
fn split_record(bytes: &[u8]) -> Result<(u16, &[u8], &[u8]), Part>
    requires { 0 < length bytes.now }
    ensures { MatchResult result (λ x. IsRecord bytes.now x.0 x.1.now x.2.now) (λ p. (p ≢ Part.ContinueLength) × Cut bytes.now p) }
{
    if bytes.len() < 4 {
        return Err(Part::RecordHeader);
    }
    let typ = read_u16(bytes);
    let size = read_u16(&bytes[2..]) as usize;
    if bytes.len() < 4 + size {
        return Err(Part::RecordLength);
    }
    let (record, rest) = bytes.split_at(4 + size);
    Ok((typ, &record[4..], rest))
}

/// Whether the next record is a Continue that belongs to the record before it.
#[inline(always)]
fn starts_continue(bytes: &[u8]) -> bool
    ensures { IsTrue result ↔ StartsContinue bytes.now }
{
    bytes.len() > 4 && read_u16(bytes) == CONTINUE
}

/// The first record with its Continue records, and the bytes after them.
#[inline(always)]
fn split_group(bytes: &[u8]) -> Result<(Record<'_>, &[u8]), XlsError>
    requires { 0 < length bytes.now }
    ensures { MatchResult result (λ x. Begins bytes.now (group_of x.0) x.1.now)
        (λ e. (p : Part) × (e ≡ XlsError.EoStream p) × Cut bytes.now p) }
{
    let (typ, body, start) = match split_record(bytes) {
        Ok(parts) => parts,
        Err(part) => return Err(XlsError::EoStream(part)),
    };
    let mut after = start;
    while starts_continue(after) {
        after = match split_record(after) {
            Ok((_, _, rest)) => rest,
            Err(_) => return Err(XlsError::EoStream(Part::ContinueLength)),
        };
    }
    let pieces = Pieces::new(&start[..start.len() - after.len()]);
    Ok((Record { typ, body, pieces }, after))
}

/// The records of a stream in order, each with the Continue records attached to it, then at most one
/// error, which is `EoStream`, and `None` for good. It borrows the stream and takes no memory.
///
/// A Continue record is attached while more than four bytes are left. Contracts see the bytes that
/// are left.
#[derive(Drop)]
pub struct RecordIter<'a> {
    bytes: &'a [u8],
}

impl<'a> Model for RecordIter<'a> {
    ghost use Rattle.std.specs.Prelude.{List, ℕ};

    ghost Value = { List ℕ };

    ghost view = { λ s. s.bytes.now };
}

impl<'a> RecordIter<'a> {
    /// The records from the first byte on.
    pub fn new(stream: &'a [u8]) -> RecordIter<'a>
        ensures { result ≡ stream.now }
    {
        RecordIter { bytes: stream }
    }

    /// The records that are left, to be gone through once more. Takes no memory.
    pub fn again(&self) -> RecordIter<'a>
        ensures { result ≡ self.now }
    {
        RecordIter { bytes: self.bytes }
    }

    /// The bytes that are left.
    pub(crate) fn rest(&self) -> &'a [u8]
        ensures { result.now ≡ self.now }
    {
        self.bytes
    }
}

impl<'a> Iterator for RecordIter<'a> {
    ghost use Rattle.std.specs.Prelude.{length};
    ghost use Rattle.std.specs.Iterator.{at_most};
    ghost use Rattle.xls_biff.specs.Walking.{Steps};

    type Item = Result<Record<'a>, XlsError>;

    ghost next_gives = { Steps };

    ghost remaining = { λ bytes. at_most (length bytes) };

    #[inline(always)]
    fn next(&mut self) -> Option<Result<Record<'a>, XlsError>> {
        if self.bytes.is_empty() {
            return None;
        }
        match split_group(self.bytes) {
            Ok((record, after)) => {
                self.bytes = after;
                Some(Ok(record))
            }
            Err(e) => {
                self.bytes = &[];
                Some(Err(e))
            }
        }
    }
}
