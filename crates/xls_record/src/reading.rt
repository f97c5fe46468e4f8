//! The bounded read of a source.

ghost use Rattle.std.specs.Prelude.{◌≡◌, ◌≤◌, length, IfOk, IfErr, OnOk};
ghost use Rattle.std.specs.Io.KnownBytes.{Consumes, IsAtEnd};
ghost use Rattle.xls_record.specs.Bounded.{ReadCause};
ghost use Rattle.xls_record.specs.SourceState.{TakesWithin};

use crate::error::XlsError;
use crate::source::Source;
use std::alloc::{AllocError, Global};
use std::marker::Model;

/// How many bytes are asked for at a time.
const CHUNK: usize = 65_536;

/// The bytes of a stream.
#[derive(Drop)]
pub struct StreamBytes {
    bytes: Vec<u8>,
}

impl Model for StreamBytes {
    ghost use Rattle.std.specs.Prelude.{List, ℕ};

    ghost Value = { List ℕ };

    ghost view = { λ s. s.bytes.items };
}

impl StreamBytes {
    pub fn from_vec(bytes: Vec<u8>) -> StreamBytes
        ensures { result ≡ bytes.items }
    {
        StreamBytes { bytes }
    }

    pub fn as_slice(&self) -> &[u8]
        ensures { result.now ≡ self.now }
    {
        &self.bytes
    }
}

/// So many zero bytes.
fn zeros(alloc: Global, count: usize) -> Result<Vec<u8>, AllocError>
    ensures { IfOk result (λ v. length v.items ≡ count) }
{
    vec![in alloc; 0u8; count]
}

/// Reads all that the source has left, by way of this piece. The clauses are those of `read_all`.
fn read_by_pieces<S: Source>(
    alloc: Global,
    source: &mut S,
    limit: u64,
    piece: &mut [u8],
) -> Result<StreamBytes, XlsError>
    requires { 1 ≤ length piece.old }
    ensures within { IfOk result (λ bytes. length bytes ≤ limit) }
    ensures all { IfOk result (Consumes (S.state source.old).left (S.state source.new).left) }
    ensures end { IfOk result (λ _. IsAtEnd (S.state source.new).left) }
    ensures cause { IfErr result (ReadCause limit (S.state source.old) (S.state source.new)) }
    ensures ended { IfOk result (λ _. S.ended source.new) }
    ensures prefix { TakesWithin limit (S.state source.old) (S.state source.new) }
    ensures count { (S.state source.old).faults ≤ (S.state source.new).faults }
    ensures faultless { OnOk result ((S.state source.new).faults ≡ (S.state source.old).faults) }
{
    let mut bytes = Vec::new(alloc);
    loop {
        let room = (limit - bytes.len() as u64).min(piece.len() as u64 - 1) as usize + 1;
        let count = source.read(&mut piece[..room])?;
        let is_end = count == 0;
        if is_end {
            return Ok(StreamBytes { bytes });
        }
        bytes.extend_from_slice(&piece[..count])?;
        if bytes.len() as u64 > limit {
            return Err(XlsError::TooLarge { limit });
        }
    }
}

/// Reads all that the source has left, if that is at most `limit` bytes.
///
/// `Io` where a read fails, `TooLarge` for more bytes, `Memory`. At most one byte more than the
/// limit is taken.
pub fn read_all<S: Source>(
    alloc: Global,
    source: &mut S,
    limit: u64,
) -> Result<StreamBytes, XlsError>
    // All that the source had left, and nothing is left.
    ensures within { IfOk result (λ bytes. length bytes ≤ limit) }
    ensures all { IfOk result (Consumes (S.state source.old).left (S.state source.new).left) }
    ensures end { IfOk result (λ _. IsAtEnd (S.state source.new).left) }

    // A source without end is refused.
    ensures ended { IfOk result (λ _. S.ended source.new) }

    // Each refusal has its cause.
    ensures cause { IfErr result (ReadCause limit (S.state source.old) (S.state source.new)) }

    // Also after a refusal a prefix was taken, of one byte more than the limit at most.
    ensures prefix { TakesWithin limit (S.state source.old) (S.state source.new) }
    ensures count { (S.state source.old).faults ≤ (S.state source.new).faults }

    // No read has failed where all is read.
    ensures faultless { OnOk result ((S.state source.new).faults ≡ (S.state source.old).faults) }
{
    let mut piece = zeros(alloc, CHUNK)?;
    read_by_pieces(alloc, source, limit, &mut piece)
}
