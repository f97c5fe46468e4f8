//! The canonical stream of a workbook, and the stream as it stands.

ghost use Rattle.xls_output.specs.Gathering.{Delivers};
ghost use Rattle.xls_answers.specs.Answers.{OfBytes, OfRemade};

use crate::failure::Failure;
use std::alloc::Global;
use xls_biff::XlsError;
use xls_lay::{LayError, TOO_LONG, canonical_length, logical_of, write_stream};
use xls_open::MAX_BYTES;
use xls_output::{Sink, Stop, write_all};

/// Writes bytes.
fn write_bytes<K: Sink>(sink: &mut K, bytes: &[u8]) -> Result<(), Stop>
    ensures { Delivers (K.state sink.old) (K.state sink.new) bytes.now result }
{
    write_all(sink, bytes)?;
    Ok(())
}

/// Writes the bytes of a stream.
pub(crate) fn write_whole<K: Sink>(sink: &mut K, bytes: &[u8]) -> Result<(), Failure>
    ensures { OfBytes bytes.now (K.state sink.old) (K.state sink.new) result }
{
    write_bytes(sink, bytes)?;
    Ok(())
}

/// Writes the canonical stream of the list that bytes carry, in pieces as it is made.
pub(crate) fn write_remade<K: Sink>(
    alloc: Global,
    sink: &mut K,
    bytes: &[u8],
) -> Result<(), Failure>
    ensures { OfRemade bytes.now (K.state sink.old) (K.state sink.new) result }
{
    if bytes.len() as u64 > MAX_BYTES {
        return Err(Failure::Stream(XlsError::TooLarge { limit: MAX_BYTES }));
    }
    let list = logical_of(alloc, bytes)?;
    let found = canonical_length(&list);
    if found >= TOO_LONG {
        return Err(Failure::Canonical(LayError::TooLong { found }));
    }
    write_stream(alloc, sink, &list)?;
    Ok(())
}
