//! The canonical stream of a workbook.

ghost use Rattle.std.specs.Prelude.{◌≤◌, length};
ghost use Rattle.xls_open.specs.Opening.{default_options};
ghost use Rattle.xls_report.specs.Endings.{EndsWithEither};
ghost use Rattle.xls_report.specs.Texts.{IsRemadeText, IsUnremadeLine};
ghost use Rattle.xls_report.specs.Remaking.{IsUnwrittenOf, IsWrittenOf, TellsList};

use crate::ending::Ending;
use crate::faults::{write_refusal, write_unwritten};
use std::alloc::Global;
use xls_biff::XlsError;
use xls_book::StreamBytes;
use xls_lay::{LayError, Logical, TOO_LONG, canonical_length, logical_of, write_stream};
use xls_output::{Sink, Stop};

/// Writes the canonical stream of a list, or that it is too long.
fn write_list<K: Sink>(alloc: Global, sink: &mut K, list: &Logical) -> Result<Ending, Stop>
    ensures { EndsWithEither (IsWrittenOf list.now) (IsUnwrittenOf list.now)
        (K.state sink.old) (K.state sink.new) result }
{
    let found = canonical_length(list);
    if found >= TOO_LONG {
        write_unwritten(alloc, sink, LayError::TooLong { found })?;
        return Ok(Ending::Refused);
    }
    write_stream(alloc, sink, list)?;
    Ok(Ending::Done)
}

/// The one list that bytes carry, or their first fault.
fn list_of(alloc: Global, bytes: &[u8]) -> Result<Logical, XlsError>
    requires { length bytes.now ≤ default_options.max_bytes }
    ensures { TellsList bytes.now result }
{
    logical_of(alloc, bytes)
}

/// Writes the canonical stream of the list that bytes carry, or their first fault, or that it is too long. The
/// bytes are given back before anything is written, and the stream is written in pieces as it is made.
pub fn write_remake<K: Sink>(
    alloc: Global,
    sink: &mut K,
    bytes: StreamBytes,
) -> Result<Ending, Stop>
    requires { length bytes ≤ default_options.max_bytes }
    ensures { EndsWithEither (IsRemadeText bytes) (IsUnremadeLine bytes)
        (K.state sink.old) (K.state sink.new) result }
{
    let list = list_of(alloc, bytes.as_slice());
    drop(bytes);
    match list {
        Ok(list) => write_list(alloc, sink, &list),
        Err(error) => write_refusal(alloc, sink, &error),
    }
}
