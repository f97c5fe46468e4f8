//! The strings of a string table.

ghost use Rattle.std.specs.Prelude.{IfErr, IfOk};
ghost use Rattle.example_calls.specs.Counts.{IsCount, IsRefusal};

use std::alloc::Global;
use xls_biff::{RecordIter, XlsError, parse_sst};
use xls_stream::types::SST;

/// The number of the strings of the first string table; 0 where there is none.
pub(crate) fn count_strings(alloc: Global, stream: &[u8]) -> Result<usize, XlsError>
    ensures count { IfOk result (IsCount stream.now) }
    ensures refused { IfErr result (IsRefusal stream.now) }
{
    for record in RecordIter::new(stream) {
        let record = record?;
        if record.typ == SST {
            return Ok(parse_sst(alloc, &record)?.len());
        }
    }
    Ok(0)
}
