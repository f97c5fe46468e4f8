//! The first fault of the globals, and the version in force at their end.

ghost use Rattle.xls_open.specs.CheckSteps.{under, ChecksGlobals};

use crate::check::CheckRules;
use crate::globals_record::read_globals_record;
use xls_biff::{Biff, RecordIter, XlsError};
use xls_stream::types::EOF;

/// The version in force at the end of the globals, which is their EOF or the end of the stream, or
/// their first fault.
pub(crate) fn check_globals(stream: &[u8], rules: CheckRules) -> Result<Biff, XlsError>
    ensures { ChecksGlobals (under rules) stream.now result }
{
    let mut biff = Biff::Biff8;
    for record in RecordIter::new(stream) {
        let record = record?;
        if record.typ == EOF {
            return Ok(biff);
        }
        let read = read_globals_record(&record, biff, rules.force_codepage)?;
        biff = read.version_after(biff);
    }
    Ok(biff)
}
