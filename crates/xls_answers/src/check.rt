//! Whether a stream has a fault.

ghost use Rattle.xls_answers.specs.Answers.{OfCheck};

use crate::failure::Failure;
use std::alloc::Global;
use xls_open::{XlsOptions, check_stream};
use xls_output::Sink;
use xls_report::write_sound;

/// Writes that the bytes of a stream have no fault. Nothing is kept of them.
pub(crate) fn write_check<K: Sink>(
    alloc: Global,
    sink: &mut K,
    options: &XlsOptions,
    bytes: &[u8],
) -> Result<(), Failure>
    ensures { OfCheck options.now bytes.now (K.state sink.old) (K.state sink.new) result }
{
    check_stream(bytes, options.force_codepage, options.max_cells)?;
    write_sound(alloc, sink)?;
    Ok(())
}
