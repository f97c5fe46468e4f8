//! What stands beside the values of a workbook.

ghost use Rattle.xls_answers.specs.Answers.{OfBeside};

use crate::failure::Failure;
use std::alloc::Global;
use xls_beside::{Topic, checked_globals, write_beside};
use xls_open::XlsOptions;
use xls_output::Sink;
use xls_readable::Form;

/// Writes what stands beside the values of the workbook that a stream's bytes hold. Nothing is written before all of
/// the stream is checked.
pub(crate) fn write_beside_lines<K: Sink>(
    alloc: Global,
    sink: &mut K,
    topic: Topic,
    form: Form,
    options: &XlsOptions,
    bytes: &[u8],
) -> Result<(), Failure>
    ensures { OfBeside topic form options.now bytes.now (K.state sink.old) (K.state sink.new) result }
{
    let globals = checked_globals(alloc, options, bytes)?;
    write_beside(alloc, sink, topic, form, bytes, &globals)?;
    Ok(())
}
