//! The lines of a stream with a fault, and of one without.

ghost use Rattle.std.specs.Prelude.{◌≡◌, ◌≢◌};
ghost use Rattle.xls_record.specs.declared.error.XlsError.TheVariants.{Memory};
ghost use Rattle.xls_output.specs.Gathering.{Delivers};
ghost use Rattle.xls_report.specs.Endings.{EndsWithEither};
ghost use Rattle.xls_report.specs.Faults.{fault_line, sound_line, unwritten_line};

use crate::ending::Ending;
use std::alloc::Global;
use xls_biff::XlsError;
use xls_lay::LayError;
use xls_lines::{Field, write_line};
use xls_output::{Sink, Stop};

/// Writes the line of a stream without a fault.
pub fn write_sound<K: Sink>(alloc: Global, sink: &mut K) -> Result<(), Stop>
    ensures { Delivers (K.state sink.old) (K.state sink.new) sound_line result }
{
    write_line(alloc, sink, "ok", &[])
}

/// Writes the line of a refusal.
pub fn write_fault<K: Sink>(alloc: Global, sink: &mut K, error: &XlsError) -> Result<(), Stop>
    ensures { Delivers (K.state sink.old) (K.state sink.new) (fault_line error.now) result }
{
    write_line(alloc, sink, "error", &[Field::Fault(error)])
}

/// Writes the line of a refusal, unless memory ran out.
pub fn write_refusal<K: Sink>(alloc: Global, sink: &mut K, error: &XlsError) -> Result<Ending, Stop>
    ensures { EndsWithEither (λ _. ⊥) (λ text. (error.now ≢ Memory) × (text ≡ fault_line error.now))
        (K.state sink.old) (K.state sink.new) result }
{
    match error {
        XlsError::Memory => Err(Stop::Memory),
        _ => {
            write_fault(alloc, sink, error)?;
            Ok(Ending::Refused)
        }
    }
}

/// Writes that a canonical stream isn't written, and why.
pub fn write_unwritten<K: Sink>(alloc: Global, sink: &mut K, error: LayError) -> Result<(), Stop>
    ensures { Delivers (K.state sink.old) (K.state sink.new) (unwritten_line error) result }
{
    let text = format!(in alloc; "{error}")?;
    write_line(alloc, sink, "error", &[Field::Word(text.as_str())])
}
