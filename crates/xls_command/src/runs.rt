//! The top call of the program.

ghost use Rattle.std.specs.Prelude.{◌≡◌, ◌↔◌, ◌<◌, ◌≤◌, List, map};
ghost use Rattle.std.specs.String.{string_bytes};
ghost use Rattle.std.specs.Io.KnownBytes.{Keeps};
ghost use Rattle.xls_output.specs.Causes.{Rose};
ghost use Rattle.xls_output.specs.Written.{Writes, WritesPart};
ghost use Rattle.xls_command.specs.Endings.{IsQuiet};
ghost use Rattle.xls_command.specs.Words.{IsCommand, OfCommand};
ghost use Rattle.xls_command.specs.Outputs.{EndsWell, HasRead, IsOutput, IsRefusalText, MayWrite, ReadsNothing};
ghost use Rattle.xls_output.specs.SinkState.{TakesEach};
ghost use Rattle.xls_command.specs.declared.command.Command.{Command};

use crate::command::command_of;
use crate::perform::perform;
use std::alloc::Global;
use xls_book::Source;
use xls_output::{Sink, Stop};
use xls_report::Ending;

/// Does what the words ask for, and answers the status.
pub fn run<S: Source, K: Sink>(alloc: Global, words: &[String], source: &mut S, sink: &mut K) -> u8
    ensures status { result < 6 }

    // 0: the command's text was written.
    ensures done { result ≡ 0 → OfCommand words.now (λ c. HasRead c (S.state source.old) (S.state source.new)
        × Writes (IsOutput c (S.state source.old).left) (K.state sink.old).written (K.state sink.new).written) }

    // 0: no read has failed.
    ensures faultless { result ≡ 0 → (S.state source.new).faults ≡ (S.state source.old).faults }

    // 1: the line of the first fault was written.
    ensures refused { result ≡ 1 → OfCommand words.now (λ c.
        Writes (IsRefusalText c (S.state source.old).left) (K.state sink.old).written (K.state sink.new).written) }

    // 2: exactly where the words are no command's; nothing was read or written.
    ensures words { (result ≡ 2) ↔ ((c : Command) → IsCommand (map string_bytes words.now) c → ⊥) }
    ensures untouched { result ≡ 2 → (source.new ≡ source.old) × (sink.new ≡ sink.old) }

    // A command that reads nothing leaves the source as it was, whatever its status.
    ensures unread { (result ≡ 2 → ⊥)
        → OfCommand words.now (λ c. ReadsNothing c → source.new ≡ source.old) }

    // 3: the source failed, in a command that reads, and nothing was written.
    ensures reads { result ≡ 3 → OfCommand words.now (λ c. ReadsNothing c → ⊥) }
    ensures read_fault { result ≡ 3 → Rose (S.state source.old).faults (S.state source.new).faults }
    ensures unwritten { result ≡ 3 → Keeps (K.state sink.old).written (K.state sink.new).written }

    // 4: the sink failed. 5: out of memory. A prefix of the text that 0 or 1 writes was written.
    ensures write_fault { result ≡ 4 → Rose (K.state sink.old).faults (K.state sink.new).faults }
    ensures part { 4 ≤ result → OfCommand words.now (λ c.
        WritesPart (MayWrite c (S.state source.old).left) (K.state sink.old).written (K.state sink.new).written) }

    // Where neither fails, a command ends with its text, its refusal or out of memory.
    ensures complete { (result ≡ 2 → ⊥) → IsQuiet (S.state source.old).faults (S.state source.new).faults
        → IsQuiet (K.state sink.old).faults (K.state sink.new).faults
        → OfCommand words.now (λ c. EndsWell c (S.state source.old).left result) }

    // A sink that takes each text that may be written doesn't fail.
    ensures steady { TakesEach (K.state sink.old) (λ text. OfCommand words.now (λ c. MayWrite c (S.state source.old).left text))
        → (K.state sink.new).faults ≡ (K.state sink.old).faults }
{
    let Some(command) = command_of(words) else {
        return 2;
    };
    match perform(alloc, command, source, sink) {
        Ok(Ending::Done) => 0,
        Ok(Ending::Refused) => 1,
        Err(Stop::Read) => 3,
        Err(Stop::Write) => 4,
        Err(Stop::Memory) => 5,
    }
}
