//! What is gathered before it is written.

ghost use Rattle.std.specs.Prelude.{◌≡◌, [], OnOk, OnErr};
ghost use Rattle.xls_output.specs.Gathering.{PutsInto};

use crate::sink::{Sink, write_all};
use crate::stop::Stop;

/// A buffer in which bytes are gathered on their way to a sink. How they are appended is its own.
pub trait Gathers {
    ghost use Rattle.std.specs.Prelude.{◌≡◌, ℕ, List, []};

    /// What it keeps.
    ghost kept: { Self → List ℕ };

    /// The bytes that it keeps.
    fn bytes(&self) -> &[u8]
        ensures { result.now ≡ kept self.now };

    /// Empties it.
    fn clear(&mut self)
        ensures { kept self.new ≡ [] };
}

impl Gathers for Vec<u8> {
    ghost kept = { λ bytes. bytes.items };

    #[inline(always)]
    fn bytes(&self) -> &[u8] {
        self.as_slice()
    }

    #[inline(always)]
    fn clear(&mut self) {
        Vec::clear(self);
    }
}

/// Writes all that a buffer keeps.
#[inline(never)]
pub fn flush<K: Sink, B: Gathers>(buffer: &mut B, sink: &mut K) -> Result<(), Stop>
    ensures puts { PutsInto (K.state sink.old) (B.kept buffer.old) (K.state sink.new) (B.kept buffer.new) [] result }
    ensures none { OnOk result (B.kept buffer.new ≡ []) }
    ensures err { OnErr result (B.kept buffer.new ≡ B.kept buffer.old) }
{
    write_all(sink, buffer.bytes())?;
    buffer.clear();
    Ok(())
}
