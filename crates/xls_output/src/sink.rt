//! Where text goes.

ghost use Rattle.std.specs.Prelude.{◌≡◌, ◌+◌, ◌-◌, ◌^◌, ◌<◌, ◌≤◌, ℕ, length, min, IfOk, IsOk, OnOk, OnErr};
ghost use Rattle.std.specs.Io.{WritesAtMost};
ghost use Rattle.std.specs.Io.KnownBytes.{WriteAppends, Appends};
ghost use Rattle.xls_output.specs.Causes.{HasCause};
ghost use Rattle.xls_output.specs.SinkState.{SinkState, TakesPiece};
ghost use Rattle.xls_output.specs.Written.{AppendsPrefix};

use std::io::{ErrorKind, Write};
use std::marker::Model;

/// A write failed.
#[derive(Clone, Copy, Debug, PartialEq, Eq)]
pub struct WriteFault;

/// Where text goes, in pieces.
pub trait Sink {
    /// What was written, how often a write has failed, and what is taken without a fault.
    ghost state: { Self → SinkState };

    /// Appends the first bytes of the piece, at least one of them.
    fn write(&mut self, piece: &[u8]) -> Result<usize, WriteFault>
        requires not_empty { 0 < length piece.now }
        ensures bound { WritesAtMost result piece.now }
        ensures moves { IfOk result (λ n. 0 < n) }
        ensures bytes { WriteAppends (state self.old).written (state self.new).written result piece.now }
        ensures cause { HasCause (state self.old).faults (state self.new).faults result }
        ensures takes { TakesPiece (state self.old) (state self.new) piece.now result };
}

/// Writes the whole piece, if no write fails.
pub fn write_all<K: Sink>(sink: &mut K, piece: &[u8]) -> Result<(), WriteFault>
    ensures ok { OnOk result (Appends (K.state sink.old).written (K.state sink.new).written piece.now) }
    ensures start { AppendsPrefix (K.state sink.old).written (K.state sink.new).written piece.now }
    ensures cause { HasCause (K.state sink.old).faults (K.state sink.new).faults result }
    ensures takes { (n : ℕ) → length piece.now ≤ n → (K.state sink.old).takes n → IsOk result
        × ((K.state sink.new).faults ≡ (K.state sink.old).faults) × (K.state sink.new).takes (n - length piece.now) }
{
    let mut at = 0;
    while at < piece.len() {
        at += sink.write(&piece[at..])?;
    }
    Ok(())
}

/// How often an interrupted write is tried again.
const TRIES: u32 = 1_000;

/// Writes, and writes again where that was interrupted, as the calls of std do that write all.
fn write_on<W: Write>(inner: &mut W, piece: &[u8]) -> std::io::Result<usize>
    ensures bound { WritesAtMost result piece.now }
    ensures bytes { WriteAppends (W.contents inner.old) (W.contents inner.new) result piece.now }
{
    for _ in 0..TRIES {
        match inner.write(piece) {
            Err(error) if error.kind() == ErrorKind::Interrupted => {}
            answer => return answer,
        }
    }
    inner.write(piece)
}

/// A writer of std. What was written is told where that writer tells it. Contracts see the writer and
/// the count of faults.
#[derive(Drop)]
pub struct StdSink<W: Write> {
    inner: W,
    faults: u64,
}

impl<W: Write> Model for StdSink<W> {
    ghost use Rattle.std.specs.Prelude.{ℕ};

    ghost Value = { W × ℕ };

    ghost view = { λ s. (s.inner, s.faults) };
}

impl<W: Write> StdSink<W> {
    /// A sink that hands its text on to this writer, of which no write has failed.
    pub fn new(inner: W) -> StdSink<W>
        ensures { result ≡ (inner, 0) }
    {
        StdSink { inner, faults: 0 }
    }
}

impl<W: Write> Sink for StdSink<W> {
    ghost state = { λ s. record { written = W.contents s.0; faults = s.1; takes = λ _. ⊥ } };

    fn write(&mut self, piece: &[u8]) -> Result<usize, WriteFault>
        ensures bound { WritesAtMost result piece.now }
        ensures moves { IfOk result (λ n. 0 < n) }
        ensures bytes { WriteAppends (W.contents self.old.0) (W.contents self.new.0) result piece.now }
        ensures cause { HasCause self.old.1 self.new.1 result }
        ensures rises { OnErr result (self.new.1 ≡ min (self.old.1 + 1) (2 ^ 64 - 1)) }
    {
        match write_on(&mut self.inner, piece) {
            Ok(count) if count > 0 => Ok(count),
            _ => {
                self.faults = self.faults.saturating_add(1);
                Err(WriteFault)
            }
        }
    }
}
