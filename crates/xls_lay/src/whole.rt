//! A stream that is kept in memory whole.

ghost use Rattle.std.specs.Prelude.{◌≡◌, ◌<◌, [], Some, IfOk, length};
ghost use Rattle.std.specs.Io.{WritesAtMost};
ghost use Rattle.std.specs.Io.KnownBytes.{WriteAppends};
ghost use Rattle.xls_output.specs.Causes.{HasCause};

use std::alloc::{AllocError, Global};
use std::marker::Model;
use xls_output::{Sink, WriteFault};

/// The bytes so far. A write fails where memory runs out.
#[derive(Drop)]
pub(crate) struct Whole {
    bytes: Vec<u8>,
    faults: u64,
}

impl Model for Whole {
    ghost use Rattle.std.specs.Prelude.{ℕ, List};

    ghost Value = { List ℕ × ℕ };

    ghost view = { λ w. (w.bytes.items, w.faults) };
}

impl Whole {
    /// No bytes, with room for so many.
    pub(crate) fn new(alloc: Global, size: usize) -> Result<Whole, AllocError>
        ensures { IfOk result (λ w. w ≡ ([], 0)) }
    {
        Ok(Whole {
            bytes: Vec::with_capacity(alloc, size)?,
            faults: 0,
        })
    }

    pub(crate) fn into_bytes(self) -> Vec<u8>
        ensures { result.items ≡ self.0 }
    {
        self.bytes
    }
}

impl Sink for Whole {
    ghost state = { λ w. record { written = Some w.0; faults = w.1; takes = λ _. ⊥ } };

    fn write(&mut self, piece: &[u8]) -> Result<usize, WriteFault>
        requires not_empty { 0 < length piece.now }
        ensures bound { WritesAtMost result piece.now }
        ensures moves { IfOk result (λ n. 0 < n) }
        ensures bytes { WriteAppends (Some self.old.0) (Some self.new.0) result piece.now }
        ensures cause { HasCause self.old.1 self.new.1 result }
    {
        match self.bytes.extend_from_slice(piece) {
            Ok(()) => Ok(piece.len()),
            Err(_) => {
                self.faults = self.faults.saturating_add(1);
                Err(WriteFault)
            }
        }
    }
}
