//! A source without end.

ghost use Rattle.std.specs.Prelude.{◌≡◌, ◌<◌, ◌≤◌, None, IfOk, IsOk, length, min, replicate, take};
ghost use Rattle.std.specs.Io.{ReadsAtMost};

use crate::source::{ReadFault, Source};
use std::marker::Model;

/// Zero bytes without end, which tells no bytes: what is read of it is a refusal.
#[derive(Drop)]
pub struct EndlessSource {
    chunk: usize,
}

impl Model for EndlessSource {
    ghost use Rattle.std.specs.Prelude.{◌≤◌, ℕ};

    ghost Value = { ℕ };

    ghost view = { λ s. s.chunk };

    ghost invariant = { λ s. 1 ≤ s.chunk };
}

impl EndlessSource {
    /// Zero bytes, at most `chunk` at a time.
    pub fn new(chunk: usize) -> EndlessSource
        requires { 1 ≤ chunk }
        ensures { result ≡ chunk }
    {
        EndlessSource { chunk }
    }
}

impl Source for EndlessSource {
    ghost state = { λ _. record { left = None; faults = 0 } };

    ghost ended = { λ _. ⊥ };

    fn read(&mut self, into: &mut [u8]) -> Result<usize, ReadFault>
        ensures bound { ReadsAtMost result into.new }
        ensures end { IfOk result (λ n. n ≡ 0 → 0 < length into.new → ⊥) }
        ensures ok { IsOk result }
        ensures count { IfOk result (λ n. n ≡ min self.old (length into.new)) }
        ensures zeros { IfOk result (λ n. take n into.new ≡ replicate n 0) }
        ensures same { self.new ≡ self.old }
    {
        let count = self.chunk.min(into.len());
        into[..count].fill(0);
        Ok(count)
    }
}
