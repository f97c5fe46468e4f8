//! A sink in memory.

ghost use Rattle.std.specs.Prelude.{◌≡◌, ◌↔◌, ◌⊎◌, ◌+◌, ◌-◌, ◌^◌, ◌<◌, ◌≤◌, [], min, Some, ℕ, IfOk, OnOk, OnErr, IsErr, Contains, length};
ghost use Rattle.std.specs.Io.{WritesAtMost};
ghost use Rattle.std.specs.Io.KnownBytes.{WriteAppends};
ghost use Rattle.xls_output.specs.Causes.{HasCause};
ghost use Rattle.xls_output.specs.SinkState.{TakesPiece, empty_memory, memory_state};

use crate::sink::{Sink, WriteFault};
use std::alloc::{AllocError, Global};
use std::marker::Model;

/// Text in memory that takes pieces, with writes that fail by their number.
#[derive(Drop)]
pub struct MemorySink {
    text: Vec<u8>,
    room: usize,
    chunk: usize,
    failing: Vec<u64>,
    call: u64,
    faults: u64,
}

impl Model for MemorySink {
    ghost use Rattle.std.specs.Prelude.{◌≤◌, vec_len, vec_capacity};
    ghost use Rattle.xls_output.specs.SinkState.{MemoryText};

    ghost Value = { MemoryText };

    ghost view = { λ s. record {
      text = s.text.items;
      room = s.room;
      chunk = s.chunk;
      failing = s.failing.items;
      call = s.call;
      faults = s.faults;
    } };

    ghost invariant = { λ s. (vec_len s.text ≤ s.room) × (s.room ≤ vec_capacity s.text) × (1 ≤ s.chunk) };
}

impl MemorySink {
    /// An empty text of at most `room` bytes, which takes at most `chunk` at a time, and whose calls of these numbers fail.
    pub fn new(
        alloc: Global,
        room: usize,
        chunk: usize,
        failing: Vec<u64>,
    ) -> Result<MemorySink, AllocError>
        requires { 1 ≤ chunk }
        ensures { IfOk result (λ s. s ≡ empty_memory room chunk failing.items) }
    {
        Ok(MemorySink {
            text: Vec::with_capacity(alloc, room)?,
            room,
            chunk,
            failing,
            call: 0,
            faults: 0,
        })
    }

    pub fn as_slice(&self) -> &[u8]
        ensures { result.now ≡ self.now.text }
    {
        &self.text
    }
}

impl Sink for MemorySink {
    ghost state = { λ s. memory_state s };

    fn write(&mut self, piece: &[u8]) -> Result<usize, WriteFault>
        requires not_empty { 0 < length piece.now }
        ensures bound { WritesAtMost result piece.now }
        ensures moves { IfOk result (λ n. 0 < n) }
        ensures bytes { WriteAppends (Some self.old.text) (Some self.new.text) result piece.now }
        ensures cause { HasCause self.old.faults self.new.faults result }
        ensures takes { TakesPiece (memory_state self.old) (memory_state self.new) piece.now result }

        // A call fails exactly where its number is listed or the room is used up.
        ensures fails { IsErr result
            ↔ (Contains self.old.failing self.old.call ⊎ (self.old.room ≤ length self.old.text)) }
        ensures count { IfOk result (λ n. n
            ≡ min self.old.chunk (min (length piece.now) (self.old.room - length self.old.text))) }
        ensures calls { self.new.call ≡ min (self.old.call + 1) (2 ^ 64 - 1) }

        // The count rises by one at each call that fails, up to its last value.
        ensures rises { OnErr result (self.new.faults ≡ min (self.old.faults + 1) (2 ^ 64 - 1)) }

        // Room, chunk and the listed calls stay.
        ensures same { (self.new.room ≡ self.old.room) × (self.new.chunk ≡ self.old.chunk)
            × (self.new.failing ≡ self.old.failing) }
    {
        let call = self.call;
        self.call = call.saturating_add(1);
        let room = self.room - self.text.len();
        if room == 0 || self.failing.contains(&call) {
            self.faults = self.faults.saturating_add(1);
            return Err(WriteFault);
        }
        let count = self.chunk.min(piece.len()).min(room);
        match self.text.extend_from_slice(&piece[..count]) {
            Ok(()) => Ok(count),
            Err(_) => unreachable!(),
        }
    }
}
