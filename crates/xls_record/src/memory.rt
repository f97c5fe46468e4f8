//! Sources in memory.

ghost use Rattle.std.specs.Prelude.{◌≡◌, ◌↔◌, ◌+◌, ◌-◌, ◌^◌, ◌≤◌, [], min, Some, IfOk, OnOk, OnErr, IsOk, IsErr, Contains, length, take, drop};
ghost use Rattle.std.specs.Io.{ReadsAtMost};
ghost use Rattle.std.specs.Io.KnownBytes.{ReadConsumes};
ghost use Rattle.xls_output.specs.Causes.{HasCause};

use crate::source::{ReadFault, Source};
use std::marker::Model;

// Copies as many bytes as there are and as there is room for, up to `most`.
fn copy_prefix(bytes: &[u8], most: usize, into: &mut [u8]) -> usize
    ensures count { result ≡ min most (min (length into.new) (length bytes.now)) }
    ensures copied { take result into.new ≡ take result bytes.now }
{
    let count = most.min(into.len()).min(bytes.len());
    into[..count].copy_from_slice(&bytes[..count]);
    count
}

/// Bytes in memory that come in pieces, with reads that fail by their number.
#[derive(Drop)]
pub struct MemorySource {
    bytes: Vec<u8>,
    at: usize,
    chunk: usize,
    failing: Vec<u64>,
    call: u64,
    faults: u64,
}

impl Model for MemorySource {
    ghost use Rattle.std.specs.Prelude.{◌≤◌, drop, vec_len};
    ghost use Rattle.xls_record.specs.Feed.{Feed};

    ghost Value = { Feed };

    ghost view = { λ s. record {
      bytes = drop s.at s.bytes.items;
      chunk = s.chunk;
      failing = s.failing.items;
      call = s.call;
      faults = s.faults;
    } };

    ghost invariant = { λ s. (s.at ≤ vec_len s.bytes) × (1 ≤ s.chunk) };
}

impl MemorySource {
    /// A source of these bytes, at most `chunk` at a time, whose calls of these numbers fail.
    pub fn new(bytes: Vec<u8>, chunk: usize, failing: Vec<u64>) -> MemorySource
        requires { 1 ≤ chunk }
        ensures { result ≡ record {
          bytes = bytes.items;
          chunk = chunk;
          failing = failing.items;
          call = 0;
          faults = 0;
        } }
    {
        MemorySource {
            bytes,
            at: 0,
            chunk,
            failing,
            call: 0,
            faults: 0,
        }
    }
}

impl Source for MemorySource {
    ghost state = { λ s. record { left = Some s.bytes; faults = s.faults } };

    ghost ended = { λ s. s.bytes ≡ [] };

    fn read(&mut self, into: &mut [u8]) -> Result<usize, ReadFault>
        ensures bound { ReadsAtMost result into.new }
        ensures bytes { ReadConsumes (Some self.old.bytes) (Some self.new.bytes) result into.new }
        ensures cause { HasCause self.old.faults self.new.faults result }

        // A call fails exactly where its number is listed.
        ensures fails { IsErr result ↔ Contains self.old.failing self.old.call }
        ensures moves { IfOk result (λ n. n ≡ min self.old.chunk (min (length into.new) (length self.old.bytes))) }
        ensures slice { OnErr result (into.new ≡ into.old) }
        ensures rises { OnErr result (self.new.faults ≡ min (self.old.faults + 1) (2 ^ 64 - 1)) }
        ensures calls { self.new.call ≡ min (self.old.call + 1) (2 ^ 64 - 1) }
        ensures same { (self.new.chunk ≡ self.old.chunk) × (self.new.failing ≡ self.old.failing) }
    {
        let call = self.call;
        self.call = call.saturating_add(1);
        if self.failing.contains(&call) {
            self.faults = self.faults.saturating_add(1);
            return Err(ReadFault);
        }
        let count = copy_prefix(&self.bytes[self.at..], self.chunk, into);
        self.at += count;
        Ok(count)
    }
}

/// Bytes in memory that never fail.
#[derive(Drop)]
pub struct SteadySource {
    bytes: Vec<u8>,
    at: usize,
}

impl Model for SteadySource {
    ghost use Rattle.std.specs.Prelude.{List, ℕ, ◌≤◌, drop, vec_len};

    ghost Value = { List ℕ };

    ghost view = { λ s. drop s.at s.bytes.items };

    ghost invariant = { λ s. s.at ≤ vec_len s.bytes };
}

impl SteadySource {
    pub fn new(bytes: Vec<u8>) -> SteadySource
        ensures { result ≡ bytes.items }
    {
        SteadySource { bytes, at: 0 }
    }
}

impl Source for SteadySource {
    ghost state = { λ s. record { left = Some s; faults = 0 } };

    ghost ended = { λ s. s ≡ [] };

    fn read(&mut self, into: &mut [u8]) -> Result<usize, ReadFault>
        ensures bound { ReadsAtMost result into.new }
        ensures bytes { ReadConsumes (Some self.old) (Some self.new) result into.new }
        ensures cause { HasCause 0 0 result }
        ensures ok { IsOk result }
        ensures moves { IfOk result (λ n. n ≡ min (length into.new) (length self.old)) }
    {
        let count = copy_prefix(&self.bytes[self.at..], usize::MAX, into);
        self.at += count;
        Ok(count)
    }
}
