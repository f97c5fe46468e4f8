//! Where bytes come from.

ghost use Rattle.std.specs.Prelude.{◌≡◌, ◌<◌, ◌+◌, ◌-◌, ◌^◌, IfOk, OnOk, OnErr, length, min};
ghost use Rattle.std.specs.Io.{ReadsAtMost};
ghost use Rattle.std.specs.Io.KnownBytes.{ReadConsumes};
ghost use Rattle.xls_output.specs.Causes.{HasCause};
ghost use Rattle.xls_record.specs.SourceState.{SourceState};

use crate::error::XlsError;
use std::io::{ErrorKind, Read};
use std::marker::Model;

/// A read failed.
#[derive(Clone, Copy, Debug, PartialEq, Eq)]
pub struct ReadFault;

impl From<ReadFault> for XlsError {
    ghost use Rattle.std.specs.Prelude.{◌≡◌};
    ghost use Rattle.xls_record.specs.declared.error.XlsError.TheVariants.{Io};

    ghost from_gives = { λ _ e. e ≡ Io };

    fn from(_: ReadFault) -> Self {
        XlsError::Io
    }
}

/// Bytes that come in pieces.
pub trait Source {
    /// The bytes that are still to come, where it tells them, and how often a read has failed, up to a last
    /// value.
    ghost state: { Self → SourceState };

    /// That it has come to its end.
    ghost ended: { Self → Type 0 };

    /// Moves the first bytes that are left to the start of the slice. Into a slice with room it
    /// moves none only at the end.
    fn read(&mut self, into: &mut [u8]) -> Result<usize, ReadFault>
        ensures bound { ReadsAtMost result into.new }
        ensures bytes { ReadConsumes (state self.old).left (state self.new).left result into.new }
        ensures cause { HasCause (state self.old).faults (state self.new).faults result }
        ensures end { IfOk result (λ n. n ≡ 0 → 0 < length into.new → ended self.new) };
}

/// How often an interrupted read is tried again.
const TRIES: u32 = 1_000;

/// Reads, and reads again where that was interrupted, as the calls of std do that read to the end.
fn read_on<R: Read>(inner: &mut R, into: &mut [u8]) -> std::io::Result<usize>
    ensures bound { ReadsAtMost result into.new }
    ensures bytes { ReadConsumes (R.remaining inner.old) (R.remaining inner.new) result into.new }
{
    for _ in 0..TRIES {
        match inner.read(into) {
            Err(error) if error.kind() == ErrorKind::Interrupted => {}
            answer => return answer,
        }
    }
    inner.read(into)
}

/// A reader of std. The bytes that are left are told where that reader tells them. Contracts see the reader and
/// the count of faults.
#[derive(Drop)]
pub struct StdSource<R: Read> {
    inner: R,
    faults: u64,
}

impl<R: Read> Model for StdSource<R> {
    ghost use Rattle.std.specs.Prelude.{ℕ};

    ghost Value = { R × ℕ };

    ghost view = { λ s. (s.inner, s.faults) };
}

impl<R: Read> StdSource<R> {
    /// A source of this reader's bytes, of which no read has failed.
    pub fn new(inner: R) -> StdSource<R>
        ensures { result ≡ (inner, 0) }
    {
        StdSource { inner, faults: 0 }
    }
}

impl<R: Read> Source for StdSource<R> {
    ghost state = { λ s. record { left = R.remaining s.0; faults = s.1 } };

    ghost ended = { λ _. Unit {0} };

    fn read(&mut self, into: &mut [u8]) -> Result<usize, ReadFault>
        ensures bound { ReadsAtMost result into.new }
        ensures bytes { ReadConsumes (R.remaining self.old.0) (R.remaining self.new.0) result into.new }
        ensures cause { HasCause self.old.1 self.new.1 result }
        ensures rises { OnErr result (self.new.1 ≡ min (self.old.1 + 1) (2 ^ 64 - 1)) }
    {
        match read_on(&mut self.inner, into) {
            Ok(count) => Ok(count),
            Err(_) => {
                self.faults = self.faults.saturating_add(1);
                Err(ReadFault)
            }
        }
    }
}
