//! Why a text isn't written to its end.

ghost use Rattle.xls_output.specs.declared.stop.Stop.TheVariants.{Memory, Write};

use crate::sink::WriteFault;
use std::alloc::AllocError;

/// Why a text isn't written to its end.
#[derive(Clone, Copy, Debug, PartialEq, Eq)]
pub enum Stop {
    /// A read failed.
    Read,
    /// A write failed.
    Write,
    /// Memory ran out.
    Memory,
}

impl From<AllocError> for Stop {
    ghost use Rattle.std.specs.Prelude.{◌≡◌};

    ghost from_gives = { λ _ e. e ≡ Memory };

    fn from(_: AllocError) -> Self {
        Stop::Memory
    }
}

impl From<WriteFault> for Stop {
    ghost use Rattle.std.specs.Prelude.{◌≡◌};

    ghost from_gives = { λ _ e. e ≡ Write };

    fn from(_: WriteFault) -> Self {
        Stop::Write
    }
}
