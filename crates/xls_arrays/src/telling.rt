//! The sentence that tells a fault.

ghost use Rattle.std.specs.Prelude.{◌≡◌};
ghost use Rattle.xls_arrays.specs.Answers.{PutsText};
ghost use Rattle.xls_arrays.specs.Telling.{sentence};

use crate::whole::put_text;
use crate::{Fault, sentence_of};
use std::alloc::Global;

/// Puts the sentence of a fault into `out`, and its length into `size`. Answers 0, 1 where memory ran out, `size`
/// being 0, or 2 where `out` is too short and is as it was.
pub fn fault_text(alloc: Global, fault: &Fault, out: &mut [u8], size: &mut u64) -> u32
    ensures { PutsText (λ text. text ≡ sentence fault.now) out.old out.new size.new result }
{
    put_text(sentence_of(alloc, fault), out, size)
}
