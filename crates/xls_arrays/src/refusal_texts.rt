//! The sentence that tells a fault.

ghost use Rattle.std.specs.Prelude.{◌≡◌, IfOk};
ghost use Rattle.std.specs.String.{string_bytes};
ghost use Rattle.xls_arrays.specs.Telling.{sentence};
ghost use Rattle.xls_arrays.specs.Texts.{refusal_text};

use crate::decoding::refusal_of;
use crate::faults::Fault;
use crate::refusal::Refusal;
use std::alloc::{AllocError, Global};

/// The sentence of a refusal.
fn reported(alloc: Global, refusal: Refusal) -> Result<String, AllocError>
    ensures { IfOk result (λ text. string_bytes text ≡ refusal_text refusal) }
{
    format!(in alloc; "{refusal}")
}

/// The sentence of a fault, in English: `No fault` for the code 0, `An unknown fault` for numbers that no call
/// gives.
pub fn sentence_of(alloc: Global, fault: &Fault) -> Result<String, AllocError>
    ensures { IfOk result (λ text. string_bytes text ≡ sentence fault.now) }
{
    if fault.code == 0 {
        return String::from_str(alloc, "No fault");
    }
    match refusal_of(fault) {
        Some(refusal) => reported(alloc, refusal),
        None => String::from_str(alloc, "An unknown fault"),
    }
}
