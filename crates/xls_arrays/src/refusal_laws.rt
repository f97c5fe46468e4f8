//! The law of the definitions.

ghost use Rattle.xls_arrays.specs.RefusalLaws.{RefusalsAreReported};

/// The numbers of a refusal tell it, and so its sentence: of each that a call may have, with numbers that its
/// fields hold.
pub fn refusals_are_reported()
    ensures { RefusalsAreReported }
{}
