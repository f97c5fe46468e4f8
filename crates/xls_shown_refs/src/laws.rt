//! A law, on a function with an empty body.

ghost use Rattle.xls_shown_refs.specs.Laws.{SpelledAnywhere};

/// Whether a formula can be spelled depends neither on where it stands nor on what it names.
pub fn spelled_anywhere()
    ensures { SpelledAnywhere }
{}
