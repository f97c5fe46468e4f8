//! What holds of texts in pages.

ghost use Rattle.xls_pages.specs.Laws.{NoAsciiIsLost};

/// A byte below 80 behind one with which it is no pair stands for itself.
pub fn no_ascii_is_lost()
    ensures { NoAsciiIsLost }
{}
