//! Laws over canonical bytes, each on a function with an empty body.

ghost use Rattle.xls_lay.specs.Laws.{CanonicalCarries, CanonicalEquality, CanonicalOpens, OpensAgain, WrittenAgain};

/// Canonical bytes with offsets of 32 bits carry their list.
pub fn canonical_carries()
    ensures { CanonicalCarries }
{}

/// Two lists are equal exactly where their canonical bytes are.
pub fn canonical_equality()
    ensures { CanonicalEquality }
{}

/// A list that canonical bytes carry is written as those bytes.
pub fn written_again()
    ensures { WrittenAgain }
{}

/// The canonical bytes of a full list open to its reading.
pub fn canonical_opens()
    ensures { CanonicalOpens }
{}

/// The canonical bytes of the list that a stream carries open to the workbook that the stream opens to.
pub fn opens_again()
    ensures { OpensAgain }
{}
