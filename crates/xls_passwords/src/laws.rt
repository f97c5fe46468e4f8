//! Laws of the definitions, each on a function with an empty body.

ghost use Rattle.xls_passwords.specs.Laws.{XorsBack, RecordsAreAll, KeepsLength, KeepsRecords};

/// The key streams of RC4 decrypt what they encrypt.
pub fn xors_back()
    ensures { XorsBack }
{}

/// The records of a stream, one after another, are the stream.
pub fn records_are_all()
    ensures { RecordsAreAll }
{}

/// A plain stream has the length of the encrypted one.
pub fn keeps_length()
    ensures { KeepsLength }
{}

/// A plain stream has the records of the encrypted one, with their types and lengths, but for the
/// first FilePass, which becomes a record of type 0000.
pub fn keeps_records()
    ensures { KeepsRecords }
{}
