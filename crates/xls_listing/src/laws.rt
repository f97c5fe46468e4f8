//! Laws over the definitions, the contracts of calls that do nothing.

ghost use Rattle.xls_listing.specs.Laws.{ExactIsGiven, RecordedIsDump};

/// Lines that are written exactly have one text, `exact_lines`.
pub fn exact_is_given()
    ensures { ExactIsGiven }
{}

/// The lines of a workbook whose cells are read as their records have them are those of its dump.
pub fn recorded_is_dump()
    ensures { RecordedIsDump }
{}
