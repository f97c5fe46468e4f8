//! Laws over streams, each on a function with an empty body.

ghost use Rattle.xls_stream.specs.Listing.{HasHolding, OneHolding, OneList};
ghost use Rattle.xls_stream.specs.StringTable.{OneTable};
ghost use Rattle.xls_stream.specs.Laws.{HasRun, OneRun, HasGroups, OneGroups, SameParts, SameGlobals, OneSheetPart, OneGlobalsPart};

/// Each list of bytes is some groups, and then nothing or a cut record.
pub fn has_run()
    ensures { HasRun }
{}

/// It is no other groups.
pub fn one_run()
    ensures { OneRun }
{}

/// Each list of bytes is some groups and ends in some way.
pub fn has_groups()
    ensures { HasGroups }
{}

/// It is no other groups, and ends in no other way.
pub fn one_groups()
    ensures { OneGroups }
{}

/// The grammar of a sheet part and the count of open substreams find the same.
pub fn same_parts()
    ensures { SameParts }
{}

/// Likewise the globals with their first EOF and the walk to the end.
pub fn same_globals()
    ensures { SameGlobals }
{}

/// Each list of bytes begins with exactly one sheet part, whole or broken.
pub fn one_sheet_part()
    ensures { OneSheetPart }
{}

/// Each list of bytes begins with exactly one globals part, whole or broken.
pub fn one_globals_part()
    ensures { OneGlobalsPart }
{}

/// Each stream holds some items, and ends in some way.
pub fn has_holding()
    ensures { HasHolding }
{}

/// It holds no others, and ends in no other way.
pub fn one_holding()
    ensures { OneHolding }
{}

/// A stream carries at most one logical list.
pub fn one_list()
    ensures { OneList }
{}

/// Marked bytes are exactly one string table, or have exactly one fault.
pub fn one_table()
    ensures { OneTable }
{}
