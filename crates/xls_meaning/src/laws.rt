//! Laws over streams, their faults and readings, each on a function with an empty body.

ghost use Rattle.xls_meaning.specs.Laws.{OneFirstFault, RegionsByName, SoundWhereFull};

/// A stream has at most one first fault.
pub fn one_first_fault()
    ensures { OneFirstFault }
{}

/// It has none exactly where it is within the limit and carries a full list.
pub fn sound_where_full()
    ensures { SoundWhereFull }
{}

/// The merged regions at an index are those of the last sheet of its name.
pub fn regions_by_name()
    ensures { RegionsByName }
{}
