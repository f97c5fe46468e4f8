//! Laws over counts of faults, each on a function with an empty body.

ghost use Rattle.xls_record.specs.Laws.{SteadyCount};

/// The count of a source that never fails doesn't rise, and doesn't stand saturated.
pub fn steady_count()
    ensures { SteadyCount }
{}
