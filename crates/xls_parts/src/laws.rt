//! A law, on a function with an empty body.

ghost use Rattle.xls_parts.specs.Laws.{OuterAreThose};

/// The records of a part that isn't cut are those that the grammar of a sheet part finds outside nested substreams, but
/// for Continue records, which the grammar attaches.
pub fn outer_are_those()
    ensures { OuterAreThose }
{}
