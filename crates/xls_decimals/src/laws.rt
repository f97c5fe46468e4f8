//! Laws of the definitions.

ghost use Rattle.xls_decimals.specs.Laws.{DatesDiffer};

/// Two dates of one system, both in range, whose exact values are more than a millisecond apart have
/// different texts.
pub fn dates_differ()
    ensures { DatesDiffer }
{}
