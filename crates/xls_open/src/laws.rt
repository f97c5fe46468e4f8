//! Laws over opening and the check, each on a function with an empty body.

ghost use Rattle.xls_open.specs.Laws.{CheckedAlike, LaidChecks, LaidOpens, LaidSound, OneListPerStream, PagesHangOnNothing, SameListSameBook};

/// Within the limit of bytes, the first fault of a stream under some options is the one that
/// `check_stream` answers for their forced page and their bound of cells, whatever functions, header
/// row and property streams they have. So where opening answers a fault of such bytes, `check_stream`
/// answers the same one, and where it answers `Ok`, so does `check_stream`.
pub fn checked_alike()
    ensures { CheckedAlike }
{}

/// Which page and which version a record of the globals gives hangs on neither that is in force.
pub fn pages_hang_on_nothing()
    ensures { PagesHangOnNothing }
{}

/// A stream carries at most one list, and within the limit it has no fault exactly where the forced
/// page, if any, is kept and it carries a full list.
pub fn one_list_per_stream()
    ensures { OneListPerStream }
{}

/// Two streams that carry one list, opened under the same options, give one workbook.
pub fn same_list_same_book()
    ensures { SameListSameBook }
{}

/// A valid layout of a full list, within the limit, has no fault.
pub fn laid_sound()
    ensures { LaidSound }
{}

/// Opening it answers `Ok` with the whole reading of the list, or `Memory`, or `Io` where the source
/// counted a fault.
pub fn laid_opens()
    ensures { LaidOpens }
{}

/// `check_stream` answers `Ok` over it, whatever its length.
pub fn laid_checks()
    ensures { LaidChecks }
{}
