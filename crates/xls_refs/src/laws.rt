//! Laws over the definitions, each on a function with an empty body.

ghost use Rattle.xls_refs.specs.Laws.{FormulasByTheTable, RepeatsAreEqual, ViewedIsCited};

/// The formulas of a sheet are the Formula records that its table has without a fault, under every code
/// page, version, list of classes, string table and date system.
pub fn formulas_by_the_table()
    ensures { FormulasByTheTable }
{}

/// What is left out as a repeat is equal: the same text of a sheet, or none, and the same two positions.
pub fn repeats_are_equal()
    ensures { RepeatsAreEqual }
{}

/// What the formulas of a view of bytes cite, sheet by sheet and formula by formula, is what the formulas of
/// the bytes' workbook cite.
pub fn viewed_is_cited()
    ensures { ViewedIsCited }
{}
