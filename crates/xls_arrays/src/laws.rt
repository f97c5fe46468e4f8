//! The law of the definitions.

ghost use Rattle.xls_arrays.specs.Laws.{ArraysAreReported};

/// The arrays of a workbook have an item for each name and each sheet; an item of a sheet cites its name, and the
/// items of its cells, formulas and regions, one for each; and where an item cites a text, that text stands there.
pub fn arrays_are_reported()
    ensures { ArraysAreReported }
{}
