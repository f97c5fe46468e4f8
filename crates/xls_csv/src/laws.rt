//! Laws over the definitions, each the contract of a call that does nothing.

ghost use Rattle.xls_data.specs.Data.{is_nothing};
ghost use Rattle.xls_csv.specs.Laws.{IsDenseOf, JoinsToCsv, PrintsField, WalksDense};

use xls_data::Data;

/// The rows of cells in order are those of the dense box, and joined they are its CSV.
pub fn rows_of_sheet()
    ensures rows { WalksDense }
    ensures csv { JoinsToCsv }
{}

/// A range that is the dense box of cells has the contents of the dense box, so that `export_csv` of it
/// gives what `write_rows` writes.
pub fn dense_boxes()
    ensures { IsDenseOf ⟦<Data as PartialEq>⟧.eq is_nothing }
{}

/// A value that isn't a date has its printed text for a field.
pub fn printed_fields()
    ensures { PrintsField }
{}
