//! The workbook that was opened from a stream: its sheets, their values, formulas and merged regions, its
//! names and properties.
#![tactic(auto)]

mod collect;
mod formulas;
mod ranges;
mod reader;
mod values;
mod xls;

pub use formulas::Formulas;
pub use reader::{Reader, open_workbook_from_rs};
pub use values::Values;
pub use xls::{Metadata, Xls};
pub use xls_meaning::{one_first_fault, regions_by_name, sound_where_full};
pub use xls_open::{
    XlsOptions, check_stream, checked_alike, laid_checks, laid_opens, laid_sound,
    one_list_per_stream, same_list_same_book,
};
pub use xls_record::{
    EndlessSource, MemorySource, ReadFault, Source, StdSource, SteadySource, StreamBytes, read_all,
    steady_count,
};
pub use xls_view::{
    CellValue, Cells, FormulaCell, FormulaCells, Merges, SheetCell, SheetCells, SheetFormulas,
    TextBuffer, View,
};
