//! A workbook that is looked at and not copied: what is in force, the sheets, and cursors over the cells,
//! the formulas and the merged regions of each, which lend what stands in the bytes of the stream.
#![tactic(auto)]

mod ascent;
mod cell_place;
mod cells;
mod formats;
mod formatted;
mod formulas;
mod index;
mod merges;
mod naming;
mod owned;
mod places;
mod record;
mod run;
mod sheet;
mod survey;
mod text;
mod value;
mod view;
mod walk;

pub use cells::{Cells, SheetCells};
pub use formatted::{FormattedCells, FormattedSheet};
pub use formulas::{FormulaCells, SheetFormulas};
pub use index::{find_named, index_of};
pub use merges::Merges;
pub use naming::ViewNaming;
pub use places::part_at;
pub use sheet::ViewSheet;
pub use text::TextBuffer;
pub use value::{CellValue, EncodedText, FormulaCell, SheetCell};
pub use view::{View, ViewParts};
pub use xls_open::FormulaBuffer;
