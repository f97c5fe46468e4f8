//! The cells that formulas cite, of one formula, of a sheet formula by formula, and of a whole workbook.
#![tactic(auto)]

mod book;
mod cite;
mod distinct;
mod formula;
mod laws;
mod sheet;
mod walk;

pub use book::cites_of_book;
pub use cite::{BookCite, BookCites, Cite, CitedCells, CitedFormula, Cites};
pub use formula::cites_of_formula;
pub use laws::{formulas_by_the_table, repeats_are_equal, viewed_is_cited};
pub use sheet::{FormulaCites, SheetCites, cites_of_sheet};
