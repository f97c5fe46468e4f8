//! What a formula is read by.

use xls_formula::FunctionTable;
use xls_formula_books::Here;
use xls_formula_leaves::Place;
use xls_record::Biff;
use xls_text::XlsEncoding;

/// What the tokens of a formula are read by, and what they name.
#[derive(Drop)]
pub struct Scope<'a> {
    pub biff: Biff,
    pub encoding: XlsEncoding,
    /// The cell from which offsets count.
    pub place: Place,
    /// Whether the cells on other sheets are offsets too, as in a defined name.
    pub is_name: bool,
    /// The functions by their index.
    pub functions: &'a FunctionTable,
    /// Sheets, other books and names.
    pub here: Here<'a>,
}
