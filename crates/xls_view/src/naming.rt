//! What the formulas of a view may name.

use xls_biff::{Biff, Refs, Strings};
use xls_formula::{FunctionTable, Names, NumberStyle};
use xls_text::XlsEncoding;

/// What formulas may name, and what their texts are read under: the names of the sheets, the defined names, the
/// references and the functions; code page, version and the style of doubles.
#[derive(Clone, Copy)]
pub struct ViewNaming<'v> {
    pub sheets: &'v Strings,
    pub names: &'v Names,
    pub refs: &'v Refs,
    pub page: XlsEncoding,
    pub biff: Biff,
    pub functions: &'v FunctionTable,
    /// How formulas show doubles.
    pub numbers: NumberStyle,
}
