//! How numbers stand in the texts of formulas.

/// How the text of a formula shows a double.
#[derive(Clone, Copy, Debug, PartialEq, Eq)]
pub enum NumberStyle {
    /// A whole number in decimal, any other by its bits: `0x3ff8000000000000`.
    Bits,
    /// As Excel shows it in a formula, with at most 15 digits: `1.5`.
    Decimal,
}
