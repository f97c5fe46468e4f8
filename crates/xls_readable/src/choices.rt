//! What can be asked for of a workbook.

use crate::delimited::Delimiter;

/// Which lines are written of a workbook.
#[derive(Clone, Copy, Debug, PartialEq, Eq)]
pub enum Listing {
    /// All that it holds.
    Dump,
    /// Its sheets.
    Sheets,
    /// Its sheets, each with its formulas.
    Formulas,
    /// The cells that its formulas cite.
    Refs,
}

/// Which sheet of a workbook is written as CSV.
#[derive(Clone, Copy, Debug, PartialEq, Eq)]
pub enum SheetChoice<'w> {
    /// The first worksheet.
    First,
    /// The last sheet of this name.
    Named(&'w str),
    /// The sheet of this number, counted from 1.
    Number(u32),
}

/// What the field of a cell is.
#[derive(Clone, Copy, Debug, PartialEq, Eq)]
pub enum FieldStyle {
    /// Its value: a number in decimal, or as the date or duration that its number format makes of it.
    Values,
    /// What Excel shows of it by its number format.
    Shown,
}

/// Where the rows and columns of a table begin.
#[derive(Clone, Copy, Debug, PartialEq, Eq)]
pub enum Origin {
    /// With the first row and the first column that hold a cell.
    Box,
    /// With row 1 and column A.
    A1,
}

/// How a sheet is written as CSV.
#[derive(Clone, Copy, Debug, PartialEq, Eq)]
pub struct Table {
    pub delimiter: Delimiter,
    /// Begins with a byte order mark.
    pub begins_with_mark: bool,
    /// With numbers as the workbook has them; then the delimiter is a comma, and there is no mark.
    pub is_exact: bool,
    /// What the fields are, where they are not exact.
    pub style: FieldStyle,
    /// Where it begins, likewise.
    pub origin: Origin,
}
