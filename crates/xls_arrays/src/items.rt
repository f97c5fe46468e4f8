//! The items of the arrays, as C lays them out.

/// A text: so many bytes of the texts from an offset on.
#[repr(C)]
#[derive(Clone, Copy, Debug, PartialEq, Eq)]
pub struct Span {
    pub offset: u64,
    pub length: u64,
}

/// How long the arrays are, and whether days count from 1904 (1, else 0).
#[repr(C)]
#[derive(Clone, Copy, Debug, PartialEq, Eq)]
pub struct Sizes {
    pub sheets: u64,
    pub names: u64,
    pub cells: u64,
    pub formulas: u64,
    pub regions: u64,
    pub text_bytes: u64,
    pub is_1904: u32,
    /// 0.
    pub reserved: u32,
}

/// A sheet: its name, and which cells, formulas and regions are its own.
#[repr(C)]
#[derive(Clone, Copy, Debug, PartialEq, Eq)]
pub struct SheetItem {
    pub name: Span,
    pub first_cell: u64,
    pub cells: u64,
    pub first_formula: u64,
    pub formulas: u64,
    pub first_region: u64,
    pub regions: u64,
    /// 0 a worksheet, 1 a dialog sheet, 2 a macro sheet, 3 a chart sheet, 4 a module of VBA.
    pub kind: u32,
    /// 0 visible, 1 hidden, 2 very hidden.
    pub visibility: u32,
}

/// A defined name, and the text of its formula.
#[repr(C)]
#[derive(Clone, Copy, Debug, PartialEq, Eq)]
pub struct NameItem {
    pub name: Span,
    pub formula: Span,
}

/// A cell: row and column from 0, and its value, by its kind.
#[repr(C)]
#[derive(Clone, Copy, Debug, PartialEq, Eq)]
pub struct CellItem {
    pub row: u32,
    pub column: u32,
    /// 0 blank, 1 number, 2 date and time, 3 duration, 4 truth value, 5 error value, 6 text, 7 date as text, 8
    /// duration as text, 9 whole number.
    pub kind: u32,
    /// Of a number, a date or a duration: 0 a double, 1 a whole number, 2 hundredths, 3 a double over 100.
    pub form: u32,
    /// The bits of a double, a truth value as 0 or 1, the code of an error value, or the offset of a text.
    pub value: u64,
    /// The bytes of a text.
    pub length: u64,
}

/// The text of a formula: row and column from 0.
#[repr(C)]
#[derive(Clone, Copy, Debug, PartialEq, Eq)]
pub struct FormulaItem {
    pub row: u32,
    pub column: u32,
    pub text: Span,
}

/// A merged region, its last row and column included.
#[repr(C)]
#[derive(Clone, Copy, Debug, PartialEq, Eq)]
pub struct RegionItem {
    pub first_row: u32,
    pub first_column: u32,
    pub last_row: u32,
    pub last_column: u32,
}
