//! What a workbook tells of a sheet.

/// The kind of a sheet.
#[derive(Clone, Copy, Debug, PartialEq, Eq)]
pub enum SheetType {
    WorkSheet,
    DialogSheet,
    MacroSheet,
    ChartSheet,
    Vba,
}

/// Whether a sheet is shown; one that is very hidden can't be shown from the menus.
#[derive(Clone, Copy, Debug, PartialEq, Eq)]
pub enum SheetVisible {
    Visible,
    Hidden,
    VeryHidden,
}

/// A sheet's name, kind and visibility.
#[derive(Debug, PartialEq, Eq, Drop)]
pub struct Sheet {
    pub name: String,
    pub typ: SheetType,
    pub visible: SheetVisible,
}
