//! The words of the lines of a workbook.

ghost use Rattle.std.specs.Prelude.{◌≡◌};
ghost use Rattle.xls_data.specs.Data.{bool_text};
ghost use Rattle.xls_readable.specs.Lines.{type_text, visible_text, year_text};

use xls_data::{SheetType, SheetVisible};

/// The year that dates count from: `1900` or `1904`.
pub fn year_word(is_1904: bool) -> &'static str
    ensures { result.now ≡ year_text is_1904 }
{
    if is_1904 { "1904" } else { "1900" }
}

/// The word of a truth value: `true` or `false`.
pub fn truth_word(is_true: bool) -> &'static str
    ensures { result.now ≡ bool_text is_true }
{
    if is_true { "true" } else { "false" }
}

/// The word of a sheet's kind: `worksheet`, `dialog`, `macro`, `chart` or `vba`.
pub fn type_word(kind: SheetType) -> &'static str
    ensures { result.now ≡ type_text kind }
{
    match kind {
        SheetType::WorkSheet => "worksheet",
        SheetType::DialogSheet => "dialog",
        SheetType::MacroSheet => "macro",
        SheetType::ChartSheet => "chart",
        SheetType::Vba => "vba",
    }
}

/// The word of a sheet's visibility: `visible`, `hidden` or `veryhidden`.
pub fn visible_word(visible: SheetVisible) -> &'static str
    ensures { result.now ≡ visible_text visible }
{
    match visible {
        SheetVisible::Visible => "visible",
        SheetVisible::Hidden => "hidden",
        SheetVisible::VeryHidden => "veryhidden",
    }
}
