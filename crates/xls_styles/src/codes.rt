//! The codes of number formats that are built in.

ghost use Rattle.std.specs.Prelude.{◌≡◌, MatchOption, Some, None};
ghost use Rattle.xls_styles.specs.Formats as formats;

use xls_number_formats::built_in_code;

/// Codes that are listed otherwise than they are shown by.
fn listed_code(ifmt: u16) -> Option<&'static str>
    ensures { MatchOption result (formats.listed_code ifmt ≡ None) (λ code. formats.listed_code ifmt ≡ Some code.now) }
{
    match ifmt {
        5 => Some("$#,##0_);($#,##0)"),
        6 => Some("$#,##0_);[Red]($#,##0)"),
        7 => Some("$#,##0.00_);($#,##0.00)"),
        8 => Some("$#,##0.00_);[Red]($#,##0.00)"),
        14 => Some("m/d/yy"),
        22 => Some("m/d/yy h:mm"),
        37 => Some("#,##0_);(#,##0)"),
        38 => Some("#,##0_);[Red](#,##0)"),
        39 => Some("#,##0.00_);(#,##0.00)"),
        40 => Some("#,##0.00_);[Red](#,##0.00)"),
        41 => Some("_(* #,##0_);_(* (#,##0);_(* \"-\"_);_(@_)"),
        42 => Some("_($* #,##0_);_($* (#,##0);_($* \"-\"_);_(@_)"),
        43 => Some("_(* #,##0.00_);_(* (#,##0.00);_(* \"-\"??_);_(@_)"),
        44 => Some("_($* #,##0.00_);_($* (#,##0.00);_($* \"-\"??_);_(@_)"),
        _ => None,
    }
}

/// Whether a code that is built in hangs on the language of Excel.
fn hangs_on_language(ifmt: u16) -> bool
    ensures { result ≡ formats.hangs_on_language ifmt }
{
    matches!(ifmt, 27..=36 | 50..=58)
}

/// A code that is listed as it is shown by, or General.
fn shown_code(ifmt: u16) -> &'static str
    ensures { result.now ≡ formats.shown_code ifmt }
{
    match built_in_code(ifmt) {
        Some(code) => code,
        None => "General",
    }
}

/// The code that is built in for an identifier, as Excel for the United States lists it; empty where it hangs on the
/// language, and General where there is none.
pub(crate) fn told_code(ifmt: u16) -> &'static str
    ensures { result.now ≡ formats.told_code ifmt }
{
    if hangs_on_language(ifmt) {
        return "";
    }
    match listed_code(ifmt) {
        Some(code) => code,
        None => shown_code(ifmt),
    }
}
