//! The codes of the built-in number formats.

ghost use Rattle.std.specs.Prelude.{◌≡◌, MatchOption, Some, None};
ghost use Rattle.xls_number_formats.specs.Builtins.{built_in_code, number_code, date_code, account_code};

fn number_code(id: u16) -> Option<&'static str>
    ensures { MatchOption result (number_code id ≡ None) (λ code. number_code id ≡ Some code.now) }
{
    match id {
        0 => Some("General"),
        1 => Some("0"),
        2 => Some("0.00"),
        3 => Some("#,##0"),
        4 => Some("#,##0.00"),
        5 => Some("\"$\"#,##0_);\\(\"$\"#,##0\\)"),
        6 => Some("\"$\"#,##0_);[Red]\\(\"$\"#,##0\\)"),
        7 => Some("\"$\"#,##0.00_);\\(\"$\"#,##0.00\\)"),
        8 => Some("\"$\"#,##0.00_);[Red]\\(\"$\"#,##0.00\\)"),
        9 => Some("0%"),
        10 => Some("0.00%"),
        11 => Some("0.00E+00"),
        12 => Some("# ?/?"),
        13 => Some("# ??/??"),
        _ => None,
    }
}

fn date_code(id: u16) -> Option<&'static str>
    ensures { MatchOption result (date_code id ≡ None) (λ code. date_code id ≡ Some code.now) }
{
    match id {
        14 | 27..=31 | 36 | 50..=58 => Some("m/d/yyyy"),
        15 => Some("d-mmm-yy"),
        16 => Some("d-mmm"),
        17 => Some("mmm-yy"),
        18 => Some("h:mm AM/PM"),
        19 => Some("h:mm:ss AM/PM"),
        20 => Some("h:mm"),
        21 | 32..=35 => Some("h:mm:ss"),
        22 => Some("m/d/yyyy h:mm"),
        45 => Some("mm:ss"),
        46 => Some("[h]:mm:ss"),
        47 => Some("mm:ss.0"),
        _ => None,
    }
}

fn account_code(id: u16) -> Option<&'static str>
    ensures { MatchOption result (account_code id ≡ None) (λ code. account_code id ≡ Some code.now) }
{
    match id {
        37 => Some("#,##0_);\\(#,##0\\)"),
        38 => Some("#,##0_);[Red]\\(#,##0\\)"),
        39 => Some("#,##0.00_);\\(#,##0.00\\)"),
        40 => Some("#,##0.00_);[Red]\\(#,##0.00\\)"),
        41 => Some("_(* #,##0_);_(* \\(#,##0\\);_(* \"-\"_);_(@_)"),
        42 => Some("_(\"$\"* #,##0_);_(\"$\"* \\(#,##0\\);_(\"$\"* \"-\"_);_(@_)"),
        43 => Some("_(* #,##0.00_);_(* \\(#,##0.00\\);_(* \"-\"??_);_(@_)"),
        44 => Some("_(\"$\"* #,##0.00_);_(\"$\"* \\(#,##0.00\\);_(\"$\"* \"-\"??_);_(@_)"),
        _ => None,
    }
}

/// The code of a built-in number format (ECMA-376 part 1, 18.8.30), as Excel has it for the United
/// States; `None` for an identifier that has none: 23 to 26, and from 59 on. Takes no memory.
pub fn built_in_code(id: u16) -> Option<&'static str>
    ensures { MatchOption result (built_in_code id ≡ None) (λ code. built_in_code id ≡ Some code.now) }
{
    match id {
        0..=13 => number_code(id),
        37..=44 => account_code(id),
        48 => Some("##0.0E+0"),
        49 => Some("@"),
        _ => date_code(id),
    }
}
