//! Laws over the definitions, each the contract of a call that does nothing.

ghost use Rattle.std.specs.Prelude.{◌≡◌, ◌<◌, ◌^◌, ◌++◌, ◌∷◌, ℕ, List, true, false};
ghost use Rattle.std.specs.Fmt.{decimal};
ghost use Rattle.xls_dates.specs.Builtin.{class_of_code, class_of_id};
ghost use Rattle.xls_dates.specs.Classes.{class_of, ends_plain};

/// The class of a format depends only on the text before the first `;` that is neither escaped nor
/// inside quotes.
pub fn class_of_first_section()
    ensures { (prefix rest : List ℕ) → ends_plain false false prefix ≡ true
        → class_of (prefix ++ 59 ∷ rest) ≡ class_of prefix }
{}

/// The class of a number's decimal text is that of the number.
pub fn class_of_decimal_text()
    ensures { (n : ℕ) → n < 2 ^ 16 → class_of_id (decimal n) ≡ class_of_code n }
{}
