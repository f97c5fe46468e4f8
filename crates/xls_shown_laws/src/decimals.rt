//! Laws of numbers with decimals, each the contract of a call that does nothing.

ghost use Rattle.std.specs.Prelude.{◌≡◌, ℕ, ◌<◌, ◌/◌, ◌^◌, ◌++◌, pos, codes};
ghost use Rattle.xls_rounding.specs.declared.decimals.Decimal.{Decimal};
ghost use Rattle.xls_rounding.specs.FormulaNumbers.{zeros};
ghost use Rattle.xls_rounding.specs.Rounding.{rounded_at};
ghost use Rattle.xls_number_formats.specs.Grammar.{items};
ghost use Rattle.xls_shown_numbers.specs.Plain.{plain_text};
ghost use Rattle.xls_shown_laws.specs.Decimals.{with_decimals};

/// Under the code `0.` with n zeros behind its point, a number is shown rounded to n decimals, halves up:
/// the digits of its whole part, a point, and all n decimals. The whole part has at most 64 digits.
pub fn shows_decimals()
    ensures { (n : ℕ) (d : Decimal) → rounded_at d (pos n) / 10 ^ n < 10 ^ 64
        → plain_text (items (codes "0." ++ zeros n)) d ≡ with_decimals (rounded_at d (pos n)) n }
{}
