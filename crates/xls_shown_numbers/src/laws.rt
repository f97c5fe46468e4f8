//! Laws of the definitions, each the contract of a call that does nothing.

ghost use Rattle.std.specs.Prelude.{◌≡◌, ℕ, ◌<◌, ◌^◌, codes};
ghost use Rattle.std.specs.Fmt.{decimal};
ghost use Rattle.xls_rounding.specs.declared.decimals.Decimal.{Decimal};
ghost use Rattle.xls_rounding.specs.Fractions.{whole, ten_to, IsNatural};
ghost use Rattle.xls_number_formats.specs.Grammar.{items};
ghost use Rattle.xls_shown_numbers.specs.Plain.{plain_text};

/// A whole number below 10^15 is shown under the code `0` by its digits.
pub fn shows_whole_numbers()
    ensures { (d : Decimal) (n : ℕ) → n < 10 ^ 15 → IsNatural n (ten_to d.exponent (whole d.digits))
        → plain_text (items (codes "0")) d ≡ decimal n }
{}
