//! Laws of `General`, each the contract of a call that does nothing.

ghost use Rattle.std.specs.Prelude.{◌≡◌, ℕ, ◌<◌, ◌≤◌, ◌^◌, pos, ◌+ℤ◌};
ghost use Rattle.std.specs.Fmt.{decimal};
ghost use Rattle.xls_rounding.specs.declared.decimals.Decimal.{Decimal};
ghost use Rattle.xls_rounding.specs.Fractions.{whole, ten_to, IsNatural};
ghost use Rattle.xls_shown_numbers.specs.General.{fixed, general};

/// A number n / 10^p of at most ten digits, at most nine of them behind the point, is shown under `General`
/// by all of its digits, however small it is: nothing is rounded away, and there is no exponent.
pub fn general_shows_ten_digits()
    ensures { (d : Decimal) (n p : ℕ) → n < 10 ^ 10 → p ≤ 9 → IsNatural n (ten_to (d.exponent +ℤ pos p) (whole d.digits))
        → general d ≡ fixed n p }
{}

/// A whole number of at most eleven digits is shown under `General` by its digits.
pub fn general_shows_whole_numbers()
    ensures { (d : Decimal) (n : ℕ) → n < 10 ^ 11 → IsNatural n (ten_to d.exponent (whole d.digits)) → general d ≡ decimal n }
{}
