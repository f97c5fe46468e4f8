//! Laws of the definitions, each the contract of a call that does nothing.

ghost use Rattle.std.specs.Prelude.{◌≡◌, ℕ, ◌<◌, ◌↔◌};
ghost use Rattle.xls_rounding.specs.Fractions.{Fraction, nearest, IsNearest};

/// The nearest whole number is the only one from which a fraction is less than a half away, or half
/// above the fraction.
pub fn halves_up()
    ensures { (x : Fraction) (n : ℕ) → 0 < x.denominator → (nearest x ≡ n) ↔ IsNearest n x }
{}
