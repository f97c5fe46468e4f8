//! Laws of fractions, each the contract of a call that does nothing.

ghost use Rattle.std.specs.Prelude.{◌≡◌, ℕ, ◌<◌, ◌^◌, min, Option, Some, None};
ghost use Rattle.std.specs.Float.{Float};
ghost use Rattle.xls_shown_fractions.specs.declared.needs.Fraction.{Fraction};
ghost use Rattle.xls_shown_fractions.specs.Ratios.{nearest_fraction, ratio_of};
ghost use Rattle.xls_shown_laws.specs.Fractions.{IsLowest};

/// Under a code with n places for the denominator, of which at most 9 count, both parts of the nearest
/// fraction have at most n digits, and so has the denominator that is shown.
pub fn fractions_keep_their_places()
    ensures nearest { (places : ℕ) (x : Float) → 0 < places
        → ((nearest_fraction places x).0 < 10 ^ min places 9) × ((nearest_fraction places x).1 < 10 ^ min places 9) }
    ensures shown { (f : Fraction) (bits : ℕ) → f.fixed ≡ None → 0 < f.places
        → (ratio_of f bits).denominator < 10 ^ min f.places 9 }
{}

/// Under a code with a fixed denominator, that denominator is shown, whatever the number.
pub fn fractions_keep_their_denominator()
    ensures { (f : Fraction) (bits d : ℕ) → f.fixed ≡ Some d → (ratio_of f bits).denominator ≡ d }
{}

/// A fraction without a fixed denominator is in lowest terms: no natural but 1 divides both parts.
pub fn fractions_are_in_lowest_terms()
    ensures nearest { (places : ℕ) (x : Float) → IsLowest (nearest_fraction places x).0 (nearest_fraction places x).1 }
    ensures shown { (f : Fraction) (bits : ℕ) → f.fixed ≡ None
        → IsLowest (ratio_of f bits).numerator (ratio_of f bits).denominator }
{}
