//! What determines a moment.

ghost use Rattle.std.specs.Prelude.{◌≡◌, ℕ, Bool};
ghost use Rattle.xls_shown_dates.specs.declared.moments.Moment.{Moment};
ghost use Rattle.xls_shown_dates.specs.Moments.{IsDate, IsMoment};

/// A day has no more than one date, and a time no more than one moment: so `moment_of` is determined.
pub fn one_moment()
    ensures date { (is_1904 : Bool) (day : ℕ) (a b : ℕ × ℕ × ℕ) → IsDate is_1904 day a → IsDate is_1904 day b → a ≡ b }
    ensures moment { (is_1904 : Bool) (time : ℕ) (a b : Moment) → IsMoment is_1904 time a → IsMoment is_1904 time b → a ≡ b }
{}
