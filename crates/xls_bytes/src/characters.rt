//! Texts taken apart by their characters.

ghost use Rattle.std.specs.Prelude.{◌≡◌, ◌<◌, ◌∷◌, ◌++◌, [], true, false, length, MatchOption, IfSome};
ghost use Rattle.std.specs.Char.{encode_utf8};
ghost use Rattle.std.specs.List.{list_any, before_first, after_first};
ghost use Rattle.std.specs.Str.{chars};
ghost use Rattle.xls_bytes.specs.Characters.{is};

/// The first character, and what follows it; `None` for an empty text.
#[inline]
pub fn first_char(text: &str) -> Option<(char, &str)>
    ensures exact { MatchOption result (chars text.now ≡ []) (λ x. chars text.now ≡ x.0 ∷ chars x.1.now) }
    ensures whole { IfSome result (λ x. text.now ≡ encode_utf8 x.0 ++ x.1.now) }
    ensures shorter { IfSome result (λ x. length x.1.now < length text.now) }
{
    let mut left = text.chars();
    let c = left.next()?;
    Some((c, left.as_str()))
}

/// What stands before and behind the first of an ASCII character; `None` where the text hasn't it.
pub fn split_at_first(text: &str, c: char) -> Option<(&str, &str)>
    requires { c < 128 }
    ensures { MatchOption result (list_any (is c) (chars text.now) ≡ false)
        (λ x. (list_any (is c) (chars text.now) ≡ true)
        × (chars x.0.now ≡ before_first (is c) (chars text.now))
        × (chars x.1.now ≡ after_first (is c) (chars text.now))) }
{
    text.split_once(c)
}
