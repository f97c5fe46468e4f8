//! Signs and blanks outside of ASCII.

ghost use Rattle.std.specs.Prelude.{◌≡◌};
ghost use Rattle.xls_formula_names.specs.Quotes.{is_in, is_listed};

/// The first and the last character of each range of signs and blanks outside of ASCII, ascending.
pub(crate) const SIGNS: [(char, char); 23] = [
    ('\u{80}', '\u{A9}'),
    ('\u{AB}', '\u{B4}'),
    ('\u{B6}', '\u{B9}'),
    ('\u{BB}', '\u{BF}'),
    ('\u{D7}', '\u{D7}'),
    ('\u{F7}', '\u{F7}'),
    ('\u{2000}', '\u{206F}'),
    ('\u{20A0}', '\u{20CF}'),
    ('\u{2190}', '\u{2BFF}'),
    ('\u{2E00}', '\u{2E7F}'),
    ('\u{3000}', '\u{3004}'),
    ('\u{3008}', '\u{3020}'),
    ('\u{3030}', '\u{3030}'),
    ('\u{E000}', '\u{F8FF}'),
    ('\u{FE10}', '\u{FE1F}'),
    ('\u{FE30}', '\u{FE6F}'),
    ('\u{FF00}', '\u{FF0F}'),
    ('\u{FF1A}', '\u{FF20}'),
    ('\u{FF3B}', '\u{FF3E}'),
    ('\u{FF40}', '\u{FF40}'),
    ('\u{FF5B}', '\u{FF65}'),
    ('\u{FFE0}', '\u{FFFF}'),
    ('\u{1F000}', '\u{1FAFF}'),
];

// Whether a character is in one of some ranges.
fn is_in(ranges: &[(char, char)], c: char) -> bool
    ensures { result ≡ is_in ranges.now c }
{
    'pairs: for (first, last) in ranges {
        if *first <= c && c <= *last {
            return true;
        }
    }
    false
}

pub(crate) fn is_listed(c: char) -> bool
    ensures { result ≡ is_listed c }
{
    is_in(&SIGNS, c)
}
