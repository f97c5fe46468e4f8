//! Texts taken apart by their characters.

ghost use Rattle.std.specs.Prelude.{◌≡◌, ℕ, List, ◌≤◌, ◌++◌, length, take, drop};
ghost use Rattle.std.specs.Str.{chars};
ghost use Rattle.std.specs.Float.Parse.{begins_with};
ghost use Rattle.xls_number_formats.specs.Grammar.{run_of, after_blanks};

use xls_bytes::first_char;

// What follows the first character, if there is one.
#[inline]
fn skip_char(text: &str) -> &str
    ensures rest { chars result.now ≡ drop 1 (chars text.now) }
    ensures whole { (front : List ℕ) × (text.now ≡ front ++ result.now) }
{
    match first_char(text) {
        Some((_, rest)) => rest,
        None => text,
    }
}

// The first so many characters, and what follows them.
pub(crate) fn split_chars(text: &str, count: usize) -> (&str, &str)
    ensures front { chars result.0.now ≡ take count (chars text.now) }
    ensures back { chars result.1.now ≡ drop count (chars text.now) }
{
    let mut left = text;
    'count: for _ in 0..count {
        left = skip_char(left);
    }
    text.split_at(text.len() - left.len())
}

// Whether a text begins with a word in lower case, in any case of its letters.
pub(crate) fn begins_with(text: &str, word: &[u8]) -> bool
    ensures { result ≡ begins_with (chars text.now) word.now }
{
    let mut left = text;
    'word: for letter in word {
        match first_char(left) {
            None => return false,
            Some((c, _)) if c.to_ascii_lowercase() != *letter as char => return false,
            Some((_, rest)) => left = rest,
        }
    }
    true
}

// How many characters at the beginning are a letter in any case.
pub(crate) fn run_len(text: &str, letter: char) -> usize
    ensures { result ≡ length (run_of letter (chars text.now)) }
{
    let mut left = text;
    let mut count = 0;
    'run: while let Some((c, rest)) = first_char(left) {
        if c.to_ascii_lowercase() != letter {
            return count;
        }
        count += 1;
        left = rest;
    }
    count
}

// What stands behind the blanks at the beginning.
pub(crate) fn after_blanks(text: &str) -> &str
    ensures { chars result.now ≡ after_blanks (chars text.now) }
{
    let mut left = text;
    'blanks: while let Some((' ', rest)) = first_char(left) {
        left = rest;
    }
    left
}
