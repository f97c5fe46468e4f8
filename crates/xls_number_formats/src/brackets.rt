//! What stands in the brackets of a code.

ghost use Rattle.std.specs.Prelude.{◌≡◌, ◌==◌, ◌&&◌, true, false, drop, MatchOption, Some, None};
ghost use Rattle.std.specs.Char.{to_ascii_lowercase};
ghost use Rattle.std.specs.Str.{chars};
ghost use Rattle.std.specs.List.{list_all, before_first};
ghost use Rattle.xls_bytes.specs.Characters.{is};
ghost use Rattle.xls_number_formats.specs.Grammar.{is_number_char, comparison_at, number_of, number_in, condition_in, clock_letter_of, elapsed_in, symbol_token, condition_token, elapsed_token, bracket_token};

use crate::items::{Comparison, Condition, Item, Letter};
use crate::texts::{after_blanks, begins_with, split_chars};
use xls_bytes::{first_char, split_at_first};

// A comparison at the beginning of a text, and what follows it.
fn comparison_at(text: &str) -> Option<(Comparison, &str)>
    ensures { MatchOption result (comparison_at (chars text.now) ≡ None)
        (λ x. comparison_at (chars text.now) ≡ Some (x.0, chars x.1.now)) }
{
    let (comparison, len) = if begins_with(text, b"<=") {
        (Comparison::AtMost, 2)
    } else if begins_with(text, b">=") {
        (Comparison::AtLeast, 2)
    } else if begins_with(text, b"<>") {
        (Comparison::Other, 2)
    } else if begins_with(text, b"<") {
        (Comparison::Below, 1)
    } else if begins_with(text, b">") {
        (Comparison::Above, 1)
    } else if begins_with(text, b"=") {
        (Comparison::Same, 1)
    } else {
        return None;
    };
    let (_, rest) = split_chars(text, len);
    Some((comparison, rest))
}

fn is_number_char(c: char) -> bool
    ensures { result ≡ is_number_char c }
{
    c.is_ascii_digit() || c == '.' || c == '+' || c == '-' || c == 'E' || c == 'e'
}

fn is_number_text(text: &str) -> bool
    ensures { result ≡ list_all is_number_char (chars text.now) }
{
    let mut left = text;
    'digits: while let Some((c, rest)) = first_char(left) {
        if !is_number_char(c) {
            return false;
        }
        left = rest;
    }
    true
}

// Whether there are blanks alone.
fn is_blank(text: &str) -> bool
    ensures { result ≡ list_all (is 32) (chars text.now) }
{
    let mut left = text;
    'blanks: while let Some((c, rest)) = first_char(left) {
        if c != ' ' {
            return false;
        }
        left = rest;
    }
    true
}

// The double nearest to a decimal number.
#[tactic(auto, using(crate::proofs::BracketLemmas::ascii_number))]
fn number_of(text: &str) -> Option<f64>
    ensures { result ≡ number_of (chars text.now) }
{
    if !is_number_text(text) {
        return None;
    }
    text.parse().ok()
}

// That of a decimal number with blanks behind it.
#[tactic(auto, using(xls_bytes::proofs::CharacterLemmas::before_first_none, xls_bytes::proofs::CharacterLemmas::after_first_none))]
fn number_in(text: &str) -> Option<f64>
    ensures { result ≡ number_in (chars text.now) }
{
    match split_at_first(text, ' ') {
        None => number_of(text),
        Some((number, blanks)) => {
            if is_blank(blanks) {
                number_of(number)
            } else {
                None
            }
        }
    }
}

// The condition that a bracket contains.
fn condition_in(text: &str) -> Option<Condition>
    ensures { result ≡ condition_in (chars text.now) }
{
    let (comparison, rest) = comparison_at(text)?;
    let bound = number_in(after_blanks(rest))?;
    Some(Condition { comparison, bound })
}

fn clock_letter_of(c: char) -> Option<Letter>
    ensures { result ≡ clock_letter_of c }
{
    match c {
        'h' => Some(Letter::H),
        'm' => Some(Letter::M),
        's' => Some(Letter::S),
        _ => None,
    }
}

// Whether there is one letter alone, in any case.
fn is_run(text: &str, letter: char) -> bool
    ensures { result ≡ list_all (λ d. to_ascii_lowercase d == letter) (chars text.now) }
{
    let mut left = text;
    'letters: while let Some((c, rest)) = first_char(left) {
        if c.to_ascii_lowercase() != letter {
            return false;
        }
        left = rest;
    }
    true
}

// The letter of which a bracket of elapsed time consists.
fn elapsed_in(text: &str) -> Option<Letter>
    ensures { result ≡ elapsed_in (chars text.now) }
{
    let (first, rest) = first_char(text)?;
    let letter = first.to_ascii_lowercase();
    if is_run(rest, letter) {
        clock_letter_of(letter)
    } else {
        None
    }
}

// What stands before the first `-`.
#[tactic(auto, using(xls_bytes::proofs::CharacterLemmas::before_first_none))]
fn before_dash(text: &str) -> &str
    ensures { chars result.now ≡ before_first (is 45) (chars text.now) }
{
    match split_at_first(text, '-') {
        Some((symbol, _)) => symbol,
        None => text,
    }
}

// The item of a symbol with its locale.
fn symbol_token(text: &str) -> (Item, &str)
    ensures { symbol_token (before_first (is 45) (chars text.now)) ≡ (result.0, chars result.1.now) }
{
    let symbol = before_dash(text);
    match first_char(symbol) {
        None => (Item::Hidden, symbol),
        Some(_) => (Item::Literal, symbol),
    }
}

// The item of a bracket with a condition, or of one that shows nothing.
#[tactic(auto, using(crate::proofs::TextLemmas::no_chars))]
fn condition_token(inside: &str) -> (Item, &str)
    ensures { condition_token (condition_in (chars inside.now)) ≡ (result.0, chars result.1.now) }
{
    match condition_in(inside) {
        Some(condition) => (Item::Condition(condition), ""),
        None => (Item::Hidden, ""),
    }
}

// The item of a bracket without a symbol.
fn elapsed_token(inside: &str) -> (Item, &str)
    ensures { elapsed_token (elapsed_in (chars inside.now)) (chars inside.now) ≡ (result.0, chars result.1.now) }
{
    match elapsed_in(inside) {
        Some(letter) => (Item::Elapsed(letter), inside),
        None => condition_token(inside),
    }
}

// The item that a bracket is by what stands in it, and its text.
pub(crate) fn bracket_token(inside: &str) -> (Item, &str)
    ensures { bracket_token (chars inside.now) ≡ (result.0, chars result.1.now) }
{
    match first_char(inside) {
        None => (Item::Hidden, inside),
        Some((c, rest)) => {
            if c == '$' {
                symbol_token(rest)
            } else {
                elapsed_token(inside)
            }
        }
    }
}
