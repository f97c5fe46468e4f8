//! Which names need quotes.

ghost use Rattle.std.specs.Prelude.{◌≡◌, ◌≤◌, true, false};
ghost use Rattle.std.specs.List.{list_all, list_any};
ghost use Rattle.std.specs.Char.{is_ascii_digit};
ghost use Rattle.std.specs.Str.{chars};
ghost use Rattle.xls_formula_names.specs.Quotes.{begins_badly, is_sign, is_within, number_at, is_row, is_cell, is_place, begins_column, begins_row, is_r1c1, is_word, is_truth, needs_quotes};

use crate::signs::is_listed;
use xls_bytes::first_char;

// Whether a name is empty, or begins with a digit or a point.
fn begins_badly(name: &str) -> bool
    ensures { result ≡ begins_badly (chars name.now) }
{
    match first_char(name) {
        None => true,
        Some((c, _)) => c.is_ascii_digit() || c == '.',
    }
}

fn is_sign(c: char) -> bool
    ensures { result ≡ is_sign c }
{
    if c.is_ascii() {
        !(c.is_ascii_alphanumeric() || c == '_' || c == '.')
    } else {
        is_listed(c)
    }
}

fn has_sign(name: &str) -> bool
    ensures { result ≡ list_any is_sign (chars name.now) }
{
    let mut left = name;
    'characters: while let Some((c, rest)) = first_char(left) {
        if is_sign(c) {
            return true;
        }
        left = rest;
    }
    false
}

// Whether the number that a text begins with is from 1 to a last one.
fn begins_with_number(text: &str, last: u32) -> bool
    requires { last ≤ 65_536 }
    ensures { result ≡ is_within 1 last (number_at 0 (chars text.now)) }
{
    let mut number: u32 = 0;
    let mut left = text;
    'digits: while let Some((c, rest)) = first_char(left) {
        if !c.is_ascii_digit() {
            return number >= 1;
        }
        number = 10 * number + (c as u32 - '0' as u32);
        if number > last {
            return false;
        }
        left = rest;
    }
    number >= 1
}

fn are_digits(text: &str) -> bool
    ensures { result ≡ list_all is_ascii_digit (chars text.now) }
{
    let mut left = text;
    'digits: while let Some((c, rest)) = first_char(left) {
        if !c.is_ascii_digit() {
            return false;
        }
        left = rest;
    }
    true
}

fn is_row(text: &str) -> bool
    ensures { result ≡ is_row (chars text.now) }
{
    are_digits(text) && begins_with_number(text, 65_536)
}

// Whether a name is a column's letters and a row's digits.
fn is_cell(name: &str) -> bool
    ensures { result ≡ is_cell 0 (chars name.now) }
{
    let mut column: u32 = 0;
    let mut left = name;
    'letters: while let Some((c, rest)) = first_char(left) {
        if !c.is_ascii_alphabetic() {
            return column >= 1 && is_row(left);
        }
        column = 26 * column + (c.to_ascii_uppercase() as u32 - '@' as u32);
        if column > 256 {
            return false;
        }
        left = rest;
    }
    false
}

// Whether there is nothing, or a number from 1 to a last one at the beginning.
fn is_place(text: &str, last: u32) -> bool
    requires { last ≤ 65_536 }
    ensures { result ≡ is_place last (chars text.now) }
{
    match first_char(text) {
        None => true,
        Some(_) => begins_with_number(text, last),
    }
}

fn begins_column(text: &str) -> bool
    ensures { result ≡ begins_column (chars text.now) }
{
    match first_char(text) {
        Some(('C' | 'c', rest)) => is_place(rest, 256),
        _ => false,
    }
}

fn begins_row(text: &str) -> bool
    ensures { result ≡ begins_row (chars text.now) }
{
    match first_char(text) {
        Some(('R' | 'r', rest)) => is_place(rest, 65_536) || begins_column(rest),
        _ => false,
    }
}

// Whether a text is a word in upper case, in any case of its letters.
fn is_word(text: &str, word: &[u8]) -> bool
    ensures { result ≡ is_word word.now (chars text.now) }
{
    let mut left = text;
    'word: for letter in word {
        match first_char(left) {
            None => return false,
            Some((c, _)) if c.to_ascii_uppercase() != *letter as char => return false,
            Some((_, rest)) => left = rest,
        }
    }
    first_char(left).is_none()
}

/// Whether the name of a sheet or of a file stands between apostrophes in a formula: one that is empty, begins with a digit or a point, has
/// a sign or a blank, or could be read as a cell (`A1`, `R1C1`) or as a truth value. Takes no memory.
pub fn needs_quotes(name: &str) -> bool
    ensures exact { result ≡ needs_quotes (chars name.now) }
{
    begins_badly(name)
        || has_sign(name)
        || is_cell(name)
        || begins_row(name)
        || begins_column(name)
        || is_word(name, b"TRUE")
        || is_word(name, b"FALSE")
}
