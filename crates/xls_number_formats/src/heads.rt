//! The first item of a code.

ghost use Rattle.std.specs.Prelude.{◌≡◌, ◌∷◌, ◌<◌, ◌-◌, ◌==◌, ◌&&◌, ℕ, List, true, false, take, drop, length, MatchOption, IfSome, Some, None};
ghost use Rattle.std.specs.Char.{to_ascii_lowercase};
ghost use Rattle.std.specs.Str.{chars};
ghost use Rattle.std.specs.List.{list_any, before_first};
ghost use Rattle.xls_bytes.specs.Characters.{is};
ghost use Rattle.xls_number_formats.specs.Grammar.{letter_of, single_of, word_at, lettered_head, worded_head, quoted_head, bracket_head, exponent_head, head, unbracketed_head, head_of, is_exponent};
ghost use Rattle.xls_number_formats.specs.declared.items.Item.TheVariants as item;
ghost use Rattle.xls_number_formats.specs.Cuts.{IsCut};

use crate::brackets::bracket_token;
use crate::items::{Item, Letter, Place};
use crate::texts::{begins_with, run_len, split_chars};
use xls_bytes::split_at_first;

// An item with its text, and what follows it.
#[derive(Drop)]
pub(crate) struct Cut<'a> {
    pub(crate) item: Item,
    pub(crate) text: &'a str,
    pub(crate) rest: &'a str,
}

// The letter of a date, in lower case.
fn letter_of(c: char) -> Option<Letter>
    ensures { result ≡ letter_of c }
{
    match c {
        'y' => Some(Letter::Y),
        'm' => Some(Letter::M),
        'd' => Some(Letter::D),
        'h' => Some(Letter::H),
        's' => Some(Letter::S),
        'e' => Some(Letter::E),
        'b' => Some(Letter::B),
        'g' => Some(Letter::G),
        _ => None,
    }
}

// An item of one character.
fn single_of(c: char) -> Item
    ensures { result ≡ single_of c }
{
    match c {
        '0' => Item::Place(Place::Zero),
        '#' => Item::Place(Place::Hash),
        '?' => Item::Place(Place::Question),
        '.' => Item::Point,
        ',' => Item::Comma,
        '%' => Item::Percent,
        '/' => Item::Slash,
        '@' => Item::Text,
        '1'..='9' => Item::Digit,
        _ => Item::Literal,
    }
}

// A word at the beginning of a text, and how many characters it has behind the first.
fn word_at(text: &str) -> Option<(Item, usize)>
    ensures exact { result ≡ word_at (chars text.now) }
    ensures short { IfSome result (λ x. x.1 < 7) }
{
    if begins_with(text, b"general") {
        Some((Item::General, 6))
    } else if begins_with(text, b"am/pm") {
        Some((Item::AmPm, 4))
    } else if begins_with(text, b"a/p") {
        Some((Item::AP, 2))
    } else {
        None
    }
}

// The item that so many characters at the beginning of a code are, as they stand.
fn front(item: Item, code: &str, count: usize) -> Cut<'_>
    requires { 0 < count }
    ensures item { result.item ≡ item }
    ensures text { (c : ℕ) (cs : List ℕ) → chars code.now ≡ c ∷ cs → chars result.text.now ≡ c ∷ take (count - 1) cs }
    ensures rest { (c : ℕ) (cs : List ℕ) → chars code.now ≡ c ∷ cs → chars result.rest.now ≡ drop (count - 1) cs }
{
    let (text, rest) = split_chars(code, count);
    Cut { item, text, rest }
}

// Letters of a date, or one character.
fn lettered<'a>(code: &'a str, c: char, rest: &'a str) -> Cut<'a>
    requires { chars code.now ≡ c ∷ chars rest.now }
    ensures { IsCut (lettered_head (letter_of (to_ascii_lowercase c)) c (chars rest.now)) (chars rest.now) result }
{
    let lower = c.to_ascii_lowercase();
    match letter_of(lower) {
        Some(letter) => front(Item::Letters(letter), code, run_len(code, lower)),
        None => front(single_of(c), code, 1),
    }
}

// A word, or what else it is.
fn worded<'a>(code: &'a str, c: char, rest: &'a str) -> Cut<'a>
    requires { chars code.now ≡ c ∷ chars rest.now }
    ensures { IsCut (worded_head (word_at (chars code.now)) c (chars rest.now)) (chars rest.now) result }
{
    match word_at(code) {
        Some((item, more)) => front(item, code, more + 1),
        None => lettered(code, c, rest),
    }
}

// Quoted text, from behind its first quote on.
fn quoted(rest: &str) -> Cut<'_>
    ensures { IsCut (quoted_head (chars rest.now)) (chars rest.now) result }
{
    let item = Item::Literal;
    match split_at_first(rest, '"') {
        Some((text, rest)) => Cut { item, text, rest },
        None => Cut {
            item,
            text: rest,
            rest: "",
        },
    }
}

fn is_exponent(c: char, rest: &str) -> bool
    ensures { result ≡ is_exponent c (chars rest.now) }
{
    c.to_ascii_lowercase() == 'e' && (begins_with(rest, b"+") || begins_with(rest, b"-"))
}

// An exponent's letter and sign.
fn exponent<'a>(code: &'a str, c: char, rest: &'a str) -> Cut<'a>
    requires { chars code.now ≡ c ∷ chars rest.now }
    ensures { IsCut (exponent_head c (chars rest.now)) (chars rest.now) result }
{
    front(Item::Exponent(begins_with(rest, b"+")), code, 2)
}

// A character that makes the next one show this text.
fn replaced<'a>(text: &'a str, rest: &'a str) -> Cut<'a>
    ensures { IsCut (head item.Literal (chars text.now) 1) (chars rest.now) result }
{
    let (_, rest) = split_chars(rest, 1);
    let item = Item::Literal;
    Cut { item, text, rest }
}

// An escaped character.
fn escaped(rest: &str) -> Cut<'_>
    ensures { IsCut (head item.Literal (take 1 (chars rest.now)) 1) (chars rest.now) result }
{
    let (text, rest) = split_chars(rest, 1);
    let item = Item::Literal;
    Cut { item, text, rest }
}

// An item that is no bracket.
#[tactic(auto, using(crate::proofs::TextLemmas::no_chars, crate::proofs::TextLemmas::one_blank))]
fn unbracketed<'a>(code: &'a str, c: char, rest: &'a str, placed: bool) -> Cut<'a>
    requires { chars code.now ≡ c ∷ chars rest.now }
    ensures { IsCut (unbracketed_head placed c (chars rest.now)) (chars rest.now) result }
{
    if c == '"' {
        quoted(rest)
    } else if c == '\\' {
        escaped(rest)
    } else if c == '_' {
        replaced(" ", rest)
    } else if c == '*' {
        replaced("", rest)
    } else if placed && is_exponent(c, rest) {
        exponent(code, c, rest)
    } else {
        worded(code, c, rest)
    }
}

// A bracket, from behind its beginning on, where it ends.
fn bracket(rest: &str) -> Option<Cut<'_>>
    ensures { MatchOption result (list_any (is 93) (chars rest.now) ≡ false)
        (λ x. (list_any (is 93) (chars rest.now) ≡ true)
        × IsCut (bracket_head (before_first (is 93) (chars rest.now))) (chars rest.now) x) }
{
    let (inside, rest) = split_at_first(rest, ']')?;
    let (item, text) = bracket_token(inside);
    Some(Cut { item, text, rest })
}

// The first item of a code that begins with c and goes on with the rest; whether the section has had
// a place, and whether a bracket may end.
pub(crate) fn first_item<'a>(
    code: &'a str,
    c: char,
    rest: &'a str,
    placed: bool,
    closes: bool,
) -> (Cut<'a>, bool)
    requires first { chars code.now ≡ c ∷ chars rest.now }
    requires closed { closes ≡ false → list_any (is 93) (chars rest.now) ≡ false }
    ensures exact { IsCut (head_of placed c (chars rest.now)) (chars rest.now) result.0 }
    ensures closed { result.1 ≡ false → list_any (is 93) (chars rest.now) ≡ false }
{
    if c != '[' || !closes {
        return (unbracketed(code, c, rest, placed), closes);
    }
    match bracket(rest) {
        Some(cut) => (cut, true),
        None => (unbracketed(code, c, rest, placed), false),
    }
}
