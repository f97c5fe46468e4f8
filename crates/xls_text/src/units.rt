//! The first character of 16-bit units.

ghost use Rattle.std.specs.Prelude.{◌≡◌, [], ◌<◌, ◌≤◌, ◌∷◌, ◌+◌, true, length, MatchOption};
ghost use Rattle.std.specs.Char.Utf16.{utf16_lossy_chars, lone_unit_char, surrogate_pair_char, is_high_surrogate, is_low_surrogate};
ghost use Rattle.std.specs.Option.{unwrap_or};
ghost use Rattle.xls_text.specs.Pages.{units_of};

use xls_bytes::read_u16;

// The character of a unit that is in no pair.
fn lone(unit: u16) -> char
    ensures { result ≡ unwrap_or (lone_unit_char unit) 0xFFFD }
{
    char::from_u32(unit as u32).unwrap_or('\u{FFFD}')
}

// The character of a pair.
fn pair(high: u16, low: u16) -> char
    requires high { is_high_surrogate high ≡ true }
    requires low { is_low_surrogate low ≡ true }
    ensures { result ≡ surrogate_pair_char high low }
{
    let code = 0x1_0000 + (high as u32 - 0xD800) * 0x400 + (low as u32 - 0xDC00);
    char::from_u32(code).unwrap()
}

fn is_high(unit: u16) -> bool
    ensures { result ≡ is_high_surrogate unit }
{
    0xD800 <= unit && unit < 0xDC00
}

fn is_low(unit: u16) -> bool
    ensures { result ≡ is_low_surrogate unit }
{
    0xDC00 <= unit && unit < 0xE000
}

// The first character of a unit and the units after it, and the units after that.
fn char_at(unit: u16, rest: &[u16]) -> (char, &[u16])
    ensures text { utf16_lossy_chars (unit ∷ rest.now) ≡ result.0 ∷ utf16_lossy_chars result.1.now }
    ensures shorter { length result.1.now ≤ length rest.now }
{
    if !is_high(unit) {
        return (lone(unit), rest);
    }
    let Some((next, after)) = rest.split_first() else {
        return (lone(unit), rest);
    };
    if !is_low(*next) {
        return (lone(unit), rest);
    }
    (pair(unit, *next), after)
}

/// The first character of units, and the units after it.
pub(crate) fn first_char(units: &[u16]) -> Option<(char, &[u16])>
    ensures text { MatchOption result (length units.now ≡ 0)
        (λ x. utf16_lossy_chars units.now ≡ x.0 ∷ utf16_lossy_chars x.1.now) }
    ensures shorter { MatchOption result (length units.now ≡ 0)
        (λ x. length x.1.now < length units.now) }
{
    let (unit, rest) = units.split_first()?;
    Some(char_at(*unit, rest))
}

/// How many bytes the text of units takes, so that it is allocated once.
pub(crate) fn text_size(units: &[u16]) -> usize {
    let mut size: usize = 0;
    let mut is_after_high = false;
    for unit in units {
        let bytes = match *unit {
            0..0x80 => 1,
            0x80..0x800 => 2,
            // the second half of a pair, which takes four bytes
            0xDC00..0xE000 if is_after_high => 1,
            _ => 3,
        };
        size = size.saturating_add(bytes);
        is_after_high = is_high(*unit);
    }
    size
}

// The first unit of two bytes, and the bytes after it.
#[tactic(auto, using(crate::proofs::UnitLemmas::units_of_more, crate::proofs::UnitLemmas::units_of_few))]
fn first_unit(bytes: &[u8]) -> Option<(u16, &[u8])>
    ensures units { MatchOption result (units_of bytes.now ≡ [])
        (λ x. units_of bytes.now ≡ x.0 ∷ units_of x.1.now) }
    ensures shorter { MatchOption result (length bytes.now < 2)
        (λ x. length x.1.now < length bytes.now) }
{
    if bytes.len() < 2 {
        return None;
    }
    let (unit, rest) = bytes.split_at(2);
    Some((read_u16(unit), rest))
}

// The same, where the units have two bytes each.
fn wide_char_at(unit: u16, rest: &[u8]) -> (char, &[u8])
    ensures text { utf16_lossy_chars (unit ∷ units_of rest.now)
        ≡ result.0 ∷ utf16_lossy_chars (units_of result.1.now) }
    ensures shorter { length result.1.now ≤ length rest.now }
{
    if !is_high(unit) {
        return (lone(unit), rest);
    }
    let Some((next, after)) = first_unit(rest) else {
        return (lone(unit), rest);
    };
    if !is_low(next) {
        return (lone(unit), rest);
    }
    (pair(unit, next), after)
}

/// The first character of units of two bytes each, and the bytes after it.
pub(crate) fn first_wide_char(bytes: &[u8]) -> Option<(char, &[u8])>
    ensures text { MatchOption result (units_of bytes.now ≡ [])
        (λ x. utf16_lossy_chars (units_of bytes.now) ≡ x.0 ∷ utf16_lossy_chars (units_of x.1.now)) }
    ensures shorter { MatchOption result (length bytes.now < 2)
        (λ x. length x.1.now < length bytes.now) }
{
    let (unit, rest) = first_unit(bytes)?;
    Some(wide_char_at(unit, rest))
}
