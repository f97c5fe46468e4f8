//! Which section a number is shown by.

ghost use Rattle.std.specs.Prelude.{◌≡◌, ◌<◌, ◌≤◌, Option, Some, None, IfSome, length, take, MatchOption};
ghost use Rattle.xls_number_formats.specs.Sections.{later};
ghost use Rattle.xls_number_formats.specs.Choices.{compares, is_met, is_of_negatives, for_negatives, is_but_negatives, but_negatives, chosen, is_for_texts, number_sections, texts_at, own_or, first_of_two, unmet, choice_by, conditions_of, for_sole, as_general, choice_of};

use crate::items::{Comparison, Condition};
use crate::sections::{Kind, Section};

pub(crate) const ZERO: f64 = 0.0;

/// What a number is shown by.
#[derive(Clone, Copy, Debug, PartialEq, Eq)]
pub enum Choice {
    /// As the code `General` shows it.
    General,
    /// `########`
    Hashes,
    /// The section at this place.
    Section(usize),
}

fn compares(comparison: Comparison, x: f64, bound: f64) -> bool
    ensures { result ≡ compares comparison x bound }
{
    match comparison {
        Comparison::Below => x < bound,
        Comparison::Above => bound < x,
        Comparison::Same => x == bound,
        Comparison::AtMost => x <= bound,
        Comparison::AtLeast => bound <= x,
        Comparison::Other => x != bound,
    }
}

fn is_met(x: f64, condition: Option<Condition>) -> bool
    ensures { result ≡ is_met x condition }
{
    match condition {
        None => true,
        Some(condition) => compares(condition.comparison, x, condition.bound),
    }
}

fn is_of_negatives(comparison: Comparison, bound: f64) -> bool
    ensures { result ≡ is_of_negatives comparison bound }
{
    match comparison {
        Comparison::Below => bound <= ZERO,
        Comparison::AtMost | Comparison::Same => bound < ZERO,
        Comparison::Above | Comparison::AtLeast | Comparison::Other => false,
    }
}

// Whether negative numbers alone meet it.
fn for_negatives(condition: Option<Condition>) -> bool
    ensures { result ≡ for_negatives condition }
{
    match condition {
        None => false,
        Some(condition) => is_of_negatives(condition.comparison, condition.bound),
    }
}

fn is_but_negatives(comparison: Comparison, bound: f64) -> bool
    ensures { result ≡ is_but_negatives comparison bound }
{
    match comparison {
        Comparison::Above | Comparison::AtLeast => bound <= ZERO,
        Comparison::Other => bound < ZERO,
        Comparison::Below | Comparison::Same | Comparison::AtMost => false,
    }
}

// Whether negative numbers alone fail it.
fn but_negatives(condition: Option<Condition>) -> bool
    ensures { result ≡ but_negatives condition }
{
    match condition {
        None => false,
        Some(condition) => is_but_negatives(condition.comparison, condition.bound),
    }
}

// The first condition that a number meets: its place, and whether it is for negative numbers anyway.
fn chosen(x: f64, conditions: &[Option<Condition>]) -> Option<(usize, bool)>
    ensures exact { result ≡ chosen x conditions.now }
    ensures within { IfSome result (λ r. r.0 < length conditions.now) }
{
    let (first, others) = conditions.split_first()?;
    if is_met(x, *first) {
        return Some((0, for_negatives(*first)));
    }
    let (place, negatives) = chosen(x, others)?;
    Some((place + 1, but_negatives(*first) | negatives))
}

fn is_for_texts(section: &Section) -> bool
    ensures { result ≡ is_for_texts section.now }
{
    match section.kind {
        Kind::Date => false,
        Kind::General | Kind::Fraction | Kind::Exponent | Kind::Plain => section.has_text,
    }
}

// How many of the sections are for numbers: the first three of four, or those before one for texts at
// the end.
fn number_count(sections: &[Section]) -> usize
    ensures exact { take result sections.now ≡ number_sections sections.now }
    ensures within { result ≤ length sections.now }
    ensures few { length sections.now ≤ 4 → result ≤ 3 }
{
    match sections {
        [_, _, _, _, ..] => 3,
        [.., last] if is_for_texts(last) => sections.len() - 1,
        _ => sections.len(),
    }
}

// The place of the section for texts.
pub(crate) fn texts_at(sections: &[Section]) -> Option<usize>
    ensures { result ≡ texts_at sections.now }
{
    let count = number_count(sections);
    if count < sections.len() {
        Some(count)
    } else {
        None
    }
}

// The condition of a section, or a comparison with 0.
fn own_or(comparison: Comparison, section: &Section) -> Option<Condition>
    ensures { result ≡ own_or comparison section.now }
{
    match section.condition {
        Some(condition) => Some(condition),
        None => Some(Condition {
            comparison,
            bound: ZERO,
        }),
    }
}

// What a number is shown by where it meets none of so many conditions.
fn unmet(count: usize, x: f64) -> (Choice, bool)
    ensures { result ≡ unmet count x }
{
    if count == 2 {
        (Choice::Hashes, false)
    } else {
        (Choice::General, x < ZERO)
    }
}

fn first_of_two(conditions: &[Option<Condition>]) -> bool
    ensures { result ≡ first_of_two conditions.now }
{
    match conditions {
        [first, _] => for_negatives(*first),
        _ => false,
    }
}

// The section that applies by these conditions, and whether a minus stands before its text.
fn choice_by(conditions: &[Option<Condition>], x: f64) -> (Choice, bool)
    ensures { result ≡ choice_by (chosen x conditions.now) conditions.now x }
{
    match chosen(x, conditions) {
        None => unmet(conditions.len(), x),
        Some((place, negatives)) => {
            let anyway = negatives | first_of_two(conditions);
            (Choice::Section(place), (x < ZERO) & !anyway)
        }
    }
}

// The same of the sections for numbers.
fn choice_in(sections: &[Section], x: f64) -> (Choice, bool)
    ensures { let cs = conditions_of sections.now in result ≡ choice_by (chosen x cs) cs x }
{
    match sections {
        [] => choice_by(&[], x),
        [first] => choice_by(&[first.condition], x),
        [first, second] => { choice_by(&[own_or(Comparison::AtLeast, first), second.condition], x) }
        [first, second, ..] => {
            let above = own_or(Comparison::Above, first);
            let below = own_or(Comparison::Below, second);
            choice_by(&[above, below, None], x)
        }
    }
}

// A sole section without items is General.
fn for_sole(sections: &[Section], choice: (Choice, bool)) -> (Choice, bool)
    ensures { result ≡ for_sole sections.now choice }
{
    match (sections, choice) {
        ([sole], (Choice::Section(_), minus)) if !sole.has_items => (Choice::General, minus),
        _ => choice,
    }
}

// The section that a number is shown by, and whether a minus stands before its text.
pub(crate) fn choice_of(sections: &[Section], x: f64) -> (Choice, bool)
    ensures { result ≡ choice_of sections.now x }
{
    let count = number_count(sections);
    for_sole(sections, choice_in(&sections[..count], x))
}
