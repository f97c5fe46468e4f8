//! The text of a number under a section with a fraction.

ghost use Rattle.std.specs.Prelude.{◌≡◌, ◌<◌, ◌≤◌, ◌^◌, ◌++◌, ◌==◌, [], length, map, OnOk, OnErr};
ghost use Rattle.std.specs.String.{string_bytes};
ghost use Rattle.std.specs.Str.{chars};
ghost use Rattle.xls_bytes.specs.Doubles.{exponent_of};
ghost use Rattle.xls_bytes.specs.Growth.{IsGrown};
ghost use Rattle.xls_number_formats.specs.Texts.{shown_by};
ghost use Rattle.xls_shown_numbers.specs.Numbers.{value};
ghost use Rattle.xls_shown_fractions.specs.Roles.{at_start, role_of};
ghost use Rattle.xls_shown_fractions.specs.Needs.{needs_of};
ghost use Rattle.xls_shown_fractions.specs.Shown.{mixed};
ghost use Rattle.xls_shown_fractions.specs.Texts.{inked, blank_if, all_shown, without_fraction, without_whole, look_of, ink_of, no_digit, denominator_place, place_text, item_text, token_text, text_from, mixed_text, fraction_text};

use crate::needs::Fraction;
use crate::ratios::{Ratio, ratio_of};
use crate::roles::{AT_START, Role, Spot, role_of, spot_after};
use std::alloc::AllocError;
use xls_bytes::first_char;
use xls_number_formats::{Item, Place, SectionItems};
use xls_shown_numbers::{Number, append_place, is_zero, size};

// What is done with the text of an item.
#[derive(Clone, Copy)]
enum Ink {
    Shown,
    // As many blanks stand in its place.
    Blank,
    Hidden,
}

// What is shown of the parts of a section.
#[derive(Clone, Copy)]
struct Look {
    // Whether a whole number of 0 is written.
    writes_zero: bool,
    // What stands between the whole places and the numerator.
    between: Ink,
    // All from the numerator up to the denominator.
    fraction: Ink,
}

fn blank_if(has_question: bool) -> Ink
    ensures { result ≡ blank_if has_question }
{
    if has_question {
        Ink::Blank
    } else {
        Ink::Hidden
    }
}

fn all_shown(writes_zero: bool) -> Look
    ensures { result ≡ all_shown writes_zero }
{
    Look {
        writes_zero,
        between: Ink::Shown,
        fraction: Ink::Shown,
    }
}

// That of a numerator of 0.
fn without_fraction(fraction: &Fraction) -> Look
    ensures { result ≡ without_fraction fraction.now }
{
    let in_fraction = fraction.has_numerator_question | fraction.has_denominator_question;
    let ink = blank_if(fraction.ends_in_question | in_fraction);
    Look {
        writes_zero: true,
        between: ink,
        fraction: ink,
    }
}

// That of a whole number of 0.
fn without_whole(fraction: &Fraction, is_none: bool) -> Look
    ensures { result ≡ without_whole fraction.now is_none }
{
    if is_none && fraction.ends_in_question {
        return all_shown(true);
    }
    Look {
        writes_zero: false,
        between: blank_if(fraction.ends_in_question | fraction.has_numerator_question),
        fraction: Ink::Shown,
    }
}

fn look_of(fraction: &Fraction, no_whole: bool, no_numerator: bool) -> Look
    ensures { result ≡ look_of fraction.now no_whole no_numerator }
{
    if fraction.whole == 0 {
        all_shown(false)
    } else if no_numerator && !fraction.has_numerator_zero {
        without_fraction(fraction)
    } else if no_whole && !fraction.ends_in_zero {
        without_whole(fraction, no_numerator)
    } else {
        all_shown(false)
    }
}

fn ink_of(look: Look, role: Role) -> Ink
    ensures { result ≡ ink_of look role }
{
    match role {
        Role::Between => look.between,
        Role::Numerator | Role::Middle | Role::Denominator => look.fraction,
        Role::Front | Role::Rest => Ink::Shown,
    }
}

// Appends a text.
fn push_own(own: &str, text: &mut String) -> Result<(), AllocError>
    ensures ok { OnOk result (chars (string_bytes text.new) ≡ chars (string_bytes text.old) ++ chars own.now) }
    ensures grown { IsGrown (string_bytes text.old) (string_bytes text.new) }
{
    text.push_str(own)
}

// What a place behind the denominator's digits shows.
#[tactic(auto, using(crate::proofs::TextLemmas::no_chars, crate::proofs::TextLemmas::one_blank))]
fn no_digit<'a>(place: Place) -> &'a str
    ensures { chars result.now ≡ no_digit place }
{
    match place {
        Place::Question => " ",
        Place::Zero | Place::Hash => "",
    }
}

// Appends what place i from the left of a denominator in at least so many digits shows.
fn append_denominator_place(
    n: u64,
    zeros: u64,
    place: Place,
    i: u64,
    text: &mut String,
) -> Result<(), AllocError>
    ensures ok { OnOk result (chars (string_bytes text.new) ≡ chars (string_bytes text.old)
        ++ denominator_place n zeros place i) }
    ensures grown { IsGrown (string_bytes text.old) (string_bytes text.new) }
{
    let number = Number {
        digits: n as u128,
        zeros: 0,
    };
    let len = size(number).max(zeros as u128);
    if (i as u128) < len {
        let left = (len - i as u128 - 1) as u64;
        append_place(number, false, false, Place::Zero, left, text)
    } else {
        push_own(no_digit(place), text)
    }
}

// Appends what a place shows.
fn append_place_of(
    fraction: &Fraction,
    ratio: Ratio,
    writes_zero: bool,
    spot: Spot,
    role: Role,
    place: Place,
    own: &str,
    text: &mut String,
) -> Result<(), AllocError>
    requires whole { ratio.whole.zeros ≤ 2 ^ 100 }
    requires numerator { ratio.numerator.zeros ≤ 2 ^ 100 }
    ensures ok { OnOk result (chars (string_bytes text.new) ≡ chars (string_bytes text.old)
        ++ place_text fraction.now (mixed ratio) writes_zero spot role place (chars own.now)) }
    ensures grown { IsGrown (string_bytes text.old) (string_bytes text.new) }
{
    match role {
        Role::Front => {
            let i = fraction.whole.saturating_sub(spot.placed).saturating_sub(1);
            append_place(ratio.whole, writes_zero, spot.placed == 0, place, i, text)
        }
        Role::Numerator => {
            let i = fraction
                .numerator
                .saturating_sub(spot.run)
                .saturating_sub(1);
            append_place(ratio.numerator, true, spot.run == 0, place, i, text)
        }
        Role::Denominator => {
            if spot.fixed {
                push_own(own, text)
            } else {
                append_denominator_place(ratio.denominator, fraction.zeros, place, spot.run, text)
            }
        }
        Role::Between | Role::Middle | Role::Rest => Ok(()),
    }
}

// What an item that is no place shows.
#[tactic(auto, using(crate::proofs::TextLemmas::no_chars))]
fn own_text<'a>(item: Item, own: &'a str) -> &'a str
    ensures { chars result.now ≡ shown_by item (chars own.now) [] }
{
    match item {
        Item::Text | Item::Place(_) | Item::Elapsed(_) => "",
        _ => own,
    }
}

// Appends what an item shows; an error may leave a part.
fn append_item(
    fraction: &Fraction,
    ratio: Ratio,
    writes_zero: bool,
    spot: Spot,
    item: Item,
    own: &str,
    text: &mut String,
) -> Result<(), AllocError>
    requires whole { ratio.whole.zeros ≤ 2 ^ 100 }
    requires numerator { ratio.numerator.zeros ≤ 2 ^ 100 }
    ensures ok { OnOk result (chars (string_bytes text.new) ≡ chars (string_bytes text.old)
        ++ item_text fraction.now (mixed ratio) writes_zero spot (role_of fraction.now.whole spot item) item (chars own.now)) }
    ensures grown { IsGrown (string_bytes text.old) (string_bytes text.new) }
{
    match item {
        Item::Place(place) => {
            let role = role_of(fraction.whole, spot, item);
            append_place_of(fraction, ratio, writes_zero, spot, role, place, own, text)
        }
        _ => push_own(own_text(item, own), text),
    }
}

// Appends a blank for each character.
fn append_blanks(piece: &str, text: &mut String) -> Result<(), AllocError>
    ensures ok { OnOk result (chars (string_bytes text.new) ≡ chars (string_bytes text.old)
        ++ map (λ c. 32) (chars piece.now)) }
    ensures grown { IsGrown (string_bytes text.old) (string_bytes text.new) }
{
    let mut left = piece;
    'blanks: while let Some((_, rest)) = first_char(left) {
        push_own(" ", text)?;
        left = rest;
    }
    Ok(())
}

// Appends a text, as many blanks, or nothing.
fn append_inked(ink: Ink, piece: &str, text: &mut String) -> Result<(), AllocError>
    ensures ok { OnOk result (chars (string_bytes text.new) ≡ chars (string_bytes text.old)
        ++ inked ink (chars piece.now)) }
    ensures grown { IsGrown (string_bytes text.old) (string_bytes text.new) }
{
    match ink {
        Ink::Shown => push_own(piece, text),
        Ink::Blank => append_blanks(piece, text),
        Ink::Hidden => Ok(()),
    }
}

// Appends what an item shows, by its part.
fn append_token(
    fraction: &Fraction,
    ratio: Ratio,
    look: Look,
    spot: Spot,
    item: Item,
    own: &str,
    text: &mut String,
) -> Result<(), AllocError>
    requires whole { ratio.whole.zeros ≤ 2 ^ 100 }
    requires numerator { ratio.numerator.zeros ≤ 2 ^ 100 }
    ensures ok { OnOk result (chars (string_bytes text.new) ≡ chars (string_bytes text.old)
        ++ token_text fraction.now (mixed ratio) look spot (item, chars own.now)) }
    ensures grown { IsGrown (string_bytes text.old) (string_bytes text.new) }
{
    let ink = ink_of(look, role_of(fraction.whole, spot, item));
    let before = text.len();
    append_item(fraction, ratio, look.writes_zero, spot, item, own, text)?;
    let piece = text.split_off(before)?;
    append_inked(ink, &piece, text)
}

// Appends what all items show; an error may leave a part.
fn append_ratio(
    section: &SectionItems<'_>,
    fraction: &Fraction,
    ratio: Ratio,
    look: Look,
    text: &mut String,
) -> Result<(), AllocError>
    requires whole { ratio.whole.zeros ≤ 2 ^ 100 }
    requires numerator { ratio.numerator.zeros ≤ 2 ^ 100 }
    ensures ok { OnOk result (chars (string_bytes text.new) ≡ chars (string_bytes text.old)
        ++ text_from fraction.now (mixed ratio) look at_start section.now) }
    ensures grown { IsGrown (string_bytes text.old) (string_bytes text.new) }
{
    let mut spot = AT_START;
    let mut items = section.iter();
    'items: while let Some((item, own)) = items.next() {
        append_token(fraction, ratio, look, spot, item, own, text)?;
        spot = spot_after(spot, item);
    }
    Ok(())
}

// As `push_fraction`, but an error may leave a part.
fn append_fraction(
    section: &SectionItems<'_>,
    fraction: &Fraction,
    bits: u64,
    text: &mut String,
) -> Result<(), AllocError>
    requires finite { exponent_of bits < 2047 }
    requires fraction { fraction.now ≡ needs_of section.now }
    ensures ok { OnOk result (chars (string_bytes text.new)
        ≡ chars (string_bytes text.old) ++ fraction_text section.now bits) }
    ensures grown { IsGrown (string_bytes text.old) (string_bytes text.new) }
{
    let ratio = ratio_of(fraction, bits);
    let look = look_of(fraction, is_zero(ratio.whole), is_zero(ratio.numerator));
    append_ratio(section, fraction, ratio, look, text)
}

/// Appends the size of the finite double with these bits as a section shows it, one
/// with a fraction such as `# ??/??`: the nearest fraction whose denominator has as many digits as
/// places, or that over a fixed denominator, as `# ?/8`, by doubles as Excel does it. No sign is shown.
/// `fraction` is what `read_fraction` gives of the section. Only running out of memory refuses, and then
/// the text is as it was.
pub fn push_fraction(
    section: &SectionItems<'_>,
    fraction: &Fraction,
    bits: u64,
    text: &mut String,
) -> Result<(), AllocError>
    requires finite { exponent_of bits < 2047 }
    requires fraction { fraction.now ≡ needs_of section.now }
    ensures ok { OnOk result (chars (string_bytes text.new)
        ≡ chars (string_bytes text.old) ++ fraction_text section.now bits) }
    ensures err { OnErr result (string_bytes text.new ≡ string_bytes text.old) }
{
    let before = text.len();
    let done = append_fraction(section, fraction, bits, text);
    if done.is_err() {
        text.truncate(before);
    }
    done
}
