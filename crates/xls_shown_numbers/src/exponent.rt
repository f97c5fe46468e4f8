//! The text of a number under a section with an exponent.

ghost use Rattle.std.specs.Prelude.{◌≡◌, ◌<◌, ◌≤◌, ◌+◌, ◌^◌, [], ◌∷◌, ◌++◌, length, take, true, false, not, if◌then◌else◌, pos, negsuc, ◌≤ℤ◌, unsigned_abs, OnOk, OnErr};
ghost use Rattle.std.specs.String.{string_bytes};
ghost use Rattle.std.specs.Str.{chars};
ghost use Rattle.xls_bytes.specs.Growth.{IsGrown};
ghost use Rattle.xls_rounding.specs.Rounding.{magnitude_of};
ghost use Rattle.xls_number_formats.specs.Grammar.{is_place};
ghost use Rattle.xls_number_formats.specs.Sections.{is_exponent};
ghost use Rattle.xls_shown_numbers.specs.Numbers.{value};
ghost use Rattle.xls_shown_numbers.specs.Exponent.{mantissa, multiple, first_exponent, mantissa_at, grown, exponent_of, mantissa_text, sign_text, places_in, places_behind, needs_of, behind_text, behind_from, exponent_from, exponent_text};

use crate::number::{Number, moved_by, size};
use crate::parts::{Part, PartItems};
use crate::plain::{Plain, one_more, read_part};
use crate::shown::{append_items, append_place, push_own};
use std::alloc::AllocError;
use xls_bytes::first_char;
use xls_number_formats::{Item, SectionItems, SectionIter};
use xls_rounding::{Decimal, magnitude};

/// What a section with an exponent needs of its items.
#[derive(Clone, Copy, Debug, PartialEq, Eq)]
pub struct Exponent {
    /// Of those before the first exponent.
    pub mantissa: Plain,
    /// The places behind it.
    pub places: u64,
}

fn is_place(item: Item) -> bool
    ensures { result ≡ is_place item }
{
    matches!(item, Item::Place(_))
}

fn is_exponent(item: Item) -> bool
    ensures { result ≡ is_exponent item }
{
    matches!(item, Item::Exponent(_))
}

// The places behind the first exponent.
fn places_behind(section: &SectionItems<'_>) -> u64
    ensures { result ≡ places_behind section.now }
{
    let mut count = 0;
    let mut behind = false;
    let mut items = section.iter();
    'items: while let Some((item, _)) = items.next() {
        count = one_more(behind & is_place(item), count);
        behind = behind | is_exponent(item);
    }
    count
}

/// What a section, one with an exponent, needs of its items. Takes no memory.
pub fn read_exponent(section: &SectionItems<'_>) -> Exponent
    ensures { result ≡ needs_of section.now }
{
    Exponent {
        mantissa: read_part(section, Part::Mantissa),
        places: places_behind(section),
    }
}

// The greatest multiple of w that isn't above k.
fn multiple(w: u64, k: i32) -> i128
    requires some { 0 < w }
    requires few { w < 2 ^ 63 }
    ensures exact { result ≡ multiple w k }
    ensures low { negsuc (2 ^ 63 + 2 ^ 31) ≤ℤ result }
    ensures high { result ≤ℤ pos (2 ^ 31) }
{
    if k >= 0 {
        (w * (k as u64 / w)) as i128
    } else {
        let below = (k.unsigned_abs() - 1) as u64;
        -((w * (below / w + 1)) as i128)
    }
}

// The exponent of a number whose first digit counts ten to the power k, of so many whole places.
fn first_exponent(w: u64, k: i32) -> i128
    requires few { w < 2 ^ 63 }
    ensures exact { result ≡ first_exponent w k }
    ensures low { negsuc (2 ^ 63 + 2 ^ 31) ≤ℤ result }
    ensures high { result ≤ℤ pos (2 ^ 31) }
{
    if w == 0 {
        k as i128 + 1
    } else {
        multiple(w, k)
    }
}

// The mantissa under an exponent: its last digits are those of the decimal places.
fn mantissa_at(plain: &Plain, decimal: Decimal, exponent: i128) -> Number
    requires low { negsuc (2 ^ 65) ≤ℤ exponent }
    requires high { exponent ≤ℤ pos (2 ^ 65) }
    ensures value { value result ≡ mantissa_at plain.now decimal exponent }
    ensures zeros { result.zeros ≤ 2 ^ 100 }
{
    let place = plain.seen.decimals as i128 - exponent;
    moved_by(decimal, decimal.exponent as i128 + place)
}

// It grows where rounding gives a digit more than there are places.
fn grown(plain: &Plain, n: Number, exponent: i128) -> i128
    requires zeros { n.zeros ≤ 2 ^ 100 }
    requires few { plain.now.seen.whole < 2 ^ 63 }
    requires low { negsuc (2 ^ 63 + 2 ^ 31) ≤ℤ exponent }
    requires high { exponent ≤ℤ pos (2 ^ 31) }
    ensures exact { result ≡ grown plain.now (value n) exponent }
    ensures within { unsigned_abs result < 2 ^ 64 }
{
    if size(n) > plain.seen.whole as u128 + plain.seen.decimals as u128 {
        exponent + plain.seen.whole.max(1) as i128
    } else {
        exponent
    }
}

fn exponent_of(plain: &Plain, decimal: Decimal) -> i128
    requires { plain.now.seen.whole < 2 ^ 63 }
    ensures exact { result ≡ exponent_of plain.now decimal }
    ensures within { unsigned_abs result < 2 ^ 64 }
{
    if decimal.digits == 0 {
        return 0;
    }
    let first = first_exponent(plain.seen.whole, magnitude(decimal));
    grown(plain, mantissa_at(plain, decimal, first), first)
}

// Appends what the items before the first exponent show; an error may leave a part.
fn append_mantissa(
    section: &SectionItems<'_>,
    plain: &Plain,
    decimal: Decimal,
    exponent: i128,
    text: &mut String,
) -> Result<(), AllocError>
    requires { unsigned_abs exponent < 2 ^ 64 }
    ensures ok { OnOk result (chars (string_bytes text.new) ≡ chars (string_bytes text.old)
        ++ mantissa_text (mantissa section.now) plain.now decimal exponent) }
    ensures grown { IsGrown (string_bytes text.old) (string_bytes text.new) }
{
    let items = PartItems::new(section, Part::Mantissa);
    if decimal.digits == 0 {
        append_items(items, true, plain, NONE, text)
    } else {
        append_items(
            items,
            false,
            plain,
            mantissa_at(plain, decimal, exponent),
            text,
        )
    }
}

const NONE: Number = Number {
    digits: 0,
    zeros: 0,
};

// The sign stands before the first place.
#[tactic(auto, using(crate::proofs::ShownLemmas::no_chars, crate::proofs::ShownLemmas::plus_alone, crate::proofs::ShownLemmas::minus_alone))]
fn sign<'a>(placed: bool, plus: bool, exponent: i128) -> &'a str
    ensures { chars result.now ≡ (if placed then [] else sign_text plus exponent) }
{
    if placed {
        ""
    } else if exponent < 0 {
        "-"
    } else if plus {
        "+"
    } else {
        ""
    }
}

// Appends what an item behind the exponent shows.
fn append_behind(
    plus: bool,
    exponent: i128,
    placed: bool,
    left: u64,
    item: Item,
    own: &str,
    text: &mut String,
) -> Result<(), AllocError>
    requires { unsigned_abs exponent < 2 ^ 64 }
    ensures ok { OnOk result (chars (string_bytes text.new) ≡ chars (string_bytes text.old)
        ++ behind_text plus exponent placed left item (chars own.now)) }
    ensures grown { IsGrown (string_bytes text.old) (string_bytes text.new) }
{
    match item {
        Item::Place(place) => {
            push_own(sign(placed, plus, exponent), text)?;
            let size = Number {
                digits: exponent.unsigned_abs(),
                zeros: 0,
            };
            append_place(size, true, !placed, place, left, text)
        }
        Item::Comma | Item::Text | Item::Elapsed(_) => Ok(()),
        _ => push_own(own, text),
    }
}

// How many places are left after an item.
fn left_after(left: u64, item: Item) -> u64
    requires { is_place item ≡ true → 0 < left }
    ensures { left ≡ (if is_place item then result + 1 else result) }
{
    if is_place(item) { left - 1 } else { left }
}

// Appends what all items behind the exponent show.
fn append_all_behind(
    plus: bool,
    exponent: i128,
    places: u64,
    mut items: SectionIter<'_, '_>,
    text: &mut String,
) -> Result<(), AllocError>
    requires exponent { unsigned_abs exponent < 2 ^ 64 }
    requires places { places ≡ places_in items }
    ensures ok { OnOk result (chars (string_bytes text.new) ≡ chars (string_bytes text.old)
        ++ behind_from plus exponent false items.entry) }
    ensures grown { IsGrown (string_bytes text.old) (string_bytes text.new) }
{
    let mut placed = false;
    let mut left = places;
    'items: while let Some((item, own)) = items.next() {
        left = left_after(left, item);
        append_behind(plus, exponent, placed, left, item, own, text)?;
        placed = placed | is_place(item);
    }
    Ok(())
}

// The letter of an exponent.
fn letter(own: &str) -> &str
    ensures { chars result.now ≡ take 1 (chars own.now) }
{
    match first_char(own) {
        Some((_, rest)) => {
            let (letter, _) = own.split_at(own.len() - rest.len());
            letter
        }
        None => own,
    }
}

// Appends the letter of the first exponent, and what the items behind it show.
fn append_exponent(
    mut items: SectionIter<'_, '_>,
    places: u64,
    exponent: i128,
    text: &mut String,
) -> Result<(), AllocError>
    requires exponent { unsigned_abs exponent < 2 ^ 64 }
    requires places { places ≡ places_behind items }
    ensures ok { OnOk result (chars (string_bytes text.new) ≡ chars (string_bytes text.old)
        ++ exponent_from exponent items.entry) }
    ensures grown { IsGrown (string_bytes text.old) (string_bytes text.new) }
{
    'items: while let Some((item, own)) = items.next() {
        if let Item::Exponent(plus) = item {
            push_own(letter(own), text)?;
            return append_all_behind(plus, exponent, places, items, text);
        }
    }
    Ok(())
}

// As `push_exponent`, but an error may leave a part.
fn append_number(
    section: &SectionItems<'_>,
    needs: &Exponent,
    decimal: Decimal,
    text: &mut String,
) -> Result<(), AllocError>
    requires { needs.now ≡ needs_of section.now }
    ensures ok { OnOk result (chars (string_bytes text.new)
        ≡ chars (string_bytes text.old) ++ exponent_text section.now decimal) }
    ensures grown { IsGrown (string_bytes text.old) (string_bytes text.new) }
{
    let items = section.iter();
    let exponent = exponent_of(&needs.mantissa, decimal);
    append_mantissa(section, &needs.mantissa, decimal, exponent, text)?;
    append_exponent(items, needs.places, exponent, text)
}

/// Appends the size of a number as a section shows it, one with an exponent such as
/// `0.00E+00`: the exponent is a multiple of the number of places before the point, and the mantissa is
/// rounded at the last decimal place from the 15 digits of `decimal`. No sign of the number is shown.
/// `needs` is what `read_exponent` gives of the section. Only running out of memory refuses, and then the
/// text is as it was.
pub fn push_exponent(
    section: &SectionItems<'_>,
    needs: &Exponent,
    decimal: Decimal,
    text: &mut String,
) -> Result<(), AllocError>
    requires { needs.now ≡ needs_of section.now }
    ensures ok { OnOk result (chars (string_bytes text.new)
        ≡ chars (string_bytes text.old) ++ exponent_text section.now decimal) }
    ensures err { OnErr result (string_bytes text.new ≡ string_bytes text.old) }
{
    let before = text.len();
    let done = append_number(section, needs, decimal, text);
    if done.is_err() {
        text.truncate(before);
    }
    done
}
