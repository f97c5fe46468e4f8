//! The text of a number under a section of places.

ghost use Rattle.std.specs.Prelude.{◌≡◌, ◌<◌, ◌≤◌, ◌+◌, ◌-◌, ◌*◌, ◌^◌, ◌==◌, ◌&&◌, nat_lt, if◌then◌else◌, length, [], ◌∷◌, ◌++◌, OnOk, OnErr};
ghost use Rattle.std.specs.String.{string_bytes};
ghost use Rattle.std.specs.Str.{chars};
ghost use Rattle.xls_bytes.specs.Growth.{IsGrown};
ghost use Rattle.xls_number_formats.specs.Sections.{kinds};
ghost use Rattle.xls_shown_numbers.specs.Numbers.{value};
ghost use Rattle.xls_shown_numbers.specs.Parts.{tokens_left, filled};
ghost use Rattle.xls_shown_numbers.specs.Exponent.{zeroed};
ghost use Rattle.xls_shown_numbers.specs.Plain.{digit, size, separates, separator, filler, whole_digits, whole_place, written_place, no_decimal, decimal_place, place_text, whole_before, comma_text, item_text, text_from, number_shown, is_placed, none_seen, plain_of, plain_text};

use crate::number::{Number, digit, ends_in_zeros, is_zero, number_under, size};
use crate::parts::{Part, PartItems};
use crate::plain::{NONE_SEEN, Plain, Seen, divides, groups, seen_after};
use std::alloc::AllocError;
use xls_number_formats::{Item, Place, SectionItems};
use xls_rounding::Decimal;

// Appends a digit.
fn push_digit(digit: u8, text: &mut String) -> Result<(), AllocError>
    requires { digit < 128 }
    ensures ok { OnOk result (chars (string_bytes text.new) ≡ chars (string_bytes text.old) ++ digit ∷ []) }
    ensures grown { IsGrown (string_bytes text.old) (string_bytes text.new) }
{
    text.push(digit as char)
}

// Appends a text.
pub(crate) fn push_own(own: &str, text: &mut String) -> Result<(), AllocError>
    ensures ok { OnOk result (chars (string_bytes text.new) ≡ chars (string_bytes text.old) ++ chars own.now) }
    ensures grown { IsGrown (string_bytes text.old) (string_bytes text.new) }
{
    text.push_str(own)
}

// Whether a separator stands behind whole place i from the right.
fn separates(grouping: bool, i: u128) -> bool
    ensures { result ≡ separates grouping i }
{
    grouping && (i > 0 && i % 3 == 0)
}

// What a whole place shows without a digit.
#[tactic(auto, using(crate::proofs::ShownLemmas::no_chars, crate::proofs::ShownLemmas::zero_comma, crate::proofs::ShownLemmas::zero_alone, crate::proofs::ShownLemmas::two_blanks, crate::proofs::ShownLemmas::one_blank))]
fn filler<'a>(grouping: bool, place: Place, i: u128) -> &'a str
    ensures { chars result.now ≡ filler grouping place i }
{
    match (place, separates(grouping, i)) {
        (Place::Zero, true) => "0,",
        (Place::Zero, false) => "0",
        (Place::Question, true) => "  ",
        (Place::Question, false) => " ",
        (Place::Hash, _) => "",
    }
}

// What a decimal place shows without a digit.
#[tactic(auto, using(crate::proofs::ShownLemmas::no_chars, crate::proofs::ShownLemmas::zero_alone, crate::proofs::ShownLemmas::one_blank))]
fn no_decimal<'a>(place: Place) -> &'a str
    ensures { chars result.now ≡ no_decimal place }
{
    match place {
        Place::Zero => "0",
        Place::Question => " ",
        Place::Hash => "",
    }
}

// The separator behind whole place i from the right.
#[tactic(auto, using(crate::proofs::ShownLemmas::no_chars, crate::proofs::ShownLemmas::comma_alone))]
fn separator<'a>(grouping: bool, i: u128) -> &'a str
    ensures { chars result.now ≡ separator grouping i (44 ∷ []) }
{
    if separates(grouping, i) { "," } else { "" }
}

// Appends so many digits of the whole part from place i on.
fn push_whole_digits(
    n: Number,
    plain: &Plain,
    i: u128,
    count: u128,
    text: &mut String,
) -> Result<(), AllocError>
    requires i { i ≤ 2 ^ 64 }
    requires count { count ≤ 2 ^ 101 }
    ensures ok { OnOk result (chars (string_bytes text.new) ≡ chars (string_bytes text.old)
        ++ whole_digits plain.now.grouping (value n) plain.now.seen.decimals i count) }
    ensures grown { IsGrown (string_bytes text.old) (string_bytes text.new) }
{
    let mut left = count;
    'digits: while left > 0 {
        left -= 1;
        push_digit(digit(n, plain.seen.decimals as u128 + (i + left)), text)?;
        push_own(separator(plain.grouping, i + left), text)?;
    }
    Ok(())
}

// Appends what a whole place shows.
fn push_whole_place(
    n: Number,
    plain: &Plain,
    leftmost: bool,
    place: Place,
    i: u64,
    text: &mut String,
) -> Result<(), AllocError>
    requires { n.zeros ≤ 2 ^ 100 }
    ensures ok { OnOk result (chars (string_bytes text.new) ≡ chars (string_bytes text.old)
        ++ whole_place plain.now.grouping (value n) plain.now.seen.decimals leftmost place i) }
    ensures grown { IsGrown (string_bytes text.old) (string_bytes text.new) }
{
    let from = plain.seen.decimals as u128 + i as u128;
    let size = size(n);
    if size <= from {
        push_own(filler(plain.grouping, place, i as u128), text)
    } else if leftmost {
        push_whole_digits(n, plain, i as u128, size - from, text)
    } else {
        push_whole_digits(n, plain, i as u128, 1, text)
    }
}

fn is_zero_written(n: Number, is_written: bool, i: u64) -> bool
    ensures { result ≡ (is_written && ((value n == 0) && (i == 0))) }
{
    is_written && (is_zero(n) && i == 0)
}

/// Appends what whole place i from the right shows of a natural, without groups: a digit, and the
/// leftmost place all that are left; without a digit it shows 0, a blank or nothing, by its kind. Where
/// `is_written`, 0 has the digit 0. Only running out of memory refuses, and may leave a part.
pub fn append_place(
    n: Number,
    is_written: bool,
    leftmost: bool,
    place: Place,
    i: u64,
    text: &mut String,
) -> Result<(), AllocError>
    requires { n.zeros ≤ 2 ^ 100 }
    ensures ok { OnOk result (chars (string_bytes text.new) ≡ chars (string_bytes text.old)
        ++ written_place is_written (value n) leftmost place i) }
    ensures grown { IsGrown (string_bytes text.old) (string_bytes text.new) }
{
    if is_zero_written(n, is_written, i) {
        return push_digit(b'0', text);
    }
    let plain = Plain {
        seen: NONE_SEEN,
        thousands: 0,
        grouping: false,
    };
    push_whole_place(n, &plain, leftmost, place, i, text)
}

// Appends what a decimal place shows.
fn push_decimal_place(
    n: Number,
    is_kept: bool,
    place: Place,
    i: u64,
    text: &mut String,
) -> Result<(), AllocError>
    ensures ok { OnOk result (chars (string_bytes text.new) ≡ chars (string_bytes text.old)
        ++ decimal_place (value n) is_kept place i) }
    ensures grown { IsGrown (string_bytes text.old) (string_bytes text.new) }
{
    if is_kept || !ends_in_zeros(n, i as u128 + 1) {
        push_digit(digit(n, i as u128), text)
    } else {
        push_own(no_decimal(place), text)
    }
}

// Appends what a place shows.
fn push_place(
    n: Number,
    plain: &Plain,
    seen: Seen,
    place: Place,
    text: &mut String,
) -> Result<(), AllocError>
    requires { n.zeros ≤ 2 ^ 100 }
    ensures ok { OnOk result (chars (string_bytes text.new) ≡ chars (string_bytes text.old)
        ++ place_text plain.now (value n) seen place) }
    ensures grown { IsGrown (string_bytes text.old) (string_bytes text.new) }
{
    if seen.point {
        let i = plain
            .seen
            .decimals
            .saturating_sub(seen.decimals)
            .saturating_sub(1);
        push_decimal_place(n, seen.decimals < plain.seen.zeros, place, i, text)
    } else {
        let i = plain
            .seen
            .whole
            .saturating_sub(seen.whole)
            .saturating_sub(1);
        push_whole_place(n, plain, seen.whole == 0, place, i, text)
    }
}

// Appends the whole part before the first point, where there are no whole places.
fn push_whole_part(
    n: Number,
    plain: &Plain,
    seen: Seen,
    text: &mut String,
) -> Result<(), AllocError>
    requires { n.zeros ≤ 2 ^ 100 }
    ensures ok { OnOk result (chars (string_bytes text.new) ≡ chars (string_bytes text.old)
        ++ whole_before plain.now (value n) seen) }
    ensures grown { IsGrown (string_bytes text.old) (string_bytes text.new) }
{
    if !seen.point && plain.seen.whole == 0 {
        let count = size(n).saturating_sub(plain.seen.decimals as u128);
        push_whole_digits(n, plain, 0, count, text)
    } else {
        Ok(())
    }
}

// Appends what a point shows.
fn push_point(
    n: Number,
    plain: &Plain,
    seen: Seen,
    own: &str,
    text: &mut String,
) -> Result<(), AllocError>
    requires { n.zeros ≤ 2 ^ 100 }
    ensures ok { OnOk result (chars (string_bytes text.new) ≡ chars (string_bytes text.old)
        ++ (whole_before plain.now (value n) seen ++ chars own.now)) }
    ensures grown { IsGrown (string_bytes text.old) (string_bytes text.new) }
{
    push_whole_part(n, plain, seen, text)?;
    push_own(own, text)
}

// Appends what a comma shows.
fn push_comma(plain: &Plain, seen: Seen, own: &str, text: &mut String) -> Result<(), AllocError>
    requires whole { seen.whole < 2 ^ 63 }
    requires decimals { seen.decimals < 2 ^ 63 }
    ensures ok { OnOk result (chars (string_bytes text.new) ≡ chars (string_bytes text.old)
        ++ comma_text plain.now seen (chars own.now)) }
    ensures grown { IsGrown (string_bytes text.old) (string_bytes text.new) }
{
    if groups(plain.seen, seen) || divides(plain.seen, seen) {
        Ok(())
    } else {
        push_own(own, text)
    }
}

// Appends what an item shows.
fn push_item(
    n: Number,
    plain: &Plain,
    seen: Seen,
    item: Item,
    own: &str,
    text: &mut String,
) -> Result<(), AllocError>
    requires zeros { n.zeros ≤ 2 ^ 100 }
    requires whole { seen.whole < 2 ^ 63 }
    requires decimals { seen.decimals < 2 ^ 63 }
    ensures ok { OnOk result (chars (string_bytes text.new) ≡ chars (string_bytes text.old)
        ++ item_text plain.now (value n) seen item (chars own.now)) }
    ensures grown { IsGrown (string_bytes text.old) (string_bytes text.new) }
{
    match item {
        Item::Place(place) => push_place(n, plain, seen, place, text),
        Item::Point => push_point(n, plain, seen, own, text),
        Item::Comma => push_comma(plain, seen, own, text),
        Item::Text | Item::Elapsed(_) => Ok(()),
        _ => push_own(own, text),
    }
}

// What is shown of a number: nothing without a place.
fn number_shown(plain: &Plain, decimal: Decimal) -> Number
    ensures value { value result ≡ number_shown plain.now decimal }
    ensures zeros { result.zeros ≤ 2 ^ 100 }
{
    if plain.seen.whole > 0 || plain.seen.decimals > 0 {
        number_under(plain, decimal)
    } else {
        Number {
            digits: 0,
            zeros: 0,
        }
    }
}

// Of 0 each whole place of a mantissa shows a 0.
fn zeroed(point: bool, item: Item) -> Item
    ensures { result ≡ zeroed point item }
{
    match item {
        Item::Place(_) if !point => Item::Place(Place::Zero),
        other => other,
    }
}

fn filled(fills: bool, seen: Seen, item: Item) -> Item
    ensures { result ≡ (if fills then zeroed seen.point item else item) }
{
    if fills {
        zeroed(seen.point, item)
    } else {
        item
    }
}

// Appends what items show of a number, with zeros in all whole places if it fills them; an error may
// leave a part.
pub(crate) fn append_items(
    mut items: PartItems<'_, '_>,
    fills: bool,
    plain: &Plain,
    n: Number,
    text: &mut String,
) -> Result<(), AllocError>
    requires zeros { n.zeros ≤ 2 ^ 100 }
    requires few { length (tokens_left items) < 2 ^ 63 }
    ensures ok { OnOk result (chars (string_bytes text.new) ≡ chars (string_bytes text.old)
        ++ text_from plain.now (value n) none_seen (filled fills none_seen (tokens_left items.entry))) }
    ensures grown { IsGrown (string_bytes text.old) (string_bytes text.new) }
{
    let mut seen = NONE_SEEN;
    'items: while let Some((item, own)) = items.next() {
        push_item(n, plain, seen, filled(fills, seen, item), own, text)?;
        seen = seen_after(seen, item);
    }
    Ok(())
}

// As `push_plain`, but an error may leave a part.
fn append_number(
    section: &SectionItems<'_>,
    plain: &Plain,
    decimal: Decimal,
    text: &mut String,
) -> Result<(), AllocError>
    requires { plain.now ≡ plain_of (kinds section.now) }
    ensures ok { OnOk result (chars (string_bytes text.new)
        ≡ chars (string_bytes text.old) ++ plain_text section.now decimal) }
    ensures grown { IsGrown (string_bytes text.old) (string_bytes text.new) }
{
    let items = PartItems::new(section, Part::Whole);
    append_items(items, false, plain, number_shown(plain, decimal), text)
}

/// Appends the size of a number as a section shows it, a section of places such as
/// `#,##0.00`: rounded at its last decimal place from the 15 digits of `decimal`, times 100 for each
/// `%`, over 1000 for each comma behind its places. Every other item stands for itself; without a
/// place nothing is shown of the number. No sign is shown. `plain` is what
/// `read_plain` gives of the section. Only running out of memory refuses, and then the text is as it was.
pub fn push_plain(
    section: &SectionItems<'_>,
    plain: &Plain,
    decimal: Decimal,
    text: &mut String,
) -> Result<(), AllocError>
    requires { plain.now ≡ plain_of (kinds section.now) }
    ensures ok { OnOk result (chars (string_bytes text.new)
        ≡ chars (string_bytes text.old) ++ plain_text section.now decimal) }
    ensures err { OnErr result (string_bytes text.new ≡ string_bytes text.old) }
{
    let before = text.len();
    let done = append_number(section, plain, decimal, text);
    if done.is_err() {
        text.truncate(before);
    }
    done
}
