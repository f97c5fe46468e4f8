//! What a section with a fraction needs of its items.

ghost use Rattle.std.specs.Prelude.{◌≡◌, ◌<◌, ◌≤◌, ◌^◌, ◌&&◌, length};
ghost use Rattle.std.specs.Str.{chars};
ghost use Rattle.xls_number_formats.specs.Grammar.{is_place};
ghost use Rattle.xls_number_formats.specs.Sections.{kinds};
ghost use Rattle.xls_shown_numbers.specs.Plain.{is_zero};
ghost use Rattle.xls_shown_fractions.specs.Roles.{at_start, spot_all};
ghost use Rattle.xls_shown_fractions.specs.Needs.{is_question, is_numerator, is_denominator, is_last_whole, digit_more, own_digit, spelled_from, fixed_of, whole_of, needs_in, needs_of};
ghost use Rattle.xls_shown_fractions.specs.Scans.{scanned, no_items, needs_by, scan_of};

use crate::roles::{AT_START, Role, Spot, is_place, is_zero, one_more, role_of, spot_after};
use xls_bytes::first_char;
use xls_number_formats::{Item, Place, SectionItems};

/// What a section with a fraction needs of its items.
#[derive(Clone, Copy, Debug, PartialEq, Eq)]
pub struct Fraction {
    /// Places before the numerator.
    pub whole: u64,
    /// Places of the numerator.
    pub numerator: u64,
    /// Places of the denominator.
    pub places: u64,
    /// Those of them that are `0`.
    pub zeros: u64,
    /// A denominator of digits, of which numbers from 10^15 on count as 10^15.
    pub fixed: Option<u64>,
    /// Whether a place of the numerator is `0`.
    pub has_numerator_zero: bool,
    pub has_numerator_question: bool,
    pub has_denominator_question: bool,
    /// Whether the last whole place is `0`.
    pub ends_in_zero: bool,
    pub ends_in_question: bool,
}

// What has been seen of the parts.
#[derive(Clone, Copy)]
struct Scan {
    places: u64,
    zeros: u64,
    spelled: u64,
    has_numerator_zero: bool,
    has_numerator_question: bool,
    has_denominator_question: bool,
    ends_in_zero: bool,
    ends_in_question: bool,
}

const NO_ITEMS: Scan = Scan {
    places: 0,
    zeros: 0,
    spelled: 0,
    has_numerator_zero: false,
    has_numerator_question: false,
    has_denominator_question: false,
    ends_in_zero: false,
    ends_in_question: false,
};

fn is_question(item: Item) -> bool
    ensures { result ≡ is_question item }
{
    match item {
        Item::Place(place) => matches!(place, Place::Question),
        _ => false,
    }
}

fn is_numerator(role: Role) -> bool
    ensures { result ≡ is_numerator role }
{
    matches!(role, Role::Numerator)
}

fn is_denominator(role: Role) -> bool
    ensures { result ≡ is_denominator role }
{
    matches!(role, Role::Denominator)
}

fn is_last_whole(whole: u64, spot: Spot, item: Item) -> bool
    requires { spot.placed < 2 ^ 63 }
    ensures { result ≡ is_last_whole whole spot item }
{
    (spot.placed + 1 == whole) & (!spot.slash & is_place(item))
}

// The digit that an item's text begins with.
fn own_digit(own: &str) -> u64
    ensures exact { result ≡ own_digit (chars own.now) }
    ensures within { result < 2 ^ 32 }
{
    match first_char(own) {
        Some((c, _)) => (c as u64).saturating_sub(48),
        None => 0,
    }
}

// A digit more of a number.
fn digit_more(n: u64, own: &str) -> u64
    requires { n ≤ 10 ^ 15 }
    ensures exact { result ≡ digit_more n (chars own.now) }
    ensures within { result ≤ 10 ^ 15 }
{
    (n * 10 + own_digit(own)).min(1_000_000_000_000_000)
}

// What has been seen after an item more.
fn scanned(scan: Scan, whole: u64, spot: Spot, item: Item, own: &str) -> Scan
    requires placed { spot.placed < 2 ^ 63 }
    requires places { scan.places < 2 ^ 63 }
    requires zeros { scan.zeros < 2 ^ 63 }
    requires spelled { scan.spelled ≤ 10 ^ 15 }
    ensures exact { result ≡ scanned scan whole spot item (chars own.now) }
    ensures spelled { result.spelled ≤ 10 ^ 15 }
{
    let role = role_of(whole, spot, item);
    let numerator = is_numerator(role);
    let denominator = is_denominator(role);
    let last = is_last_whole(whole, spot, item);
    let zero = is_zero(item);
    let question = is_question(item);
    Scan {
        places: one_more(denominator & is_place(item), scan.places),
        zeros: one_more(denominator & zero, scan.zeros),
        spelled: if denominator {
            digit_more(scan.spelled, own)
        } else {
            scan.spelled
        },
        has_numerator_zero: scan.has_numerator_zero | (numerator & zero),
        has_numerator_question: scan.has_numerator_question | (numerator & question),
        has_denominator_question: scan.has_denominator_question | (denominator & question),
        ends_in_zero: scan.ends_in_zero | (last & zero),
        ends_in_question: scan.ends_in_question | (last & question),
    }
}

// The items of a section.
fn spot_all(section: &SectionItems<'_>) -> Spot
    ensures { result ≡ spot_all at_start (kinds section.now) }
{
    let mut spot = AT_START;
    let mut items = section.iter();
    'items: while let Some((item, _)) = items.next() {
        spot = spot_after(spot, item);
    }
    spot
}

// What there is of the parts, where so many places are whole.
fn scan_all(section: &SectionItems<'_>, whole: u64) -> Scan
    ensures { result ≡ scan_of whole section.now }
{
    let mut scan = NO_ITEMS;
    let mut spot = AT_START;
    let mut items = section.iter();
    'items: while let Some((item, own)) = items.next() {
        scan = scanned(scan, whole, spot, item, own);
        spot = spot_after(spot, item);
    }
    scan
}

fn fixed_of(is_fixed: bool, n: u64) -> Option<u64>
    ensures { result ≡ fixed_of is_fixed n }
{
    if is_fixed { Some(n) } else { None }
}

fn needs_by(all: Spot, whole: u64, scan: Scan) -> Fraction
    ensures { result ≡ needs_by all whole scan }
{
    Fraction {
        whole,
        numerator: all.last,
        places: scan.places,
        zeros: scan.zeros,
        fixed: fixed_of(all.fixed, scan.spelled),
        has_numerator_zero: scan.has_numerator_zero,
        has_numerator_question: scan.has_numerator_question,
        has_denominator_question: scan.has_denominator_question,
        ends_in_zero: scan.ends_in_zero,
        ends_in_question: scan.ends_in_question,
    }
}

/// What a section, one with a fraction, needs of its items. Takes no memory.
pub fn read_fraction(section: &SectionItems<'_>) -> Fraction
    ensures { result ≡ needs_of section.now }
{
    let all = spot_all(section);
    let whole = all.placed.saturating_sub(all.last);
    needs_by(all, whole, scan_all(section, whole))
}
