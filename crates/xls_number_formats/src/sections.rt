//! What a section is, by its items.

ghost use Rattle.std.specs.Prelude.{◌≡◌, [], MatchOption, Some, None};
ghost use Rattle.std.specs.Str.{chars};
ghost use Rattle.xls_number_formats.specs.Grammar.{is_place, items, after_section};
ghost use Rattle.xls_number_formats.specs.Sections.{is_date_item, is_year_item, is_elapsed, is_general, is_text, is_slash, is_exponent, is_value, is_part, is_shown, own_condition, later, kinds, section_of};
ghost use Rattle.xls_number_formats.specs.Scans.{scanned, no_items, section_by};

use crate::items::{Condition, Item, Letter};
use crate::walk::Items;

/// How a section shows numbers: the first of these that fits.
#[derive(Clone, Copy, Debug, PartialEq, Eq)]
pub enum Kind {
    /// It has letters y m d h s, elapsed time or AM/PM; or letters e or b and neither a place, General
    /// nor `@`.
    Date,
    /// It has the word.
    General,
    /// It has exactly one slash, a place before it, and a place or a digit behind it.
    Fraction,
    /// It has an exponent, and a place behind the first one.
    Exponent,
    Plain,
}

/// All that decides whether a section applies, and how it shows what it applies to.
#[derive(Clone, Copy, Debug)]
pub struct Section {
    pub kind: Kind,
    /// Its own condition; the last one of several.
    pub condition: Option<Condition>,
    /// Whether it has `@`.
    pub has_text: bool,
    /// Whether it has more than brackets that show nothing.
    pub has_items: bool,
    /// Whether it has elapsed time, as `[h]`.
    pub has_elapsed: bool,
}

// What has been seen of a section.
#[derive(Clone, Copy)]
struct Scan {
    date: bool,
    year: bool,
    value: bool,
    general: bool,
    text: bool,
    shown: bool,
    elapsed: bool,
    slash: bool,
    second_slash: bool,
    place_before: bool,
    part_behind: bool,
    exponent: bool,
    exponent_place: bool,
    condition: Option<Condition>,
}

fn is_place(item: Item) -> bool
    ensures { result ≡ is_place item }
{
    matches!(item, Item::Place(_))
}

fn is_date_item(item: Item) -> bool
    ensures { result ≡ is_date_item item }
{
    match item {
        Item::Letters(letter) => !matches!(letter, Letter::E | Letter::B | Letter::G),
        Item::Elapsed(_) | Item::AmPm | Item::AP => true,
        _ => false,
    }
}

fn is_year_item(item: Item) -> bool
    ensures { result ≡ is_year_item item }
{
    match item {
        Item::Letters(letter) => matches!(letter, Letter::E | Letter::B),
        _ => false,
    }
}

fn is_elapsed(item: Item) -> bool
    ensures { result ≡ is_elapsed item }
{
    matches!(item, Item::Elapsed(_))
}

fn is_general(item: Item) -> bool
    ensures { result ≡ is_general item }
{
    matches!(item, Item::General)
}

fn is_text(item: Item) -> bool
    ensures { result ≡ is_text item }
{
    matches!(item, Item::Text)
}

fn is_slash(item: Item) -> bool
    ensures { result ≡ is_slash item }
{
    matches!(item, Item::Slash)
}

fn is_exponent(item: Item) -> bool
    ensures { result ≡ is_exponent item }
{
    matches!(item, Item::Exponent(_))
}

fn is_part(item: Item) -> bool
    ensures { result ≡ is_part item }
{
    matches!(item, Item::Place(_) | Item::Digit)
}

fn is_shown(item: Item) -> bool
    ensures { result ≡ is_shown item }
{
    !matches!(item, Item::Hidden | Item::Condition(_))
}

// The condition of an item, or else the one before.
fn condition_after(before: Option<Condition>, item: Item) -> Option<Condition>
    ensures { result ≡ later before (own_condition item) }
{
    match item {
        Item::Condition(condition) => Some(condition),
        _ => before,
    }
}

// What has been seen after an item more.
fn scanned(scan: Scan, item: Item) -> Scan
    ensures { result ≡ scanned scan item }
{
    let place = is_place(item);
    let general = is_general(item);
    let text = is_text(item);
    let slash = scan.slash | is_slash(item);
    Scan {
        date: scan.date | is_date_item(item),
        year: scan.year | is_year_item(item),
        value: scan.value | (place | general | text),
        general: scan.general | general,
        text: scan.text | text,
        shown: scan.shown | is_shown(item),
        elapsed: scan.elapsed | is_elapsed(item),
        slash,
        second_slash: scan.second_slash | (scan.slash & is_slash(item)),
        place_before: scan.place_before | (!slash & place),
        part_behind: scan.part_behind | (scan.slash & is_part(item)),
        exponent: scan.exponent | is_exponent(item),
        exponent_place: scan.exponent_place | (scan.exponent & place),
        condition: condition_after(scan.condition, item),
    }
}

fn kind_by(scan: Scan) -> Kind
    ensures { result ≡ (section_by scan).kind }
{
    if scan.date || (scan.year && !scan.value) {
        Kind::Date
    } else if scan.general {
        Kind::General
    } else if scan.slash && !scan.second_slash && scan.place_before && scan.part_behind {
        Kind::Fraction
    } else if scan.exponent_place {
        Kind::Exponent
    } else {
        Kind::Plain
    }
}

// What has been seen of all items decides what the section is.
fn section_by(scan: Scan) -> Section
    ensures { result ≡ section_by scan }
{
    Section {
        kind: kind_by(scan),
        condition: scan.condition,
        has_text: scan.text,
        has_items: scan.shown,
        has_elapsed: scan.elapsed,
    }
}

/// The first section of a code, and what follows the `;` behind it. Takes no memory.
pub fn read_section(code: &str) -> (Section, Option<&str>)
    ensures section { result.0 ≡ section_of (kinds (items (chars code.now))) }
    ensures rest { MatchOption result.1 (after_section (chars code.now) ≡ None)
        (λ rest. after_section (chars code.now) ≡ Some (chars rest.now)) }
{
    let mut scan = Scan {
        date: false,
        year: false,
        value: false,
        general: false,
        text: false,
        shown: false,
        elapsed: false,
        slash: false,
        second_slash: false,
        place_before: false,
        part_behind: false,
        exponent: false,
        exponent_place: false,
        condition: None,
    };
    let mut items = Items::new(code);
    'items: while let Some((item, _)) = items.next() {
        scan = scanned(scan, item);
    }
    (section_by(scan), items.after())
}
