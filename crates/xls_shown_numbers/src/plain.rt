//! What a section of places needs of its items.

ghost use Rattle.std.specs.Prelude.{◌≡◌, ◌<◌, ◌^◌, ◌&&◌, length};
ghost use Rattle.std.specs.Str.{chars};
ghost use Rattle.xls_number_formats.specs.Grammar.{is_place};
ghost use Rattle.xls_number_formats.specs.Sections.{is_shown, kinds};
ghost use Rattle.xls_shown_numbers.specs.Parts.{part_of, tokens_left};
ghost use Rattle.xls_shown_numbers.specs.Plain.{is_point, is_comma, is_percent, is_zero, one_more, seen_after, follows, is_placed, groups, divides, seen_all, none_seen, plain_of};

use crate::parts::{Part, PartItems};
use xls_number_formats::{Item, Place, SectionItems};

/// The items of a section up to one of them.
#[derive(Clone, Copy, Debug, PartialEq, Eq)]
pub struct Seen {
    /// Places before the point.
    pub whole: u64,
    /// Places behind it.
    pub decimals: u64,
    /// Those up to the last `0`.
    pub zeros: u64,
    pub percents: u64,
    /// Whether a point is among the items.
    pub point: bool,
    /// Whether commas and brackets alone stand behind the last place.
    pub touches: bool,
}

/// What a section of places needs of its items.
#[derive(Clone, Copy, Debug, PartialEq, Eq)]
pub struct Plain {
    /// All its items.
    pub seen: Seen,
    /// The commas that divide by 1000.
    pub thousands: u64,
    /// Whether a comma groups the whole part by thousands.
    pub grouping: bool,
}

pub(crate) const NONE_SEEN: Seen = Seen {
    whole: 0,
    decimals: 0,
    zeros: 0,
    percents: 0,
    point: false,
    touches: false,
};

fn is_place(item: Item) -> bool
    ensures { result ≡ is_place item }
{
    matches!(item, Item::Place(_))
}

fn is_point(item: Item) -> bool
    ensures { result ≡ is_point item }
{
    matches!(item, Item::Point)
}

fn is_comma(item: Item) -> bool
    ensures { result ≡ is_comma item }
{
    matches!(item, Item::Comma)
}

fn is_percent(item: Item) -> bool
    ensures { result ≡ is_percent item }
{
    matches!(item, Item::Percent)
}

fn is_zero(item: Item) -> bool
    ensures { result ≡ is_zero item }
{
    match item {
        Item::Place(place) => matches!(place, Place::Zero),
        _ => false,
    }
}

fn is_shown(item: Item) -> bool
    ensures { result ≡ is_shown item }
{
    !matches!(item, Item::Hidden | Item::Condition(_))
}

// A count after an item that may count.
pub(crate) fn one_more(counts: bool, n: u64) -> u64
    requires { n < 2 ^ 63 }
    ensures { result ≡ one_more counts n }
{
    if counts { n + 1 } else { n }
}

// The items up to one that an item more makes.
pub(crate) fn seen_after(seen: Seen, item: Item) -> Seen
    requires whole { seen.whole < 2 ^ 63 }
    requires decimals { seen.decimals < 2 ^ 63 }
    requires percents { seen.percents < 2 ^ 63 }
    ensures { result ≡ seen_after seen item }
{
    let place = is_place(item);
    let comma = is_comma(item);
    let shown = is_shown(item);
    Seen {
        whole: one_more(place & !seen.point, seen.whole),
        decimals: one_more(place & seen.point, seen.decimals),
        zeros: if is_zero(item) & seen.point {
            seen.decimals + 1
        } else {
            seen.zeros
        },
        percents: one_more(is_percent(item), seen.percents),
        point: seen.point | is_point(item),
        touches: place | (seen.touches & (comma | !shown)),
    }
}

// Whether another place follows on the same side of the point.
fn follows(all: Seen, seen: Seen) -> bool
    ensures { result ≡ follows all seen }
{
    if seen.point {
        seen.decimals < all.decimals
    } else {
        seen.whole < all.whole
    }
}

// Whether a comma groups the whole part.
pub(crate) fn groups(all: Seen, seen: Seen) -> bool
    requires whole { seen.whole < 2 ^ 63 }
    requires decimals { seen.decimals < 2 ^ 63 }
    ensures { result ≡ groups all seen }
{
    seen.whole + seen.decimals > 0 && follows(all, seen)
}

// Whether a comma divides by 1000.
pub(crate) fn divides(all: Seen, seen: Seen) -> bool
    ensures { result ≡ divides all seen }
{
    seen.touches && !follows(all, seen)
}

// Whether an item is a comma that groups, and one that divides.
fn groups_as(all: Seen, seen: Seen, item: Item) -> bool
    requires whole { seen.whole < 2 ^ 63 }
    requires decimals { seen.decimals < 2 ^ 63 }
    ensures { result ≡ (is_comma item && groups all seen) }
{
    is_comma(item) && groups(all, seen)
}

fn divides_as(all: Seen, seen: Seen, item: Item) -> bool
    ensures { result ≡ (is_comma item && divides all seen) }
{
    is_comma(item) && divides(all, seen)
}

// All items of a part of a section.
fn seen_all(mut items: PartItems<'_, '_>) -> Seen
    requires { length (tokens_left items) < 2 ^ 63 }
    ensures { result ≡ seen_all none_seen (kinds (tokens_left items.entry)) }
{
    let mut seen = NONE_SEEN;
    'items: while let Some((item, _)) = items.next() {
        seen = seen_after(seen, item);
    }
    seen
}

// What a part of a section needs of its items.
pub(crate) fn read_part(section: &SectionItems<'_>, part: Part) -> Plain
    ensures { result ≡ plain_of (kinds (part_of part section.now)) }
{
    let all = seen_all(PartItems::new(section, part));
    let mut thousands = 0;
    let mut grouping = false;
    let mut seen = NONE_SEEN;
    let mut items = PartItems::new(section, part);
    'items: while let Some((item, _)) = items.next() {
        thousands = one_more(divides_as(all, seen, item), thousands);
        grouping = grouping | groups_as(all, seen, item);
        seen = seen_after(seen, item);
    }
    Plain {
        seen: all,
        thousands,
        grouping,
    }
}

/// What a section needs of its items. Takes no memory.
pub fn read_plain(section: &SectionItems<'_>) -> Plain
    ensures { result ≡ plain_of (kinds section.now) }
{
    read_part(section, Part::Whole)
}
