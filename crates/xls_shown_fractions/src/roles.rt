//! The parts of a section with a fraction.

ghost use Rattle.std.specs.Prelude.{◌≡◌, ◌<◌, ◌^◌};
ghost use Rattle.xls_number_formats.specs.Grammar.{is_place};
ghost use Rattle.xls_number_formats.specs.Sections.{is_slash, is_part, is_shown};
ghost use Rattle.xls_shown_numbers.specs.Plain.{is_zero};
ghost use Rattle.xls_shown_fractions.specs.Roles.{is_digit, goes_on, one_more, spot_next, spot_after, role_before, role_behind, role_of};

use xls_number_formats::{Item, Place};

// The items of a section up to one of them.
#[derive(Clone, Copy)]
pub(crate) struct Spot {
    // Places before the slash.
    pub(crate) placed: u64,
    // Places of the unbroken run that ends here.
    pub(crate) run: u64,
    // Those of the last run before the slash.
    pub(crate) last: u64,
    pub(crate) slash: bool,
    // Whether the denominator has begun, whether with a digit, and whether it has ended.
    pub(crate) begun: bool,
    pub(crate) fixed: bool,
    pub(crate) ended: bool,
}

pub(crate) const AT_START: Spot = Spot {
    placed: 0,
    run: 0,
    last: 0,
    slash: false,
    begun: false,
    fixed: false,
    ended: false,
};

// The part of a section that an item belongs to.
#[derive(Clone, Copy)]
pub(crate) enum Role {
    // Up to the last whole place.
    Front,
    // Up to the numerator.
    Between,
    Numerator,
    // Up to the denominator: the slash and what stands around it.
    Middle,
    Denominator,
    Rest,
}

pub(crate) fn is_place(item: Item) -> bool
    ensures { result ≡ is_place item }
{
    matches!(item, Item::Place(_))
}

pub(crate) fn is_zero(item: Item) -> bool
    ensures { result ≡ is_zero item }
{
    match item {
        Item::Place(place) => matches!(place, Place::Zero),
        _ => false,
    }
}

pub(crate) fn is_digit(item: Item) -> bool
    ensures { result ≡ is_digit item }
{
    matches!(item, Item::Digit)
}

fn is_slash(item: Item) -> bool
    ensures { result ≡ is_slash item }
{
    matches!(item, Item::Slash)
}

fn is_part(item: Item) -> bool
    ensures { result ≡ is_part item }
{
    matches!(item, Item::Place(_) | Item::Digit)
}

fn is_shown(item: Item) -> bool
    ensures { result ≡ is_shown item }
{
    !matches!(item, Item::Hidden | Item::Condition(_))
}

// Whether an item goes on with the denominator that has begun.
fn goes_on(spot: Spot, item: Item) -> bool
    ensures { result ≡ goes_on spot item }
{
    if spot.fixed {
        is_digit(item) | is_zero(item)
    } else {
        is_place(item)
    }
}

// A count after an item that may count.
pub(crate) fn one_more(counts: bool, n: u64) -> u64
    requires { n < 2 ^ 63 }
    ensures { result ≡ one_more counts n }
{
    if counts { n + 1 } else { n }
}

fn spot_next(spot: Spot, item: Item) -> Spot
    requires placed { spot.placed < 2 ^ 63 }
    requires run { spot.run < 2 ^ 63 }
    ensures { result ≡ spot_next spot item }
{
    let place = is_place(item);
    let goes_on = goes_on(spot, item);
    Spot {
        placed: one_more(place & !spot.slash, spot.placed),
        run: if place { spot.run + 1 } else { 0 },
        last: if place & !spot.slash {
            spot.run + 1
        } else {
            spot.last
        },
        slash: spot.slash | is_slash(item),
        begun: spot.begun | (spot.slash & is_part(item)),
        fixed: spot.fixed | (spot.slash & (!spot.begun & is_digit(item))),
        ended: spot.ended | (spot.begun & !goes_on),
    }
}

// The items up to one that an item more makes.
pub(crate) fn spot_after(spot: Spot, item: Item) -> Spot
    requires placed { spot.placed < 2 ^ 63 }
    requires run { spot.run < 2 ^ 63 }
    ensures { result ≡ spot_after spot item }
{
    if is_shown(item) {
        spot_next(spot, item)
    } else {
        spot
    }
}

fn role_before(whole: u64, spot: Spot, item: Item) -> Role
    ensures { result ≡ role_before whole spot item }
{
    if spot.placed < whole {
        Role::Front
    } else if is_place(item) {
        Role::Numerator
    } else if spot.placed == whole {
        Role::Between
    } else {
        Role::Middle
    }
}

fn role_behind(spot: Spot, item: Item) -> Role
    ensures { result ≡ role_behind spot item }
{
    if spot.ended {
        Role::Rest
    } else if spot.begun {
        if goes_on(spot, item) {
            Role::Denominator
        } else {
            Role::Rest
        }
    } else if is_part(item) {
        Role::Denominator
    } else {
        Role::Middle
    }
}

// The part that an item belongs to, where so many places are whole.
pub(crate) fn role_of(whole: u64, spot: Spot, item: Item) -> Role
    ensures { result ≡ role_of whole spot item }
{
    if spot.slash {
        role_behind(spot, item)
    } else {
        role_before(whole, spot, item)
    }
}
