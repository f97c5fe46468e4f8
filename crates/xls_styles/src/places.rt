//! Places by format identifiers.

ghost use Rattle.std.specs.Prelude.{◌≡◌, ◌<◌, ◌+◌, ◌^◌, ℕ, length, map, IfOk, OnOk};
ghost use Rattle.std.specs.Option.{option_map};
ghost use Rattle.std.specs.Str.{chars};
ghost use Rattle.xls_styles.specs.Formats as formats;
ghost use Rattle.xls_styles.specs.Formats.{AreLast, PutsPlace, format_view, place_at};

use std::alloc::{AllocError, Global};

/// Room for the place of an identifier; the others stay.
fn reach(places: &mut Vec<usize>, identifier: usize) -> Result<(), AllocError>
    requires { identifier < 2 ^ 16 }
    ensures places { (i : ℕ) → place_at places.new.items i ≡ place_at places.old.items i }
    ensures ok { OnOk result (identifier < length places.new.items) }
{
    if identifier < places.len() {
        return Ok(());
    }
    places.resize(identifier + 1, 0)
}

/// The place of an identifier, from 1 on, and 0 where it has none.
fn place_at(places: &[usize], identifier: u16) -> usize
    ensures { result ≡ place_at places.now identifier }
{
    match places.get(usize::from(identifier)) {
        Some(place) => *place,
        None => 0,
    }
}

/// Gives a place to an identifier.
fn put_place(places: &mut Vec<usize>, identifier: u16, place: usize) -> Result<(), AllocError>
    ensures { OnOk result (PutsPlace places.old.items identifier place places.new.items) }
{
    let identifier = usize::from(identifier);
    reach(places, identifier)?;
    places[identifier] = place;
    Ok(())
}

/// The place of the last of these formats with each identifier.
pub(crate) fn last_places(alloc: Global, codes: &[(u16, String)]) -> Result<Vec<usize>, AllocError>
    ensures { IfOk result (λ places. AreLast (map format_view codes.now) (map format_view codes.now) places.items) }
{
    let mut places = Vec::new(alloc);
    for k in 0..codes.len() {
        put_place(&mut places, codes[k].0, k + 1)?;
    }
    Ok(places)
}

/// The code of the last of these formats that has the identifier, by their places.
pub(crate) fn last_code<'v>(
    codes: &'v [(u16, String)],
    places: &[usize],
    identifier: u16,
) -> Option<&'v str>
    requires { AreLast (map format_view codes.now) (map format_view codes.now) places.now }
    ensures { option_map (λ code. chars code.now) result ≡ formats.last_code (map format_view codes.now) identifier }
{
    let place = place_at(places, identifier);
    if place == 0 {
        return None;
    }
    match codes.get(place - 1) {
        Some(format) => Some(format.1.as_str()),
        None => None,
    }
}
