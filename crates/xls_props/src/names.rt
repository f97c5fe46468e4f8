//! The dictionary of a section: the names of its custom properties.

ghost use Rattle.std.specs.Prelude.{◌≡◌, ◌<◌, ◌^◌, ℕ, [], ◌∷◌, ◌++◌, List, drop, IfOk, OnOk};
ghost use Rattle.std.specs.Option.{option_map, option_copied};
ghost use Rattle.std.specs.BTreeMap.{get};
ghost use Rattle.std.specs.Ordering.{nat_cmp};
ghost use Rattle.std.specs.String.{string_bytes};
ghost use Rattle.xls_props.specs.Names.{Name, name_at, names_from, names_at, name_size, name_room, name_view, HasNames};

use crate::bytes::{bytes_at, u32_at};
use crate::texts::drop_nuls;
use std::alloc::{AllocError, Global};
use std::collections::BTreeMap;
use xls_text::XlsEncoding;

/// The names of a dictionary by their properties' numbers.
pub(crate) type Names = BTreeMap<u32, String>;

// The bytes of a name of this length.
fn name_size(page: XlsEncoding, n: u32) -> usize
    ensures size { result ≡ name_size page n }
    ensures bound { result < 2 ^ 34 }
{
    match page {
        XlsEncoding::Utf16 => 2 * n as usize,
        _ => n as usize,
    }
}

// The same with its padding.
fn name_room(page: XlsEncoding, n: u32) -> usize
    ensures room { result ≡ name_room page n }
    ensures bound { result < 2 ^ 34 }
{
    match page {
        XlsEncoding::Utf16 => (2 * n as usize + 3) / 4 * 4,
        _ => n as usize,
    }
}

// What follows the first n bytes.
fn after(bytes: &[u8], n: usize) -> &[u8]
    ensures { result.now ≡ drop n bytes.now }
{
    let (_, rest) = bytes.split_at(n.min(bytes.len()));
    rest
}

// The name at the start, and the bytes after it.
fn first_name(
    alloc: Global,
    page: XlsEncoding,
    bytes: &[u8],
) -> Result<Option<((u32, String), &[u8])>, AllocError>
    ensures { IfOk result (λ x. option_map (λ y. (name_view y.0, y.1.now)) x
        ≡ name_at page bytes.now) }
{
    let Some(number) = u32_at(bytes, 0) else {
        return Ok(None);
    };
    let Some(n) = u32_at(bytes, 4) else {
        return Ok(None);
    };
    let Some(name) = bytes_at(bytes, 8, name_size(page, n)) else {
        return Ok(None);
    };
    let mut text = page.decode_all(alloc, name)?;
    drop_nuls(&mut text);
    let rest = after(bytes, 8 + name_room(page, n));
    Ok(Some(((number, text), rest)))
}

// Gives a name to a number.
fn put_name(names: &mut Names, number: u32, text: String) -> Result<(), AllocError>
    ensures { OnOk result ((ns : List Name) → HasNames names.old ns
        → HasNames names.new (ns ++ (number, string_bytes text) ∷ [])) }
{
    names.insert(number, text)?;
    Ok(())
}

fn names_from(
    alloc: Global,
    count: u32,
    page: XlsEncoding,
    bytes: &[u8],
) -> Result<Names, AllocError>
    ensures { IfOk result (λ m. HasNames m (names_from count page bytes.now)) }
{
    let mut names = BTreeMap::new(alloc);
    let mut rest = bytes;
    'names: for _ in 0..count {
        let Some((name, after)) = first_name(alloc, page, rest)? else {
            return Ok(names);
        };
        put_name(&mut names, name.0, name.1)?;
        rest = after;
    }
    Ok(names)
}

/// The names of the dictionary at a place.
pub(crate) fn names_at(
    alloc: Global,
    page: XlsEncoding,
    s: &[u8],
    at: usize,
) -> Result<Names, AllocError>
    requires { at < 2 ^ 40 }
    ensures { IfOk result (λ m. HasNames m (names_at page s.now at)) }
{
    let Some(count) = u32_at(s, at) else {
        return Ok(BTreeMap::new(alloc));
    };
    names_from(alloc, count, page, after(s, at + 4))
}
