//! Texts as 16-bit units.

ghost use Rattle.std.specs.Prelude.{◌≡◌, ◌++◌, ◌≤◌, IfOk, OnOk, take, drop, length};
ghost use Rattle.std.specs.Char.Utf16.{utf16_lossy_chars};
ghost use Rattle.xls_strings.specs.Texts.{text_of};
ghost use Rattle.xls_text.specs.Pages.{units_of};
ghost use Rattle.xls_comments.specs.Units as rules;
ghost use Rattle.xls_comments.specs.Units.{units_in, string_units, text_units};
ghost use Rattle.xls_comments.specs.Walking.{leading_pieces};
ghost use Rattle.xls_comments.specs.Objects as objects;
ghost use Rattle.xls_parts.specs.PartRecords.{placed_of};

use crate::fields::u16_at;
use std::alloc::{AllocError, Global};
use xls_bytes::read_u16;
use xls_parts::{PartRecord, WholeRecords};
use xls_stream::types::CONTINUE;
use xls_text::text_of_units;

/// Appends units of one byte each, at most so many.
fn push_narrow(units: &mut Vec<u16>, bytes: &[u8], most: usize) -> Result<(), AllocError>
    ensures { OnOk result (units.new.items ≡ units.old.items ++ take most bytes.now) }
{
    let (taken, _) = bytes.split_at(bytes.len().min(most));
    for b in taken {
        units.push(u16::from(*b))?;
    }
    Ok(())
}

/// Appends units of two bytes each, at most so many.
fn push_wide(units: &mut Vec<u16>, bytes: &[u8], most: usize) -> Result<(), AllocError>
    ensures { OnOk result (units.new.items ≡ units.old.items ++ take most (units_of bytes.now)) }
{
    let mut rest = bytes;
    let mut left = most;
    'units: while left > 0 && rest.len() >= 2 {
        let (unit, after) = rest.split_at(2);
        units.push(read_u16(unit))?;
        rest = after;
        left -= 1;
    }
    Ok(())
}

/// Appends units of two bytes each or of one, at most so many.
fn push_units(
    units: &mut Vec<u16>,
    is_wide: bool,
    bytes: &[u8],
    most: usize,
) -> Result<(), AllocError>
    ensures { OnOk result (units.new.items ≡ units.old.items ++ take most (units_in is_wide bytes.now)) }
{
    if is_wide {
        push_wide(units, bytes, most)
    } else {
        push_narrow(units, bytes, most)
    }
}

/// How many bytes stand between the flags byte and the units.
fn bytes_between(flags: u8) -> usize
    ensures value { result ≡ rules.bytes_between flags }
    ensures few { result ≤ 6 }
{
    let runs = if flags / 0x08 % 2 == 1 { 2 } else { 0 };
    let size = if flags / 0x04 % 2 == 1 { 4 } else { 0 };
    runs + size
}

/// The bytes behind the first so many; none where there are fewer.
fn skipped(bytes: &[u8], count: usize) -> &[u8]
    ensures { result.now ≡ drop count bytes.now }
{
    if bytes.len() < count {
        return &[];
    }
    let (_, rest) = bytes.split_at(count);
    rest
}

/// The units of a string: a count of units, a flags byte, and the units, as many as are there.
fn units_of_string(alloc: Global, bytes: &[u8]) -> Result<Vec<u16>, AllocError>
    ensures { IfOk result (λ all. all.items ≡ string_units bytes.now) }
{
    let mut units = Vec::new(alloc);
    if bytes.len() < 3 {
        return Ok(units);
    }
    let flags = bytes[2];
    let rest = skipped(bytes, 3 + bytes_between(flags));
    push_units(&mut units, flags % 2 == 1, rest, u16_at(bytes, 0) as usize)?;
    Ok(units)
}

/// The text of some units.
pub(crate) fn text_of(alloc: Global, units: &[u16]) -> Result<String, AllocError>
    ensures { IfOk result (λ text. text_of text ≡ utf16_lossy_chars units.now) }
{
    let text = text_of_units(alloc, units)?;
    Ok(text)
}

/// The text of a string.
pub(crate) fn string_at(alloc: Global, bytes: &[u8]) -> Result<String, AllocError>
    ensures { IfOk result (λ text. text_of text ≡ utf16_lossy_chars (string_units bytes.now)) }
{
    let units = units_of_string(alloc, bytes)?;
    text_of(alloc, &units)
}

/// Whether a record is a piece of a text.
fn is_piece(r: &PartRecord<'_>) -> bool
    ensures { result ≡ objects.is_piece (placed_of r.now) }
{
    r.typ == CONTINUE && !r.body.is_empty()
}

/// Appends the units of a piece, at most so many.
fn push_piece(units: &mut Vec<u16>, body: &[u8], most: usize) -> Result<(), AllocError>
    requires { 1 ≤ length body.now }
    ensures { OnOk result (units.new.items ≡ units.old.items ++ take most (rules.piece_units body.now)) }
{
    let (flags, bytes) = body.split_at(1);
    push_units(units, flags[0] % 2 == 1, bytes, most)
}

/// The units of the pieces that some records begin with, at most so many.
pub(crate) fn units_of_pieces(
    alloc: Global,
    records: WholeRecords<'_>,
    count: usize,
) -> Result<Vec<u16>, AllocError>
    ensures { IfOk result (λ all. all.items ≡ take count (text_units (leading_pieces records.entry))) }
{
    let mut units = Vec::new(alloc);
    let mut records = records;
    while let Some(r) = records.next() {
        if !is_piece(&r) || units.len() >= count {
            return Ok(units);
        }
        let most = count - units.len();
        push_piece(&mut units, r.body, most)?;
    }
    Ok(units)
}
