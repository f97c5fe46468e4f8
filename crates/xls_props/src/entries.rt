//! The entries of a property section.

ghost use Rattle.std.specs.Prelude.{◌≡◌, ℕ, suc, [], ◌∷◌, IfOk, MatchOption};
ghost use Rattle.xls_props.specs.Entries.{entries_from, entries_of, first_of, last_of};

use crate::bytes::u32_at;
use std::alloc::{AllocError, Global};
use xls_bytes::read_u32;

/// A property's number, and where its type stands in the section.
pub(crate) type Entry = (u32, u32);

// The entry at the start, and the bytes after it.
fn first_entry(bytes: &[u8]) -> Option<(Entry, &[u8])>
    ensures { MatchOption result ((n : ℕ) → entries_from n bytes.now ≡ [])
        (λ x. (n : ℕ) → entries_from (suc n) bytes.now ≡ x.0 ∷ entries_from n x.1.now) }
{
    if bytes.len() < 8 {
        return None;
    }
    let (entry, after) = bytes.split_at(8);
    let (number, offset) = entry.split_at(4);
    Some(((read_u32(number), read_u32(offset)), after))
}

fn entries_from(alloc: Global, count: u32, bytes: &[u8]) -> Result<Vec<Entry>, AllocError>
    ensures { IfOk result (λ v. v.items ≡ entries_from count bytes.now) }
{
    let mut entries = Vec::new(alloc);
    let mut rest = bytes;
    'entries: for _ in 0..count {
        let Some((entry, after)) = first_entry(rest) else {
            return Ok(entries);
        };
        entries.push(entry)?;
        rest = after;
    }
    Ok(entries)
}

/// The entries of a section: their count at 4, the entries from 8 on.
pub(crate) fn entries_of(alloc: Global, section: &[u8]) -> Result<Vec<Entry>, AllocError>
    ensures { IfOk result (λ v. v.items ≡ entries_of section.now) }
{
    let count = u32_at(section, 4).unwrap_or(0);
    let (_, rest) = section.split_at(section.len().min(8));
    entries_from(alloc, count, rest)
}

/// Where the first entry of a number points.
pub(crate) fn first_of(number: u32, entries: &[Entry]) -> Option<u32>
    ensures { result ≡ first_of number entries.now }
{
    'entries: for entry in entries {
        if entry.0 == number {
            return Some(entry.1);
        }
    }
    None
}

/// Where the last entry of a number points.
pub(crate) fn last_of(number: u32, entries: &[Entry]) -> Option<u32>
    ensures { result ≡ last_of number entries.now }
{
    let mut found = None;
    'entries: for entry in entries {
        if entry.0 == number {
            found = Some(entry.1);
        }
    }
    found
}
