//! How long a canonical stream is.

ghost use Rattle.std.specs.Prelude.{◌≡◌, length};
ghost use Rattle.xls_lay.specs.Writing.{canonical_size, saturated};
ghost use Rattle.xls_lay.specs.Entries.{entry_in, entries_in};
ghost use Rattle.xls_lay.specs.Cutting.{globals_size, part_size as size_of_part, globals_from, parts_from};

use crate::entry::Entry;
use crate::logical::Logical;

/// The least length that offsets of 32 bits don't reach.
pub const TOO_LONG: u64 = 4_294_967_296;

/// How many bytes an entry has in the globals.
fn entry_size(entry: &Entry) -> u64
    ensures { result ≡ saturated (globals_size (entry_in entry.now)) }
{
    match entry {
        Entry::Plain { body, .. } => (body.len() as u64).saturating_add(4),
        Entry::Sheet { name, .. } => (name.len() as u64).saturating_add(10),
        Entry::Table { strings } => strings.size().saturating_add(12),
    }
}

/// How many bytes the part of an entry has, if it is a sheet.
pub(crate) fn part_size(entry: &Entry) -> u64
    ensures { result ≡ saturated (size_of_part (entry_in entry.now)) }
{
    match entry {
        Entry::Sheet { kept, .. } => kept.size().saturating_add(12),
        _ => 0,
    }
}

/// How many bytes the globals have, with their EOF.
pub(crate) fn globals_length(entries: &[Entry]) -> u64
    ensures { result ≡ saturated (length (globals_from 0 (entries_in entries.now))) }
{
    let mut size = 4u64;
    for entry in entries {
        size = size.saturating_add(entry_size(entry));
    }
    size
}

/// How many bytes the parts have.
pub(crate) fn parts_length(entries: &[Entry]) -> u64
    ensures { result ≡ saturated (length (parts_from (entries_in entries.now))) }
{
    let mut size = 0u64;
    for entry in entries {
        size = size.saturating_add(part_size(entry));
    }
    size
}

/// The length of the canonical stream of a list, or 2^64 - 1 where it is larger. Takes no memory.
pub fn canonical_length(list: &Logical) -> u64
    ensures { result ≡ canonical_size list.now }
{
    let entries = list.entries();
    globals_length(entries).saturating_add(parts_length(entries))
}
