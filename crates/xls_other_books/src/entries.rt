//! The entries of ExternSheet, by which the formulas of BIFF8 cite sheets and names.

ghost use Rattle.std.specs.Prelude.{◌≡◌, ◌++◌, ◌≤◌, IfOk, OnOk, length};
ghost use Rattle.xls_parts.specs.PartRecords.{globals_records};
ghost use Rattle.xls_other_books.specs.Entries as entries;

use std::alloc::{AllocError, Global};
use xls_bytes::read_u16;
use xls_parts::GlobalsRecords;
use xls_ptg::word_at;
use xls_stream::types::EXTERN_SHEET;

/// An entry of ExternSheet: the number of a SupBook, and those of its first and last sheet, from 0.
#[derive(Clone, Copy, Debug, PartialEq, Eq)]
pub struct Entry {
    pub book: u16,
    pub first: u16,
    pub last: u16,
}

/// The entry that some bytes begin with.
fn entry_at(bytes: &[u8]) -> Entry
    requires { 6 ≤ length bytes.now }
    ensures { result ≡ entries.entry_at bytes.now }
{
    Entry {
        book: word_at(bytes, 0),
        first: word_at(bytes, 2),
        last: word_at(bytes, 4),
    }
}

/// Appends as many entries, of those that are there whole.
fn add_entries(found: &mut Vec<Entry>, bytes: &[u8], count: u16) -> Result<(), AllocError>
    ensures { OnOk result (found.new.items ≡ found.old.items ++ entries.entries_in count bytes.now) }
{
    let mut left = count;
    let mut rest = bytes;
    'entries: while left > 0 && rest.len() >= 6 {
        found.push(entry_at(rest))?;
        let (_, others) = rest.split_at(6);
        rest = others;
        left -= 1;
    }
    Ok(())
}

/// Appends the entries of an ExternSheet.
fn add_record(found: &mut Vec<Entry>, body: &[u8]) -> Result<(), AllocError>
    ensures { OnOk result (found.new.items ≡ found.old.items ++ entries.record_entries body.now) }
{
    if body.len() < 2 {
        return Ok(());
    }
    let (_, bytes) = body.split_at(2);
    add_entries(found, bytes, read_u16(body))
}

/// The entries of all ExternSheet records of the globals of BIFF8. Only running out of memory refuses.
pub fn read_entries(alloc: Global, stream: &[u8]) -> Result<Vec<Entry>, AllocError>
    ensures { IfOk result (λ found. found.items ≡ entries.entries_of (globals_records stream.now)) }
{
    let mut found = Vec::new(alloc);
    'records: for r in GlobalsRecords::new(stream) {
        if r.typ == EXTERN_SHEET {
            add_record(&mut found, r.body)?;
        }
    }
    Ok(found)
}
