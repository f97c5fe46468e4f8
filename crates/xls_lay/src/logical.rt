//! A logical list, put together from its start.

ghost use Rattle.std.specs.Prelude.{◌≡◌, ◌↔◌, ◌+◌, ◌<◌, ◌≤◌, ◌^◌, ◌++◌, ◌∷◌, [], length, true, IsTrue, OnOk, OnErr};
ghost use Rattle.xls_stream.specs.Listing.{plain_entry, table_entry, sheet_entry, is_among, sheet_types};
ghost use Rattle.xls_layouts.specs.Layout.{IsPlainType};
ghost use Rattle.xls_lay.specs.Counted.{Counted};
ghost use Rattle.xls_lay.specs.Pushing.{EndsInSheet, EndsInTable, AddsKept, AddsString, last_count};
ghost use Rattle.xls_lay.specs.Entries.{entries_in};

use crate::entry::Entry;
use crate::kept::KeptRecords;
use crate::units::UnitLists;
use std::alloc::{AllocError, Global};
use std::marker::Model;

/// What a workbook stream carries, whatever its layout: the records of its globals that count, its sheets
/// with their records, and its string tables. Contracts see the list; what is in it always fits into records.
#[derive(Drop)]
pub struct Logical {
    entries: Vec<Entry>,
}

impl Model for Logical {
    ghost use Rattle.std.specs.Prelude.{List};
    ghost use Rattle.xls_stream.specs.Listing as listing;
    ghost use Rattle.xls_lay.specs.Counted.{Counted};
    ghost use Rattle.xls_lay.specs.Entries.{entries_in};

    ghost Value = { List listing.ListEntry };

    ghost view = { λ l. entries_in l.entries.items };

    ghost invariant = { λ l. Counted (entries_in l.entries.items) };
}

impl Logical {
    /// The empty list. Takes no memory.
    pub fn new(alloc: Global) -> Logical
        ensures { result ≡ [] }
    {
        Logical {
            entries: Vec::new(alloc),
        }
    }

    /// Appends a record of the globals: BOF, FilePass, CodePage, DateMode, Format, XF, Lbl or ExternSheet,
    /// with a body of at most 65,535 bytes. Refuses only when memory runs out, and then the list is as it was.
    pub fn push_plain(&mut self, typ: u16, body: &[u8]) -> Result<(), AllocError>
        requires typ { IsPlainType typ }
        requires size { length body.now < 2 ^ 16 }
        ensures ok { OnOk result (self.new ≡ self.old ++ plain_entry typ body.now ∷ []) }
        ensures err { OnErr result (self.new ≡ self.old) }
    {
        let alloc = *self.entries.allocator();
        let mut copy = Vec::new(alloc);
        copy.extend_from_slice(body)?;
        self.entries.push(Entry::Plain { typ, body: copy })?;
        Ok(())
    }

    /// Appends a sheet without records, by the bytes 4, 5 and from 6 on of its BoundSheet8 record ([MS-XLS]
    /// 2.4.28); the last are at most 65,529. Refuses only when memory runs out, and then the list is as it was.
    pub fn push_sheet(&mut self, state: u8, kind: u8, name: &[u8]) -> Result<(), AllocError>
        requires size { length name.now ≤ 65_529 }
        ensures ok { OnOk result (self.new ≡ self.old ++ sheet_entry state kind name.now [] ∷ []) }
        ensures err { OnErr result (self.new ≡ self.old) }
    {
        let alloc = *self.entries.allocator();
        let mut copy = Vec::new(alloc);
        copy.extend_from_slice(name)?;
        self.entries.push(Entry::Sheet {
            state,
            kind,
            name: copy,
            kept: KeptRecords::new(alloc),
        })?;
        Ok(())
    }

    /// Appends a record to the sheet that the list ends in: one of the types of a sheet's records, with
    /// a body of at most 65,535 bytes. Refuses only when memory runs out, and then the list is as it was.
    pub fn push_kept(&mut self, typ: u16, body: &[u8]) -> Result<(), AllocError>
        requires sheet { EndsInSheet self.old }
        requires typ { is_among typ sheet_types ≡ true }
        requires size { length body.now < 2 ^ 16 }
        ensures ok { OnOk result (AddsKept self.old self.new typ body.now) }
        ensures err { OnErr result (self.new ≡ self.old) }
    {
        let Some(entry) = self.entries.last_mut() else {
            return Ok(());
        };
        entry.push_kept(typ, body)?;
        Ok(())
    }

    /// Appends an empty string table. Refuses only when memory runs out, and then the list is as it was.
    pub fn push_table(&mut self) -> Result<(), AllocError>
        ensures ok { OnOk result (self.new ≡ self.old ++ table_entry [] ∷ []) }
        ensures err { OnErr result (self.new ≡ self.old) }
    {
        let alloc = *self.entries.allocator();
        self.entries.push(Entry::Table {
            strings: UnitLists::new(alloc),
        })?;
        Ok(())
    }

    /// Appends a string of at most 65,535 units to the table that the list ends in, which has fewer than
    /// 2^32 - 1. Refuses only when memory runs out, and then the list is as it was.
    pub fn push_string(&mut self, units: &[u16]) -> Result<(), AllocError>
        requires table { EndsInTable self.old }
        requires count { last_count self.old + 1 < 2 ^ 32 }
        requires size { length units.now < 2 ^ 16 }
        ensures ok { OnOk result (AddsString self.old self.new units.now) }
        ensures err { OnErr result (self.new ≡ self.old) }
    {
        let Some(entry) = self.entries.last_mut() else {
            return Ok(());
        };
        entry.push_string(units)?;
        Ok(())
    }

    /// Whether the last entry is a sheet.
    pub fn ends_in_sheet(&self) -> bool
        ensures { IsTrue result ↔ EndsInSheet self.now }
    {
        match self.entries.last() {
            Some(entry) => entry.is_sheet(),
            None => false,
        }
    }

    /// Whether the last entry is a string table.
    pub fn ends_in_table(&self) -> bool
        ensures { IsTrue result ↔ EndsInTable self.now }
    {
        match self.entries.last() {
            Some(entry) => entry.is_table(),
            None => false,
        }
    }

    /// How many records the sheet has that the list ends in, or how many strings the table; else 0.
    pub fn last_len(&self) -> usize
        ensures { result ≡ last_count self.now }
    {
        match self.entries.last() {
            Some(entry) => entry.count(),
            None => 0,
        }
    }

    /// The entries as they are kept.
    pub(crate) fn entries(&self) -> &[Entry]
        ensures same { entries_in result.now ≡ self.now }
        ensures fits { Counted (entries_in result.now) }
    {
        &self.entries
    }
}
