//! An entry of a list, as it is kept.

ghost use Rattle.std.specs.Prelude.{◌≡◌, ◌<◌, ◌^◌, length, OnOk, OnErr};

use crate::kept::KeptRecords;
use crate::units::UnitLists;
use std::alloc::AllocError;

/// A plain record of the globals, a sheet, or a string table.
#[derive(Drop)]
pub(crate) enum Entry {
    Plain {
        typ: u16,
        body: Vec<u8>,
    },
    /// The bytes 4, 5 and from 6 on of its BoundSheet8 record, and its kept records.
    Sheet {
        state: u8,
        kind: u8,
        name: Vec<u8>,
        kept: KeptRecords,
    },
    Table {
        strings: UnitLists,
    },
}

impl Entry {
    ghost use Rattle.xls_lay.specs.Entries.{entry_in, is_sheet, is_table, KeptPushed, StringPushed};
    ghost use Rattle.xls_lay.specs.Pushing.{count_in};

    /// Appends a record to a sheet.
    pub(crate) fn push_kept(&mut self, typ: u16, body: &[u8]) -> Result<(), AllocError>
        requires { length body.now < 2 ^ 16 }
        ensures ok { OnOk result (KeptPushed self.old typ body.now self.new) }
        ensures err { OnErr result (self.new ≡ self.old) }
    {
        match self {
            Entry::Sheet { kept, .. } => kept.push(typ, body),
            _ => Ok(()),
        }
    }

    /// Appends a string to a table.
    pub(crate) fn push_string(&mut self, units: &[u16]) -> Result<(), AllocError>
        requires { length units.now < 2 ^ 16 }
        ensures ok { OnOk result (StringPushed self.old units.now self.new) }
        ensures err { OnErr result (self.new ≡ self.old) }
    {
        match self {
            Entry::Table { strings } => strings.push(units),
            _ => Ok(()),
        }
    }

    pub(crate) fn is_sheet(&self) -> bool
        ensures { result ≡ is_sheet (entry_in self.now) }
    {
        matches!(self, Entry::Sheet { .. })
    }

    pub(crate) fn is_table(&self) -> bool
        ensures { result ≡ is_table (entry_in self.now) }
    {
        matches!(self, Entry::Table { .. })
    }

    /// How many records a sheet has, or how many strings a table.
    pub(crate) fn count(&self) -> usize
        ensures { result ≡ count_in (entry_in self.now) }
    {
        match self {
            Entry::Plain { .. } => 0,
            Entry::Sheet { kept, .. } => kept.len(),
            Entry::Table { strings } => strings.len(),
        }
    }
}
