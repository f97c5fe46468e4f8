//! The strings of a table, their units in one run.

ghost use Rattle.std.specs.Prelude.{◌≡◌, ◌<◌, ◌^◌, ◌++◌, ◌∷◌, [], length, OnOk, OnErr};
ghost use Rattle.xls_layouts.specs.LaidStrings.{marks_of_strings};
ghost use Rattle.xls_layouts.specs.Canonical.{canonical_strings};
ghost use Rattle.xls_lay.specs.Writing.{saturated};
ghost use Rattle.xls_lay.specs.Cutting.{marks_size};
ghost use Rattle.xls_lay.specs.Filling.{IsFilled, Fills};
ghost use Rattle.xls_lay.specs.Inside.{parts_of, total};
ghost use Rattle.xls_lay.specs.BytesOutput.{bytes_output};
ghost use Rattle.xls_lay.specs.Putting.{PutsOrStops, TableHasRoom};

use crate::fill::Fill;
use crate::table::TableWriter;
use std::alloc::{AllocError, Global};
use std::marker::Model;
use xls_output::{Sink, Stop, Writer};

/// Adds the strings of these sizes, whose units stand one after the other.
fn fill_strings(sizes: &[u16], units: &[u16], fill: &mut Fill)
    requires sizes { total sizes.now ≡ length units.now }
    requires room { IsFilled fill.old }
    ensures { Fills fill.old (marks_of_strings (canonical_strings fill.old.used (parts_of sizes.now units.now))) fill.new }
{
    let mut rest = units;
    for size in sizes {
        let (string, others) = rest.split_at(*size as usize);
        fill.add_string(string);
        rest = others;
    }
}

/// Puts them.
fn put_strings<K: Sink>(
    sizes: &[u16],
    units: &[u16],
    table: &mut TableWriter,
    out: &mut Writer<'_, K, Vec<u8>>,
) -> Result<(), Stop>
    requires sizes { total sizes.now ≡ length units.now }
    requires room { TableHasRoom table.old }
    ensures puts { PutsOrStops (bytes_output K.state out.old) table.old
        (marks_of_strings (canonical_strings (length table.old.body.items) (parts_of sizes.now units.now)))
        (bytes_output K.state out.new) table.new result }
    ensures room { OnOk result (TableHasRoom table.new) }
{
    let mut rest = units;
    for size in sizes {
        let (string, others) = rest.split_at(*size as usize);
        table.pass_string(out, string)?;
        rest = others;
    }
    Ok(())
}

/// Strings in order. Contracts see each as the list of its units.
#[derive(Drop)]
pub(crate) struct UnitLists {
    sizes: Vec<u16>,
    units: Vec<u16>,
}

impl Model for UnitLists {
    ghost use Rattle.std.specs.Prelude.{◌≡◌, List, ℕ, length};
    ghost use Rattle.xls_lay.specs.Inside.{parts_of, total};

    ghost Value = { List (List ℕ) };

    ghost view = { λ u. parts_of u.sizes.items u.units.items };

    ghost invariant = { λ u. total u.sizes.items ≡ length u.units.items };
}

impl UnitLists {
    /// No strings. Takes no memory.
    pub(crate) fn new(alloc: Global) -> UnitLists
        ensures { result ≡ [] }
    {
        UnitLists {
            sizes: Vec::new(alloc),
            units: Vec::new(alloc),
        }
    }

    /// Appends a string.
    pub(crate) fn push(&mut self, units: &[u16]) -> Result<(), AllocError>
        requires { length units.now < 2 ^ 16 }
        ensures ok { OnOk result (self.new ≡ self.old ++ units.now ∷ []) }
        ensures err { OnErr result (self.new ≡ self.old) }
    {
        let size = units.len() as u16;
        self.sizes.reserve(1)?;
        self.units.extend_from_slice(units)?;
        self.sizes.push(size)?;
        Ok(())
    }

    /// How many strings there are.
    pub(crate) fn len(&self) -> usize
        ensures { result ≡ length self.now }
    {
        self.sizes.len()
    }
    /// How many bytes the strings have in the SST record and its Continue records, the first record's head and
    /// the two counts apart.
    pub(crate) fn size(&self) -> u64
        ensures { result ≡ saturated (marks_size (marks_of_strings (canonical_strings 8 self.now))) }
    {
        let mut fill = Fill::new();
        fill_strings(&self.sizes, &self.units, &mut fill);
        fill.size
    }

    /// Puts the strings one after the other.
    pub(crate) fn put<K: Sink>(
        &self,
        table: &mut TableWriter,
        out: &mut Writer<'_, K, Vec<u8>>,
    ) -> Result<(), Stop>
        requires { TableHasRoom table.old }
        ensures puts { PutsOrStops (bytes_output K.state out.old) table.old
            (marks_of_strings (canonical_strings (length table.old.body.items) self.now))
            (bytes_output K.state out.new) table.new result }
        ensures room { OnOk result (TableHasRoom table.new) }
    {
        put_strings(&self.sizes, &self.units, table, out)
    }
}
