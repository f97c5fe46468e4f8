//! Entries: what a compound file lists.

ghost use Rattle.std.specs.Prelude.{◌≡◌, ◌<◌, map, length, IfOk, Some};
ghost use Rattle.std.specs.Iterator.{YieldsFirst, item_count};
ghost use Rattle.xls_compound.specs.Items.{Item, IsPath};
ghost use Rattle.xls_compound.specs.Directory.{Listing};
ghost use Rattle.xls_compound.specs.Entries.{IsItem, entry_at, entries_from};

use crate::{Directory, Item};
use std::alloc::{AllocError, Global};
use std::marker::Model;

/// A storage or a stream of a compound file. Contracts see its place in what the file lists.
#[derive(Drop)]
pub struct Entry<'c> {
    directory: &'c Directory,
    place: usize,
}

impl<'c> Model for Entry<'c> {
    ghost use Rattle.std.specs.Prelude.{◌<◌, length};
    ghost use Rattle.xls_compound.specs.Entries as specs;

    ghost Value = { specs.Entry };

    ghost view = { λ e. record { listing = e.directory.now; place = e.place } };

    ghost invariant = { λ e. e.place < length e.directory.now.items };
}

impl<'c> Entry<'c> {
    // The entry at a place.
    pub(crate) fn new(directory: &'c Directory, place: usize) -> Entry<'c>
        requires { place < length directory.now.items }
        ensures { result ≡ entry_at directory.now place }
    {
        Entry { directory, place }
    }

    pub(crate) fn item(&self) -> &'c Item
        ensures { IsItem self.now result.now }
    {
        &self.directory.items()[self.place]
    }

    /// Its name, in which a unit of UTF-16 that is half of no pair is U+FFFD.
    pub fn name(&self) -> &'c str
        ensures { (item : Item) → IsItem self.now item → result.now ≡ item.name }
    {
        self.item().name()
    }

    /// A stream, or else a storage.
    pub fn is_stream(&self) -> bool
        ensures { (item : Item) → IsItem self.now item → result ≡ item.is_stream }
    {
        self.item().is_stream()
    }

    /// How many bytes a stream has.
    pub fn size(&self) -> u64
        ensures { (item : Item) → IsItem self.now item → result ≡ item.size }
    {
        self.item().size()
    }

    // The number of its first sector, or mini sector.
    pub(crate) fn start(&self) -> u32
        ensures { (item : Item) → IsItem self.now item → result ≡ item.start }
    {
        self.item().start()
    }

    /// The names of the storages that hold it, the outermost first, and then its own. Only running out
    /// of memory refuses.
    pub fn path(&self, alloc: Global) -> Result<Vec<&'c str>, AllocError>
        ensures { IfOk result (λ names. IsPath self.now.listing.items self.now.place (map (λ x. x.now) names.items)) }
    {
        self.directory.path(alloc, self.place)
    }
}

/// The entries of a compound file, in the order of its directory's tree. Contracts see it as the list
/// of the entries that are left.
#[derive(Drop)]
pub struct Entries<'c> {
    directory: &'c Directory,
    next: usize,
}

impl<'c> Model for Entries<'c> {
    ghost use Rattle.std.specs.Prelude.{List};
    ghost use Rattle.xls_compound.specs.Entries.{Entry, entries_from};

    ghost Value = { List Entry };

    ghost view = { λ e. entries_from e.directory.now e.next };
}

impl<'c> Entries<'c> {
    pub(crate) fn new(directory: &'c Directory) -> Entries<'c>
        ensures { result ≡ entries_from directory.now 0 }
    {
        Entries { directory, next: 0 }
    }
}

impl<'c> Iterator for Entries<'c> {
    type Item = Entry<'c>;

    ghost next_gives = { YieldsFirst (λ entries. entries) };

    ghost remaining = { item_count (λ entries. entries) };

    #[tactic(auto, using(crate::proofs::EntryLemmas::entries_from_more, crate::proofs::EntryLemmas::entries_from_none))]
    fn next(&mut self) -> Option<Entry<'c>> {
        if self.next >= self.directory.items().len() {
            return None;
        }
        let entry = Entry::new(self.directory, self.next);
        self.next += 1;
        Some(entry)
    }
}
