//! A directory: what it lists, and look-ups in that.

ghost use Rattle.std.specs.Prelude.{◌≡◌, ◌<◌, ℕ, List, map, length, None, Some, codes, IfOk, IfErr, IfSome, OnOk};
ghost use Rattle.std.specs.List.{position};
ghost use Rattle.xls_compound.specs.Items.{Item, is_child, find_from, stream_named, workbook, IsPath};
ghost use Rattle.xls_compound.specs.Directory.{root_in, IsDirectory, IsRefusal};

use crate::directory_entry::{Entries, Entry};
use crate::fault::{DirectoryError, DirectoryFault};
use crate::items::Item;
use crate::walk::items_of;
use std::alloc::{AllocError, Global};
use std::marker::Model;

/// What a directory lists. Contracts see the record of its fields.
#[derive(Debug, Drop)]
pub struct Directory {
    mini_start: u32,
    mini_size: u64,
    items: Vec<Item>,
}

impl Model for Directory {
    ghost use Rattle.xls_compound.specs.Directory.{Listing};
    ghost use Rattle.xls_compound.specs.Held.{AreHeld};

    ghost Value = { Listing };

    ghost view = { λ d. record {
      mini_start = d.mini_start;
      mini_size = d.mini_size;
      items = d.items.items;
    } };

    ghost invariant = { λ d. AreHeld d.items.items };
}

// Entry 0, the root.
fn root_of<'a>(entries: &Entries<'a>) -> Result<Entry<'a>, DirectoryFault>
    ensures exact { result ≡ root_in entries.now }
    ensures some { OnOk result (0 < length entries.now) }
{
    match entries.get(0) {
        Some(root) if root.is_root() => Ok(root),
        _ => Err(DirectoryFault::NoRoot),
    }
}

impl Directory {
    /// Reads a directory ([MS-CFB] 2.6): the bytes of its sectors put together. Sizes have 64 bits
    /// where sectors have 4,096 bytes, else 32. The faults are those of `DirectoryFault`, the first
    /// that is met on the way through the tree: an entry, what is on its left, its children, what is
    /// on its right. Entries that no way leads to are not looked at.
    pub fn read(alloc: Global, bytes: &[u8], is_wide: bool) -> Result<Directory, DirectoryError>
        ensures ok { IfOk result (IsDirectory is_wide bytes.now) }
        ensures err { IfErr result (IsRefusal is_wide bytes.now) }
    {
        let entries = Entries::new(bytes, is_wide);
        let root = root_of(&entries)?;
        let items = items_of(alloc, &entries, root.first_child())?;
        Ok(Directory {
            mini_start: root.start,
            mini_size: root.size,
            items,
        })
    }

    /// Where the mini stream, which is the root's own stream, begins: the number of its first sector.
    pub fn mini_start(&self) -> u32
        ensures { result ≡ self.now.mini_start }
    {
        self.mini_start
    }

    /// How many bytes the mini stream has.
    pub fn mini_size(&self) -> u64
        ensures { result ≡ self.now.mini_size }
    {
        self.mini_size
    }

    /// Storages and streams, in the order of the tree.
    pub fn items(&self) -> &[Item]
        ensures { result.now ≡ self.now.items }
    {
        self.items.as_slice()
    }

    #[tactic(auto, using(crate::proofs::FindLemmas::found_within))]
    // The place of the first that the parent holds and that has the name.
    fn child_named(&self, parent: Option<usize>, name: &str) -> Option<usize>
        ensures exact { result ≡ position (is_child parent name.now) self.now.items }
        ensures within { IfSome result (λ place. place < length self.now.items) }
    {
        self.items
            .iter()
            .position(|item| item.is_child(parent, name))
    }

    /// The place of what the names lead to, storage by storage from the root on; None where one isn't
    /// there, and for no name. Upper and lower case are the same ([MS-CFB] 2.6.4). Of several of one
    /// name the first counts.
    pub fn find(&self, path: &[&str]) -> Option<usize>
        ensures exact { result ≡ find_from self.now.items None (map (λ x. x.now) path.now) }
        ensures within { IfSome result (λ place. place < length self.now.items) }
    {
        let mut parent = None;
        'names: for name in path {
            parent = Some(self.child_named(parent, name)?);
        }
        parent
    }

    #[tactic(auto, using(crate::proofs::FindLemmas::found_within))]
    // The place of the first stream of this name in the root.
    fn stream_named(&self, name: &str) -> Option<usize>
        ensures exact { result ≡ stream_named self.now.items name.now }
        ensures within { IfSome result (λ place. place < length self.now.items) }
    {
        self.items
            .iter()
            .position(|item| item.is_stream() && item.is_child(None, name))
    }

    /// The place of a workbook's stream: `Workbook` (BIFF8), or else `Book` (BIFF5), in the root.
    pub fn workbook(&self) -> Option<usize>
        ensures exact { result ≡ workbook self.now.items }
        ensures within { IfSome result (λ place. place < length self.now.items) }
    {
        match self.stream_named("Workbook") {
            Some(place) => Some(place),
            None => self.stream_named("Book"),
        }
    }

    /// The names of the storages that hold what stands at a place, the outermost first, and then its
    /// own. Only running out of memory refuses.
    pub fn path(&self, alloc: Global, place: usize) -> Result<Vec<&str>, AllocError>
        requires { place < length self.now.items }
        ensures { IfOk result (λ names. IsPath self.now.items place (map (λ x. x.now) names.items)) }
    {
        let mut names = Vec::new(alloc);
        let mut next = Some(place);
        'up: while let Some(at) = next {
            let item = &self.items[at];
            names.push(item.name())?;
            next = item.parent();
        }
        names.reverse();
        Ok(names)
    }
}
