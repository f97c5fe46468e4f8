//! What a directory lists.

ghost use Rattle.std.specs.Prelude.{◌≡◌, IfOk};
ghost use Rattle.xls_compound.specs.Items.{item_of, is_child};

use crate::directory_entry::Entry;
use crate::names::is_same_name;
use std::alloc::{AllocError, Global};
use std::marker::Model;

/// A storage or a stream of a compound file, as its directory lists it. Contracts see the record of
/// its fields.
#[derive(Debug, Drop)]
pub struct Item {
    name: String,
    is_stream: bool,
    parent: Option<usize>,
    start: u32,
    size: u64,
}

impl Model for Item {
    ghost use Rattle.std.specs.String.{string_bytes};
    ghost use Rattle.xls_compound.specs.Items as specs;

    ghost Value = { specs.Item };

    ghost view = { λ i. record {
      name = string_bytes i.name;
      is_stream = i.is_stream;
      parent = i.parent;
      start = i.start;
      size = i.size;
    } };
}

impl Item {
    // The item of an entry that this parent holds.
    pub(crate) fn of(
        alloc: Global,
        entry: &Entry<'_>,
        parent: Option<usize>,
    ) -> Result<Item, AllocError>
        ensures { IfOk result (λ item. item ≡ item_of parent entry.now) }
    {
        Ok(Item {
            name: entry.name(alloc)?,
            is_stream: entry.is_stream(),
            parent,
            start: entry.start,
            size: entry.size,
        })
    }

    /// Whether this parent holds it, and it has this name.
    pub(crate) fn is_child(&self, parent: Option<usize>, name: &str) -> bool
        ensures { result ≡ is_child parent name.now self.now }
    {
        self.parent == parent && is_same_name(self.name(), name)
    }

    /// Its name, in which a unit of UTF-16 that is half of no pair is U+FFFD.
    pub fn name(&self) -> &str
        ensures { result.now ≡ self.now.name }
    {
        self.name.as_str()
    }

    /// A stream, or else a storage.
    pub fn is_stream(&self) -> bool
        ensures { result ≡ self.now.is_stream }
    {
        self.is_stream
    }

    /// The place in the list of the storage that holds it; None for the root.
    pub fn parent(&self) -> Option<usize>
        ensures { result ≡ self.now.parent }
    {
        self.parent
    }

    /// The number of its first sector, or of its first mini sector where it is a short stream.
    pub fn start(&self) -> u32
        ensures { result ≡ self.now.start }
    {
        self.start
    }

    /// How many bytes a stream has.
    pub fn size(&self) -> u64
        ensures { result ≡ self.now.size }
    {
        self.size
    }
}
