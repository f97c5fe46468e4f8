//! Entries of a directory, by their bytes.

ghost use Rattle.std.specs.Prelude.{◌≡◌, ◌≤◌, ◌+◌, length, take, drop, true, IsTrue, IfOk};
ghost use Rattle.std.specs.List.{slice_get};
ghost use Rattle.std.specs.String.{string_bytes};
ghost use Rattle.xls_compound.specs.DirectoryEntries.{directory_entry_of, entries_of, field, name_of, child_of, is_storage, is_stream, is_root, is_name_size};

use std::alloc::{AllocError, Global};
use std::marker::Model;
use xls_bytes::{read_u16, read_u32, read_u64};
use xls_text::XlsEncoding;

/// No entry.
pub(crate) const NONE: u32 = 0xFFFF_FFFF;

/// The bytes that an entry takes.
const ENTRY_SIZE: usize = 128;

/// An entry ([MS-CFB] 2.6.1): 128 bytes, of which those that are not looked at are left out.
/// Contracts see the record of its fields.
#[derive(Drop)]
pub(crate) struct Entry<'a> {
    name: &'a [u8],
    pub(crate) name_size: u16,
    pub(crate) kind: u8,
    pub(crate) left: u32,
    pub(crate) right: u32,
    child: u32,
    pub(crate) start: u32,
    pub(crate) size: u64,
}

impl<'a> Model for Entry<'a> {
    ghost use Rattle.std.specs.Prelude.{◌≡◌, length};
    ghost use Rattle.xls_compound.specs.DirectoryEntries as specs;

    ghost Value = { specs.Entry };

    ghost view = { λ e. record {
      name = e.name.now;
      name_size = e.name_size;
      kind = e.kind;
      left = e.left;
      right = e.right;
      child = e.child;
      start = e.start;
      size = e.size;
    } };

    ghost invariant = { λ e. length e.name.now ≡ 64 };
}

// The number of four bytes at an offset.
fn u32_at(bytes: &[u8], offset: usize) -> u32
    requires { offset + 4 ≤ length bytes.now }
    ensures { result ≡ field 4 offset bytes.now }
{
    read_u32(bytes.split_at(offset).1)
}

// The size: of 64 bits where sectors have 4,096 bytes, else of 32.
fn size_at(bytes: &[u8], is_wide: bool) -> u64
    requires { 128 ≤ length bytes.now }
    ensures { result ≡ (directory_entry_of is_wide bytes.now).size }
{
    if is_wide {
        read_u64(bytes.split_at(120).1)
    } else {
        u32_at(bytes, 120) as u64
    }
}

impl<'a> Entry<'a> {
    // The entry that the bytes begin with.
    fn of(bytes: &'a [u8], is_wide: bool) -> Entry<'a>
        requires { 128 ≤ length bytes.now }
        ensures { result ≡ directory_entry_of is_wide bytes.now }
    {
        Entry {
            name: bytes.split_at(64).0,
            name_size: read_u16(bytes.split_at(64).1),
            kind: bytes[66],
            left: u32_at(bytes, 68),
            right: u32_at(bytes, 72),
            child: u32_at(bytes, 76),
            start: u32_at(bytes, 116),
            size: size_at(bytes, is_wide),
        }
    }

    pub(crate) fn is_storage(&self) -> bool
        ensures { result ≡ is_storage self.now }
    {
        self.kind == 0x01
    }

    pub(crate) fn is_stream(&self) -> bool
        ensures { result ≡ is_stream self.now }
    {
        self.kind == 0x02
    }

    pub(crate) fn is_root(&self) -> bool
        ensures { result ≡ is_root self.now }
    {
        self.kind == 0x05
    }

    /// Where its children begin: a stream has none.
    pub(crate) fn child(&self) -> u32
        ensures { result ≡ child_of self.now }
    {
        if self.is_storage() { self.child } else { NONE }
    }

    /// Where the children of the root begin.
    pub(crate) fn first_child(&self) -> u32
        ensures { result ≡ self.now.child }
    {
        self.child
    }

    pub(crate) fn has_name_size(&self) -> bool
        ensures { result ≡ is_name_size self.now.name_size }
    {
        2 <= self.name_size && self.name_size <= 64 && self.name_size % 2 == 0
    }

    /// The name without its final 0000, in UTF-8.
    #[tactic(auto, using(crate::proofs::DirectoryEntryLemmas::take_within))]
    pub(crate) fn name(&self, alloc: Global) -> Result<String, AllocError>
        ensures { IfOk result (λ name. string_bytes name ≡ name_of self.now) }
    {
        let size = (self.name_size as usize).saturating_sub(2);
        XlsEncoding::Utf16.decode_all(alloc, &self.name[..size.min(64)])
    }
}

/// The entries of a directory. Contracts see it as their list.
#[derive(Drop)]
pub(crate) struct Entries<'a> {
    bytes: &'a [u8],
    is_wide: bool,
}

impl<'a> Model for Entries<'a> {
    ghost use Rattle.std.specs.Prelude.{List};
    ghost use Rattle.xls_compound.specs.DirectoryEntries.{Entry, entries_of};

    ghost Value = { List Entry };

    ghost view = { λ e. entries_of e.is_wide e.bytes.now };
}

impl<'a> Entries<'a> {
    pub(crate) fn new(bytes: &'a [u8], is_wide: bool) -> Entries<'a>
        ensures { result ≡ entries_of is_wide bytes.now }
    {
        Entries { bytes, is_wide }
    }

    /// How many entries there are.
    pub(crate) fn len(&self) -> usize
        ensures { result ≡ length self.now }
    {
        self.bytes.len() / ENTRY_SIZE
    }

    /// The entry of a number.
    pub(crate) fn get(&self, number: u32) -> Option<Entry<'a>>
        ensures { result ≡ slice_get self.now number }
    {
        if number as usize >= self.len() {
            return None;
        }
        let (_, bytes) = self.bytes.split_at(ENTRY_SIZE * number as usize);
        Some(Entry::of(bytes, self.is_wide))
    }
}
