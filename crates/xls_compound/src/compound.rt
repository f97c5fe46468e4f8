//! A compound file, opened.

ghost use Rattle.std.specs.Prelude.{◌≡◌, ◌<◌, ℕ, List, Ok, map, None, length, IfOk, IfErr};
ghost use Rattle.std.specs.Cow.{cow_slice_items, IsBorrowedSlice};
ghost use Rattle.std.specs.Option.{option_map};
ghost use Rattle.xls_bytes.specs.Numbers.{u32s_of};
ghost use Rattle.xls_compound.specs.Items as items;
ghost use Rattle.xls_compound.specs.Items.{Item};
ghost use Rattle.xls_compound.specs.Directory.{Listing, IsDirectory};
ghost use Rattle.xls_compound.specs.declared.error.CompoundError.TheVariants.{Memory};
ghost use Rattle.xls_sectors.specs.Tables.{OpensSectors};
ghost use Rattle.xls_compound.specs.Compound.{HoldsCompound, HoldsListing, Refuses, is_wide, DirectoryBytes, MiniFatBytes, MiniStream, space_of, size_of, ItemBytes, LiesAdjacent, RefusesItem};
ghost use Rattle.xls_compound.specs.Entries.{entry_at, entries_from, IsItem};

use crate::entry::{Entries, Entry};
use crate::error::CompoundError;
use crate::{Directory, DirectoryError};
use std::alloc::Global;
use std::borrow::CowSlice;
use std::marker::Model;
use xls_bytes::to_u32;
use xls_sectors::{Chains, SectorError, Sectors, Table};

/// Streams of fewer bytes lie in mini sectors.
const CUTOFF: u64 = 0x1000;

/// The bytes of a mini sector.
const MINI_SECTOR_SIZE: u16 = 64;

/// A compound file: its sectors, what its directory lists, its mini sectors. The bytes of the file are
/// borrowed.
#[derive(Drop)]
pub struct Compound<'a> {
    sectors: Sectors<'a>,
    directory: Directory,
    mini_fat: Vec<u32>,
    mini_stream: CowSlice<'a, u8>,
}

impl<'a> Model for Compound<'a> {
    ghost use Rattle.std.specs.Cow.{cow_slice_items};
    ghost use Rattle.xls_sectors.specs.Tables.{sectors_of};
    ghost use Rattle.xls_compound.specs.Compound as specs;

    ghost Value = { specs.Compound };

    ghost view = { λ c. record {
      sectors = sectors_of c.sectors;
      mini = specs.mini_sectors c.mini_fat.items (cow_slice_items c.mini_stream);
      listing = c.directory;
    } };
}

// The header and the FAT of a file.
fn open_tables(alloc: Global, file: &[u8]) -> Result<Sectors<'_>, CompoundError>
    ensures ok { IfOk result (λ sectors. OpensSectors file.now (Ok sectors)) }
    ensures err { IfErr result (Refuses file.now) }
{
    match Sectors::open(alloc, file) {
        Ok(sectors) => Ok(sectors),
        Err(SectorError::Fault(fault)) => Err(CompoundError::Tables(fault)),
        Err(SectorError::Memory) => Err(CompoundError::Memory),
    }
}

// What the directory of a file lists.
fn read_directory(alloc: Global, sectors: &Sectors<'_>) -> Result<Directory, CompoundError>
    ensures ok { IfOk result (λ listing. (file : List ℕ) → OpensSectors file (Ok sectors.now)
        → HoldsListing file sectors.now listing) }
    ensures err { IfErr result (λ e. (file : List ℕ) → OpensSectors file (Ok sectors.now) → Refuses file e) }
{
    let header = sectors.header();
    let bytes = match sectors.chain(alloc, header.first_directory) {
        Ok(bytes) => bytes,
        Err(SectorError::Fault(fault)) => return Err(CompoundError::DirectoryChain(fault)),
        Err(SectorError::Memory) => return Err(CompoundError::Memory),
    };
    match Directory::read(alloc, bytes.as_slice(), header.sector_size == 4096) {
        Ok(directory) => Ok(directory),
        Err(DirectoryError::Fault(fault)) => Err(CompoundError::Directory(fault)),
        Err(DirectoryError::Memory) => Err(CompoundError::Memory),
    }
}

// The numbers in some bytes; those at the end that are no whole number are in none.
fn numbers_of(alloc: Global, bytes: &[u8]) -> Result<Vec<u32>, CompoundError>
    ensures ok { IfOk result (λ numbers. numbers.items ≡ u32s_of bytes.now) }
    ensures err { IfErr result (λ e. e ≡ Memory) }
{
    let (whole, _) = bytes.split_at(bytes.len() - bytes.len() % 4);
    let mut numbers = Vec::with_capacity(alloc, whole.len() / 4)?;
    'numbers: for number in to_u32(whole) {
        numbers.push(number)?;
    }
    Ok(numbers)
}

// The numbers of the mini FAT.
fn read_mini_fat(alloc: Global, sectors: &Sectors<'_>) -> Result<Vec<u32>, CompoundError>
    ensures ok { IfOk result (λ numbers. (bytes : List ℕ) × MiniFatBytes sectors.now (Ok bytes)
        × (numbers.items ≡ u32s_of bytes)) }
    ensures err { IfErr result (λ e. (file : List ℕ) (listing : Listing) → HoldsListing file sectors.now listing
        → Refuses file e) }
{
    match sectors.chain(alloc, sectors.header().first_mini_fat) {
        Ok(bytes) => numbers_of(alloc, bytes.as_slice()),
        Err(SectorError::Fault(fault)) => Err(CompoundError::MiniFat(fault)),
        Err(SectorError::Memory) => Err(CompoundError::Memory),
    }
}

// The bytes of the mini stream.
fn read_mini_stream<'a>(
    alloc: Global,
    sectors: &Sectors<'a>,
    directory: &Directory,
) -> Result<CowSlice<'a, u8>, CompoundError>
    ensures ok { IfOk result (λ bytes. MiniStream sectors.now directory.now (Ok (cow_slice_items bytes))) }
    ensures err { IfErr result (λ e. (file mini_fat : List ℕ) → HoldsListing file sectors.now directory.now
        → MiniFatBytes sectors.now (Ok mini_fat) → Refuses file e) }
{
    match sectors.stream(alloc, directory.mini_start(), directory.mini_size()) {
        Ok(bytes) => Ok(bytes),
        Err(SectorError::Fault(fault)) => Err(CompoundError::MiniStream(fault)),
        Err(SectorError::Memory) => Err(CompoundError::Memory),
    }
}

impl<'a> Compound<'a> {
    /// Opens a compound file ([MS-CFB]) of sectors of 512 or 4,096 bytes. Refused with the first fault:
    /// of the header, the DIFAT and the FAT (`Tables`), of the directory's chain, of the directory, of
    /// the mini FAT's chain, of the mini stream's. The memory is that of the FAT, of what is listed, of
    /// the mini FAT, and of a mini stream whose sectors don't follow one another.
    pub fn open(alloc: Global, file: &'a [u8]) -> Result<Compound<'a>, CompoundError>
        ensures ok { IfOk result (HoldsCompound file.now) }
        ensures err { IfErr result (Refuses file.now) }
    {
        let sectors = open_tables(alloc, file)?;
        let directory = read_directory(alloc, &sectors)?;
        let mini_fat = read_mini_fat(alloc, &sectors)?;
        let mini_stream = read_mini_stream(alloc, &sectors, &directory)?;
        Ok(Compound {
            sectors,
            directory,
            mini_fat,
            mini_stream,
        })
    }

    /// Storages and streams, in the order of the directory's tree: what is on the left of an entry, the
    /// entry, what it holds, what is on its right.
    pub fn streams(&self) -> Entries<'_>
        ensures { result ≡ entries_from self.now.listing 0 }
    {
        Entries::new(&self.directory)
    }

    // The entry at a place.
    fn entry(&self, place: usize) -> Entry<'_>
        requires { place < length self.now.listing.items }
        ensures { result ≡ entry_at self.now.listing place }
    {
        Entry::new(&self.directory, place)
    }

    /// What the names lead to, storage by storage from the root on; None where one isn't there, and for
    /// no name. Upper and lower case are the same ([MS-CFB] 2.6.4).
    pub fn find(&self, path: &[&str]) -> Option<Entry<'_>>
        ensures { result ≡ option_map (entry_at self.now.listing)
            (items.find_from self.now.listing.items None (map (λ x. x.now) path.now)) }
    {
        let place = self.directory.find(path)?;
        Some(self.entry(place))
    }

    /// A workbook's stream: `Workbook` (BIFF8), or else `Book` (BIFF5), in the root.
    pub fn workbook(&self) -> Option<Entry<'_>>
        ensures { result ≡ option_map (entry_at self.now.listing) (items.workbook self.now.listing.items) }
    {
        let place = self.directory.workbook()?;
        Some(self.entry(place))
    }

    // The mini sectors.
    fn mini_sectors(&self) -> Chains<'_, '_>
        ensures { result ≡ self.now.mini }
    {
        Chains::new(
            Table::MiniFat,
            &self.mini_fat,
            MINI_SECTOR_SIZE,
            self.mini_stream.as_slice(),
        )
    }

    /// The bytes of a stream, exactly so many as its size says: borrowed from the file where its sectors
    /// follow one another, else gathered once. A storage has no bytes. Refused with the first fault of
    /// the stream's chain, with its name.
    pub fn stream(
        &self,
        alloc: Global,
        entry: &Entry<'_>,
    ) -> Result<CowSlice<'_, u8>, CompoundError>
        ensures ok { IfOk result (λ bytes. (item : Item) → IsItem entry.now item
            → ItemBytes self.now item (Ok (cow_slice_items bytes))) }
        ensures whole { IfOk result (λ bytes. (item : Item) → IsItem entry.now item
            → length (cow_slice_items bytes) ≡ size_of item) }
        ensures err { IfErr result (λ e. (item : Item) → IsItem entry.now item → RefusesItem self.now item e) }

        // Nothing is copied where the sectors follow one another.
        ensures borrowed { (item : Item) → IsItem entry.now item → LiesAdjacent self.now item → IfOk result IsBorrowedSlice }
    {
        let size = if entry.is_stream() { entry.size() } else { 0 };
        let bytes = if size < CUTOFF {
            self.mini_sectors().stream(alloc, entry.start(), size)
        } else {
            self.sectors.stream(alloc, entry.start(), size)
        };
        match bytes {
            Ok(bytes) => Ok(bytes),
            Err(SectorError::Fault(fault)) => {
                let name = String::from_str(alloc, entry.name())?;
                Err(CompoundError::Stream { name, fault })
            }
            Err(SectorError::Memory) => Err(CompoundError::Memory),
        }
    }
}
