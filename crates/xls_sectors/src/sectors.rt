//! A compound file: its header, its FAT, and the chains of its sectors.

ghost use Rattle.std.specs.Prelude.{◌≡◌, ◌≤◌, ◌+◌, ◌-◌, ◌%◌, ◌++◌, ℕ, List, Ok, OnOk, IfSome, IfOk, length, map, take, drop, vec_len, MatchOption, None, Some, slice_get};
ghost use Rattle.std.specs.List.{flat_map};
ghost use Rattle.std.specs.Cow.{cow_slice_items, IsBorrowedSlice};
ghost use Rattle.std.specs.Int.{div_ceil};
ghost use Rattle.xls_bytes.specs.Numbers.{le, u32s_of};
ghost use Rattle.xls_sectors.specs.declared.error.SectorFault.TheVariants as faults;
ghost use Rattle.xls_sectors.specs.declared.error.Table.TheVariants as tables;
ghost use Rattle.xls_sectors.specs.Header.{header_entries};
ghost use Rattle.xls_sectors.specs.Reading.{Gives};
ghost use Rattle.xls_sectors.specs.Chains.{Stops};
ghost use Rattle.xls_sectors.specs.Streams.{next_in, Stream, chain_size, IsAdjacent, WholeChain};
ghost use Rattle.xls_sectors.specs.Tables.{Opened, OpensSectors, Difat, bytes_at, in_use, next_difat, fat_up_to, opened_by, sectors_of};

use crate::chains::Chains;
use crate::error::{SectorError, SectorFault, Table};
use crate::header::{END_OF_CHAIN, FREE, Header, SPECIAL, area_of, difat_block, read_header};
use std::alloc::{AllocError, Global};
use std::borrow::CowSlice;
use std::marker::Model;
use xls_bytes::{read_u32, to_u32};

// The bytes of a sector, as far as they are there.
fn sector_in(area: &[u8], size: u16, sector: u32) -> &[u8]
    ensures { result.now ≡ bytes_at size area.now sector }
{
    let start = sector as usize * size as usize;
    let (_, rest) = area.split_at(start.min(area.len()));
    let (bytes, _) = rest.split_at(rest.len().min(size as usize));
    bytes
}

// A DIFAT sector: the bytes of its entries, and the number of the next.
fn difat_sector(area: &[u8], size: u16, sector: u32) -> Option<(&[u8], u32)>
    requires { 4 ≤ size }
    ensures { MatchOption result (next_difat size area.now sector ≡ None)
        (λ x. (next_difat size area.now sector ≡ Some x.1)
        × (x.0.now ≡ take (size - 4) (bytes_at size area.now sector))
        × (length x.0.now ≡ size - 4)) }
{
    let bytes = sector_in(area, size, sector);
    if sector >= SPECIAL || bytes.len() != size as usize {
        return None;
    }
    let (entries, last) = bytes.split_at(size as usize - 4);
    Some((entries, read_u32(last)))
}

// The entries of a block that are in use, after those of the blocks before it.
fn list_entries(listed: &mut Vec<u32>, block: &[u8]) -> Result<(), AllocError>
    requires { length block.now % 4 ≡ 0 }
    ensures { OnOk result (listed.new.items ≡ listed.old.items ++ in_use (u32s_of block.now)) }
{
    'entries: for entry in to_u32(block) {
        if entry >= END_OF_CHAIN {
            break;
        }
        listed.push(entry)?;
    }
    Ok(())
}

// The sectors of the FAT: those in the header's block of the DIFAT and in the blocks of its sectors.
fn list_fat(
    alloc: Global,
    area: &[u8],
    size: u16,
    block: &[u8],
    first: u32,
) -> Result<Vec<u32>, SectorError>
    requires block { length block.now % 4 ≡ 0 }
    requires size { 4 ≤ size }
    requires words { size % 4 ≡ 0 }
    ensures { Gives (λ listed. listed.items) result (Difat size area.now (u32s_of block.now) first) }
{
    let whole = area.len() / size as usize;
    let mut listed = Vec::new(alloc);
    list_entries(&mut listed, block)?;
    let mut read = 0;
    let mut last = None;
    let mut number = first;
    'sectors: while let Some((entries, after)) = difat_sector(area, size, number) {
        if read == whole {
            let table = Table::Difat;
            return Err(SectorError::Fault(SectorFault::Loop { table, first }));
        }
        list_entries(&mut listed, entries)?;
        last = Some(number);
        number = after;
        read += 1;
    }
    if number == END_OF_CHAIN || number == FREE {
        return Ok(listed);
    }
    Err(SectorError::Fault(SectorFault::Leaves {
        table: Table::Difat,
        after: last,
        number,
    }))
}

// The numbers of one more sector of the FAT, up to so many in all.
fn extend_fat(fat: &mut Vec<u32>, bytes: &[u8], most: usize) -> Result<(), AllocError>
    requires words { length bytes.now % 4 ≡ 0 }
    requires room { vec_len fat.old ≤ most }
    ensures ok { OnOk result (fat.new.items ≡ take most (fat.old.items ++ u32s_of bytes.now)) }
    ensures within { vec_len fat.new ≤ most }
{
    'numbers: for number in to_u32(bytes) {
        if fat.len() == most {
            break;
        }
        fat.push(number)?;
    }
    Ok(())
}

// The numbers of the FAT by its sectors, up to so many.
fn read_fat(
    alloc: Global,
    area: &[u8],
    size: u16,
    listed: &[u32],
    most: usize,
) -> Result<Vec<u32>, SectorError>
    requires { size % 4 ≡ 0 }
    ensures { Gives (λ fat. fat.items) result
        (λ r. r ≡ fat_up_to most size area.now listed.now) }
{
    let mut fat = Vec::new(alloc);
    'sectors: for sector in listed {
        let bytes = sector_in(area, size, *sector);
        if bytes.len() < size as usize {
            return Err(SectorError::Fault(SectorFault::FatCut {
                sector: *sector,
                expected: size as usize,
                found: bytes.len(),
            }));
        }
        extend_fat(&mut fat, bytes, most)?;
    }
    Ok(fat)
}

/// A compound file, opened: its header, its FAT, and the bytes of its sectors, borrowed.
#[derive(Drop)]
pub struct Sectors<'a> {
    header: Header,
    area: &'a [u8],
    fat: Vec<u32>,
}

impl<'a> Model for Sectors<'a> {
    ghost use Rattle.xls_sectors.specs.Tables.{Opened};

    ghost Value = { Opened };

    ghost view = { λ sectors. record {
      header = sectors.header;
      area = sectors.area.now;
      fat = sectors.fat.items;
    } };
}

impl<'a> Sectors<'a> {
    /// Reads the header, the DIFAT and the FAT of a whole file, [MS-CFB] 2.2, 2.3 and 2.5. Refuses
    /// with the first fault, in this order: `NotCompound`, `HeaderCut`, `SectorShift` or
    /// `MiniSectorShift`; `Loop` or `Leaves` of the DIFAT; `FatCut`. Memory is that of the FAT, which
    /// has at most an entry for each sector of the file, and of the list of its sectors.
    pub fn open(alloc: Global, file: &'a [u8]) -> Result<Sectors<'a>, SectorError>
        ensures { Gives (λ opened. opened) result (OpensSectors file.now) }
    {
        let header = read_header(file)?;
        let size = header.sector_size;
        let area = area_of(file, size);
        let listed = list_fat(alloc, area, size, difat_block(file), header.first_difat)?;
        let sectors = area.len().div_ceil(size as usize);
        let fat = read_fat(alloc, area, size, &listed, sectors)?;
        Ok(Sectors { header, area, fat })
    }

    /// The header.
    pub fn header(&self) -> Header
        ensures { result ≡ self.now.header }
    {
        self.header
    }

    /// The chains of sectors, by the FAT.
    pub fn chains(&self) -> Chains<'_, 'a>
        ensures { result ≡ sectors_of self.now }
    {
        Chains::new(Table::Fat, &self.fat, self.header.sector_size, self.area)
    }

    /// The bytes of a stream in sectors: see `Chains::stream`.
    pub fn stream(
        &self,
        alloc: Global,
        first: u32,
        size: u64,
    ) -> Result<CowSlice<'a, u8>, SectorError>
        ensures exact { Gives cow_slice_items result (Stream (sectors_of self.now) first size) }
        ensures whole { IfOk result (λ bytes. length (cow_slice_items bytes) ≡ size) }
        ensures borrowed { (sectors : List ℕ) (after : ℕ)
            → Stops (next_in (sectors_of self.now)) first sectors after
            → IsAdjacent (sectors_of self.now) size sectors → IfOk result IsBorrowedSlice }
    {
        self.chains().stream(alloc, first, size)
    }

    /// All bytes of a chain of sectors: see `Chains::chain`.
    pub fn chain(&self, alloc: Global, first: u32) -> Result<CowSlice<'a, u8>, SectorError>
        ensures exact { Gives cow_slice_items result (WholeChain (sectors_of self.now) first) }
        ensures borrowed { (sectors : List ℕ) (after : ℕ)
            → Stops (next_in (sectors_of self.now)) first sectors after
            → IsAdjacent (sectors_of self.now) (chain_size (sectors_of self.now) sectors) sectors
            → IfOk result IsBorrowedSlice }
    {
        self.chains().chain(alloc, first)
    }
}
