//! Chains of sectors, and their bytes.

ghost use Rattle.std.specs.Prelude.{◌≡◌, ◌≤◌, ◌+◌, ◌^◌, ℕ, List, Ok, Err, MatchResult, IfOk, IfSome, IsSome, length, take, drop};
ghost use Rattle.std.specs.Cow.{cow_slice_items, IsBorrowedSlice};
ghost use Rattle.xls_sectors.specs.declared.error.SectorFault.TheVariants as faults;
ghost use Rattle.xls_sectors.specs.Reading.{Gives};
ghost use Rattle.xls_sectors.specs.Chains.{Sectors, Stops};
ghost use Rattle.xls_sectors.specs.Streams.{Space, next_in, sector_at, part_of, gathered, is_run, IsAdjacent, leaves, stream_of, Stream, chain_size, chain_of, WholeChain};

use crate::error::{SectorError, SectorFault, Table};
use crate::header::{END_OF_CHAIN, SPECIAL};
use std::alloc::Global;
use std::borrow::CowSlice;
use std::marker::Model;

/// The chains of sectors in a table, [MS-CFB] 2.3 and 2.4.
#[derive(Drop)]
pub struct Chains<'t, 'a> {
    table: Table,
    entries: &'t [u32],
    sector_size: u16,
    area: &'a [u8],
}

impl<'t, 'a> Model for Chains<'t, 'a> {
    ghost use Rattle.xls_sectors.specs.Streams.{Space};

    ghost Value = { Space };

    ghost view = { λ chains. record {
      table = chains.table;
      entries = chains.entries.now;
      sector_size = chains.sector_size;
      area = chains.area.now;
    } };
}

// The sectors of a chain, and the number after the last.
#[derive(Drop)]
struct Chain {
    sectors: Vec<u32>,
    after: u32,
}

// So many bytes of an area, from a start on.
fn bytes_at(area: &[u8], start: usize, size: u64) -> Option<&[u8]>
    ensures found { IfSome result (λ bytes. (start + size ≤ length area.now)
        × (bytes.now ≡ take size (drop start area.now))) }
    ensures there { start + size ≤ length area.now → IsSome result }
{
    if area.len() < start {
        return None;
    }
    let (_, rest) = area.split_at(start);
    if (rest.len() as u64) < size {
        return None;
    }
    let (bytes, _) = rest.split_at(size as usize);
    Some(bytes)
}

impl<'t, 'a> Chains<'t, 'a> {
    /// The chains in the entries of a table, over sectors of so many bytes that lie in an area.
    pub fn new(table: Table, entries: &'t [u32], sector_size: u16, area: &'a [u8]) -> Chains<'t, 'a>
        ensures { result ≡ record {
          table = table;
          entries = entries.now;
          sector_size = sector_size;
          area = area.now;
        } }
    {
        Chains {
            table,
            entries,
            sector_size,
            area,
        }
    }

    // The number that follows a sector.
    fn next(&self, number: u32) -> Option<u32>
        ensures { result ≡ next_in self.now number }
    {
        if number >= SPECIAL {
            return None;
        }
        self.entries.get(number as usize).copied()
    }

    // What is there of a sector.
    fn sector(&self, number: u32) -> &'a [u8]
        ensures { result.now ≡ sector_at self.now number }
    {
        let start = number as usize * self.sector_size as usize;
        let (_, rest) = self.area.split_at(start.min(self.area.len()));
        let (bytes, _) = rest.split_at(rest.len().min(self.sector_size as usize));
        bytes
    }

    // The first bytes of a sector.
    fn part(&self, size: u16, sector: u32) -> Result<&'a [u8], SectorFault>
        ensures { MatchResult result (λ x. part_of self.now size sector ≡ Ok x.now)
            (λ fault. part_of self.now size sector ≡ Err fault) }
    {
        let bytes = self.sector(sector);
        if bytes.len() < size as usize {
            return Err(SectorFault::Cut {
                table: self.table,
                sector,
                expected: size as usize,
                found: bytes.len(),
            });
        }
        let (part, _) = bytes.split_at(size as usize);
        Ok(part)
    }

    // The sectors of the chain that begins with a number.
    fn chain_from(&self, alloc: Global, first: u32) -> Result<Chain, SectorError>
        ensures exact { Gives (λ chain. (chain.sectors.items, chain.after)) result
            (Sectors (next_in self.now) first (faults.Loop self.now.table first)) }
        ensures few { IfOk result (λ chain. length chain.sectors.items ≤ 2 ^ 32) }
    {
        let most = self.entries.len().min(SPECIAL as usize);
        let mut sectors = Vec::new(alloc);
        let mut number = first;
        'sectors: while let Some(after) = self.next(number) {
            if sectors.len() == most {
                let fault = SectorFault::Loop {
                    table: self.table,
                    first,
                };
                return Err(SectorError::Fault(fault));
            }
            sectors.push(number)?;
            number = after;
        }
        Ok(Chain {
            sectors,
            after: number,
        })
    }

    // The bytes of these sectors up to a size, copied.
    fn gather(&self, alloc: Global, sectors: &[u32], size: u64) -> Result<Vec<u8>, SectorError>
        ensures { Gives (λ bytes. bytes.items) result (λ r. r ≡ gathered self.now size sectors.now) }
    {
        let most = size.min(self.area.len() as u64) as usize;
        let mut bytes = Vec::with_capacity(alloc, most)?;
        let mut left = size;
        'sectors: for sector in sectors {
            let wanted = left.min(self.sector_size as u64);
            let part = self.part(wanted as u16, *sector)?;
            bytes.extend_from_slice(part)?;
            left -= wanted;
        }
        Ok(bytes)
    }

    // Whether the sectors that a size needs follow one another, from the first on.
    fn is_run(&self, first: u32, sectors: &[u32], size: u64) -> bool
        ensures { result ≡ is_run self.now.sector_size size first sectors.now }
    {
        let mut left = size;
        let mut expected = first as u64;
        'sectors: for sector in sectors {
            if left == 0 {
                return true;
            }
            if *sector as u64 != expected {
                return false;
            }
            expected += 1;
            left = left.saturating_sub(self.sector_size as u64);
        }
        left == 0
    }

    // The bytes of these sectors up to a size, where they follow one another in the area.
    fn adjacent(&self, sectors: &[u32], size: u64) -> Option<&'a [u8]>
        ensures found { IfSome result (λ bytes. gathered self.now size sectors.now ≡ Ok bytes.now) }
        ensures there { IsAdjacent self.now size sectors.now → IsSome result }
    {
        let first = *sectors.first()?;
        if !self.is_run(first, sectors, size) {
            return None;
        }
        bytes_at(self.area, first as usize * self.sector_size as usize, size)
    }

    // The bytes of these sectors up to a size: borrowed where they follow one another.
    fn bytes_of(
        &self,
        alloc: Global,
        sectors: &[u32],
        size: u64,
    ) -> Result<CowSlice<'a, u8>, SectorError>
        ensures exact { Gives cow_slice_items result (λ r. r ≡ gathered self.now size sectors.now) }
        ensures borrowed { IsAdjacent self.now size sectors.now → IfOk result IsBorrowedSlice }
    {
        if let Some(bytes) = self.adjacent(sectors, size) {
            return Ok(CowSlice::Borrowed(bytes));
        }
        let bytes = self.gather(alloc, sectors, size)?;
        Ok(CowSlice::Owned(bytes))
    }

    // Why a chain isn't followed on.
    fn leaves(&self, chain: &Chain) -> SectorFault
        ensures { result ≡ leaves self.now chain.now.sectors.items chain.now.after }
    {
        SectorFault::Leaves {
            table: self.table,
            after: chain.sectors.last().copied(),
            number: chain.after,
        }
    }

    // The bytes of a stream in its chain.
    fn stream_in(
        &self,
        alloc: Global,
        chain: &Chain,
        first: u32,
        size: u64,
    ) -> Result<CowSlice<'a, u8>, SectorError>
        requires { length chain.now.sectors.items ≤ 2 ^ 32 }
        ensures exact { Gives cow_slice_items result
            (λ r. r ≡ stream_of self.now first size chain.now.sectors.items chain.now.after) }
        ensures borrowed { IsAdjacent self.now size chain.now.sectors.items
            → IfOk result IsBorrowedSlice }
    {
        let found = chain.sectors.len() as u64 * self.sector_size as u64;
        if size <= found {
            return self.bytes_of(alloc, &chain.sectors, size);
        }
        if chain.after != END_OF_CHAIN {
            return Err(SectorError::Fault(self.leaves(chain)));
        }
        Err(SectorError::Fault(SectorFault::Short {
            table: self.table,
            first,
            expected: size,
            found,
        }))
    }

    /// The bytes of a stream with this first sector and size, [MS-CFB] 2.3: exactly so many. They
    /// are borrowed from the area where the sectors follow one another, else gathered once.
    pub fn stream(
        &self,
        alloc: Global,
        first: u32,
        size: u64,
    ) -> Result<CowSlice<'a, u8>, SectorError>
        ensures exact { Gives cow_slice_items result (Stream self.now first size) }
        ensures whole { IfOk result (λ bytes. length (cow_slice_items bytes) ≡ size) }
        // Nothing is copied where the sectors follow one another.
        ensures borrowed { (sectors : List ℕ) (after : ℕ) → Stops (next_in self.now) first sectors after
            → IsAdjacent self.now size sectors → IfOk result IsBorrowedSlice }
    {
        if size == 0 {
            return Ok(CowSlice::Borrowed(&[]));
        }
        let chain = self.chain_from(alloc, first)?;
        self.stream_in(alloc, &chain, first, size)
    }

    // How many bytes the sectors of a whole chain have.
    fn size_of_chain(&self, sectors: &[u32]) -> u64
        requires { length sectors.now ≤ 2 ^ 32 }
        ensures { result ≡ chain_size self.now sectors.now }
    {
        let Some((last, others)) = sectors.split_last() else {
            return 0;
        };
        others.len() as u64 * self.sector_size as u64 + self.sector(*last).len() as u64
    }

    // The bytes of all sectors of a chain.
    fn chain_in(&self, alloc: Global, chain: &Chain) -> Result<CowSlice<'a, u8>, SectorError>
        requires { length chain.now.sectors.items ≤ 2 ^ 32 }
        ensures exact { Gives cow_slice_items result
            (λ r. r ≡ chain_of self.now chain.now.sectors.items chain.now.after) }
        ensures borrowed { IsAdjacent self.now (chain_size self.now chain.now.sectors.items)
            chain.now.sectors.items → IfOk result IsBorrowedSlice }
    {
        if chain.after != END_OF_CHAIN {
            return Err(SectorError::Fault(self.leaves(chain)));
        }
        let size = self.size_of_chain(&chain.sectors);
        self.bytes_of(alloc, &chain.sectors, size)
    }

    /// All bytes of a chain, which has to end in FFFFFFFE. The end of the area may cut its last
    /// sector.
    pub fn chain(&self, alloc: Global, first: u32) -> Result<CowSlice<'a, u8>, SectorError>
        ensures exact { Gives cow_slice_items result (WholeChain self.now first) }
        // Nothing is copied where the sectors follow one another.
        ensures borrowed { (sectors : List ℕ) (after : ℕ) → Stops (next_in self.now) first sectors after
            → IsAdjacent self.now (chain_size self.now sectors) sectors → IfOk result IsBorrowedSlice }
    {
        let chain = self.chain_from(alloc, first)?;
        self.chain_in(alloc, &chain)
    }
}
