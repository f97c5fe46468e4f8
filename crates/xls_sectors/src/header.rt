//! The header of a compound file.

ghost use Rattle.std.specs.Prelude.{◌≡◌, ◌+◌, ◌≤◌, ◌%◌, length, IfOk, take, drop, if◌then◌else◌, ◌==◌};
ghost use Rattle.xls_bytes.specs.Numbers.{le, u32s_of};
ghost use Rattle.xls_sectors.specs.Header.{header_of, header_entries, header_fields, first_of, u16_at, u32_at};

use crate::error::SectorFault;
use xls_bytes::{read_u16, read_u32};

/// The bytes of a header.
pub(crate) const HEADER_SIZE: usize = 512;

/// The end of a chain.
pub(crate) const END_OF_CHAIN: u32 = 0xFFFFFFFE;

/// A sector that isn't in use.
pub(crate) const FREE: u32 = 0xFFFFFFFF;

/// Numbers from here on have a meaning of their own, and are no sector's.
pub(crate) const SPECIAL: u32 = 0xFFFFFFFA;

static SIGNATURE: [u8; 8] = [0xD0, 0xCF, 0x11, 0xE0, 0xA1, 0xB1, 0x1A, 0xE1];

/// What is read from a header, [MS-CFB] 2.2.
#[derive(Clone, Copy, Debug, PartialEq, Eq)]
pub struct Header {
    /// The bytes of a sector: 512 or 4,096.
    pub sector_size: u16,
    /// The first sector of the directory.
    pub first_directory: u32,
    /// The first sector of the mini FAT, or FFFFFFFE where there is none.
    pub first_mini_fat: u32,
    /// The first sector of the DIFAT, or FFFFFFFE where there is none.
    pub first_difat: u32,
}

// The number of 16 bits at an offset.
fn u16_in(file: &[u8], offset: usize) -> u16
    requires { offset + 2 ≤ length file.now }
    ensures { result ≡ u16_at offset file.now }
{
    read_u16(&file[offset..])
}

// The number of 32 bits at an offset.
fn u32_in(file: &[u8], offset: usize) -> u32
    requires { offset + 4 ≤ length file.now }
    ensures { result ≡ u32_at offset file.now }
{
    read_u32(&file[offset..])
}

// The first sector of a table, or the end of a chain where the number of its sectors is 0.
fn first_in(file: &[u8], offset: usize, count_offset: usize) -> u32
    requires offset { offset + 4 ≤ length file.now }
    requires count { count_offset + 4 ≤ length file.now }
    ensures { result ≡ first_of offset count_offset file.now }
{
    if u32_in(file, count_offset) == 0 {
        END_OF_CHAIN
    } else {
        u32_in(file, offset)
    }
}

// The fields of a header, for the size of a sector.
#[tactic(auto, unfolding(crate::specs::Header::header_fields))]
fn fields_of(file: &[u8], sector_size: u16) -> Header
    requires { 512 ≤ length file.now }
    ensures fields { result ≡ header_fields sector_size file.now }
    ensures size { result.sector_size ≡ sector_size }
{
    Header {
        sector_size,
        first_directory: u32_in(file, 48),
        first_mini_fat: first_in(file, 60, 64),
        first_difat: first_in(file, 68, 72),
    }
}

/// The header of a file, or its first fault. Takes no memory.
#[tactic(auto, unfolding(crate::specs::Header::header_of))]
pub fn read_header(file: &[u8]) -> Result<Header, SectorFault>
    ensures exact { result ≡ header_of file.now }
    ensures whole { IfOk result (λ _. 512 ≤ length file.now) }
    ensures size { IfOk result (λ header.
        (512 ≤ header.sector_size) × (header.sector_size % 4 ≡ 0)) }
{
    if !file.starts_with(&SIGNATURE) {
        return Err(SectorFault::NotCompound);
    }
    if file.len() < HEADER_SIZE {
        return Err(SectorFault::HeaderCut { found: file.len() });
    }
    let sector_size = match u16_in(file, 30) {
        0x0009 => 512,
        0x000C => 4096,
        found => return Err(SectorFault::SectorShift { found }),
    };
    let found = u16_in(file, 32);
    if found != 0x0006 {
        return Err(SectorFault::MiniSectorShift { found });
    }
    Ok(fields_of(file, sector_size))
}

/// The block of the DIFAT in the header: 109 numbers of 32 bits.
pub(crate) fn difat_block(file: &[u8]) -> &[u8]
    requires { 512 ≤ length file.now }
    ensures entries { u32s_of result.now ≡ header_entries file.now }
    ensures words { length result.now % 4 ≡ 0 }
{
    &file[76..HEADER_SIZE]
}

/// What stands after the header's sector.
pub(crate) fn area_of(file: &[u8], sector_size: u16) -> &[u8]
    ensures { result.now ≡ drop sector_size file.now }
{
    let (_, area) = file.split_at(file.len().min(sector_size as usize));
    area
}
