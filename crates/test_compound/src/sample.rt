//! A compound file that is made for the tests, by [MS-CFB].

use std::alloc::{AllocError, Global};

const FREE: u32 = 0xFFFF_FFFF;

const END: u32 = 0xFFFF_FFFE;

const FAT: u32 = 0xFFFF_FFFD;

/// A number of 32 bits at a byte of the file; outside the file nothing.
pub fn put(file: &mut Vec<u8>, at: usize, value: u32) {
    for (i, byte) in value.to_le_bytes().iter().enumerate() {
        if let Some(place) = at.checked_add(i) {
            if place < file.len() {
                file[place] = *byte;
            }
        }
    }
}

// The same byte so many times from a place on.
fn fill(file: &mut Vec<u8>, at: usize, count: usize, byte: u8) {
    for i in 0..count {
        if let Some(place) = at.checked_add(i) {
            if place < file.len() {
                file[place] = byte;
            }
        }
    }
}

// Numbers of 32 bits, one after the other.
fn put_all(file: &mut Vec<u8>, at: usize, values: &[u32]) {
    let mut place = at;
    for value in values {
        put(file, place, *value);
        place = place.saturating_add(4);
    }
}

// The fields of a directory entry: the units of its name two by two, how many bytes it takes, and its type, then its left,
// its right and its child, its first sector and its size.
struct Fields {
    name: [u32; 5],
    size_and_kind: u32,
    links: [u32; 3],
    start: u32,
    size: u32,
}

fn put_entry(file: &mut Vec<u8>, at: usize, fields: &Fields) {
    put_all(file, at, &fields.name);
    put(file, at.saturating_add(64), fields.size_and_kind);
    put_all(file, at.saturating_add(68), &fields.links);
    put_all(file, at.saturating_add(116), &[fields.start, fields.size]);
}

static ROOT: Fields = Fields {
    name: [0x0052, 0, 0, 0, 0],
    size_and_kind: 0x0105_0004,
    links: [FREE, FREE, 1],
    start: 3,
    size: 128,
};

static WORKBOOK: Fields = Fields {
    name: [0x006F_0057, 0x006B_0072, 0x006F_0062, 0x006B_006F, 0],
    size_and_kind: 0x0102_0012,
    links: [FREE, 2, FREE],
    start: 5,
    size: 5000,
};

static STORAGE: Fields = Fields {
    name: [0x0075_0053, 0x0062, 0, 0, 0],
    size_and_kind: 0x0101_0008,
    links: [FREE, FREE, 3],
    start: 0,
    size: 0,
};

static SMALL: Fields = Fields {
    name: [0x006D_0053, 0x006C_0061, 0x006C, 0, 0],
    size_and_kind: 0x0102_000C,
    links: [FREE, FREE, FREE],
    start: 1,
    size: 70,
};

static HEADER: [u32; 6] = [0xE011_CFD0, 0xE11A_B1A1, 0, 0, 0, 0];

static FIELDS: [u32; 9] = [0, 1, 1, 0, 0x1000, 2, 1, END, 0];

static CHAINS: [u32; 15] = [FAT, END, END, END, 6, 4, 7, 8, 9, 10, 11, 12, 13, END, FREE];

/// A file of 15 sectors: 0 the FAT, 1 the directory, 2 the mini FAT, 3 the mini stream, 4 to 13 `Workbook` of 5,000 bytes, whose
/// chain begins with 5 and then 4, and whose bytes are the numbers of their sectors; 14 is free. `Sub` holds `Small` of 70 bytes
/// in the mini sectors 1 and 0, whose bytes are 101 and 100. In sectors of 4,096 bytes
/// `Workbook` needs the first two of its chain alone.
pub fn sample(alloc: Global, is_version_4: bool) -> Result<Vec<u8>, AllocError> {
    let sector: usize = if is_version_4 { 4096 } else { 512 };
    let mut file = vec![in alloc; 0xFFu8; 16 * sector]?;
    put_all(&mut file, 0, &HEADER);
    put(
        &mut file,
        24,
        if is_version_4 {
            0x0004_003E
        } else {
            0x0003_003E
        },
    );
    put(
        &mut file,
        28,
        if is_version_4 {
            0x000C_FFFE
        } else {
            0x0009_FFFE
        },
    );
    put(&mut file, 32, 6);
    put_all(&mut file, 40, &FIELDS);
    put(&mut file, 76, 0);
    put_all(&mut file, sector, &CHAINS);
    fill(&mut file, 2 * sector, sector, 0);
    put_entry(&mut file, 2 * sector, &ROOT);
    put_entry(&mut file, 2 * sector + 128, &WORKBOOK);
    put_entry(&mut file, 2 * sector + 256, &STORAGE);
    put_entry(&mut file, 2 * sector + 384, &SMALL);
    put_all(&mut file, 3 * sector, &[END, 0]);
    fill(&mut file, 4 * sector, 64, 100);
    fill(&mut file, 4 * sector + 64, 64, 101);
    for number in 4..14u8 {
        fill(&mut file, (number as usize + 1) * sector, sector, number);
    }
    Ok(file)
}
