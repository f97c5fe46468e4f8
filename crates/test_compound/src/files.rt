//! Whole files, each fault once, tables that loop, and refused memory. The texts are those that the README's crates state, the
//! numbers those of the layout in `sample.rt`, and the sums Python's of the same bytes.

use crate::sample::{put, sample};
use std::alloc::{AllocError, Global};
use std::test::Fail;
use xls_compound::{Compound, CompoundError, Entry};

// The sum of the bytes, each times its place counted from 1, modulo 65,521.
fn sum_of(bytes: &[u8]) -> u64 {
    let mut sum: u64 = 0;
    let mut place: u64 = 0;
    for byte in bytes {
        place = (place + 1) % 65_521;
        sum = (sum + place * *byte as u64) % 65_521;
    }
    sum
}

// The names of an entry with slashes between them, its size, and the sum of its bytes, or why it is refused.
fn push_entry(
    alloc: Global,
    text: &mut String,
    compound: &Compound<'_>,
    entry: &Entry<'_>,
) -> Result<(), CompoundError> {
    for name in entry.path(alloc)?.iter() {
        write!(text, "/{name}")?;
    }
    match compound.stream(alloc, entry) {
        Ok(bytes) => write!(text, " {} {};", entry.size(), sum_of(bytes.as_slice()))?,
        Err(CompoundError::Memory) => return Err(CompoundError::Memory),
        Err(error) => write!(text, " {error};")?,
    }
    Ok(())
}

fn listed(alloc: Global, file: &[u8]) -> Result<String, CompoundError> {
    let compound = Compound::open(alloc, file)?;
    let mut text = String::new(alloc);
    for entry in compound.streams() {
        push_entry(alloc, &mut text, &compound, &entry)?;
    }
    Ok(text)
}

// A file with changes, each in a sector counted from the header on, at an offset, a number of 32 bits; and cut to a length.
struct Case {
    word: &'static str,
    is_version_4: bool,
    changes: &'static [(u32, u32, u32)],
    len: usize,
    expected: &'static str,
}

// What is listed of the file with these changes, or why it is refused.
fn said(alloc: Global, case: &Case) -> Result<String, AllocError> {
    let mut file = sample(alloc, case.is_version_4)?;
    let sector = if case.is_version_4 { 4096 } else { 512 };
    for (number, offset, value) in case.changes {
        put(
            &mut file,
            *number as usize * sector + *offset as usize,
            *value,
        );
    }
    file.truncate(case.len);
    match listed(alloc, &file) {
        Ok(text) => Ok(text),
        Err(error) => error.to_string(alloc),
    }
}

static CASES: [Case; 39] = [
    Case {
        word: "as it is",
        is_version_4: false,
        changes: &[],
        len: 65536,
        expected: "/Workbook 5000 20290;/Sub 0 0;/Sub/Small 70 54017;",
    },
    Case {
        word: "in sectors of 4,096 bytes",
        is_version_4: true,
        changes: &[],
        len: 65536,
        expected: "/Workbook 5000 21445;/Sub 0 0;/Sub/Small 70 54017;",
    },
    Case {
        word: "the FAT listed in a DIFAT sector, and not in the header",
        is_version_4: false,
        changes: &[(0, 68, 14), (0, 72, 1), (0, 76, 0xFFFFFFFF), (15, 0, 0)],
        len: 65536,
        expected: "/Workbook 5000 20290;/Sub 0 0;/Sub/Small 70 54017;",
    },
    Case {
        word: "cut after the last byte that a stream needs",
        is_version_4: false,
        changes: &[],
        len: 7560,
        expected: "/Workbook 5000 20290;/Sub 0 0;/Sub/Small 70 54017;",
    },
    Case {
        word: "cut before it",
        is_version_4: false,
        changes: &[],
        len: 7559,
        expected: "/Workbook Stream Workbook: Sector 13 of the FAT is cut: expecting 392 bytes, found 391;/Sub 0 0;/Sub/Small 70 54017;",
    },
    Case {
        word: "cut before its sector",
        is_version_4: false,
        changes: &[],
        len: 7168,
        expected: "/Workbook Stream Workbook: After sector 12 of the FAT comes D, which the file doesn't have;/Sub 0 0;/Sub/Small 70 54017;",
    },
    Case {
        word: "cut before the FAT",
        is_version_4: false,
        changes: &[],
        len: 512,
        expected: "FAT sector 0 is cut: expecting 512 bytes, found 0",
    },
    Case {
        word: "cut before the mini FAT",
        is_version_4: false,
        changes: &[],
        len: 1536,
        expected: "The mini FAT: A chain of the FAT begins with 2, which the file doesn't have",
    },
    Case {
        word: "cut in the header",
        is_version_4: false,
        changes: &[],
        len: 511,
        expected: "The header is cut: expecting 512 bytes, found 511",
    },
    Case {
        word: "nothing",
        is_version_4: false,
        changes: &[],
        len: 0,
        expected: "Not a compound file: another signature",
    },
    Case {
        word: "another signature",
        is_version_4: false,
        changes: &[(0, 4, 0)],
        len: 65536,
        expected: "Not a compound file: another signature",
    },
    Case {
        word: "another sector shift",
        is_version_4: false,
        changes: &[(0, 30, 0x6000A)],
        len: 65536,
        expected: "Invalid sector shift: expecting 9 or C, found A",
    },
    Case {
        word: "another mini sector shift",
        is_version_4: false,
        changes: &[(0, 30, 0x70009)],
        len: 65536,
        expected: "Invalid mini sector shift: expecting 6, found 7",
    },
    Case {
        word: "a DIFAT that loops",
        is_version_4: false,
        changes: &[(0, 68, 14), (0, 72, 1), (15, 508, 14)],
        len: 65536,
        expected: "The chain from sector 14 of the DIFAT has a loop",
    },
    Case {
        word: "a DIFAT that leaves the file",
        is_version_4: false,
        changes: &[(0, 68, 4096), (0, 72, 1)],
        len: 65536,
        expected: "A chain of the DIFAT begins with 1000, which the file doesn't have",
    },
    Case {
        word: "a FAT that leaves the file",
        is_version_4: false,
        changes: &[(0, 76, 4096)],
        len: 65536,
        expected: "FAT sector 4096 is cut: expecting 512 bytes, found 0",
    },
    Case {
        word: "a directory that loops",
        is_version_4: false,
        changes: &[(1, 4, 1)],
        len: 65536,
        expected: "The directory: The chain from sector 1 of the FAT has a loop",
    },
    Case {
        word: "a directory that leaves the file",
        is_version_4: false,
        changes: &[(0, 48, 0x7FFFFFFF)],
        len: 65536,
        expected: "The directory: A chain of the FAT begins with 7FFFFFFF, which the file doesn't have",
    },
    Case {
        word: "a mini FAT that loops",
        is_version_4: false,
        changes: &[(1, 8, 2)],
        len: 65536,
        expected: "The mini FAT: The chain from sector 2 of the FAT has a loop",
    },
    Case {
        word: "a mini stream that loops",
        is_version_4: false,
        changes: &[(1, 12, 3)],
        len: 65536,
        expected: "The mini stream: The chain from sector 3 of the FAT has a loop",
    },
    Case {
        word: "a mini stream that is short",
        is_version_4: false,
        changes: &[(2, 120, 600)],
        len: 65536,
        expected: "The mini stream: The chain from sector 3 of the FAT is short: expecting 600 bytes, found 512",
    },
    Case {
        word: "a stream that loops",
        is_version_4: false,
        changes: &[(1, 24, 5)],
        len: 65536,
        expected: "/Workbook Stream Workbook: The chain from sector 5 of the FAT has a loop;/Sub 0 0;/Sub/Small 70 54017;",
    },
    Case {
        word: "a stream that goes on into the FAT",
        is_version_4: false,
        changes: &[(1, 24, 0)],
        len: 65536,
        expected: "/Workbook Stream Workbook: After sector 0 of the FAT comes FFFFFFFD, which the file doesn't have;/Sub 0 0;/Sub/Small 70 54017;",
    },
    Case {
        word: "a stream that is short",
        is_version_4: false,
        changes: &[(1, 24, 0xFFFFFFFE)],
        len: 65536,
        expected: "/Workbook Stream Workbook: The chain from sector 5 of the FAT is short: expecting 5000 bytes, found 1536;/Sub 0 0;/Sub/Small 70 54017;",
    },
    Case {
        word: "a chain that is longer than its stream",
        is_version_4: false,
        changes: &[(2, 248, 4096)],
        len: 65536,
        expected: "/Workbook 4096 32220;/Sub 0 0;/Sub/Small 70 54017;",
    },
    Case {
        word: "a size of 4 GiB",
        is_version_4: false,
        changes: &[(2, 248, 0xFFFFFFFF)],
        len: 65536,
        expected: "/Workbook Stream Workbook: The chain from sector 5 of the FAT is short: expecting 4294967295 bytes, found 5120;/Sub 0 0;/Sub/Small 70 54017;",
    },
    Case {
        word: "the upper half of a size in version 3",
        is_version_4: false,
        changes: &[(2, 252, 0x80000000)],
        len: 65536,
        expected: "/Workbook 5000 20290;/Sub 0 0;/Sub/Small 70 54017;",
    },
    Case {
        word: "a size of more than 2^63",
        is_version_4: true,
        changes: &[(2, 252, 0x80000000)],
        len: 65536,
        expected: "/Workbook Stream Workbook: The chain from sector 5 of the FAT is short: expecting 9223372036854780808 bytes, found 40960;/Sub 0 0;/Sub/Small 70 54017;",
    },
    Case {
        word: "a short stream that loops",
        is_version_4: false,
        changes: &[(3, 4, 1)],
        len: 65536,
        expected: "/Workbook 5000 20290;/Sub 0 0;/Sub/Small Stream Small: The chain from sector 1 of the mini FAT has a loop;",
    },
    Case {
        word: "a short stream in a free mini sector",
        is_version_4: false,
        changes: &[(2, 500, 99)],
        len: 65536,
        expected: "/Workbook 5000 20290;/Sub 0 0;/Sub/Small Stream Small: After sector 99 of the mini FAT comes FFFFFFFF, which the file doesn't have;",
    },
    Case {
        word: "a mini sector past the mini stream",
        is_version_4: false,
        changes: &[(2, 500, 9), (3, 36, 0), (2, 504, 128)],
        len: 65536,
        expected: "/Workbook 5000 20290;/Sub 0 0;/Sub/Small Stream Small: Sector 9 of the mini FAT is cut: expecting 64 bytes, found 0;",
    },
    Case {
        word: "no root",
        is_version_4: false,
        changes: &[(2, 64, 0x1010004)],
        len: 65536,
        expected: "The directory has no root entry",
    },
    Case {
        word: "an entry that isn't there",
        is_version_4: false,
        changes: &[(2, 200, 9)],
        len: 65536,
        expected: "The directory has no entry 9, which another leads to",
    },
    Case {
        word: "an entry that is its own sibling",
        is_version_4: false,
        changes: &[(2, 200, 1)],
        len: 65536,
        expected: "Two ways lead to directory entry 1",
    },
    Case {
        word: "an entry that is its own child",
        is_version_4: false,
        changes: &[(2, 332, 2)],
        len: 65536,
        expected: "Two ways lead to directory entry 2",
    },
    Case {
        word: "the root that is its own child",
        is_version_4: false,
        changes: &[(2, 76, 0)],
        len: 65536,
        expected: "Two ways lead to directory entry 0",
    },
    Case {
        word: "an unknown type",
        is_version_4: false,
        changes: &[(2, 192, 0x1070012)],
        len: 65536,
        expected: "Directory entry 1 has the unknown type 7",
    },
    Case {
        word: "a name of odd length",
        is_version_4: false,
        changes: &[(2, 192, 0x1020011)],
        len: 65536,
        expected: "The name of directory entry 1 has the wrong length 17",
    },
    Case {
        word: "a name that is too long",
        is_version_4: false,
        changes: &[(2, 192, 0x1020042)],
        len: 65536,
        expected: "The name of directory entry 1 has the wrong length 66",
    },
];

#[test]
fn lists_whole_files_and_names_each_fault(rt: HostRuntime) -> Result<(), Fail> {
    for case in CASES.iter() {
        let text = said(rt.alloc(), case)?;
        assert!(rt; text.as_str() == case.expected, "{}: {text}", case.word);
    }
    Ok(())
}

// The size of what the names lead to.
fn size_at(compound: &Compound<'_>, path: &[&str]) -> Option<u64> {
    let entry = compound.find(path)?;
    Some(entry.size())
}

fn is_found(alloc: Global) -> Result<bool, CompoundError> {
    let file = sample(alloc, false)?;
    let compound = Compound::open(alloc, &file)?;
    Ok(
        size_at(&compound, &["sub", "SMALL"]) == Some(70)
            && size_at(&compound, &["Small"]).is_none()
            && size_at(&compound, &["Sub", "Small", "x"]).is_none()
            && size_at(&compound, &[]).is_none()
            && compound.workbook().is_some(),
    )
}

#[test]
fn finds_names_whatever_their_case(rt: HostRuntime) -> Result<(), Fail> {
    assert!(rt; is_found(rt.alloc())?);
    Ok(())
}
