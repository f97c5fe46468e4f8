//! What a file's header and tables, and the chains in them, are refused for.

use std::alloc::{AllocError, AllocFailed};
use std::error::Error;
use std::fmt;

/// A table of a compound file.
#[derive(Clone, Copy, Debug, PartialEq, Eq)]
pub enum Table {
    /// The sectors that list the FAT's sectors, [MS-CFB] 2.5.
    Difat,
    /// What follows each sector in its chain, [MS-CFB] 2.3.
    Fat,
    /// What follows each mini sector in its chain, [MS-CFB] 2.4.
    MiniFat,
}

/// Why a file isn't opened, or a chain isn't read. Sectors are counted as [MS-CFB] counts them: 0
/// is the one after the header. Those of the mini FAT are mini sectors.
#[derive(Clone, Copy, Debug, PartialEq, Eq)]
pub enum SectorFault {
    /// The file doesn't begin with the signature D0 CF 11 E0 A1 B1 1A E1.
    NotCompound,
    /// The file ends within the 512 bytes of the header.
    HeaderCut {
        /// The bytes that the file has.
        found: usize,
    },
    /// The sector shift is neither 0009 nor 000C.
    SectorShift {
        /// The shift.
        found: u16,
    },
    /// The mini sector shift isn't 0006.
    MiniSectorShift {
        /// The shift.
        found: u16,
    },
    /// A chain comes back to a sector that is in it.
    Loop {
        /// The table that the chain is in.
        table: Table,
        /// The chain's first sector.
        first: u32,
    },
    /// A chain goes on to a number for which its table has no entry, where more is needed of it.
    Leaves {
        /// The table that the chain is in.
        table: Table,
        /// The sector after which the number stands, or None where the chain begins with it.
        after: Option<u32>,
        /// The number.
        number: u32,
    },
    /// A chain ends before it has all bytes of the stream.
    Short {
        /// The table that the chain is in.
        table: Table,
        /// The chain's first sector.
        first: u32,
        /// The bytes of the stream.
        expected: u64,
        /// The bytes of the chain's sectors.
        found: u64,
    },
    /// What is needed of a sector in a chain isn't there.
    Cut {
        /// The table that the chain is in.
        table: Table,
        /// The sector.
        sector: u32,
        /// The bytes that are needed of it.
        expected: usize,
        /// The bytes that are there.
        found: usize,
    },
    /// A sector of the FAT itself isn't whole in the file.
    FatCut {
        /// The sector.
        sector: u32,
        /// The bytes of a sector.
        expected: usize,
        /// The bytes that are there.
        found: usize,
    },
}

/// What opening a file or reading a chain is refused for.
#[derive(Clone, Copy, Debug, PartialEq, Eq)]
pub enum SectorError {
    /// What is wrong with the file.
    Fault(SectorFault),
    /// Memory ran out.
    Memory,
}

impl From<SectorFault> for SectorError {
    ghost use Rattle.std.specs.Prelude.{◌≡◌};
    ghost use Rattle.xls_sectors.specs.declared.error.SectorError.TheVariants.{Fault};

    ghost from_gives = { λ fault e. e ≡ Fault fault };

    fn from(fault: SectorFault) -> SectorError {
        SectorError::Fault(fault)
    }
}

impl From<AllocError> for SectorError {
    ghost use Rattle.std.specs.Prelude.{◌≡◌};
    ghost use Rattle.xls_sectors.specs.declared.error.SectorError.TheVariants.{Memory};

    ghost from_gives = { λ _ e. e ≡ Memory };

    fn from(_error: AllocError) -> SectorError {
        SectorError::Memory
    }
}

impl<T: Drop> From<AllocFailed<T>> for SectorError {
    ghost use Rattle.std.specs.Prelude.{◌≡◌};
    ghost use Rattle.xls_sectors.specs.declared.error.SectorError.TheVariants.{Memory};

    ghost from_gives = { λ _ e. e ≡ Memory };

    fn from(_error: AllocFailed<T>) -> SectorError {
        SectorError::Memory
    }
}

impl fmt::Display for Table {
    ghost use Rattle.std.specs.Prelude.{Some};
    ghost use Rattle.xls_sectors.specs.Errors.{table_text};

    ghost output = { λ table. Some (table_text table) };

    fn fmt<W: fmt::Write>(&self, f: &mut fmt::Formatter<W>) -> fmt::Result {
        match self {
            Table::Difat => write!(f, "DIFAT"),
            Table::Fat => write!(f, "FAT"),
            Table::MiniFat => write!(f, "mini FAT"),
        }
    }
}

// The bytes that were expected and those that were found.
#[derive(Drop)]
struct Counts(u64, u64);

impl fmt::Display for Counts {
    ghost use Rattle.std.specs.Prelude.{Some};
    ghost use Rattle.xls_sectors.specs.Errors.{counts_text};

    ghost output = { λ counts. Some (counts_text counts.0 counts.1) };

    fn fmt<W: fmt::Write>(&self, f: &mut fmt::Formatter<W>) -> fmt::Result {
        let Counts(expected, found) = self;
        write!(f, "expecting {expected} bytes, found {found}")
    }
}

impl fmt::Display for SectorFault {
    ghost use Rattle.std.specs.Prelude.{Some};
    ghost use Rattle.xls_sectors.specs.Errors.{fault_text};

    ghost output = { λ fault. Some (fault_text fault) };

    fn fmt<W: fmt::Write>(&self, f: &mut fmt::Formatter<W>) -> fmt::Result {
        match self {
            SectorFault::NotCompound => write!(f, "Not a compound file: another signature"),
            SectorFault::HeaderCut { found } => {
                write!(f, "The header is cut: expecting 512 bytes, found {found}")
            }
            SectorFault::SectorShift { found } => {
                write!(f, "Invalid sector shift: expecting 9 or C, found {found:X}")
            }
            SectorFault::MiniSectorShift { found } => {
                write!(f, "Invalid mini sector shift: expecting 6, found {found:X}")
            }
            SectorFault::Loop { table, first } => {
                write!(f, "The chain from sector {first} of the {table} has a loop")
            }
            SectorFault::Leaves {
                table,
                after: Some(sector),
                number,
            } => {
                write!(
                    f,
                    "After sector {sector} of the {table} comes {number:X}, which the file doesn't have"
                )
            }
            SectorFault::Leaves {
                table,
                after: None,
                number,
            } => {
                write!(
                    f,
                    "A chain of the {table} begins with {number:X}, which the file doesn't have"
                )
            }
            SectorFault::Short {
                table,
                first,
                expected,
                found,
            } => {
                let counts = Counts(*expected, *found);
                write!(
                    f,
                    "The chain from sector {first} of the {table} is short: {counts}"
                )
            }
            SectorFault::Cut {
                table,
                sector,
                expected,
                found,
            } => {
                let counts = Counts(*expected as u64, *found as u64);
                write!(f, "Sector {sector} of the {table} is cut: {counts}")
            }
            SectorFault::FatCut {
                sector,
                expected,
                found,
            } => {
                let counts = Counts(*expected as u64, *found as u64);
                write!(f, "FAT sector {sector} is cut: {counts}")
            }
        }
    }
}

impl fmt::Display for SectorError {
    ghost use Rattle.std.specs.Prelude.{Some};
    ghost use Rattle.xls_sectors.specs.Errors.{error_text};

    ghost output = { λ error. Some (error_text error) };

    fn fmt<W: fmt::Write>(&self, f: &mut fmt::Formatter<W>) -> fmt::Result {
        match self {
            SectorError::Fault(fault) => write!(f, "{fault}"),
            SectorError::Memory => write!(f, "Out of memory"),
        }
    }
}

impl Error for SectorFault {}

impl Error for SectorError {}
