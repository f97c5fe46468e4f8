//! Refusals as numbers, as C lays them out.

ghost use Rattle.std.specs.Prelude.{◌≡◌};
ghost use Rattle.xls_arrays.specs.Faults.{fault_numbered};
ghost use Rattle.xls_arrays.specs.Codes.{chain_number, numbered, plain, directory_fault};
ghost use Rattle.xls_arrays.specs.Codes.{file_kind_number, sector_fault, stream_fault, table_number};

use crate::parts::part_number;
use crate::refusal::{Chain, Refusal};
use xls_compound::DirectoryFault;
use xls_container::FileKind;
use xls_record::XlsError;
use xls_sectors::{SectorFault, Table};
use xls_text::CfbError;

/// Why a call doesn't do what is asked for: a code, and what belongs to it; the rest is 0. All is 0 where it
/// was done.
#[repr(C)]
#[derive(Clone, Copy, Debug, PartialEq, Eq)]
pub struct Fault {
    pub code: u32,
    /// The part of a stream, the kind of a file, or the chain of a compound file, from 1.
    pub part: u32,
    /// The table of a compound file, from 1.
    pub table: u32,
    /// 0.
    pub reserved: u32,
    pub first: u64,
    pub second: u64,
    pub third: u64,
}

/// A code alone; 0 where what was asked for is done.
pub fn plain(code: u32) -> Fault
    ensures { result ≡ plain code }
{
    Fault {
        code,
        part: 0,
        table: 0,
        reserved: 0,
        first: 0,
        second: 0,
        third: 0,
    }
}

/// A code and a number.
fn numbered(code: u32, first: u64) -> Fault
    ensures { result ≡ numbered code first }
{
    Fault {
        first,
        ..plain(code)
    }
}

/// The first fault of a stream.
fn stream_fault(error: &XlsError) -> Fault
    ensures { result ≡ stream_fault error.now }
{
    match error {
        XlsError::Io => plain(29),
        XlsError::Memory => plain(1),
        XlsError::TooLarge { limit } => numbered(16, *limit),
        XlsError::TooManyCells { limit } => numbered(17, *limit),
        XlsError::Cfb(CfbError::CodePageNotFound(page)) => numbered(18, *page as u64),
        XlsError::Password => plain(19),
        XlsError::Len {
            expected,
            found,
            typ,
        } => Fault {
            part: part_number(*typ),
            first: *expected as u64,
            second: *found as u64,
            ..plain(20)
        },
        XlsError::Unrecognized { typ, val } => Fault {
            part: part_number(*typ),
            first: *val as u64,
            ..plain(21)
        },
        XlsError::EoStream(typ) => Fault {
            part: part_number(*typ),
            ..plain(22)
        },
        XlsError::ContinueRecordTooShort => plain(23),
        XlsError::StackLen => plain(24),
        XlsError::InvalidFormula { stack_size } => numbered(25, *stack_size as u64),
        XlsError::IfTab(index) => numbered(26, *index as u64),
        XlsError::Etpg(number) => numbered(27, *number as u64),
        XlsError::InvalidFormat { ifmt } => numbered(28, *ifmt as u64),
        XlsError::WorksheetNotFound(_) => plain(30),
    }
}

/// The number of a table of a compound file.
fn table_number(table: Table) -> u32
    ensures { result ≡ table_number table }
{
    match table {
        Table::Difat => 1,
        Table::Fat => 2,
        Table::MiniFat => 3,
    }
}

/// The number of a chain of a compound file.
fn chain_number(chain: Chain) -> u32
    ensures { result ≡ chain_number chain }
{
    match chain {
        Chain::Tables => 1,
        Chain::Directory => 2,
        Chain::MiniFat => 3,
        Chain::MiniStream => 4,
        Chain::Workbook => 5,
    }
}

/// The fault of a chain, which isn't named.
fn sector_fault(fault: &SectorFault) -> Fault
    ensures { result ≡ sector_fault fault.now }
{
    match fault {
        SectorFault::NotCompound => plain(64),
        SectorFault::HeaderCut { found } => numbered(65, *found as u64),
        SectorFault::SectorShift { found } => numbered(66, *found as u64),
        SectorFault::MiniSectorShift { found } => numbered(67, *found as u64),
        SectorFault::Loop { table, first } => Fault {
            table: table_number(*table),
            first: *first as u64,
            ..plain(68)
        },
        SectorFault::Leaves {
            table,
            after: Some(after),
            number,
        } => Fault {
            table: table_number(*table),
            first: *after as u64,
            second: *number as u64,
            ..plain(69)
        },
        SectorFault::Leaves {
            table,
            after: None,
            number,
        } => Fault {
            table: table_number(*table),
            second: *number as u64,
            ..plain(70)
        },
        SectorFault::Short {
            table,
            first,
            expected,
            found,
        } => Fault {
            table: table_number(*table),
            first: *first as u64,
            second: *expected,
            third: *found,
            ..plain(71)
        },
        SectorFault::Cut {
            table,
            sector,
            expected,
            found,
        } => Fault {
            table: table_number(*table),
            first: *sector as u64,
            second: *expected as u64,
            third: *found as u64,
            ..plain(72)
        },
        SectorFault::FatCut {
            sector,
            expected,
            found,
        } => Fault {
            first: *sector as u64,
            second: *expected as u64,
            third: *found as u64,
            ..plain(73)
        },
    }
}

/// The fault of a directory.
fn directory_fault(fault: &DirectoryFault) -> Fault
    ensures { result ≡ directory_fault fault.now }
{
    match fault {
        DirectoryFault::NoRoot => plain(80),
        DirectoryFault::Missing { number } => numbered(81, *number as u64),
        DirectoryFault::Twice { number } => numbered(82, *number as u64),
        DirectoryFault::Kind { number, kind } => Fault {
            first: *number as u64,
            second: *kind as u64,
            ..plain(83)
        },
        DirectoryFault::NameSize { number, size } => Fault {
            first: *number as u64,
            second: *size as u64,
            ..plain(84)
        },
    }
}

/// The number of what a file is.
fn kind_number(kind: FileKind) -> u32
    ensures { result ≡ file_kind_number kind }
{
    match kind {
        FileKind::Empty => 1,
        FileKind::Zip => 2,
        FileKind::Html => 3,
        FileKind::Mhtml => 4,
        FileKind::Sylk => 5,
        FileKind::RichText => 6,
        FileKind::Pdf => 7,
        FileKind::Excel2 => 8,
        FileKind::Excel3 => 9,
        FileKind::Excel4 => 10,
        FileKind::Other => 11,
    }
}

/// A refusal as numbers.
pub fn fault_of(refusal: &Refusal) -> Fault
    ensures { result ≡ fault_numbered refusal.now }
{
    match refusal {
        Refusal::Memory => plain(1),
        Refusal::TooShort => plain(2),
        Refusal::NoSheet(index) => numbered(3, *index),
        Refusal::Obfuscated => plain(4),
        Refusal::Stream(error) => stream_fault(error),
        Refusal::Kind(kind) => Fault {
            part: kind_number(*kind),
            ..plain(48)
        },
        Refusal::NoWorkbook => plain(49),
        Refusal::Chain(chain, fault) => Fault {
            part: chain_number(*chain),
            ..sector_fault(fault)
        },
        Refusal::Directory(fault) => directory_fault(fault),
    }
}
