//! Refusals by their numbers.

ghost use Rattle.std.specs.Prelude.{◌≡◌, ◌%◌, ◌^◌};
ghost use Rattle.std.specs.Option.{option_map};
ghost use Rattle.xls_arrays.specs.Telling.{call_refusal, chain_numbered, chain_refusal, directory_fault_numbered};
ghost use Rattle.xls_arrays.specs.Telling.{file_refusal, file_kind_numbered, numbered_fault, old_kind};
ghost use Rattle.xls_arrays.specs.Telling.{part_fault, refusal_of, sector_of, stream_error};
ghost use Rattle.xls_arrays.specs.Telling.{table_fault, table_of};
ghost use Rattle.xls_record.specs.declared.error.XlsError.TheVariants as errors;
ghost use Rattle.xls_text.specs.declared.error.CfbError.TheVariants as pages;
ghost use Rattle.xls_arrays.specs.declared.refusal.Refusal.TheVariants as refusals;

use crate::faults::Fault;
use crate::parts::part_of;
use crate::refusal::{Chain, Refusal};
use xls_compound::DirectoryFault;
use xls_container::FileKind;
use xls_record::{Part, XlsError};
use xls_sectors::{SectorFault, Table};
use xls_text::CfbError;

/// The lowest 8 bits of a number.
fn low_u8(number: u64) -> u8
    ensures { result ≡ number % 2 ^ 8 }
{
    (number % 256) as u8
}

/// The lowest 16 bits.
fn low_u16(number: u64) -> u16
    ensures { result ≡ number % 2 ^ 16 }
{
    (number % 65_536) as u16
}

/// The lowest 32 bits.
fn low_u32(number: u64) -> u32
    ensures { result ≡ number % 2 ^ 32 }
{
    (number % 4_294_967_296) as u32
}

/// The first fault of a stream that names this part.
fn part_fault(fault: &Fault, part: Option<Part>) -> Option<XlsError>
    ensures { result ≡ part_fault fault.now part }
{
    let typ = part?;
    match fault.code {
        20 => Some(XlsError::Len {
            expected: fault.first as usize,
            found: fault.second as usize,
            typ,
        }),
        21 => Some(XlsError::Unrecognized {
            typ,
            val: low_u8(fault.first),
        }),
        22 => Some(XlsError::EoStream(typ)),
        _ => None,
    }
}

/// The first fault of a stream that has a number or a part.
fn numbered_fault(fault: &Fault) -> Option<XlsError>
    ensures { result ≡ numbered_fault fault.now }
{
    match fault.code {
        25 => Some(XlsError::InvalidFormula {
            stack_size: fault.first as usize,
        }),
        26 => Some(XlsError::IfTab(fault.first as usize)),
        27 => Some(XlsError::Etpg(low_u8(fault.first))),
        28 => Some(XlsError::InvalidFormat {
            ifmt: low_u16(fault.first),
        }),
        _ => part_fault(fault, part_of(fault.part)),
    }
}

/// The page that isn't read.
fn page_fault(page: u64) -> XlsError
    ensures { result ≡ errors.Cfb (pages.CodePageNotFound (page % 2 ^ 16)) }
{
    XlsError::Cfb(CfbError::CodePageNotFound(low_u16(page)))
}

/// The first fault of a stream.
fn stream_error(fault: &Fault) -> Option<XlsError>
    ensures { result ≡ stream_error fault.now }
{
    match fault.code {
        16 => Some(XlsError::TooLarge { limit: fault.first }),
        17 => Some(XlsError::TooManyCells { limit: fault.first }),
        18 => Some(page_fault(fault.first)),
        19 => Some(XlsError::Password),
        23 => Some(XlsError::ContinueRecordTooShort),
        24 => Some(XlsError::StackLen),
        29 => Some(XlsError::Io),
        _ => numbered_fault(fault),
    }
}

/// The table of a number.
fn table_of(number: u32) -> Option<Table>
    ensures { result ≡ table_of number }
{
    match number {
        1 => Some(Table::Difat),
        2 => Some(Table::Fat),
        3 => Some(Table::MiniFat),
        _ => None,
    }
}

/// The chain of a number.
fn chain_of(number: u32) -> Option<Chain>
    ensures { result ≡ chain_numbered number }
{
    match number {
        1 => Some(Chain::Tables),
        2 => Some(Chain::Directory),
        3 => Some(Chain::MiniFat),
        4 => Some(Chain::MiniStream),
        5 => Some(Chain::Workbook),
        _ => None,
    }
}

/// The fault of a chain that names this table.
fn table_fault(fault: &Fault, table: Option<Table>) -> Option<SectorFault>
    ensures { result ≡ table_fault fault.now table }
{
    let table = table?;
    match fault.code {
        68 => Some(SectorFault::Loop {
            table,
            first: low_u32(fault.first),
        }),
        69 => Some(SectorFault::Leaves {
            table,
            after: Some(low_u32(fault.first)),
            number: low_u32(fault.second),
        }),
        70 => Some(SectorFault::Leaves {
            table,
            after: None,
            number: low_u32(fault.second),
        }),
        71 => Some(SectorFault::Short {
            table,
            first: low_u32(fault.first),
            expected: fault.second,
            found: fault.third,
        }),
        72 => Some(SectorFault::Cut {
            table,
            sector: low_u32(fault.first),
            expected: fault.second as usize,
            found: fault.third as usize,
        }),
        _ => None,
    }
}

/// The fault of a chain, which isn't named.
fn sector_of(fault: &Fault) -> Option<SectorFault>
    ensures { result ≡ sector_of fault.now }
{
    match fault.code {
        64 => Some(SectorFault::NotCompound),
        65 => Some(SectorFault::HeaderCut {
            found: fault.first as usize,
        }),
        66 => Some(SectorFault::SectorShift {
            found: low_u16(fault.first),
        }),
        67 => Some(SectorFault::MiniSectorShift {
            found: low_u16(fault.first),
        }),
        73 => Some(SectorFault::FatCut {
            sector: low_u32(fault.first),
            expected: fault.second as usize,
            found: fault.third as usize,
        }),
        _ => table_fault(fault, table_of(fault.table)),
    }
}

/// The fault of a directory.
fn entry_of(fault: &Fault) -> Option<DirectoryFault>
    ensures { result ≡ directory_fault_numbered fault.now }
{
    let number = low_u32(fault.first);
    match fault.code {
        80 => Some(DirectoryFault::NoRoot),
        81 => Some(DirectoryFault::Missing { number }),
        82 => Some(DirectoryFault::Twice { number }),
        83 => Some(DirectoryFault::Kind {
            number,
            kind: low_u8(fault.second),
        }),
        84 => Some(DirectoryFault::NameSize {
            number,
            size: low_u16(fault.second),
        }),
        _ => None,
    }
}

/// What a file is, by its number, from 7 on.
fn old_kind(number: u32) -> Option<FileKind>
    ensures { result ≡ old_kind number }
{
    match number {
        7 => Some(FileKind::Pdf),
        8 => Some(FileKind::Excel2),
        9 => Some(FileKind::Excel3),
        10 => Some(FileKind::Excel4),
        11 => Some(FileKind::Other),
        _ => None,
    }
}

/// What a file is, by its number.
fn kind_of(number: u32) -> Option<FileKind>
    ensures { result ≡ file_kind_numbered number }
{
    match number {
        1 => Some(FileKind::Empty),
        2 => Some(FileKind::Zip),
        3 => Some(FileKind::Html),
        4 => Some(FileKind::Mhtml),
        5 => Some(FileKind::Sylk),
        6 => Some(FileKind::RichText),
        _ => old_kind(number),
    }
}

/// The refusal for the first fault of a stream.
fn stream_refusal(error: Option<XlsError>) -> Option<Refusal>
    ensures { result ≡ option_map (λ e. refusals.Stream e) error }
{
    match error {
        Some(error) => Some(Refusal::Stream(error)),
        None => None,
    }
}

/// The refusal for a damaged chain.
fn chain_refusal(chain: Option<Chain>, fault: Option<SectorFault>) -> Option<Refusal>
    ensures { result ≡ chain_refusal chain fault }
{
    match chain {
        Some(chain) => match fault {
            Some(fault) => Some(Refusal::Chain(chain, fault)),
            None => None,
        },
        None => None,
    }
}

/// The refusal for a damaged directory.
fn directory_refusal(fault: Option<DirectoryFault>) -> Option<Refusal>
    ensures { result ≡ option_map (λ d. refusals.Directory d) fault }
{
    match fault {
        Some(fault) => Some(Refusal::Directory(fault)),
        None => None,
    }
}

/// The refusal for what a file is.
fn kind_refusal(kind: Option<FileKind>) -> Option<Refusal>
    ensures { result ≡ option_map (λ k. refusals.Kind k) kind }
{
    match kind {
        Some(kind) => Some(Refusal::Kind(kind)),
        None => None,
    }
}

/// The refusal of a call itself.
fn call_refusal(fault: &Fault) -> Option<Refusal>
    ensures { result ≡ call_refusal fault.now }
{
    match fault.code {
        1 => Some(Refusal::Memory),
        2 => Some(Refusal::TooShort),
        3 => Some(Refusal::NoSheet(fault.first)),
        4 => Some(Refusal::Obfuscated),
        _ => None,
    }
}

/// The refusal of a file without a workbook.
fn file_refusal(fault: &Fault) -> Option<Refusal>
    ensures { result ≡ file_refusal fault.now }
{
    match fault.code {
        48 => kind_refusal(kind_of(fault.part)),
        49 => Some(Refusal::NoWorkbook),
        _ => None,
    }
}

/// The refusal that numbers tell. None where no call gives such numbers.
pub fn refusal_of(fault: &Fault) -> Option<Refusal>
    ensures { result ≡ refusal_of fault.now }
{
    if fault.code < 16 {
        return call_refusal(fault);
    }
    if fault.code < 48 {
        return stream_refusal(stream_error(fault));
    }
    if fault.code < 64 {
        return file_refusal(fault);
    }
    if fault.code < 80 {
        return chain_refusal(chain_of(fault.part), sector_of(fault));
    }
    directory_refusal(entry_of(fault))
}
