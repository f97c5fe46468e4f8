//! Why a call doesn't do what is asked for.

use std::alloc::AllocError;
use std::fmt;
use xls_compound::{CompoundError, DirectoryFault};
use xls_container::{FileFault, FileKind};
use xls_record::XlsError;
use xls_sectors::SectorFault;

/// Which chain of a compound file is damaged.
#[derive(Clone, Copy, Debug, PartialEq, Eq)]
pub enum Chain {
    /// The header, the DIFAT or the FAT.
    Tables,
    Directory,
    MiniFat,
    MiniStream,
    /// The workbook's stream.
    Workbook,
}

/// Why a call doesn't do what is asked for.
#[derive(Debug, Drop)]
pub enum Refusal {
    /// Memory ran out.
    Memory,
    /// An array is shorter than what it is to hold.
    TooShort,
    /// The workbook has no sheet of this index.
    NoSheet(u64),
    /// The records of the stream are obfuscated with a password.
    Obfuscated,
    /// The first fault of the stream.
    Stream(XlsError),
    /// The file is neither a compound file nor a workbook's stream.
    Kind(FileKind),
    /// A compound file without the stream `Workbook` or `Book`.
    NoWorkbook,
    /// A damaged chain of a compound file.
    Chain(Chain, SectorFault),
    /// A damaged directory of a compound file.
    Directory(DirectoryFault),
}

impl From<AllocError> for Refusal {
    ghost use Rattle.std.specs.Prelude.{◌≡◌};
    ghost use Rattle.xls_arrays.specs.declared.refusal.Refusal.TheVariants.{Memory};

    ghost from_gives = { λ _ r. r ≡ Memory };

    fn from(_error: AllocError) -> Refusal {
        Refusal::Memory
    }
}

impl From<XlsError> for Refusal {
    ghost use Rattle.std.specs.Prelude.{◌≡◌};
    ghost use Rattle.xls_arrays.specs.Refusals.{refusal_of_stream};

    ghost from_gives = { λ error r. r ≡ refusal_of_stream error };

    fn from(error: XlsError) -> Refusal {
        match error {
            XlsError::Memory => Refusal::Memory,
            error => Refusal::Stream(error),
        }
    }
}

impl From<CompoundError> for Refusal {
    ghost use Rattle.std.specs.Prelude.{◌≡◌};
    ghost use Rattle.xls_arrays.specs.Refusals.{refusal_of_compound};

    ghost from_gives = { λ error r. r ≡ refusal_of_compound error };

    fn from(error: CompoundError) -> Refusal {
        match error {
            CompoundError::Tables(fault) => Refusal::Chain(Chain::Tables, fault),
            CompoundError::DirectoryChain(fault) => Refusal::Chain(Chain::Directory, fault),
            CompoundError::Directory(fault) => Refusal::Directory(fault),
            CompoundError::MiniFat(fault) => Refusal::Chain(Chain::MiniFat, fault),
            CompoundError::MiniStream(fault) => Refusal::Chain(Chain::MiniStream, fault),
            CompoundError::Stream { name: _, fault } => Refusal::Chain(Chain::Workbook, fault),
            CompoundError::Memory => Refusal::Memory,
        }
    }
}

impl From<FileFault> for Refusal {
    ghost use Rattle.std.specs.Prelude.{◌≡◌};
    ghost use Rattle.xls_arrays.specs.Refusals.{refusal_of_file};

    ghost from_gives = { λ fault r. r ≡ refusal_of_file fault };

    fn from(fault: FileFault) -> Refusal {
        match fault {
            FileFault::Kind(kind) => Refusal::Kind(kind),
            FileFault::Compound(error) => Refusal::from(error),
            FileFault::NoWorkbook => Refusal::NoWorkbook,
            FileFault::Memory => Refusal::Memory,
        }
    }
}

impl fmt::Display for Chain {
    ghost use Rattle.std.specs.Prelude.{Some};
    ghost use Rattle.xls_arrays.specs.Texts.{chain_text};

    ghost output = { λ chain. Some (chain_text chain) };

    fn fmt<W: fmt::Write>(&self, f: &mut fmt::Formatter<W>) -> fmt::Result {
        f.write_str(match self {
            Chain::Tables => "",
            Chain::Directory => "The directory: ",
            Chain::MiniFat => "The mini FAT: ",
            Chain::MiniStream => "The mini stream: ",
            Chain::Workbook => "The workbook's stream: ",
        })
    }
}

impl fmt::Display for Refusal {
    ghost use Rattle.std.specs.Prelude.{Some};
    ghost use Rattle.xls_arrays.specs.Texts.{refusal_text};

    ghost output = { λ refusal. Some (refusal_text refusal) };

    fn fmt<W: fmt::Write>(&self, f: &mut fmt::Formatter<W>) -> fmt::Result {
        match self {
            Refusal::Memory => f.write_str("Out of memory"),
            Refusal::TooShort => f.write_str("An array is too short"),
            Refusal::NoSheet(index) => write!(f, "The workbook has no sheet {index}"),
            Refusal::Obfuscated => f.write_str("The records are obfuscated with a password (XOR)"),
            Refusal::Stream(error) => write!(f, "{error}"),
            Refusal::Kind(kind) => write!(f, "{}", FileFault::Kind(*kind)),
            Refusal::NoWorkbook => write!(f, "{}", FileFault::NoWorkbook),
            Refusal::Chain(chain, fault) => write!(f, "A damaged compound file: {chain}{fault}"),
            Refusal::Directory(fault) => write!(f, "A damaged compound file: {fault}"),
        }
    }
}
