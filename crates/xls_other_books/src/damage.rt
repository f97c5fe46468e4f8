//! Records that say which other workbooks there are, and are damaged.

use std::fmt;

/// The record that is damaged, by its name in [MS-XLS].
#[derive(Clone, Copy, Debug, PartialEq, Eq)]
pub enum DamagedRecord {
    SupBook,
    ExternName,
    ExternSheet,
}

/// What is wrong with a record.
#[derive(Clone, Copy, Debug, PartialEq, Eq)]
pub enum Flaw {
    /// It has fewer bytes than the least number.
    Short { least: u16, found: usize },
    /// The path or a sheet's name of a SupBook isn't there whole.
    NamesMissing,
    /// An ExternSheet before BIFF8 without a byte.
    Empty,
    /// An ExternSheet before BIFF8 whose name has no byte.
    Nameless,
}

/// A damaged record.
#[derive(Clone, Copy, Debug, PartialEq, Eq)]
pub struct Damage {
    pub record_name: DamagedRecord,
    /// The place of its header in the stream.
    pub offset: u64,
    pub flaw: Flaw,
}

/// The record's name.
impl fmt::Display for DamagedRecord {
    ghost use Rattle.std.specs.Prelude.{Some};
    ghost use Rattle.xls_other_books.specs.Texts.{record_text};

    ghost output = { λ record_name. Some (record_text record_name) };

    fn fmt<W: fmt::Write>(&self, f: &mut fmt::Formatter<W>) -> fmt::Result {
        f.write_str(match self {
            DamagedRecord::SupBook => "SupBook",
            DamagedRecord::ExternName => "ExternName",
            DamagedRecord::ExternSheet => "ExternSheet",
        })
    }
}

/// A sentence that says what is wrong.
impl fmt::Display for Flaw {
    ghost use Rattle.std.specs.Prelude.{Some};
    ghost use Rattle.xls_other_books.specs.Texts.{flaw_text};

    ghost output = { λ flaw. Some (flaw_text flaw) };

    fn fmt<W: fmt::Write>(&self, f: &mut fmt::Formatter<W>) -> fmt::Result {
        match self {
            Flaw::Short { least, found } => write!(f, "shorter than {least} bytes: {found}"),
            Flaw::NamesMissing => f.write_str("it ends before its names do"),
            Flaw::Empty => f.write_str("it is empty"),
            Flaw::Nameless => f.write_str("it has no name"),
        }
    }
}
