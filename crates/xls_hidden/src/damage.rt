//! Records that say what is hidden, and are damaged.

use std::fmt;

/// The record that is damaged, by its name in [MS-XLS].
#[derive(Clone, Copy, Debug, PartialEq, Eq)]
pub enum DamagedRecord {
    Row,
    ColInfo,
    DefaultRowHeight,
}

/// What is wrong with a record.
#[derive(Clone, Copy, Debug, PartialEq, Eq)]
pub enum Flaw {
    /// It has fewer bytes than the least number.
    Short { least: u16, found: usize },
    /// Its row is one that no sheet of the version has.
    PastLastRow,
}

/// A damaged record, which counts for nothing else.
#[derive(Clone, Copy, Debug, PartialEq, Eq)]
pub struct Damage {
    pub record_name: DamagedRecord,
    /// The place of its header in the stream.
    pub offset: u64,
    /// The row of a Row record, where its two bytes are there.
    pub row: Option<u16>,
    /// The first column of a ColInfo record, where its two bytes are there.
    pub column: Option<u16>,
    pub flaw: Flaw,
}

/// The record's name.
impl fmt::Display for DamagedRecord {
    ghost use Rattle.std.specs.Prelude.{Some};
    ghost use Rattle.xls_hidden.specs.Texts.{record_text};

    ghost output = { λ record_name. Some (record_text record_name) };

    fn fmt<W: fmt::Write>(&self, f: &mut fmt::Formatter<W>) -> fmt::Result {
        f.write_str(match self {
            DamagedRecord::Row => "Row",
            DamagedRecord::ColInfo => "ColInfo",
            DamagedRecord::DefaultRowHeight => "DefaultRowHeight",
        })
    }
}

/// A sentence that says what is wrong.
impl fmt::Display for Flaw {
    ghost use Rattle.std.specs.Prelude.{Some};
    ghost use Rattle.xls_hidden.specs.Texts.{flaw_text};

    ghost output = { λ flaw. Some (flaw_text flaw) };

    fn fmt<W: fmt::Write>(&self, f: &mut fmt::Formatter<W>) -> fmt::Result {
        match self {
            Flaw::Short { least, found } => write!(f, "shorter than {least} bytes: {found}"),
            Flaw::PastLastRow => f.write_str("it is past the last row"),
        }
    }
}
