//! Notes that are damaged.

use std::fmt;

/// The record that is damaged, by its name in [MS-XLS].
#[derive(Clone, Copy, Debug, PartialEq, Eq)]
pub enum DamagedRecord {
    Note,
}

/// What is wrong with a Note.
#[derive(Clone, Copy, Debug, PartialEq, Eq)]
pub enum Flaw {
    /// It has fewer bytes than the least number.
    Short { least: u16, found: usize },
    /// No object has its identifier.
    NoObject { identifier: u16 },
    /// Its object has no text.
    NoText { identifier: u16 },
    /// The TxO of its text has fewer than 12 bytes.
    ShortText { found: usize },
    /// Its text has fewer units than it says.
    UnitsEnd { found: usize, count: u16 },
    /// Its text has fewer bytes than it says.
    BytesEnd { found: usize, count: u16 },
    /// It has more of a text, and stands behind none that lacks something.
    ContinuesNothing,
}

/// A damaged Note.
#[derive(Clone, Copy, Debug, PartialEq, Eq)]
pub struct Damage {
    pub record_name: DamagedRecord,
    /// The place of its header in the stream.
    pub offset: u64,
    /// The row of its cell, where the bytes of row and column are there and it has a cell.
    pub row: Option<u16>,
    /// The column of its cell, likewise.
    pub column: Option<u16>,
    pub flaw: Flaw,
}

/// The record's name.
impl fmt::Display for DamagedRecord {
    ghost use Rattle.std.specs.Prelude.{Some};
    ghost use Rattle.xls_comments.specs.Texts.{record_text};

    ghost output = { λ record_name. Some (record_text record_name) };

    fn fmt<W: fmt::Write>(&self, f: &mut fmt::Formatter<W>) -> fmt::Result {
        f.write_str(match self {
            DamagedRecord::Note => "Note",
        })
    }
}

/// A sentence that says what is wrong.
impl fmt::Display for Flaw {
    ghost use Rattle.std.specs.Prelude.{Some};
    ghost use Rattle.xls_comments.specs.Texts.{flaw_text};

    ghost output = { λ flaw. Some (flaw_text flaw) };

    fn fmt<W: fmt::Write>(&self, f: &mut fmt::Formatter<W>) -> fmt::Result {
        match self {
            Flaw::Short { least, found } => write!(f, "shorter than {least} bytes: {found}"),
            Flaw::NoObject { identifier } => {
                write!(f, "no object has its identifier, {identifier}")
            }
            Flaw::NoText { identifier } => write!(f, "its object, {identifier}, has no text"),
            Flaw::ShortText { found } => {
                write!(
                    f,
                    "the record of its text is shorter than 12 bytes: {found}"
                )
            }
            Flaw::UnitsEnd { found, count } => {
                write!(f, "its text ends after {found} of {count} units")
            }
            Flaw::BytesEnd { found, count } => {
                write!(f, "its text ends after {found} of {count} bytes")
            }
            Flaw::ContinuesNothing => f.write_str("it continues no comment"),
        }
    }
}
