//! HLinks that are damaged.

ghost use Rattle.std.specs.Prelude.{◌≡◌};
ghost use Rattle.xls_links.specs.declared.damage.Stop.TheVariants.{Memory, Flawed};

use std::alloc::AllocError;
use std::fmt;

/// The record that is damaged, by its name in [MS-XLS].
#[derive(Clone, Copy, Debug, PartialEq, Eq)]
pub enum DamagedRecord {
    HLink,
}

/// A part of an HLink.
#[derive(Clone, Copy, Debug, PartialEq, Eq)]
pub enum Part {
    /// The first 32 bytes.
    Head,
    Shown,
    Frame,
    Target,
    Place,
}

/// What is wrong with an HLink.
#[derive(Clone, Copy, Debug, PartialEq, Eq)]
pub enum Flaw {
    /// A part passes the record.
    EndsIn(Part),
    /// Its target is of no kind that is known, by the 16 bytes that say it: two numbers of eight bytes, the highest first.
    UnknownKind(u64, u64),
}

/// A damaged HLink.
#[derive(Clone, Copy, Debug, PartialEq, Eq)]
pub struct Damage {
    pub record_name: DamagedRecord,
    /// The place of its header in the stream.
    pub offset: u64,
    /// The first row, where the eight bytes of its cells are there.
    pub row: Option<u16>,
    /// The first column, likewise.
    pub column: Option<u16>,
    pub flaw: Flaw,
}

/// Why an HLink isn't read.
#[derive(Debug, Drop)]
pub(crate) enum Stop {
    Memory(AllocError),
    Flawed(Flaw),
}

impl From<AllocError> for Stop {
    ghost from_gives = { λ error stop. stop ≡ Memory error };

    fn from(error: AllocError) -> Stop {
        Stop::Memory(error)
    }
}

impl From<Flaw> for Stop {
    ghost from_gives = { λ flaw stop. stop ≡ Flawed flaw };

    fn from(flaw: Flaw) -> Stop {
        Stop::Flawed(flaw)
    }
}

/// The record's name.
impl fmt::Display for DamagedRecord {
    ghost use Rattle.std.specs.Prelude.{Some};
    ghost use Rattle.xls_links.specs.Texts.{record_text};

    ghost output = { λ record_name. Some (record_text record_name) };

    fn fmt<W: fmt::Write>(&self, f: &mut fmt::Formatter<W>) -> fmt::Result {
        f.write_str(match self {
            DamagedRecord::HLink => "HLink",
        })
    }
}

/// The part's name, as a sentence has it.
impl fmt::Display for Part {
    ghost use Rattle.std.specs.Prelude.{Some};
    ghost use Rattle.xls_links.specs.Texts.{part_text};

    ghost output = { λ part. Some (part_text part) };

    fn fmt<W: fmt::Write>(&self, f: &mut fmt::Formatter<W>) -> fmt::Result {
        f.write_str(match self {
            Part::Head => "head",
            Part::Shown => "shown text",
            Part::Frame => "frame",
            Part::Target => "target",
            Part::Place => "place",
        })
    }
}

/// A sentence that says what is wrong.
impl fmt::Display for Flaw {
    ghost use Rattle.std.specs.Prelude.{Some};
    ghost use Rattle.xls_links.specs.Texts.{flaw_text};

    ghost output = { λ flaw. Some (flaw_text flaw) };

    #[tactic(auto, using(crate::proofs::HexLemmas::padded_hex))]
    fn fmt<W: fmt::Write>(&self, f: &mut fmt::Formatter<W>) -> fmt::Result {
        match self {
            Flaw::EndsIn(part) => write!(f, "it ends in its {part}"),
            Flaw::UnknownKind(first, second) => write!(
                f,
                "its target is of a kind that is not known: {first:016x}{second:016x}"
            ),
        }
    }
}
