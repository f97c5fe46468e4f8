//! Records that say how cells look, and are damaged.

ghost use Rattle.std.specs.Prelude.{◌≡◌, ◌++◌, IfOk};
ghost use Rattle.xls_parts.specs.PartRecords.{globals_records, placed_of};
ghost use Rattle.xls_styles.specs.Damages as damages;

use crate::types::FONT;
use std::alloc::{AllocError, Global};
use std::fmt;
use xls_parts::{GlobalsRecords, PartRecord};
use xls_record::{Biff, is_biff8};
use xls_stream::types::XF;

/// The record that is damaged, by its name in [MS-XLS].
#[derive(Clone, Copy, Debug, PartialEq, Eq)]
pub enum DamagedRecord {
    Font,
    Xf,
}

/// What is wrong with a record.
#[derive(Clone, Copy, Debug, PartialEq, Eq)]
pub enum Flaw {
    /// It has fewer bytes than the least number.
    Short { least: u16, found: usize },
}

/// A damaged record.
#[derive(Clone, Copy, Debug, PartialEq, Eq)]
pub struct Damage {
    pub record_name: DamagedRecord,
    /// The place of its header in the stream.
    pub offset: u64,
    pub flaw: Flaw,
}

/// The record's name.
impl fmt::Display for DamagedRecord {
    ghost use Rattle.std.specs.Prelude.{Some};
    ghost use Rattle.xls_styles.specs.Texts.{record_text};

    ghost output = { λ record_name. Some (record_text record_name) };

    fn fmt<W: fmt::Write>(&self, f: &mut fmt::Formatter<W>) -> fmt::Result {
        f.write_str(match self {
            DamagedRecord::Font => "Font",
            DamagedRecord::Xf => "XF",
        })
    }
}

/// A sentence that says what is wrong.
impl fmt::Display for Flaw {
    ghost use Rattle.std.specs.Prelude.{Some};
    ghost use Rattle.xls_styles.specs.Texts.{flaw_text};

    ghost output = { λ flaw. Some (flaw_text flaw) };

    fn fmt<W: fmt::Write>(&self, f: &mut fmt::Formatter<W>) -> fmt::Result {
        match self {
            Flaw::Short { least, found } => write!(f, "shorter than {least} bytes: {found}"),
        }
    }
}

/// How many bytes an XF has.
fn xf_size(version: Biff) -> u16
    ensures { result ≡ damages.xf_size version }
{
    if is_biff8(version) { 20 } else { 16 }
}

/// What is wrong with a record of fewer bytes than these.
fn short_damage(record_name: DamagedRecord, least: u16, r: &PartRecord<'_>) -> Option<Damage>
    ensures { result ≡ damages.short_damage record_name least (placed_of r.now) }
{
    if r.body.len() >= usize::from(least) {
        return None;
    }
    Some(Damage {
        record_name,
        offset: r.offset,
        flaw: Flaw::Short {
            least,
            found: r.body.len(),
        },
    })
}

/// What is wrong with a record, if anything.
fn damage_of(version: Biff, r: &PartRecord<'_>) -> Option<Damage>
    ensures { result ≡ damages.damage_of version (placed_of r.now) }
{
    match r.typ {
        FONT => short_damage(DamagedRecord::Font, 15, r),
        XF => short_damage(DamagedRecord::Xf, xf_size(version), r),
        _ => None,
    }
}

/// The damaged records of the globals, in order.
pub(crate) fn read_damages(
    alloc: Global,
    stream: &[u8],
    version: Biff,
) -> Result<Vec<Damage>, AllocError>
    ensures { IfOk result (λ found. found.items ≡ damages.damages_of version (globals_records stream.now)) }
{
    let mut found = Vec::new(alloc);
    'records: for r in GlobalsRecords::new(stream) {
        if let Some(damage) = damage_of(version, &r) {
            found.push(damage)?;
        }
    }
    Ok(found)
}
