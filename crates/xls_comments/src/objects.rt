//! The places of the texts of objects.

ghost use Rattle.std.specs.Prelude.{◌≡◌, ◌∷◌, ◌+◌, ◌<◌, ◌^◌, ℕ, List, Option, OnOk, IfOk, length};
ghost use Rattle.std.specs.BTreeMap.{get};
ghost use Rattle.std.specs.Ordering.{nat_cmp};
ghost use Rattle.xls_parts.specs.PartRecords.{Placed, placed_of, own_records};
ghost use Rattle.xls_comments.specs.Fields.{end_of};
ghost use Rattle.xls_comments.specs.Objects.{Found, HasText, object_in, pieces};
ghost use Rattle.xls_comments.specs.Walking.{AreKnown, found_at, put_at, records_behind, text_at};

use crate::fields::identifier_at;
use crate::types::{OBJ, TXO};
use std::alloc::{AllocError, Global};
use std::collections::BTreeMap;
use xls_parts::{PartRecord, PartRecords, WholeRecords};

/// For each identifier of an object the place of its text's TxO, if it has one.
#[derive(Drop)]
pub(crate) struct Objects {
    pub(crate) places: BTreeMap<u16, Option<u64>>,
    /// The identifier of the last Obj, where no TxO stood behind it yet.
    last: Option<u16>,
}

/// Keeps this under an identifier, if there is one.
fn put(
    places: &mut BTreeMap<u16, Option<u64>>,
    identifier: Option<u16>,
    place: Option<u64>,
) -> Result<(), AllocError>
    ensures { OnOk result ((id : ℕ) → get nat_cmp places.new id ≡ put_at (get nat_cmp places.old) identifier place id) }
{
    if let Some(identifier) = identifier {
        places.insert(identifier, place)?;
    }
    Ok(())
}

impl Objects {
    /// After one more record.
    fn take(&mut self, r: &PartRecord<'_>) -> Result<(), AllocError>
        ensures { OnOk result ((at : ℕ → Found) (all rs : List Placed)
            → at r.now.offset ≡ HasText r.now.body.now (pieces (end_of (placed_of r.now)) rs)
            → AreKnown at all (placed_of r.now ∷ rs) self.old.last (get nat_cmp self.old.places)
            → AreKnown at all rs self.new.last (get nat_cmp self.new.places)) }
    {
        match r.typ {
            OBJ => {
                self.last = identifier_at(r.body);
                put(&mut self.places, self.last, None)?;
            }
            TXO => {
                put(&mut self.places, self.last, Some(r.offset))?;
                self.last = None;
            }
            _ => {}
        }
        Ok(())
    }
}

/// The places of the texts of a part's objects, where the part begins at this offset of the stream.
pub(crate) fn read_places(
    alloc: Global,
    part: &[u8],
    offset: u64,
) -> Result<BTreeMap<u16, Option<u64>>, AllocError>
    requires { offset + length part.now < 2 ^ 64 }
    ensures { IfOk result (λ places. (id : ℕ)
        → found_at (text_at offset part.now) (get nat_cmp places id) ≡ object_in (own_records offset part.now) id) }
{
    let mut objects = Objects {
        places: BTreeMap::new(alloc),
        last: None,
    };
    'records: for r in PartRecords::new(part, offset) {
        objects.take(&r)?;
    }
    Ok(objects.places)
}

/// The records of the stream from a place in a part on.
pub(crate) fn records_behind<'a>(part: &'a [u8], offset: u64, place: u64) -> WholeRecords<'a>
    requires part { offset + length part.now < 2 ^ 64 }
    ensures { result ≡ records_behind offset part.now place }
{
    let skipped = place.saturating_sub(offset);
    if skipped > part.len() as u64 {
        return WholeRecords::new(&[], place);
    }
    let (_, rest) = part.split_at(skipped as usize);
    WholeRecords::new(rest, place)
}
