//! Damaged records.

ghost use Rattle.std.specs.Prelude.{◌≡◌, OnOk};
ghost use Rattle.xls_beside_arrays.specs.Damages.{damage_item, number_or_unknown, with_damage};
ghost use Rattle.xls_beside_arrays.specs.Filled.{KeepsRooms, Lays};

use crate::items::DamageItem;
use crate::rooms::{Rooms, lay_damage_item, lay_text};
use std::alloc::AllocError;
use xls_arrays::Span;

/// Which record is damaged, and where it stands.
#[derive(Clone, Copy)]
pub(crate) struct Damaged {
    /// Its type in the stream.
    pub record_type: u16,
    /// The place of its header in the stream.
    pub offset: u64,
    pub row: Option<u16>,
    pub column: Option<u16>,
}

/// A row or a column that may not be known.
fn number_or_unknown(number: Option<u16>) -> u32
    ensures { result ≡ number_or_unknown number }
{
    match number {
        Some(n) => u32::from(n),
        None => 0xFFFF_FFFF,
    }
}

/// Its item, where the sentence that says what is wrong was laid there.
fn damage_item(damaged: Damaged, why: Span) -> DamageItem
    ensures { result ≡ damage_item damaged why }
{
    DamageItem {
        offset: damaged.offset,
        why,
        row: number_or_unknown(damaged.row),
        column: number_or_unknown(damaged.column),
        record_type: u32::from(damaged.record_type),
        reserved: 0,
    }
}

/// Lays a damaged record, and the sentence that says what is wrong.
pub(crate) fn lay_damage<T: Copy>(
    rooms: &mut Rooms<'_, T>,
    damaged: Damaged,
    why: &str,
) -> Result<(), AllocError>
    ensures same { KeepsRooms rooms.old rooms.new }
    ensures ok { OnOk result (Lays rooms.old rooms.new (λ a. with_damage a damaged why.now)) }
{
    let why = lay_text(rooms, why)?;
    lay_damage_item(rooms, damage_item(damaged, why))
}
