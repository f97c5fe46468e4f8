//! Arrays that are filled as far as they go, and how many items were laid.

ghost use Rattle.std.specs.Prelude.{◌≡◌, ◌↔◌, IfOk, OnOk, IsTrue, encode_utf8_all};
ghost use Rattle.std.specs.Str.{chars};
ghost use Rattle.xls_strings.specs.Texts.{text_of};
ghost use Rattle.xls_beside_arrays.specs.Arrays.{with_damage_item, with_item};
ghost use Rattle.xls_beside_arrays.specs.Filled.{HasRoom, KeepsRooms, Lays, LaysText};

use crate::items::{Counts, DamageItem};
use std::alloc::AllocError;
use xls_arrays::{Span, plus, put, put_bytes};

/// The arrays of a caller, and how many items were laid. An item for which an array has no room is counted and not
/// written.
#[derive(Drop)]
pub(crate) struct Rooms<'a, T> {
    pub items: &'a mut [T],
    pub damages: &'a mut [DamageItem],
    pub texts: &'a mut [u8],
    pub laid: Counts,
}

/// Nothing was laid.
pub(crate) const NOTHING: Counts = Counts {
    items: 0,
    damages: 0,
    text_bytes: 0,
};

/// Lays a text, and says where it is.
pub(crate) fn lay_text<T: Copy>(rooms: &mut Rooms<'_, T>, text: &str) -> Result<Span, AllocError>
    ensures same { KeepsRooms rooms.old rooms.new }
    ensures ok { IfOk result (LaysText rooms.old rooms.new text.now) }
{
    let offset = rooms.laid.text_bytes;
    let end = plus(offset, text.len())?;
    let texts = &mut *rooms.texts;
    put_bytes(texts, offset, text.as_bytes());
    rooms.laid.text_bytes = end;
    Ok(Span {
        offset,
        length: text.len() as u64,
    })
}

/// The same, by its characters.
pub(crate) fn lay_lent<T: Copy>(rooms: &mut Rooms<'_, T>, text: &str) -> Result<Span, AllocError>
    ensures same { KeepsRooms rooms.old rooms.new }
    ensures ok { IfOk result (LaysText rooms.old rooms.new (encode_utf8_all (chars text.now))) }
{
    lay_text(rooms, text)
}

/// The same of a text that is owned.
pub(crate) fn lay_string<T: Copy>(
    rooms: &mut Rooms<'_, T>,
    text: &String,
) -> Result<Span, AllocError>
    ensures same { KeepsRooms rooms.old rooms.new }
    ensures ok { IfOk result (LaysText rooms.old rooms.new (encode_utf8_all (text_of text.now))) }
{
    lay_lent(rooms, text.as_str())
}

/// Lays an item.
pub(crate) fn lay_item<T: Copy>(rooms: &mut Rooms<'_, T>, item: T) -> Result<(), AllocError>
    ensures same { KeepsRooms rooms.old rooms.new }
    ensures ok { OnOk result (Lays rooms.old rooms.new (λ a. with_item a item)) }
{
    let next = plus(rooms.laid.items, 1)?;
    let items = &mut *rooms.items;
    put(items, rooms.laid.items, item);
    rooms.laid.items = next;
    Ok(())
}

/// Lays the item of a damaged record.
pub(crate) fn lay_damage_item<T: Copy>(
    rooms: &mut Rooms<'_, T>,
    item: DamageItem,
) -> Result<(), AllocError>
    ensures same { KeepsRooms rooms.old rooms.new }
    ensures ok { OnOk result (Lays rooms.old rooms.new (λ a. with_damage_item a item)) }
{
    let next = plus(rooms.laid.damages, 1)?;
    let damages = &mut *rooms.damages;
    put(damages, rooms.laid.damages, item);
    rooms.laid.damages = next;
    Ok(())
}

/// Whether the arrays have room for all that was laid.
pub(crate) fn fits<T: Copy>(rooms: &Rooms<'_, T>) -> bool
    ensures { IsTrue result ↔ HasRoom rooms.now }
{
    rooms.laid.items <= rooms.items.len() as u64
        && rooms.laid.damages <= rooms.damages.len() as u64
        && rooms.laid.text_bytes <= rooms.texts.len() as u64
}
