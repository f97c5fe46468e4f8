//! Arrays that are filled as far as they go, and how many items were laid.

ghost use Rattle.std.specs.Prelude.{◌≡◌, ◌+◌, ◌≤◌, ◌++◌, ◌∷◌, [], List, ℕ, length, take, IfOk, OnOk, IsTrue, ◌↔◌};
ghost use Rattle.xls_arrays.specs.Arrays.{Arrays, with_cell_item, with_formula_item};
ghost use Rattle.xls_arrays.specs.Arrays.{with_name_item, with_region_item, with_sheet_item};
ghost use Rattle.xls_arrays.specs.Arrays.{with_text};
ghost use Rattle.xls_arrays.specs.Filled.{FitsBefore, RoomsHold, IsFilled, KeepsRooms, Lays, LaysText, in_rooms};

use crate::items::{CellItem, FormulaItem, NameItem, RegionItem, SheetItem, Sizes, Span};
use std::alloc::AllocError;

/// The arrays of a caller, and how many items were laid. An item for which an array has no room is counted and
/// not written.
#[derive(Drop)]
pub(crate) struct Rooms<'a> {
    pub sheets: &'a mut [SheetItem],
    pub names: &'a mut [NameItem],
    pub cells: &'a mut [CellItem],
    pub formulas: &'a mut [FormulaItem],
    pub regions: &'a mut [RegionItem],
    pub texts: &'a mut [u8],
    pub laid: Sizes,
}

/// Nothing was laid.
pub(crate) const NOTHING: Sizes = Sizes {
    sheets: 0,
    names: 0,
    cells: 0,
    formulas: 0,
    regions: 0,
    text_bytes: 0,
    is_1904: 0,
    reserved: 0,
};

/// A count and so many more. No array is as long as what doesn't fit 64 bits: no memory has the room.
pub fn plus(count: u64, more: usize) -> Result<u64, AllocError>
    ensures { IfOk result (λ sum. sum ≡ count + more) }
{
    match count.checked_add(more as u64) {
        Some(sum) => Ok(sum),
        None => Err(AllocError),
    }
}

/// Lays an item at a place, if the array goes that far.
pub fn put<T: Copy>(room: &mut [T], place: u64, item: T)
    ensures { (items : List T) → IsFilled room.old place items → IsFilled room.new (place + 1) (items ++ item ∷ []) }
{
    if place < room.len() as u64 {
        room[place as usize] = item;
    }
}

/// Writes bytes into an array from a place on.
fn write_at(room: &mut [u8], place: usize, bytes: &[u8])
    requires { place + length bytes.now ≤ length room.old }
    ensures written { take (place + length bytes.now) room.new ≡ take place room.old ++ bytes.now }
    ensures len { length room.new ≡ length room.old }
{
    room[place..place + bytes.len()].copy_from_slice(bytes);
}

/// Lays bytes from a place on, as far as the array goes.
pub fn put_bytes(room: &mut [u8], place: u64, bytes: &[u8])
    ensures { (items : List ℕ) → IsFilled room.old place items → IsFilled room.new (place + length bytes.now) (items ++ bytes.now) }
{
    if place >= room.len() as u64 {
        return;
    }
    let count = bytes.len().min(room.len() - place as usize);
    write_at(room, place as usize, &bytes[..count]);
}

/// Lays a text, and says where it is.
pub(crate) fn lay_text(rooms: &mut Rooms<'_>, text: &str) -> Result<Span, AllocError>
    ensures same { KeepsRooms rooms.old rooms.new }
    ensures ok { IfOk result (LaysText rooms.old rooms.new text.now) }
{
    let offset = rooms.laid.text_bytes;
    let end = plus(offset, text.len())?;
    let texts = &mut *rooms.texts;
    put_bytes(texts, offset, text.as_bytes());
    rooms.laid.text_bytes = end;
    Ok(Span {
        offset,
        length: text.len() as u64,
    })
}

/// Lays the item of a sheet.
pub(crate) fn lay_sheet_item(rooms: &mut Rooms<'_>, item: SheetItem) -> Result<(), AllocError>
    ensures same { KeepsRooms rooms.old rooms.new }
    ensures ok { OnOk result (Lays rooms.old rooms.new (λ a. with_sheet_item a item)) }
{
    let next = plus(rooms.laid.sheets, 1)?;
    let sheets = &mut *rooms.sheets;
    put(sheets, rooms.laid.sheets, item);
    rooms.laid.sheets = next;
    Ok(())
}

/// Lays the item of a defined name.
pub(crate) fn lay_name_item(rooms: &mut Rooms<'_>, item: NameItem) -> Result<(), AllocError>
    ensures same { KeepsRooms rooms.old rooms.new }
    ensures ok { OnOk result (Lays rooms.old rooms.new (λ a. with_name_item a item)) }
{
    let next = plus(rooms.laid.names, 1)?;
    let names = &mut *rooms.names;
    put(names, rooms.laid.names, item);
    rooms.laid.names = next;
    Ok(())
}

/// Lays the item of a cell.
pub(crate) fn lay_cell_item(rooms: &mut Rooms<'_>, item: CellItem) -> Result<(), AllocError>
    ensures same { KeepsRooms rooms.old rooms.new }
    ensures ok { OnOk result (Lays rooms.old rooms.new (λ a. with_cell_item a item)) }
{
    let next = plus(rooms.laid.cells, 1)?;
    let cells = &mut *rooms.cells;
    put(cells, rooms.laid.cells, item);
    rooms.laid.cells = next;
    Ok(())
}

/// Lays the item of a formula.
pub(crate) fn lay_formula_item(rooms: &mut Rooms<'_>, item: FormulaItem) -> Result<(), AllocError>
    ensures same { KeepsRooms rooms.old rooms.new }
    ensures ok { OnOk result (Lays rooms.old rooms.new (λ a. with_formula_item a item)) }
{
    let next = plus(rooms.laid.formulas, 1)?;
    let formulas = &mut *rooms.formulas;
    put(formulas, rooms.laid.formulas, item);
    rooms.laid.formulas = next;
    Ok(())
}

/// Lays the item of a merged region.
pub(crate) fn lay_region_item(rooms: &mut Rooms<'_>, item: RegionItem) -> Result<(), AllocError>
    ensures same { KeepsRooms rooms.old rooms.new }
    ensures ok { OnOk result (Lays rooms.old rooms.new (λ a. with_region_item a item)) }
{
    let next = plus(rooms.laid.regions, 1)?;
    let regions = &mut *rooms.regions;
    put(regions, rooms.laid.regions, item);
    rooms.laid.regions = next;
    Ok(())
}

/// Whether the arrays have room for all that was laid.
pub(crate) fn fits(rooms: &Rooms<'_>) -> bool
    ensures { (a : Arrays) → RoomsHold rooms.now a → IsTrue result ↔ FitsBefore (in_rooms rooms.now) a }
{
    rooms.laid.sheets <= rooms.sheets.len() as u64
        && rooms.laid.names <= rooms.names.len() as u64
        && rooms.laid.cells <= rooms.cells.len() as u64
        && rooms.laid.formulas <= rooms.formulas.len() as u64
        && rooms.laid.regions <= rooms.regions.len() as u64
        && rooms.laid.text_bytes <= rooms.texts.len() as u64
}
