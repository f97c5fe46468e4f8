//! What is hidden in a sheet.

ghost use Rattle.std.specs.Prelude.{◌≡◌, IfErr, OnOk};
ghost use Rattle.std.specs.List.{fold};
ghost use Rattle.xls_hidden.specs.declared.sheet.HiddenItem.TheVariants.{Damaged as DamagedItem};
ghost use Rattle.xls_beside_arrays.specs.Filled.{KeepsRooms, Lays};
ghost use Rattle.xls_beside_arrays.specs.Hidden as specs;
ghost use Rattle.xls_beside_arrays.specs.Hidden.{AreRuns, FillsRuns, hidden_in, with_hidden};
ghost use Rattle.xls_beside_arrays.specs.Opened.{LaysHeld, RefusesSheet, things_if};

use crate::damage::{Damaged, lay_damage};
use crate::ending::end;
use crate::items::{Counts, DamageItem, HiddenRunItem};
use crate::opening::{OpenedSheet, open_sheet};
use crate::rooms::{NOTHING, Rooms, lay_item};
use std::alloc::{AllocError, Global};
use xls_arrays::{Fault, Options, Refusal};
use xls_beside::part_at;
use xls_hidden::types::{COL_INFO, DEFAULT_ROW_HEIGHT, ROW};
use xls_hidden::{Damage, DamagedRecord, HiddenItem, HiddenItems, Run, Why, read_hidden};

/// Why rows or columns can't be seen, as a number.
fn why_number(why: Why) -> u32
    ensures { result ≡ specs.why_number why }
{
    match why {
        Why::Hidden => 1,
        Why::Filtered => 2,
        Why::Flat => 4,
    }
}

/// The item of a run of rows (0) or columns (1).
fn run_item(run: Run, is_column: u32) -> HiddenRunItem
    ensures { result ≡ specs.run_item is_column run }
{
    HiddenRunItem {
        first: run.first,
        last: run.last,
        why: why_number(run.why),
        is_column,
    }
}

/// The type of a damaged record.
fn record_number(record_name: DamagedRecord) -> u16
    ensures { result ≡ specs.record_number record_name }
{
    match record_name {
        DamagedRecord::Row => ROW,
        DamagedRecord::ColInfo => COL_INFO,
        DamagedRecord::DefaultRowHeight => DEFAULT_ROW_HEIGHT,
    }
}

/// Which record is damaged.
fn damaged_of(damage: &Damage) -> Damaged
    ensures { result ≡ specs.damaged_of damage.now }
{
    Damaged {
        record_type: record_number(damage.record_name),
        offset: damage.offset,
        row: damage.row,
        column: damage.column,
    }
}

/// Lays a damaged record.
fn lay_damaged(
    alloc: Global,
    rooms: &mut Rooms<'_, HiddenRunItem>,
    damage: &Damage,
) -> Result<(), AllocError>
    ensures same { KeepsRooms rooms.old rooms.new }
    ensures ok { OnOk result (Lays rooms.old rooms.new (λ a. with_hidden a (DamagedItem damage.now))) }
{
    let why = format!(in alloc; "{}", damage.flaw)?;
    lay_damage(rooms, damaged_of(damage), why.as_str())
}

/// Lays a run, or a damaged record; frozen panes and zeros that aren't shown have no item.
fn lay_hidden(
    alloc: Global,
    rooms: &mut Rooms<'_, HiddenRunItem>,
    item: HiddenItem,
) -> Result<(), AllocError>
    ensures same { KeepsRooms rooms.old rooms.new }
    ensures ok { OnOk result (Lays rooms.old rooms.new (λ a. with_hidden a item)) }
{
    match item {
        HiddenItem::Rows(run) => lay_item(rooms, run_item(run, 0)),
        HiddenItem::Columns(run) => lay_item(rooms, run_item(run, 1)),
        HiddenItem::Frozen(_) | HiddenItem::Zeros => Ok(()),
        HiddenItem::Damaged(damage) => lay_damaged(alloc, rooms, &damage),
    }
}

/// Lays all that is hidden, in order.
fn lay_items(
    alloc: Global,
    rooms: &mut Rooms<'_, HiddenRunItem>,
    items: HiddenItems<'_, '_>,
) -> Result<(), AllocError>
    ensures same { KeepsRooms rooms.old rooms.new }
    ensures ok { OnOk result (Lays rooms.old rooms.new (λ a. fold with_hidden a items.entry)) }
{
    for item in items {
        lay_hidden(alloc, rooms, item)?;
    }
    Ok(())
}

/// Lays all that is hidden in the part of a sheet, if it has one.
fn lay_part(
    alloc: Global,
    rooms: &mut Rooms<'_, HiddenRunItem>,
    stream: &[u8],
    sheet: &OpenedSheet,
) -> Result<(), AllocError>
    ensures same { KeepsRooms rooms.old rooms.new }
    ensures ok { OnOk result (Lays rooms.old rooms.new
        (λ a. fold with_hidden a (things_if (hidden_in sheet.now.globals stream.now) sheet.now.part))) }
{
    let Some(part) = sheet.part else {
        return Ok(());
    };
    let bytes = part_at(stream, part.offset);
    let globals = &sheet.globals;
    let hidden = read_hidden(alloc, bytes, part.offset as u64, globals.version, part.area)?;
    lay_items(alloc, rooms, hidden.items())
}

/// Lays all that is hidden in the sheet that is asked for.
fn lay_sheet(
    alloc: Global,
    rooms: &mut Rooms<'_, HiddenRunItem>,
    stream: &[u8],
    options: &Options,
) -> Result<(), Refusal>
    ensures same { KeepsRooms rooms.old rooms.new }
    ensures ok { OnOk result (LaysHeld (AreRuns options.now stream.now) rooms.old rooms.new) }
    ensures err { IfErr result (RefusesSheet options.now stream.now) }
{
    let sheet = open_sheet(alloc, stream, options)?;
    lay_part(alloc, rooms, stream, &sheet)?;
    Ok(())
}

/// Fills arrays with the runs of rows and of columns that can't be seen in one sheet, that at `sheet` of the options,
/// whatever their `which` is: those of the last sheet of its name, in the order of their lines, and with the damaged
/// records that would say so. `counts` says how long the arrays must be; a call with empty arrays counts. Where one is too
/// short, and where a call isn't done for another cause, it answers the code of its fault, and nothing is known of the
/// arrays; for another cause `counts` is all 0.
pub fn read_hidden_runs(
    alloc: Global,
    stream: &[u8],
    options: &Options,
    runs: &mut [HiddenRunItem],
    damages: &mut [DamageItem],
    texts: &mut [u8],
    counts: &mut Counts,
    fault: &mut Fault,
) -> u32
    ensures { FillsRuns options.now stream.now
        (record { items = runs.new; damages = damages.new; texts = texts.new }) counts.new fault.new result }
{
    let mut rooms = Rooms {
        items: runs,
        damages,
        texts,
        laid: NOTHING,
    };
    let done = lay_sheet(alloc, &mut rooms, stream, options);
    end(done, &rooms, counts, fault)
}
