//! The links of a sheet.

ghost use Rattle.std.specs.Prelude.{◌≡◌, IfErr, OnOk};
ghost use Rattle.std.specs.List.{fold};
ghost use Rattle.xls_links.specs.Items.{item_of};
ghost use Rattle.xls_links.specs.declared.items.LinkItem.TheVariants as given;
ghost use Rattle.xls_beside_arrays.specs.Filled.{KeepsRooms, Lays};
ghost use Rattle.xls_beside_arrays.specs.Links as specs;
ghost use Rattle.xls_beside_arrays.specs.Links.{AreLinks, FillsLinks, cells_of, links_in, with_link};
ghost use Rattle.xls_beside_arrays.specs.Opened.{LaysHeld, RefusesSheet, things_if};

use crate::damage::{Damaged, lay_damage};
use crate::ending::end;
use crate::items::{Counts, DamageItem, LinkItem};
use crate::opening::{OpenedSheet, open_sheet};
use crate::rooms::{NOTHING, Rooms, lay_item, lay_string};
use std::alloc::{AllocError, Global};
use xls_arrays::{Fault, Options, Refusal, Span};
use xls_beside::part_at;
use xls_links::types::H_LINK;
use xls_links::{Damage, DamagedRecord, Link, LinkKind, Links};

/// What a link leads to, as a number.
fn kind_number(kind: LinkKind) -> u32
    ensures { result ≡ specs.kind_number kind }
{
    match kind {
        LinkKind::Url => 0,
        LinkKind::File => 1,
        LinkKind::Unc => 2,
        LinkKind::Place => 3,
    }
}

/// The item of a link whose texts were laid there.
fn link_item(link: &Link, target: Span, place: Span, shown: Span, tip: Span) -> LinkItem
    ensures { result ≡ specs.link_item (cells_of link.now) link.now.kind target place shown tip }
{
    LinkItem {
        first_row: u32::from(link.first_row),
        first_column: u32::from(link.first_column),
        last_row: u32::from(link.last_row),
        last_column: u32::from(link.last_column),
        target,
        place,
        shown,
        tip,
        kind: kind_number(link.kind),
        reserved: 0,
    }
}

/// Lays a link.
fn lay_link(rooms: &mut Rooms<'_, LinkItem>, link: &Link) -> Result<(), AllocError>
    ensures same { KeepsRooms rooms.old rooms.new }
    ensures ok { OnOk result (Lays rooms.old rooms.new (λ a. with_link a (item_of (given.Link link.now)))) }
{
    let target = lay_string(rooms, &link.target)?;
    let place = lay_string(rooms, &link.place)?;
    let shown = lay_string(rooms, &link.shown)?;
    let tip = lay_string(rooms, &link.tip)?;
    lay_item(rooms, link_item(link, target, place, shown, tip))
}

/// The type of a damaged record.
fn record_number(record_name: DamagedRecord) -> u16
    ensures { result ≡ specs.record_number record_name }
{
    match record_name {
        DamagedRecord::HLink => H_LINK,
    }
}

/// Which record is damaged.
fn damaged_of(damage: &Damage) -> Damaged
    ensures { result ≡ specs.damaged_of damage.now }
{
    Damaged {
        record_type: record_number(damage.record_name),
        offset: damage.offset,
        row: damage.row,
        column: damage.column,
    }
}

/// Lays a damaged HLink.
fn lay_damaged(
    alloc: Global,
    rooms: &mut Rooms<'_, LinkItem>,
    damage: &Damage,
) -> Result<(), AllocError>
    ensures same { KeepsRooms rooms.old rooms.new }
    ensures ok { OnOk result (Lays rooms.old rooms.new (λ a. with_link a (item_of (given.Damaged damage.now)))) }
{
    let why = format!(in alloc; "{}", damage.flaw)?;
    lay_damage(rooms, damaged_of(damage), why.as_str())
}

/// Lays a link, or a damaged HLink.
fn lay_h_link(
    alloc: Global,
    rooms: &mut Rooms<'_, LinkItem>,
    item: &xls_links::LinkItem,
) -> Result<(), AllocError>
    ensures same { KeepsRooms rooms.old rooms.new }
    ensures ok { OnOk result (Lays rooms.old rooms.new (λ a. with_link a (item_of item.now))) }
{
    match item {
        xls_links::LinkItem::Link(link) => lay_link(rooms, link),
        xls_links::LinkItem::Damaged(damage) => lay_damaged(alloc, rooms, damage),
    }
}

/// Lays all links, in order.
fn lay_items(
    alloc: Global,
    rooms: &mut Rooms<'_, LinkItem>,
    links: Links<'_>,
) -> Result<(), AllocError>
    ensures same { KeepsRooms rooms.old rooms.new }
    ensures ok { OnOk result (Lays rooms.old rooms.new (λ a. fold with_link a links.entry)) }
{
    for next in links {
        let item = next?;
        lay_h_link(alloc, rooms, &item)?;
    }
    Ok(())
}

/// Lays the links in the part of a sheet, if it has one.
fn lay_part(
    alloc: Global,
    rooms: &mut Rooms<'_, LinkItem>,
    stream: &[u8],
    sheet: &OpenedSheet,
) -> Result<(), AllocError>
    ensures same { KeepsRooms rooms.old rooms.new }
    ensures ok { OnOk result (Lays rooms.old rooms.new
        (λ a. fold with_link a (things_if (links_in sheet.now.globals stream.now) sheet.now.part))) }
{
    let Some(part) = sheet.part else {
        return Ok(());
    };
    let bytes = part_at(stream, part.offset);
    let globals = &sheet.globals;
    let links = Links::new(
        alloc,
        bytes,
        part.offset as u64,
        globals.version,
        globals.page,
    );
    lay_items(alloc, rooms, links)
}

/// Lays the links of the sheet that is asked for.
fn lay_sheet(
    alloc: Global,
    rooms: &mut Rooms<'_, LinkItem>,
    stream: &[u8],
    options: &Options,
) -> Result<(), Refusal>
    ensures same { KeepsRooms rooms.old rooms.new }
    ensures ok { OnOk result (LaysHeld (AreLinks options.now stream.now) rooms.old rooms.new) }
    ensures err { IfErr result (RefusesSheet options.now stream.now) }
{
    let sheet = open_sheet(alloc, stream, options)?;
    lay_part(alloc, rooms, stream, &sheet)?;
    Ok(())
}

/// Fills arrays with the links of one sheet, and with its damaged HLinks, in the order of the stream. The sheet, `counts` and
/// the answer are as of `read_hidden_runs`.
pub fn read_links(
    alloc: Global,
    stream: &[u8],
    options: &Options,
    links: &mut [LinkItem],
    damages: &mut [DamageItem],
    texts: &mut [u8],
    counts: &mut Counts,
    fault: &mut Fault,
) -> u32
    ensures { FillsLinks options.now stream.now
        (record { items = links.new; damages = damages.new; texts = texts.new }) counts.new fault.new result }
{
    let mut rooms = Rooms {
        items: links,
        damages,
        texts,
        laid: NOTHING,
    };
    let done = lay_sheet(alloc, &mut rooms, stream, options);
    end(done, &rooms, counts, fault)
}
