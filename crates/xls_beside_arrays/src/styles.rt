//! How the cells of a workbook look, by the index of their XF.

ghost use Rattle.std.specs.Prelude.{◌≡◌, ◌-◌, ◌≤◌, IfErr, OnOk, length, map};
ghost use Rattle.std.specs.List.{fold, range_with_len};
ghost use Rattle.xls_styles.specs.Styles.{style_of, style_view};
ghost use Rattle.xls_beside_arrays.specs.Filled.{KeepsRooms, Lays};
ghost use Rattle.xls_beside_arrays.specs.Opened.{LaysHeld, RefusesBook};
ghost use Rattle.xls_beside_arrays.specs.StyleNumbers as numbers;
ghost use Rattle.xls_beside_arrays.specs.Styles as specs;
ghost use Rattle.xls_beside_arrays.specs.Styles.{AreStyles, FillsStyles, with_damaged, with_style, with_styles};

use crate::damage::{Damaged, lay_damage};
use crate::ending::end;
use crate::items::{Counts, DamageItem, StyleItem};
use crate::opening::open;
use crate::rooms::{NOTHING, Rooms, lay_item, lay_lent};
use crate::style_numbers::{
    back_number, border_item, colour_number, fill_number, size_number, style_marks,
};
use std::alloc::{AllocError, Global};
use xls_arrays::{Fault, Options, Refusal, Span};
use xls_stream::types::XF;
use xls_styles::types::FONT;
use xls_styles::{CellStyle, Damage, DamagedRecord, Styles};

/// The item of a style whose texts were laid there.
fn style_item(style: &CellStyle<'_>, font: Span, format: Span) -> StyleItem
    ensures { result ≡ specs.style_item (style_view style.now) font format }
{
    let alignment = &style.alignment;
    let borders = &style.borders;
    StyleItem {
        font,
        format,
        size: size_number(style.font.size),
        marks: style_marks(&style.font.marks, style.protection, alignment),
        colour: colour_number(style.font.color),
        pattern: u32::from(style.fill.pattern),
        fill: fill_number(&style.fill),
        back: back_number(&style.fill),
        across: u32::from(alignment.across),
        down: u32::from(alignment.down),
        indent: u32::from(alignment.indent),
        turn: u32::from(alignment.turn),
        left: border_item(borders.left),
        right: border_item(borders.right),
        top: border_item(borders.top),
        bottom: border_item(borders.bottom),
        diagonal: border_item(borders.diagonal),
        diagonals: u32::from(borders.diagonals),
        reserved: 0,
    }
}

/// Lays a style.
fn lay_style(rooms: &mut Rooms<'_, StyleItem>, style: &CellStyle<'_>) -> Result<(), AllocError>
    ensures same { KeepsRooms rooms.old rooms.new }
    ensures ok { OnOk result (Lays rooms.old rooms.new (λ a. with_style a (style_view style.now))) }
{
    let font = lay_lent(rooms, style.font.name)?;
    let format = lay_lent(rooms, style.code)?;
    lay_item(rooms, style_item(style, font, format))
}

/// Lays the style of each XF, in order.
fn lay_items(rooms: &mut Rooms<'_, StyleItem>, styles: &Styles) -> Result<(), AllocError>
    ensures same { KeepsRooms rooms.old rooms.new }
    ensures ok { OnOk result (Lays rooms.old rooms.new
        (λ a. fold with_style a (map (style_of styles.now) (range_with_len 0 (length styles.now.xfs))))) }
{
    for i in 0..styles.count() {
        lay_style(rooms, &styles.style(i))?;
    }
    Ok(())
}

/// The type of a damaged record.
fn record_number(record_name: DamagedRecord) -> u16
    ensures { result ≡ specs.record_number record_name }
{
    match record_name {
        DamagedRecord::Font => FONT,
        DamagedRecord::Xf => XF,
    }
}

/// Which record is damaged; it stands in no cell.
fn damaged_of(damage: &Damage) -> Damaged
    ensures { result ≡ specs.damaged_of damage.now }
{
    Damaged {
        record_type: record_number(damage.record_name),
        offset: damage.offset,
        row: None,
        column: None,
    }
}

/// Lays a damaged record.
fn lay_damaged(
    alloc: Global,
    rooms: &mut Rooms<'_, StyleItem>,
    damage: &Damage,
) -> Result<(), AllocError>
    ensures same { KeepsRooms rooms.old rooms.new }
    ensures ok { OnOk result (Lays rooms.old rooms.new (λ a. with_damaged a damage.now)) }
{
    let why = format!(in alloc; "{}", damage.flaw)?;
    lay_damage(rooms, damaged_of(damage), why.as_str())
}

/// Lays the damaged records, in order.
fn lay_damages(
    alloc: Global,
    rooms: &mut Rooms<'_, StyleItem>,
    damages: &[Damage],
) -> Result<(), AllocError>
    ensures same { KeepsRooms rooms.old rooms.new }
    ensures ok { OnOk result (Lays rooms.old rooms.new (λ a. fold with_damaged a damages.now)) }
{
    for damage in damages {
        lay_damaged(alloc, rooms, damage)?;
    }
    Ok(())
}

/// Lays the style of each XF, and the damaged records.
fn lay_all(
    alloc: Global,
    rooms: &mut Rooms<'_, StyleItem>,
    styles: &Styles,
) -> Result<(), AllocError>
    ensures same { KeepsRooms rooms.old rooms.new }
    ensures ok { OnOk result (Lays rooms.old rooms.new (λ a. with_styles a styles.now)) }
{
    lay_items(rooms, styles)?;
    lay_damages(alloc, rooms, styles.damages())
}

/// Lays the styles of a stream.
fn lay_styles(
    alloc: Global,
    rooms: &mut Rooms<'_, StyleItem>,
    stream: &[u8],
    options: &Options,
) -> Result<(), Refusal>
    ensures same { KeepsRooms rooms.old rooms.new }
    ensures ok { OnOk result (LaysHeld (AreStyles options.now stream.now) rooms.old rooms.new) }
    ensures err { IfErr result (RefusesBook options.now stream.now) }
{
    let globals = open(alloc, stream, options)?;
    let styles = Styles::read(alloc, stream, globals.version, &globals.page)?;
    lay_all(alloc, rooms, &styles)?;
    Ok(())
}

/// Fills arrays with the style of each XF of a workbook, in the order of the stream, and with its damaged Font and XF
/// records. `counts` and the answer are as of `read_hidden_runs`; no sheet is asked for.
pub fn read_styles(
    alloc: Global,
    stream: &[u8],
    options: &Options,
    styles: &mut [StyleItem],
    damages: &mut [DamageItem],
    texts: &mut [u8],
    counts: &mut Counts,
    fault: &mut Fault,
) -> u32
    ensures { FillsStyles options.now stream.now
        (record { items = styles.new; damages = damages.new; texts = texts.new }) counts.new fault.new result }
{
    let mut rooms = Rooms {
        items: styles,
        damages,
        texts,
        laid: NOTHING,
    };
    let done = lay_styles(alloc, &mut rooms, stream, options);
    end(done, &rooms, counts, fault)
}
