//! The comments of a sheet.

ghost use Rattle.std.specs.Prelude.{◌≡◌, IfErr, OnOk};
ghost use Rattle.std.specs.List.{fold};
ghost use Rattle.xls_comments.specs.Items.{item_of};
ghost use Rattle.xls_comments.specs.declared.items.CommentItem.TheVariants as given;
ghost use Rattle.xls_beside_arrays.specs.Comments as specs;
ghost use Rattle.xls_beside_arrays.specs.Comments.{AreComments, FillsComments, comments_in, with_comment};
ghost use Rattle.xls_beside_arrays.specs.Filled.{KeepsRooms, Lays};
ghost use Rattle.xls_beside_arrays.specs.Opened.{LaysHeld, RefusesSheet, things_if};

use crate::damage::{Damaged, lay_damage};
use crate::ending::end;
use crate::items::{CommentItem, Counts, DamageItem};
use crate::opening::{OpenedSheet, open_sheet};
use crate::rooms::{NOTHING, Rooms, lay_item, lay_string};
use std::alloc::{AllocError, Global};
use xls_arrays::{Fault, Options, Refusal, Span};
use xls_beside::part_at;
use xls_comments::types::NOTE;
use xls_comments::{Comment, Comments, Damage, DamagedRecord, Visibility};

/// Whether a comment is always shown, as a number.
fn visible_number(visibility: Visibility) -> u32
    ensures { result ≡ specs.visible_number visibility }
{
    match visibility {
        Visibility::Visible => 1,
        Visibility::Hidden => 0,
    }
}

/// The item of a comment whose texts were laid there.
fn comment_item(comment: &Comment, author: Span, words: Span) -> CommentItem
    ensures { result ≡ specs.comment_item comment.now.row comment.now.column comment.now.visibility author words }
{
    CommentItem {
        row: u32::from(comment.row),
        column: u32::from(comment.column),
        author,
        words,
        visible: visible_number(comment.visibility),
        reserved: 0,
    }
}

/// Lays a comment.
fn lay_comment(rooms: &mut Rooms<'_, CommentItem>, comment: &Comment) -> Result<(), AllocError>
    ensures same { KeepsRooms rooms.old rooms.new }
    ensures ok { OnOk result (Lays rooms.old rooms.new (λ a. with_comment a (item_of (given.Comment comment.now)))) }
{
    let author = lay_string(rooms, &comment.author)?;
    let words = lay_string(rooms, &comment.text)?;
    lay_item(rooms, comment_item(comment, author, words))
}

/// The type of a damaged record.
fn record_number(record_name: DamagedRecord) -> u16
    ensures { result ≡ specs.record_number record_name }
{
    match record_name {
        DamagedRecord::Note => NOTE,
    }
}

/// Which record is damaged.
fn damaged_of(damage: &Damage) -> Damaged
    ensures { result ≡ specs.damaged_of damage.now }
{
    Damaged {
        record_type: record_number(damage.record_name),
        offset: damage.offset,
        row: damage.row,
        column: damage.column,
    }
}

/// Lays a damaged Note.
fn lay_damaged(
    alloc: Global,
    rooms: &mut Rooms<'_, CommentItem>,
    damage: &Damage,
) -> Result<(), AllocError>
    ensures same { KeepsRooms rooms.old rooms.new }
    ensures ok { OnOk result (Lays rooms.old rooms.new (λ a. with_comment a (item_of (given.Damaged damage.now)))) }
{
    let why = format!(in alloc; "{}", damage.flaw)?;
    lay_damage(rooms, damaged_of(damage), why.as_str())
}

/// Lays a comment, or a damaged Note.
fn lay_note(
    alloc: Global,
    rooms: &mut Rooms<'_, CommentItem>,
    item: &xls_comments::CommentItem,
) -> Result<(), AllocError>
    ensures same { KeepsRooms rooms.old rooms.new }
    ensures ok { OnOk result (Lays rooms.old rooms.new (λ a. with_comment a (item_of item.now))) }
{
    match item {
        xls_comments::CommentItem::Comment(comment) => lay_comment(rooms, comment),
        xls_comments::CommentItem::Damaged(damage) => lay_damaged(alloc, rooms, damage),
    }
}

/// Lays all comments, in order.
fn lay_items(
    alloc: Global,
    rooms: &mut Rooms<'_, CommentItem>,
    comments: Comments<'_>,
) -> Result<(), AllocError>
    ensures same { KeepsRooms rooms.old rooms.new }
    ensures ok { OnOk result (Lays rooms.old rooms.new (λ a. fold with_comment a comments.entry)) }
{
    for next in comments {
        let item = next?;
        lay_note(alloc, rooms, &item)?;
    }
    Ok(())
}

/// Lays the comments in the part of a sheet, if it has one.
fn lay_part(
    alloc: Global,
    rooms: &mut Rooms<'_, CommentItem>,
    stream: &[u8],
    sheet: &OpenedSheet,
) -> Result<(), AllocError>
    ensures same { KeepsRooms rooms.old rooms.new }
    ensures ok { OnOk result (Lays rooms.old rooms.new
        (λ a. fold with_comment a (things_if (comments_in sheet.now.globals stream.now) sheet.now.part))) }
{
    let Some(part) = sheet.part else {
        return Ok(());
    };
    let bytes = part_at(stream, part.offset);
    let globals = &sheet.globals;
    let comments = Comments::read(
        alloc,
        bytes,
        part.offset as u64,
        globals.version,
        globals.page,
    )?;
    lay_items(alloc, rooms, comments)
}

/// Lays the comments of the sheet that is asked for.
fn lay_sheet(
    alloc: Global,
    rooms: &mut Rooms<'_, CommentItem>,
    stream: &[u8],
    options: &Options,
) -> Result<(), Refusal>
    ensures same { KeepsRooms rooms.old rooms.new }
    ensures ok { OnOk result (LaysHeld (AreComments options.now stream.now) rooms.old rooms.new) }
    ensures err { IfErr result (RefusesSheet options.now stream.now) }
{
    let sheet = open_sheet(alloc, stream, options)?;
    lay_part(alloc, rooms, stream, &sheet)?;
    Ok(())
}

/// Fills arrays with the comments of one sheet, and with its damaged Notes, in the order of the stream. The sheet, `counts`
/// and the answer are as of `read_hidden_runs`.
pub fn read_comments(
    alloc: Global,
    stream: &[u8],
    options: &Options,
    comments: &mut [CommentItem],
    damages: &mut [DamageItem],
    texts: &mut [u8],
    counts: &mut Counts,
    fault: &mut Fault,
) -> u32
    ensures { FillsComments options.now stream.now
        (record { items = comments.new; damages = damages.new; texts = texts.new }) counts.new fault.new result }
{
    let mut rooms = Rooms {
        items: comments,
        damages,
        texts,
        laid: NOTHING,
    };
    let done = lay_sheet(alloc, &mut rooms, stream, options);
    end(done, &rooms, counts, fault)
}
