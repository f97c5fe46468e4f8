//! The comments of BIFF8.

ghost use Rattle.std.specs.Prelude.{◌≡◌, ◌+◌, ◌<◌, ◌≤◌, ◌^◌, IfOk, length, drop};
ghost use Rattle.std.specs.BTreeMap.{get};
ghost use Rattle.std.specs.Option.{option_map};
ghost use Rattle.std.specs.Ordering.{nat_cmp};
ghost use Rattle.xls_parts.specs.PartRecords.{own_records, placed_of};
ghost use Rattle.xls_comments.specs.Biff8 as rules;
ghost use Rattle.xls_comments.specs.Items.{item_of};
ghost use Rattle.xls_comments.specs.Walking.{NextNote, found_at, text_at, text_first};

use crate::damage::Flaw;
use crate::fields::{damaged, u16_at, visibility_of};
use crate::items::{Comment, CommentItem};
use crate::objects::{read_places, records_behind};
use crate::types::NOTE;
use crate::units::{string_at, text_of, units_of_pieces};
use std::alloc::{AllocError, Global};
use std::collections::BTreeMap;
use std::marker::Model;
use xls_parts::{PartRecord, PartRecords, WholeRecords};

/// The comment of a Note that is whole, with the units of its text.
fn comment(alloc: Global, r: &PartRecord<'_>, units: &[u16]) -> Result<CommentItem, AllocError>
    requires { 8 ≤ length r.now.body.now }
    ensures { IfOk result (λ item. item_of item ≡ rules.comment_8 (placed_of r.now) units.now) }
{
    let (_, author) = r.body.split_at(8);
    Ok(CommentItem::Comment(Comment {
        row: u16_at(r.body, 0),
        column: u16_at(r.body, 2),
        visibility: visibility_of(u16_at(r.body, 4)),
        author: string_at(alloc, author)?,
        text: text_of(alloc, units)?,
    }))
}

/// The item of a Note whose TxO is the first of some records.
fn with_text(
    alloc: Global,
    r: &PartRecord<'_>,
    records: WholeRecords<'_>,
) -> Result<CommentItem, AllocError>
    requires { 8 ≤ length r.now.body.now }
    ensures { IfOk result (λ item. item_of item ≡ rules.with_object (placed_of r.now) (text_first records.entry)) }
{
    let mut records = records;
    let Some(txo) = records.next() else {
        let identifier = u16_at(r.body, 6);
        return Ok(damaged(r, Flaw::NoText { identifier }));
    };
    if txo.body.len() < 12 {
        let found = txo.body.len();
        return Ok(damaged(r, Flaw::ShortText { found }));
    }
    let count = u16_at(txo.body, 10);
    let units = units_of_pieces(alloc, records, count as usize)?;
    if units.len() < count as usize {
        let found = units.len();
        return Ok(damaged(r, Flaw::UnitsEnd { found, count }));
    }
    comment(alloc, r, &units)
}

/// The Notes of a part that are left. Contracts see the list of their items.
#[derive(Drop)]
pub(crate) struct Notes<'a> {
    alloc: Global,
    part: &'a [u8],
    offset: u64,
    places: BTreeMap<u16, Option<u64>>,
    records: PartRecords<'a>,
}

impl<'a> Model for Notes<'a> {
    ghost use Rattle.std.specs.Prelude.{List, ◌+◌, ◌<◌, ◌^◌, length};
    ghost use Rattle.std.specs.BTreeMap.{get};
    ghost use Rattle.std.specs.Ordering.{nat_cmp};
    ghost use Rattle.xls_comments.specs.Biff8.{notes_8};
    ghost use Rattle.xls_comments.specs.Items.{Item};
    ghost use Rattle.xls_comments.specs.Walking.{NextNote, found_at, text_at};

    ghost Value = { List Item };

    ghost view = { λ s. notes_8 (λ id. found_at (text_at s.offset s.part.now) (get nat_cmp s.places id)) s.records };

    ghost invariant = { λ s. s.offset + length s.part.now < 2 ^ 64 };
}

/// The item of a Note, where the texts of the part's objects stand at these places.
fn note(
    alloc: Global,
    part: &[u8],
    offset: u64,
    places: &BTreeMap<u16, Option<u64>>,
    r: &PartRecord<'_>,
) -> Result<CommentItem, AllocError>
    requires { offset + length part.now < 2 ^ 64 }
    ensures { IfOk result (λ item. item_of item
        ≡ rules.note_8 (λ id. found_at (text_at offset part.now) (get nat_cmp places.now id)) (placed_of r.now)) }
{
    if r.body.len() < 8 {
        let found = r.body.len();
        return Ok(damaged(r, Flaw::Short { least: 8, found }));
    }
    let identifier = u16_at(r.body, 6);
    match places.get(&identifier) {
        None => Ok(damaged(r, Flaw::NoObject { identifier })),
        Some(None) => Ok(damaged(r, Flaw::NoText { identifier })),
        Some(Some(place)) => with_text(alloc, r, records_behind(part, offset, *place)),
    }
}

/// The first Note of some records.
fn next_note<'a>(records: &mut PartRecords<'a>) -> Option<PartRecord<'a>>
    ensures { NextNote records.old (option_map placed_of result) records.new }
{
    while let Some(r) = records.next() {
        if r.typ == NOTE {
            return Some(r);
        }
    }
    None
}

impl<'a> Notes<'a> {
    /// Those of the part that begins at this offset of the stream.
    pub(crate) fn read(alloc: Global, part: &'a [u8], offset: u64) -> Result<Notes<'a>, AllocError>
        requires { offset + length part.now < 2 ^ 64 }
        ensures { IfOk result (λ notes. notes ≡ rules.items_8 (own_records offset part.now)) }
    {
        Ok(Notes {
            alloc,
            part,
            offset,
            places: read_places(alloc, part, offset)?,
            records: PartRecords::new(part, offset),
        })
    }
}

impl<'a> Iterator for Notes<'a> {
    ghost use Rattle.std.specs.Prelude.{length};
    ghost use Rattle.std.specs.Iterator.{at_most};
    ghost use Rattle.xls_comments.specs.Items.{ItemSteps};

    type Item = Result<CommentItem, AllocError>;

    ghost next_gives = { ItemSteps };

    ghost remaining = { λ items. at_most (length items) };

    fn next(&mut self) -> Option<Result<CommentItem, AllocError>> {
        let Some(r) = next_note(&mut self.records) else {
            return None;
        };
        match note(self.alloc, self.part, self.offset, &self.places, &r) {
            Ok(item) => Some(Ok(item)),
            Err(error) => {
                self.records = PartRecords::new(&[], 0);
                Some(Err(error))
            }
        }
    }
}
