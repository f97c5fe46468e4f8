//! The comments of the versions before BIFF8.

ghost use Rattle.std.specs.Prelude.{◌≡◌, ◌++◌, ◌+◌, ◌<◌, ◌≤◌, ◌^◌, ◌==◌, ℕ, List, Some, [], IfOk, OnOk, length, take};
ghost use Rattle.std.specs.Option.{option_to_list, option_map};
ghost use Rattle.xls_text.specs.Pages.{decoded};
ghost use Rattle.xls_strings.specs.Texts.{text_of};
ghost use Rattle.xls_parts.specs.PartRecords.{Placed, own_records, placed_of};
ghost use Rattle.xls_parts.specs.Steps.{StepsBy};
ghost use Rattle.xls_comments.specs.Biff5 as rules;
ghost use Rattle.xls_comments.specs.Fields.{end_of};
ghost use Rattle.xls_comments.specs.Items.{item_of};
ghost use Rattle.xls_comments.specs.Walking.{NextLone, TakesRest};
ghost use Rattle.xls_text.specs.declared.encoding.XlsEncoding.{XlsEncoding};

use crate::damage::{Damage, DamagedRecord, Flaw};
use crate::fields::{damaged, u16_at};
use crate::items::{Comment, CommentItem, Visibility};
use crate::types::NOTE;
use std::alloc::{AllocError, Global};
use std::marker::Model;
use xls_parts::{PartRecord, PartRecords};
use xls_text::XlsEncoding;

/// Records, the first of which is looked at before it is taken. Contracts see the list of those that are left.
#[derive(Drop)]
pub(crate) struct Ahead<'a> {
    first: Option<PartRecord<'a>>,
    others: PartRecords<'a>,
}

impl<'a> Model for Ahead<'a> {
    ghost use Rattle.std.specs.Prelude.{◌≡◌, List, [], ◌++◌, None};
    ghost use Rattle.std.specs.Option.{option_to_list, option_map};
    ghost use Rattle.xls_parts.specs.PartRecords.{Placed, placed_of};

    ghost Value = { List Placed };

    ghost view = { λ s. option_to_list (option_map placed_of s.first) ++ s.others };

    ghost invariant = { λ s. s.first ≡ None → s.others ≡ [] };
}

impl<'a> Ahead<'a> {
    fn new(records: PartRecords<'a>) -> Ahead<'a>
        ensures { result ≡ records.entry }
    {
        let mut others = records;
        Ahead {
            first: others.next(),
            others,
        }
    }

    /// The first record.
    fn take(&mut self) -> Option<PartRecord<'a>>
        ensures { StepsBy placed_of self.old result self.new }
    {
        let Some(r) = self.first else {
            return None;
        };
        self.first = self.others.next();
        Some(r)
    }

    /// The first record, if it goes on with a text that lacks so many bytes, where this one stands before it.
    fn take_rest(&mut self, before: &PartRecord<'_>, missing: usize) -> Option<PartRecord<'a>>
        ensures { TakesRest (record { place = end_of (placed_of before.now); missing = missing })
            self.old (option_map placed_of result) self.new }
    {
        let Some(r) = self.first else {
            return None;
        };
        if !goes_on(before, missing, &r) {
            return None;
        }
        self.first = self.others.next();
        Some(r)
    }
}

/// Whether a record stands directly behind another.
fn is_behind(before: &PartRecord<'_>, r: &PartRecord<'_>) -> bool
    ensures { result ≡ (r.now.offset == end_of (placed_of before.now)) }
{
    r.offset >= before.offset && r.offset - before.offset == 4 + before.body.len() as u64
}

/// Whether a record goes on with a text that lacks so many bytes, where another stands before it.
fn goes_on(before: &PartRecord<'_>, missing: usize, r: &PartRecord<'_>) -> bool
    ensures { result ≡ rules.goes_on (record { place = end_of (placed_of before.now); missing = missing }) (placed_of r.now) }
{
    missing > 0
        && r.typ == NOTE
        && is_behind(before, r)
        && r.body.len() >= 6
        && u16_at(r.body, 0) == 0xFFFF
}

/// As many bytes as a Note says that it has, and as are there.
fn note_bytes(body: &[u8]) -> &[u8]
    requires { 6 ≤ length body.now }
    ensures { result.now ≡ rules.note_bytes body.now }
{
    let (_, bytes) = body.split_at(6);
    let (taken, _) = bytes.split_at(bytes.len().min(u16_at(body, 4) as usize));
    taken
}

/// The bytes of the text of a Note; those that stand behind it are taken from the records. Where memory runs out it
/// isn't said which are taken.
fn text_bytes(
    alloc: Global,
    r: &PartRecord<'_>,
    records: &mut Ahead<'_>,
) -> Result<Vec<u8>, AllocError>
    requires { 6 ≤ length r.now.body.now }
    ensures bytes { IfOk result (λ bytes. bytes.items
        ≡ rules.note_bytes r.now.body.now ++ rules.bytes_behind (rules.rest_behind (placed_of r.now)) records.old) }
    ensures left { OnOk result ((page : XlsEncoding)
        → rules.notes_5 page (rules.rest_behind (placed_of r.now)) records.old ≡ rules.notes_5 page rules.rest_none records.new) }
{
    let first = note_bytes(r.body);
    let mut bytes = Vec::new(alloc);
    bytes.extend_from_slice(first)?;
    let mut missing = u16_at(r.body, 4) as usize - first.len();
    let mut before = *r;
    while let Some(next) = records.take_rest(&before, missing) {
        let more = note_bytes(next.body);
        let (taken, _) = more.split_at(more.len().min(missing));
        bytes.extend_from_slice(taken)?;
        missing -= taken.len();
        before = next;
    }
    Ok(bytes)
}

/// The item of a Note that goes on with no text; the records of its text are taken. Where memory runs out it isn't said
/// which are taken.
fn note(
    alloc: Global,
    page: XlsEncoding,
    r: &PartRecord<'_>,
    records: &mut Ahead<'_>,
) -> Result<CommentItem, AllocError>
    ensures item { IfOk result (λ item. item_of item ≡ rules.note_5 page (placed_of r.now) records.old) }
    ensures left { OnOk result (
        rules.notes_5 page (rules.rest_of (placed_of r.now)) records.old ≡ rules.notes_5 page rules.rest_none records.new) }
{
    if r.body.len() < 6 {
        let found = r.body.len();
        return Ok(damaged(r, Flaw::Short { least: 6, found }));
    }
    if u16_at(r.body, 0) == 0xFFFF {
        return Ok(lone_rest(r));
    }
    let count = u16_at(r.body, 4);
    let bytes = text_bytes(alloc, r, records)?;
    if bytes.len() < count as usize {
        let found = bytes.len();
        return Ok(damaged(r, Flaw::BytesEnd { found, count }));
    }
    comment(alloc, page, r, &bytes)
}

/// A Note that continues no comment.
fn lone_rest(r: &PartRecord<'_>) -> CommentItem
    ensures { item_of result ≡ rules.lone_rest (placed_of r.now) }
{
    CommentItem::Damaged(Damage {
        record_name: DamagedRecord::Note,
        offset: r.offset,
        row: None,
        column: None,
        flaw: Flaw::ContinuesNothing,
    })
}

/// The empty text.
fn no_text(alloc: Global) -> String
    ensures { text_of result ≡ [] }
{
    String::new(alloc)
}

/// The text of some bytes by the page.
fn decoded(alloc: Global, page: XlsEncoding, bytes: &[u8]) -> Result<String, AllocError>
    ensures { IfOk result (λ text. text_of text ≡ decoded page bytes.now) }
{
    let text = page.decode_all(alloc, bytes)?;
    Ok(text)
}

/// The comment of a Note that is whole, with the bytes of its text.
fn comment(
    alloc: Global,
    page: XlsEncoding,
    r: &PartRecord<'_>,
    bytes: &[u8],
) -> Result<CommentItem, AllocError>
    requires { 6 ≤ length r.now.body.now }
    ensures { IfOk result (λ item. item_of item ≡ rules.comment_5 page (placed_of r.now) bytes.now) }
{
    Ok(CommentItem::Comment(Comment {
        row: u16_at(r.body, 0),
        column: u16_at(r.body, 2),
        visibility: Visibility::Hidden,
        author: no_text(alloc),
        text: decoded(alloc, page, bytes)?,
    }))
}

/// The Notes of a part that are left. Contracts see the list of their items.
#[derive(Drop)]
pub(crate) struct Notes<'a> {
    alloc: Global,
    page: XlsEncoding,
    records: Ahead<'a>,
}

impl<'a> Model for Notes<'a> {
    ghost use Rattle.std.specs.Prelude.{List};
    ghost use Rattle.xls_comments.specs.Biff5.{items_5};
    ghost use Rattle.xls_comments.specs.Items.{Item};

    ghost Value = { List Item };

    ghost view = { λ s. items_5 s.page s.records };
}

/// The first Note of some records, none of which goes on with a text.
fn next_note<'a>(records: &mut Ahead<'a>) -> Option<PartRecord<'a>>
    ensures { NextLone records.old (option_map placed_of result) records.new }
{
    while let Some(r) = records.take() {
        if r.typ == NOTE {
            return Some(r);
        }
    }
    None
}

impl<'a> Notes<'a> {
    /// Those of the part that begins at this offset of the stream, with texts in a page.
    pub(crate) fn new(alloc: Global, part: &'a [u8], offset: u64, page: XlsEncoding) -> Notes<'a>
        requires { offset + length part.now < 2 ^ 64 }
        ensures { result ≡ rules.items_5 page (own_records offset part.now) }
    {
        Notes {
            alloc,
            page,
            records: Ahead::new(PartRecords::new(part, offset)),
        }
    }
}

impl<'a> Iterator for Notes<'a> {
    ghost use Rattle.std.specs.Prelude.{length};
    ghost use Rattle.std.specs.Iterator.{at_most};
    ghost use Rattle.xls_comments.specs.Items.{ItemSteps};

    type Item = Result<CommentItem, AllocError>;

    ghost next_gives = { ItemSteps };

    ghost remaining = { λ items. at_most (length items) };

    fn next(&mut self) -> Option<Result<CommentItem, AllocError>> {
        let Some(r) = next_note(&mut self.records) else {
            return None;
        };
        match note(self.alloc, self.page, &r, &mut self.records) {
            Ok(item) => Some(Ok(item)),
            Err(error) => {
                self.records = Ahead::new(PartRecords::new(&[], 0));
                Some(Err(error))
            }
        }
    }
}
