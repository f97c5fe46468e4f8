//! The links of a sheet.

ghost use Rattle.std.specs.Prelude.{◌≡◌, ◌==◌, ◌+◌, ◌<◌, ◌≤◌, ◌^◌, List, [], Ok, Err, if◌then◌else◌, IfOk, length, drop};
ghost use Rattle.xls_record.specs.Version.{is_biff8};
ghost use Rattle.std.specs.Option.{option_map};
ghost use Rattle.xls_parts.specs.PartRecords.{Placed, own_records, placed_of};
ghost use Rattle.xls_parts.specs.Steps.{StepsBy};
ghost use Rattle.xls_strings.specs.Texts.{text_of};
ghost use Rattle.xls_links.specs.Items.{item_of};
ghost use Rattle.xls_links.specs.declared.damage.Flaw.TheVariants.{EndsIn};
ghost use Rattle.xls_links.specs.Links as links;
ghost use Rattle.xls_links.specs.Links.{link_items};
ghost use Rattle.xls_links.specs.Splitting.{Gives};
ghost use Rattle.xls_links.specs.Walking.{NextLink, parts_given, target_of};

use crate::damage::{Damage, DamagedRecord, Flaw, Part, Stop};
use crate::items::{Link, LinkItem, LinkKind};
use crate::monikers::{Target, moniker_at, path};
use crate::splitting::split_units;
use crate::strings::{no_text, units_text};
use crate::types::{H_LINK, H_LINK_TOOLTIP};
use std::alloc::{AllocError, Global};
use std::marker::Model;
use xls_bytes::{read_u16, read_u32};
use xls_parts::{PartRecord, PartRecords};
use xls_record::{Biff, is_biff8};
use xls_text::XlsEncoding;

/// What an HLink says besides its cells.
#[derive(Drop)]
pub(crate) struct Parts {
    shown: String,
    target: Target,
    place: String,
}

fn u16_at(body: &[u8], place: usize) -> u16
    requires { place + 2 ≤ length body.now }
    ensures { result ≡ links.u16_at place body.now }
{
    read_u16(&body[place..])
}

/// A string that is there or not, and what follows.
fn string_if<'b>(
    alloc: Global,
    is_there: bool,
    bytes: &'b [u8],
    part: Part,
) -> Result<(String, &'b [u8]), Stop>
    ensures { Gives (λ x. (text_of x.0, x.1.now)) result (links.string_if is_there (EndsIn part) bytes.now) }
{
    if !is_there {
        return Ok((no_text(alloc), bytes));
    }
    let (units, rest) = split_units(bytes, Flaw::EndsIn(part))?;
    let text = units_text(alloc, units)?;
    Ok((text, rest))
}

/// A target that is told by a string, and what follows.
fn string_target<'b>(alloc: Global, bytes: &'b [u8]) -> Result<(Target, &'b [u8]), Stop>
    ensures { Gives (λ x. (target_of x.0, x.1.now)) result (links.string_target bytes.now) }
{
    let (units, rest) = split_units(bytes, Flaw::EndsIn(Part::Target))?;
    let text = units_text(alloc, units)?;
    Ok((path(text), rest))
}

/// The target of a link of these flags, and what follows.
fn target_at<'b>(
    alloc: Global,
    page: XlsEncoding,
    flags: u32,
    bytes: &'b [u8],
) -> Result<(Target, &'b [u8]), Stop>
    ensures { Gives (λ x. (target_of x.0, x.1.now)) result (links.target_at page flags bytes.now) }
{
    if flags % 2 == 0 {
        let target = Target {
            kind: LinkKind::Place,
            text: no_text(alloc),
        };
        return Ok((target, bytes));
    }
    if flags / 0x100 % 2 == 1 {
        return string_target(alloc, bytes);
    }
    moniker_at(alloc, page, bytes)
}

/// What a link of these flags says.
fn parts_at(alloc: Global, page: XlsEncoding, flags: u32, bytes: &[u8]) -> Result<Parts, Stop>
    ensures { Gives parts_given result (links.parts_at page flags bytes.now) }
{
    let (shown, rest) = string_if(alloc, flags / 0x10 % 2 == 1, bytes, Part::Shown)?;
    let (_, rest) = string_if(alloc, flags / 0x80 % 2 == 1, rest, Part::Frame)?;
    let (target, rest) = target_at(alloc, page, flags, rest)?;
    let (place, _) = string_if(alloc, flags / 0x08 % 2 == 1, rest, Part::Place)?;
    Ok(Parts {
        shown,
        target,
        place,
    })
}

/// The flags of an HLink.
fn flags_of(body: &[u8]) -> u32
    requires { 32 ≤ length body.now }
    ensures { result ≡ links.flags_of body.now }
{
    read_u32(&body[28..])
}

/// What an HLink says besides its cells.
fn parts_of(alloc: Global, page: XlsEncoding, body: &[u8]) -> Result<Parts, Stop>
    ensures exact { Gives parts_given result (links.parts_of page body.now) }
    ensures long { IfOk result (λ parts. 32 ≤ length body.now) }
{
    if body.len() < 32 {
        return Err(Stop::Flawed(Flaw::EndsIn(Part::Head)));
    }
    let (_, rest) = body.split_at(32);
    parts_at(alloc, page, flags_of(body), rest)
}

/// A number of the first cell, where the eight bytes of the cells are there.
fn cell_number(body: &[u8], place: usize) -> Option<u16>
    requires { place ≤ 4 }
    ensures { result ≡ links.cell_number place body.now }
{
    if body.len() < 8 {
        return None;
    }
    Some(u16_at(body, place))
}

/// An HLink that is damaged.
fn damaged(r: &PartRecord<'_>, flaw: Flaw) -> LinkItem
    ensures { item_of result ≡ links.link_of (placed_of r.now) [] (Err flaw) }
{
    LinkItem::Damaged(Damage {
        record_name: DamagedRecord::HLink,
        offset: r.offset,
        row: cell_number(r.body, 0),
        column: cell_number(r.body, 4),
        flaw,
    })
}

/// The bytes behind the first so many; none where there are fewer.
fn skipped(bytes: &[u8], count: usize) -> &[u8]
    ensures { result.now ≡ drop count bytes.now }
{
    if bytes.len() < count {
        return &[];
    }
    let (_, rest) = bytes.split_at(count);
    rest
}

/// Whether a record stands directly behind another.
fn is_behind(before: &PartRecord<'_>, r: &PartRecord<'_>) -> bool
    ensures { result ≡ (r.now.offset == links.end_of (placed_of before.now)) }
{
    r.offset >= before.offset && r.offset - before.offset == 4 + before.body.len() as u64
}

/// Records, the first of which is looked at before it is taken. Contracts see the list of those that are left.
#[derive(Drop)]
struct Ahead<'a> {
    first: Option<PartRecord<'a>>,
    others: PartRecords<'a>,
}

impl<'a> Model for Ahead<'a> {
    ghost use Rattle.std.specs.Prelude.{◌≡◌, List, [], ◌++◌, None};
    ghost use Rattle.std.specs.Option.{option_to_list, option_map};
    ghost use Rattle.xls_parts.specs.PartRecords.{Placed, placed_of};

    ghost Value = { List Placed };

    ghost view = { λ s. option_to_list (option_map placed_of s.first) ++ s.others };

    ghost invariant = { λ s. s.first ≡ None → s.others ≡ [] };
}

impl<'a> Ahead<'a> {
    fn new(records: PartRecords<'a>) -> Ahead<'a>
        ensures { result ≡ records.entry }
    {
        let mut others = records;
        Ahead {
            first: others.next(),
            others,
        }
    }

    /// The first record.
    fn take(&mut self) -> Option<PartRecord<'a>>
        ensures { StepsBy placed_of self.old result self.new }
    {
        let Some(r) = self.first else {
            return None;
        };
        self.first = self.others.next();
        Some(r)
    }

    /// The bytes of the text that is shown when a link is pointed at, where these records are left behind it.
    fn tip_bytes(&self, link: &PartRecord<'_>) -> &'a [u8]
        ensures { result.now ≡ links.tip_bytes (links.end_of (placed_of link.now)) self.now }
    {
        let Some(r) = self.first else {
            return &[];
        };
        if r.typ == H_LINK_TOOLTIP && is_behind(link, &r) {
            return skipped(r.body, 10);
        }
        &[]
    }
}

/// The link of a record that isn't damaged.
fn link(
    alloc: Global,
    r: &PartRecord<'_>,
    parts: Parts,
    records: &Ahead<'_>,
) -> Result<LinkItem, AllocError>
    requires { 32 ≤ length r.now.body.now }
    ensures { IfOk result (λ item. item_of item ≡ links.link_of (placed_of r.now) records.now (Ok (parts_given parts))) }
{
    let tip = units_text(alloc, records.tip_bytes(r))?;
    Ok(LinkItem::Link(Link {
        first_row: u16_at(r.body, 0),
        last_row: u16_at(r.body, 2),
        first_column: u16_at(r.body, 4),
        last_column: u16_at(r.body, 6),
        kind: parts.target.kind,
        target: parts.target.text,
        place: parts.place,
        shown: parts.shown,
        tip,
    }))
}

/// The item of an HLink, where these records are left behind it.
fn item(
    alloc: Global,
    page: XlsEncoding,
    r: &PartRecord<'_>,
    records: &Ahead<'_>,
) -> Result<LinkItem, AllocError>
    ensures { IfOk result (λ item. item_of item
        ≡ links.link_of (placed_of r.now) records.now (links.parts_of page r.now.body.now)) }
{
    match parts_of(alloc, page, r.body) {
        Ok(parts) => link(alloc, r, parts, records),
        Err(Stop::Memory(error)) => Err(error),
        Err(Stop::Flawed(flaw)) => Ok(damaged(r, flaw)),
    }
}

/// The first HLink of some records.
fn next_link<'a>(records: &mut Ahead<'a>) -> Option<PartRecord<'a>>
    ensures { NextLink records.old (option_map placed_of result) records.new }
{
    while let Some(r) = records.take() {
        if r.typ == H_LINK {
            return Some(r);
        }
    }
    None
}

/// The links of a sheet and its damaged HLinks, one after another in the order of the stream, with the texts of one at a
/// time. Only want of memory refuses an item, and then no more come.
///
/// Contracts see the list of the items that are left.
#[derive(Drop)]
pub struct Links<'a> {
    alloc: Global,
    page: XlsEncoding,
    records: Ahead<'a>,
}

impl<'a> Model for Links<'a> {
    ghost use Rattle.std.specs.Prelude.{List};
    ghost use Rattle.xls_links.specs.Items.{Item};
    ghost use Rattle.xls_links.specs.Links.{links_in};

    ghost Value = { List Item };

    ghost view = { λ s. links_in s.page s.records };
}

/// The records that may tell links: none before BIFF8.
#[tactic(auto, using(crate::proofs::LinkLemmas::no_records))]
fn link_records<'a>(part: &'a [u8], offset: u64, version: Biff) -> PartRecords<'a>
    requires { offset + length part.now < 2 ^ 64 }
    ensures { result ≡ (if is_biff8 version then own_records offset part.now else []) }
{
    if is_biff8(version) {
        PartRecords::new(part, offset)
    } else {
        PartRecords::new(&[], 0)
    }
}

impl<'a> Links<'a> {
    /// Those of the sheet whose part begins with the first byte, which stands at this offset of the stream; under a
    /// version, with the paths of files in a page. [MS-XLS] HLink and HLinkTooltip; [MS-OSHARED] Hyperlink Object. Takes no memory.
    pub fn new(
        alloc: Global,
        part: &'a [u8],
        offset: u64,
        version: Biff,
        page: XlsEncoding,
    ) -> Links<'a>
        requires { offset + length part.now < 2 ^ 64 }
        ensures { result ≡ link_items version page (own_records offset part.now) }
    {
        Links {
            alloc,
            page,
            records: Ahead::new(link_records(part, offset, version)),
        }
    }
}

impl<'a> Iterator for Links<'a> {
    ghost use Rattle.std.specs.Prelude.{length};
    ghost use Rattle.std.specs.Iterator.{at_most};
    ghost use Rattle.xls_links.specs.Items.{ItemSteps};

    type Item = Result<LinkItem, AllocError>;

    ghost next_gives = { ItemSteps };

    ghost remaining = { λ items. at_most (length items) };

    fn next(&mut self) -> Option<Result<LinkItem, AllocError>> {
        let Some(r) = next_link(&mut self.records) else {
            return None;
        };
        match item(self.alloc, self.page, &r, &self.records) {
            Ok(item) => Some(Ok(item)),
            Err(error) => {
                self.records = Ahead::new(PartRecords::new(&[], 0));
                Some(Err(error))
            }
        }
    }
}
