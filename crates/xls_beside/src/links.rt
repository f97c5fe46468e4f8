//! The lines of links.

ghost use Rattle.std.specs.Prelude.{◌≡◌, ◌∷◌, [], IfOk, map};
ghost use Rattle.xls_links.specs.Items.{item_of};
ghost use Rattle.xls_links.specs.Texts.{kind_text};
ghost use Rattle.xls_links.specs.declared.items.LinkItem.TheVariants as items;
ghost use Rattle.xls_output.specs.Each.{DeliversEach, text_output};
ghost use Rattle.xls_beside.specs.Damaged.{at_most_counted, damaged_among};
ghost use Rattle.xls_beside.specs.Links as specs;
ghost use Rattle.xls_beside.specs.Links.{links_lines};
ghost use Rattle.xls_beside.specs.Lines.{IsLineText, PutsLines};

use crate::counting::{Damages, counted, damaged_in_sheets};
use crate::lines::{DamagePlace, count_member, put_damaged, put_line, text_member, word_member};
use crate::parts::{SheetPart, part_at};
use crate::sheets::{Tells, write_sheets};
use std::alloc::{AllocError, Global};
use xls_links::{Damage, Link, LinkItem, LinkKind, Links};
use xls_open::Globals;
use xls_output::{OutputText, Sink, Stop, Writer};
use xls_readable::Form;
use xls_record::Biff;
use xls_text::XlsEncoding;

/// The word for what a link leads to.
fn kind_word(kind: LinkKind) -> &'static str
    ensures { result.now ≡ kind_text kind }
{
    match kind {
        LinkKind::Url => "url",
        LinkKind::File => "file",
        LinkKind::Unc => "unc",
        LinkKind::Place => "place",
    }
}

/// Puts the line of a link.
fn put_link<K: Sink>(
    form: Form,
    out: &mut Writer<'_, K, OutputText>,
    link: &Link,
) -> Result<(), Stop>
    ensures { PutsLines form (specs.link (item_of (items.Link link.now)) ∷ [])
        (text_output K.state out.old) (text_output K.state out.new) result }
{
    let members = [
        count_member("first_row", u64::from(link.first_row)),
        count_member("first_column", u64::from(link.first_column)),
        count_member("last_row", u64::from(link.last_row)),
        count_member("last_column", u64::from(link.last_column)),
        word_member("kind", kind_word(link.kind)),
        text_member("target", &link.target),
        text_member("place", &link.place),
        text_member("shown", &link.shown),
        text_member("tip", &link.tip),
    ];
    put_line(form, out, "link", &members)
}

/// Puts the line of a damaged HLink.
fn put_damage<K: Sink>(
    form: Form,
    alloc: Global,
    out: &mut Writer<'_, K, OutputText>,
    damage: &Damage,
) -> Result<(), Stop>
    ensures { PutsLines form (specs.link (item_of (items.Damaged damage.now)) ∷ [])
        (text_output K.state out.old) (text_output K.state out.new) result }
{
    let name = format!(in alloc; "{}", damage.record_name)?;
    let why = format!(in alloc; "{}", damage.flaw)?;
    let place = DamagePlace {
        offset: damage.offset,
        row: damage.row,
        column: damage.column,
    };
    put_damaged(form, out, name.as_str(), place, why.as_str())
}

/// Puts the line of a link, or of a damaged HLink.
fn put_item<K: Sink>(
    form: Form,
    alloc: Global,
    out: &mut Writer<'_, K, OutputText>,
    item: &LinkItem,
) -> Result<(), Stop>
    ensures { PutsLines form (specs.link (item_of item.now) ∷ []) (text_output K.state out.old) (text_output K.state out.new) result }
{
    match item {
        LinkItem::Link(link) => put_link(form, out, link),
        LinkItem::Damaged(damage) => put_damage(form, alloc, out, damage),
    }
}

/// Puts the lines of all links, in order.
fn put_items<K: Sink>(
    form: Form,
    alloc: Global,
    out: &mut Writer<'_, K, OutputText>,
    links: Links<'_>,
) -> Result<(), Stop>
    ensures { PutsLines form (map specs.link links.entry) (text_output K.state out.old) (text_output K.state out.new) result }
{
    for next in links {
        let item = next?;
        put_item(form, alloc, out, &item)?;
    }
    Ok(())
}

/// The links of the sheets of a stream, with the paths of files in a page.
#[derive(Clone, Copy, Drop)]
struct SheetLinks<'a> {
    stream: &'a [u8],
    version: Biff,
    page: XlsEncoding,
}

impl<'a> Tells for SheetLinks<'a> {
    ghost use Rattle.xls_beside.specs.Links.{links_in};

    ghost lines = { λ s. links_in s.version s.page s.stream.now };

    fn put<K: Sink>(
        &self,
        form: Form,
        alloc: Global,
        out: &mut Writer<'_, K, OutputText>,
        part: SheetPart,
    ) -> Result<(), Stop> {
        let bytes = part_at(self.stream, part.offset);
        let links = Links::new(alloc, bytes, part.offset as u64, self.version, self.page);
        put_items(form, alloc, out, links)
    }
}

/// Writes the links of the sheets of a workbook, by its stream and its globals: for each sheet in workbook order its line
/// `sheet`, and behind it those of the links in the last sheet of its name, in the order of the stream: first row, first
/// column, last row, last column, kind, target, place, shown text and tip (`link`), or what is damaged (`damaged`). At a
/// refusal of the sink, or where memory runs out, a prefix of these lines was written. Beside the globals a part's place
/// is held for each sheet, and the texts of one link.
pub fn write_links<K: Sink>(
    alloc: Global,
    sink: &mut K,
    form: Form,
    stream: &[u8],
    globals: &Globals,
) -> Result<(), Stop>
    ensures { DeliversEach (IsLineText form)
        (links_lines globals.now.version globals.now.page globals.now.sheets stream.now)
        (K.state sink.old) (K.state sink.new) result }
{
    let links = SheetLinks {
        stream,
        version: globals.version,
        page: globals.page,
    };
    write_sheets(alloc, sink, form, &links, stream, globals)
}

/// How many lines `damaged` a link or a damaged HLink has: 1 or 0.
fn item_damaged(item: &LinkItem) -> u64
    ensures { result ≡ damaged_among (specs.link (item_of item.now) ∷ []) }
{
    match item {
        LinkItem::Damaged(_) => 1,
        LinkItem::Link(_) => 0,
    }
}

/// How many of these items are damaged.
fn items_damaged(links: Links<'_>) -> Result<u64, AllocError>
    ensures { IfOk result (λ n. n ≡ at_most_counted (damaged_among (map specs.link links.entry))) }
{
    let mut count: u64 = 0;
    for next in links {
        let item = next?;
        count = counted(count, item_damaged(&item));
    }
    Ok(count)
}

impl<'a> Damages for SheetLinks<'a> {
    ghost use Rattle.xls_beside.specs.Links.{links_in};

    ghost lines = { λ s. links_in s.version s.page s.stream.now };

    fn damaged(&self, alloc: Global, part: SheetPart) -> Result<u64, AllocError> {
        let bytes = part_at(self.stream, part.offset);
        let links = Links::new(alloc, bytes, part.offset as u64, self.version, self.page);
        items_damaged(links)
    }
}

/// How many HLinks are damaged in the sheets of a workbook; 2^64 - 1 where they are more.
pub(crate) fn damaged_links(
    alloc: Global,
    stream: &[u8],
    globals: &Globals,
) -> Result<u64, AllocError>
    ensures { IfOk result (λ n. n
        ≡ at_most_counted (damaged_among (links_lines globals.now.version globals.now.page globals.now.sheets stream.now))) }
{
    let links = SheetLinks {
        stream,
        version: globals.version,
        page: globals.page,
    };
    damaged_in_sheets(alloc, &links, stream, globals)
}
