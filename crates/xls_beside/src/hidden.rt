//! The lines of what is hidden in sheets.

ghost use Rattle.std.specs.Prelude.{◌≡◌, ◌∷◌, [], IfOk, codes, map};
ghost use Rattle.xls_hidden.specs.Hidden.{hidden_items};
ghost use Rattle.xls_hidden.specs.Texts.{why_text};
ghost use Rattle.xls_hidden.specs.declared.sheet.HiddenItem.TheVariants.{Damaged};
ghost use Rattle.xls_output.specs.Each.{DeliversEach, text_output};
ghost use Rattle.xls_beside.specs.Damaged.{at_most_counted, damaged_among};
ghost use Rattle.xls_beside.specs.Hidden as specs;
ghost use Rattle.xls_beside.specs.Hidden.{frozen_members, hidden_lines, run_members};
ghost use Rattle.xls_beside.specs.Lines.{IsLineText, PutsLines, line};

use crate::counting::{Damages, counted, damaged_in_sheets};
use crate::lines::{DamagePlace, count_member, put_damaged, put_line, word_member};
use crate::parts::{SheetPart, part_at};
use crate::sheets::{Tells, write_sheets};
use std::alloc::{AllocError, Global};
use xls_hidden::{Damage, HiddenItem, HiddenItems, Pane, Run, Why, read_hidden};
use xls_open::Globals;
use xls_output::{OutputText, Sink, Stop, Writer};
use xls_readable::Form;
use xls_record::Biff;

/// The word for why something can't be seen.
fn why_word(why: Why) -> &'static str
    ensures { result.now ≡ why_text why }
{
    match why {
        Why::Hidden => "hidden",
        Why::Filtered => "filtered",
        Why::Flat => "flat",
    }
}

/// Puts the line of a run.
fn put_run<K: Sink>(
    form: Form,
    out: &mut Writer<'_, K, OutputText>,
    word: &str,
    run: Run,
) -> Result<(), Stop>
    ensures { PutsLines form (line word.now (run_members run) ∷ []) (text_output K.state out.old) (text_output K.state out.new) result }
{
    let members = [
        count_member("first", u64::from(run.first)),
        count_member("last", u64::from(run.last)),
        word_member("why", why_word(run.why)),
    ];
    put_line(form, out, word, &members)
}

/// Puts the line of frozen panes.
fn put_frozen<K: Sink>(
    form: Form,
    out: &mut Writer<'_, K, OutputText>,
    pane: Pane,
) -> Result<(), Stop>
    ensures { PutsLines form (line (codes "frozen") (frozen_members pane) ∷ [])
        (text_output K.state out.old) (text_output K.state out.new) result }
{
    let members = [
        count_member("rows", u64::from(pane.rows)),
        count_member("columns", u64::from(pane.columns)),
    ];
    put_line(form, out, "frozen", &members)
}

/// Puts the line of a damaged record.
fn put_damage<K: Sink>(
    form: Form,
    alloc: Global,
    out: &mut Writer<'_, K, OutputText>,
    damage: &Damage,
) -> Result<(), Stop>
    ensures { PutsLines form (specs.hidden (Damaged damage.now) ∷ []) (text_output K.state out.old) (text_output K.state out.new) result }
{
    let name = format!(in alloc; "{}", damage.record_name)?;
    let why = format!(in alloc; "{}", damage.flaw)?;
    let place = DamagePlace {
        offset: damage.offset,
        row: damage.row,
        column: damage.column,
    };
    put_damaged(form, out, name.as_str(), place, why.as_str())
}

/// Puts the line of something hidden.
fn put_item<K: Sink>(
    form: Form,
    alloc: Global,
    out: &mut Writer<'_, K, OutputText>,
    item: HiddenItem,
) -> Result<(), Stop>
    ensures { PutsLines form (specs.hidden item ∷ []) (text_output K.state out.old) (text_output K.state out.new) result }
{
    match item {
        HiddenItem::Rows(run) => put_run(form, out, "rows", run),
        HiddenItem::Columns(run) => put_run(form, out, "columns", run),
        HiddenItem::Frozen(pane) => put_frozen(form, out, pane),
        HiddenItem::Zeros => put_line(form, out, "zeros", &[]),
        HiddenItem::Damaged(damage) => put_damage(form, alloc, out, &damage),
    }
}

/// Puts the lines of all that is hidden, in order.
fn put_items<K: Sink>(
    form: Form,
    alloc: Global,
    out: &mut Writer<'_, K, OutputText>,
    items: HiddenItems<'_, '_>,
) -> Result<(), Stop>
    ensures { PutsLines form (map specs.hidden items.entry) (text_output K.state out.old) (text_output K.state out.new) result }
{
    for item in items {
        put_item(form, alloc, out, item)?;
    }
    Ok(())
}

/// What is hidden in the sheets of a stream.
#[derive(Clone, Copy, Drop)]
struct Hidden<'a> {
    stream: &'a [u8],
    version: Biff,
}

impl<'a> Tells for Hidden<'a> {
    ghost use Rattle.xls_beside.specs.Hidden.{hidden_in};

    ghost lines = { λ s. hidden_in s.version s.stream.now };

    fn put<K: Sink>(
        &self,
        form: Form,
        alloc: Global,
        out: &mut Writer<'_, K, OutputText>,
        part: SheetPart,
    ) -> Result<(), Stop> {
        let bytes = part_at(self.stream, part.offset);
        let hidden = read_hidden(alloc, bytes, part.offset as u64, self.version, part.area)?;
        put_items(form, alloc, out, hidden.items())
    }
}

/// Writes what is hidden in the sheets of a workbook, by its stream and its globals: for each sheet in workbook order
/// its line `sheet`, and behind it those of what is hidden in the last sheet of its name: runs of rows (`rows`) and of
/// columns (`columns`), frozen panes (`frozen`), zeros that aren't shown (`zeros`), and records that are damaged
/// (`damaged`), in the order of the stream. At a refusal of the sink, or where memory runs out, a prefix of these lines
/// was written. Beside the globals a part's place is held for each sheet, and a byte for each row and column of one.
pub fn write_hidden<K: Sink>(
    alloc: Global,
    sink: &mut K,
    form: Form,
    stream: &[u8],
    globals: &Globals,
) -> Result<(), Stop>
    ensures { DeliversEach (IsLineText form) (hidden_lines globals.now.version globals.now.sheets stream.now)
        (K.state sink.old) (K.state sink.new) result }
{
    let hidden = Hidden {
        stream,
        version: globals.version,
    };
    write_sheets(alloc, sink, form, &hidden, stream, globals)
}

/// How many lines `damaged` something hidden has: 1 or 0.
fn item_damaged(item: HiddenItem) -> u64
    ensures { result ≡ damaged_among (specs.hidden item ∷ []) }
{
    match item {
        HiddenItem::Damaged(_) => 1,
        HiddenItem::Rows(_) | HiddenItem::Columns(_) | HiddenItem::Frozen(_) | HiddenItem::Zeros =>
            0,
    }
}

/// How many of these items are damaged.
fn items_damaged(items: HiddenItems<'_, '_>) -> u64
    ensures { result ≡ at_most_counted (damaged_among (map specs.hidden items.entry)) }
{
    let mut count: u64 = 0;
    for item in items {
        count = counted(count, item_damaged(item));
    }
    count
}

impl<'a> Damages for Hidden<'a> {
    ghost use Rattle.xls_beside.specs.Hidden.{hidden_in};

    ghost lines = { λ s. hidden_in s.version s.stream.now };

    fn damaged(&self, alloc: Global, part: SheetPart) -> Result<u64, AllocError> {
        let bytes = part_at(self.stream, part.offset);
        let hidden = read_hidden(alloc, bytes, part.offset as u64, self.version, part.area)?;
        Ok(items_damaged(hidden.items()))
    }
}

/// How many records that may hide something are damaged in the sheets of a workbook; 2^64 - 1 where they are more.
pub(crate) fn damaged_hidden(
    alloc: Global,
    stream: &[u8],
    globals: &Globals,
) -> Result<u64, AllocError>
    ensures { IfOk result (λ n. n
        ≡ at_most_counted (damaged_among (hidden_lines globals.now.version globals.now.sheets stream.now))) }
{
    let hidden = Hidden {
        stream,
        version: globals.version,
    };
    damaged_in_sheets(alloc, &hidden, stream, globals)
}
