//! The runs of the strings of the string table.

ghost use Rattle.std.specs.Prelude.{◌≡◌, ◌≤◌, ◌<◌, ◌^◌, ℕ, false, IfOk, IfSome, OnOk, length};
ghost use Rattle.std.specs.BTreeMap.{get};
ghost use Rattle.std.specs.Ordering.{nat_cmp};
ghost use Rattle.std.specs.Option.{option_map};
ghost use Rattle.std.specs.Result.{result_ok};
ghost use Rattle.xls_stream.specs.StringTable.{head_at, next_at, prefix_of, runs_at, str_at, tail_of};
ghost use Rattle.xls_style_cells.specs.Places.{source_given};
ghost use Rattle.xls_style_cells.specs.Runs.{runs_in};
ghost use Rattle.xls_style_cells.specs.Tables.{after_in, bytes_in, first_runs, runs_of, runs_of_string, string_runs, string_table};
ghost use Rattle.xls_style_cells.specs.Walking.{found_runs, outline_of, put_at, table_at, tail_left};

use crate::fields::bytes_from;
use crate::marked::{Marked, skip_after, skip_units};
use crate::records::CellRuns;
use crate::runs::Runs;
use std::alloc::{AllocError, Global};
use std::collections::BTreeMap;
use std::marker::Model;
use xls_bytes::{read_u16, read_u32};
use xls_parts::{GlobalsRecords, PartRecord};
use xls_record::Biff;
use xls_stream::types::SST;

/// What stands before the units of a string.
#[derive(Clone, Copy)]
struct Head {
    len: usize,
    count: u16,
    is_wide: bool,
    runs: u16,
    /// The bytes behind the units; `None` where a length is negative.
    tail: Option<u64>,
}

/// The head of a string, XLUnicodeRichExtendedString ([MS-XLS] 2.5.293), by the bytes of its piece.
fn read_head(prefix: &[u8]) -> Option<Head>
    ensures head { option_map outline_of result ≡ result_ok (head_at prefix.now) }
    ensures runs { IfSome result (λ h. h.runs ≡ runs_at prefix.now) }
    ensures within { IfSome result (λ h. h.len ≤ length prefix.now) }
{
    if prefix.len() < 3 {
        return None;
    }
    let flags = prefix[2];
    let has_runs = flags / 8 % 2 == 1;
    let has_extension = flags / 4 % 2 == 1;
    let after_runs = if has_runs { 5 } else { 3 };
    let len = if has_extension {
        after_runs + 4
    } else {
        after_runs
    };
    if prefix.len() < len {
        return None;
    }
    let runs = if has_runs { read_u16(&prefix[3..]) } else { 0 };
    let extension = if has_extension {
        read_u32(&prefix[after_runs..])
    } else {
        0
    };
    let tail = if extension < 0x8000_0000 {
        Some(4 * u64::from(runs) + u64::from(extension))
    } else {
        None
    };
    Some(Head {
        len,
        count: read_u16(prefix),
        is_wide: flags % 2 == 1,
        runs,
        tail,
    })
}

/// So many runs that stand here, if there are any.
fn runs_here<'a>(text: &Marked<'a>, count: u16) -> Option<Runs<'a>>
    ensures { found_runs result ≡ runs_in false count (bytes_in text.now) }
{
    if count == 0 {
        return None;
    }
    Some(Runs::shared(text.again(), count))
}

/// The runs behind the units of a string, which is gone past; nothing is left behind one that isn't whole.
fn take_behind<'a>(text: &mut Marked<'a>, runs: u16, tail: Option<u64>) -> Option<Runs<'a>>
    ensures runs { found_runs result ≡ runs_in false runs (bytes_in text.old) }
    ensures after { text.new ≡ tail_left (tail_of tail text.old) }
{
    let found = runs_here(text, runs);
    if skip_after(text, tail).is_err() {
        *text = Marked::nothing();
    }
    found
}

/// The runs of the string whose head stands here, which is gone past likewise.
fn take_string<'a>(text: &mut Marked<'a>) -> Option<Runs<'a>>
    ensures runs { found_runs result ≡ runs_of_string text.old }
    ensures after { text.new ≡ after_in (str_at text.old) }
{
    let Some(head) = read_head(text.at_hand()) else {
        *text = Marked::nothing();
        return None;
    };
    text.skip(head.len);
    if skip_units(text, head.count, head.is_wide).is_err() {
        *text = Marked::nothing();
        return None;
    }
    take_behind(text, head.runs, head.tail)
}

/// The runs of the next string; a piece without a byte is the empty string.
fn take_next<'a>(text: &mut Marked<'a>) -> Option<Runs<'a>>
    ensures runs { found_runs result ≡ first_runs text.old }
    ensures after { text.new ≡ after_in (next_at text.old) }
{
    if text.take_mark() && text.at_hand().is_empty() {
        return None;
    }
    take_string(text)
}

/// Keeps the runs of the string of an index, if it has any.
fn put<'a>(
    places: &mut BTreeMap<u64, Runs<'a>>,
    index: u64,
    runs: Option<Runs<'a>>,
) -> Result<(), AllocError>
    ensures { OnOk result ((i : ℕ) → get nat_cmp places.new i ≡ put_at (get nat_cmp places.old) index runs.entry i) }
{
    if let Some(runs) = runs {
        places.insert(index, runs)?;
    }
    Ok(())
}

/// The runs of the strings that have any, of those that a cell can name.
fn read_runs<'a>(alloc: Global, table: &Marked<'a>) -> Result<BTreeMap<u64, Runs<'a>>, AllocError>
    ensures { IfOk result (λ places. (i : ℕ) → i < 2 ^ 32 → found_runs (get nat_cmp places i) ≡ string_runs i table.now) }
{
    let mut places = BTreeMap::new(alloc);
    let mut text = table.again();
    let mut index: u64 = 0;
    'strings: while index < 0x1_0000_0000 {
        if text.is_over() {
            return Ok(places);
        }
        let runs = take_next(&mut text);
        put(&mut places, index, runs)?;
        index += 1;
    }
    Ok(places)
}

/// The last SST of the globals.
fn last_table(stream: &[u8]) -> Option<PartRecord<'_>>
    ensures { table_at stream.now result ≡ string_table stream.now }
{
    let mut last = None;
    'records: for r in GlobalsRecords::new(stream) {
        if r.typ == SST {
            last = Some(r);
        }
    }
    last
}

/// The string table of a stream.
fn table_of(stream: &[u8]) -> Marked<'_>
    ensures { result ≡ string_table stream.now }
{
    match last_table(stream) {
        Some(r) => {
            let end = (r.offset as usize).saturating_add(4 + r.body.len());
            Marked::new(bytes_from(r.body, 8), bytes_from(stream, end))
        }
        None => Marked::nothing(),
    }
}

/// The runs of the strings of a string table. Contracts see the bytes of the table, with a mark before the body of each
/// Continue record.
///
/// Holds of each string with runs where they stand.
#[derive(Drop)]
pub struct StringRuns<'a> {
    table: Marked<'a>,
    places: BTreeMap<u64, Runs<'a>>,
}

impl<'a> Model for StringRuns<'a> {
    ghost use Rattle.std.specs.Prelude.{◌≡◌, ◌<◌, ◌^◌, ℕ, List};
    ghost use Rattle.std.specs.BTreeMap.{get};
    ghost use Rattle.std.specs.Ordering.{nat_cmp};
    ghost use Rattle.xls_stream.specs.StringTable.{Mark};
    ghost use Rattle.xls_style_cells.specs.Tables.{string_runs};
    ghost use Rattle.xls_style_cells.specs.Walking.{found_runs};

    ghost Value = { List Mark };

    ghost view = { λ s. s.table };

    ghost invariant = { λ s. (i : ℕ) → i < 2 ^ 32 → found_runs (get nat_cmp s.places i) ≡ string_runs i s.table };
}

impl<'a> StringRuns<'a> {
    ghost use Rattle.std.specs.Prelude.{◌≡◌, IfOk};
    ghost use Rattle.xls_style_cells.specs.Places.{source_given};
    ghost use Rattle.xls_style_cells.specs.Tables.{runs_of, string_table};

    /// Those of the last SST of a workbook's globals, which begin the stream. Only want of memory refuses.
    pub fn read(alloc: Global, stream: &'a [u8]) -> Result<StringRuns<'a>, AllocError>
        ensures { IfOk result (λ runs. runs ≡ string_table stream.entry.now) }
    {
        let table = table_of(stream);
        let places = read_runs(alloc, &table)?;
        Ok(StringRuns { table, places })
    }

    /// Those of the string of an index; none past the last string.
    fn of_string(&self, index: u32) -> Runs<'a>
        ensures { result ≡ string_runs index self.now }
    {
        match self.places.get(&u64::from(index)) {
            Some(runs) => runs.again(),
            None => Runs::none(),
        }
    }

    /// The runs of a cell's text, under a version: from which unit on it has which font. Takes no memory.
    pub fn of(&self, version: Biff, runs: CellRuns<'a>) -> Runs<'a>
        ensures { result ≡ runs_of version self.now (source_given runs.entry) }
    {
        match runs {
            CellRuns::Nothing => Runs::none(),
            CellRuns::Shared(index) => self.of_string(index),
            CellRuns::Own(bytes) => Runs::own(version, bytes),
        }
    }
}
