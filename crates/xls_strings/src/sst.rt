//! The string table, cut anywhere by Continue records.

ghost use Rattle.std.specs.Prelude.{◌≡◌, ◌<◌, ◌^◌, IfOk};
ghost use Rattle.xls_stream.specs.StringTable.{head_at, next_at, str_at, weight};
ghost use Rattle.xls_record.specs.Reading.{Exactly};
ghost use Rattle.xls_strings.specs.MarkSteps.{SkipsAfter};
ghost use Rattle.xls_strings.specs.Sst.{AddsAt, CountsTable, GivesHead, InTable, ReadsTable, SkipsAt, sst_marks};

use crate::lists::Strings;
use crate::marked::{Marked, read_units, skip_tail, skip_units};
use std::alloc::Global;
use std::marker::Model;
use xls_bytes::{read_u16, read_u32};
use xls_record::{Record, XlsError, need};
use xls_stream::Part;
use xls_text::text_of_units;

/// What stands before the units of a string.
#[derive(Clone, Copy)]
struct Head {
    len: usize,
    count: u16,
    is_wide: bool,
    /// The bytes after the units; `None` where a length is negative.
    tail: Option<u64>,
}

/// The head of a string, XLUnicodeRichExtendedString ([MS-XLS] 2.5.293), by the bytes of its piece.
fn read_head(prefix: &[u8]) -> Result<Head, XlsError>
    ensures { GivesHead result (head_at prefix.now) }
{
    need(prefix, 3, Part::RichString)?;
    let flags = prefix[2];
    let has_runs = flags / 8 % 2 == 1;
    let has_extension = flags / 4 % 2 == 1;
    let after_runs = if has_runs { 5 } else { 3 };
    let len = if has_extension {
        after_runs + 4
    } else {
        after_runs
    };
    need(prefix, len, Part::RichString)?;
    let runs = if has_runs { read_u16(&prefix[3..]) } else { 0 };
    let extension = if has_extension {
        read_u32(&prefix[after_runs..])
    } else {
        0
    };
    let tail = if extension < 0x8000_0000 {
        Some(4 * u64::from(runs) + u64::from(extension))
    } else {
        None
    };
    Ok(Head {
        len,
        count: read_u16(prefix),
        is_wide: flags % 2 == 1,
        tail,
    })
}

/// Goes past the bytes after the units.
fn skip_after(text: &mut Marked<'_>, tail: Option<u64>) -> Result<(), XlsError>
    ensures { SkipsAfter tail text.old result text.new }
{
    match tail {
        Some(count) => skip_tail(text, count),
        None => Err(XlsError::ContinueRecordTooShort),
    }
}

/// Adds the units of the first string, of all its pieces.
fn read_string(text: &mut Marked<'_>, units: &mut Vec<u16>) -> Result<(), XlsError>
    ensures { AddsAt units.old.items result units.new.items text.new (str_at text.old) }
{
    let head = read_head(text.at_hand())?;
    text.skip(head.len);
    read_units(text, units, head.count, head.is_wide)?;
    skip_after(text, head.tail)
}

/// Adds the units of the next string; a piece without a byte is the empty string.
fn next_string(text: &mut Marked<'_>, units: &mut Vec<u16>) -> Result<(), XlsError>
    ensures { AddsAt units.old.items result units.new.items text.new (next_at text.old) }
{
    if text.take_mark() && text.at_hand().is_empty() {
        return Ok(());
    }
    read_string(text, units)
}

/// Goes past the first string.
fn skip_string(text: &mut Marked<'_>) -> Result<(), XlsError>
    ensures { SkipsAt result text.new (str_at text.old) }
{
    let head = read_head(text.at_hand())?;
    text.skip(head.len);
    skip_units(text, head.count, head.is_wide)?;
    skip_after(text, head.tail)
}

/// Goes past the next string.
fn skip_next(text: &mut Marked<'_>) -> Result<(), XlsError>
    ensures { SkipsAt result text.new (next_at text.old) }
{
    if text.take_mark() && text.at_hand().len() == 0 {
        return Ok(());
    }
    skip_string(text)
}

/// The texts of a table.
fn read_table(alloc: Global, mut text: Marked<'_>) -> Result<Strings, XlsError>
    ensures { ReadsTable text.entry result }
{
    let mut strings = Strings::new(alloc);
    let mut units = Vec::new(alloc);
    'table: while !text.is_over() {
        units.clear();
        next_string(&mut text, &mut units)?;
        let string = text_of_units(alloc, &units)?;
        strings.push_text(string)?;
    }
    Ok(strings)
}

/// The number of the strings of a table.
fn count_table(mut text: Marked<'_>) -> Result<usize, XlsError>
    requires { weight text < 2 ^ 65 }
    ensures { CountsTable text.entry result }
{
    let mut count = 0;
    'table: while !text.is_over() {
        skip_next(&mut text)?;
        count += 1;
    }
    Ok(count)
}

/// The bytes of a string table, after the two numbers that begin the body.
fn marks_of<'a>(r: &Record<'a>) -> Result<Marked<'a>, XlsError>
    ensures marks { Exactly (λ m. m) result (sst_marks r.now.body.now r.now.pieces) }
    ensures light { IfOk result (λ m. weight m < 2 ^ 65) }
{
    let body = r.body;
    need(body, 8, Part::Sst)?;
    let (_, strings) = body.split_at(8);
    Ok(Marked::new(strings, r.pieces.again()))
}

/// The texts of an SST record, [MS-XLS] 2.4.265, and of the Continue records attached to it: strings
/// after the first 8 bytes, cut anywhere, in units of one byte or two. The units of a string are
/// joined over all its pieces before they become text. `Len` where the body has fewer than 8 bytes or
/// a piece ends inside a string's head, `EoStream` where units are missing, `ContinueRecordTooShort`
/// where runs or extension are missing or the extension's length is negative; else only running out of memory.
pub fn parse_sst(alloc: Global, r: &Record<'_>) -> Result<Strings, XlsError>
    ensures { InTable ReadsTable (sst_marks r.now.body.now r.now.pieces) result }
{
    let text = marks_of(r)?;
    read_table(alloc, text)
}

/// The number of the strings that `parse_sst` reads, or the error that it answers, out of memory
/// apart. Takes no memory.
pub fn skip_sst(r: &Record<'_>) -> Result<usize, XlsError>
    ensures { InTable CountsTable (sst_marks r.now.body.now r.now.pieces) result }
{
    let text = marks_of(r)?;
    count_table(text)
}

/// The strings of an SST record one after the other, as lists of 16-bit units, since a text doesn't
/// keep a lone surrogate. Contracts see the bytes that are left, with a mark before each attached body.
#[derive(Drop)]
pub struct SstReader<'a> {
    text: Marked<'a>,
}

impl<'a> Model for SstReader<'a> {
    ghost use Rattle.std.specs.Prelude.{List};
    ghost use Rattle.xls_stream.specs.StringTable.{Mark};

    ghost Value = { List Mark };

    ghost view = { λ reader. reader.text };
}

impl<'a> SstReader<'a> {
    ghost use Rattle.xls_strings.specs.Sst.{NextUnits};

    /// The strings from the first one on. `Len` for a body of fewer than 8 bytes. Takes no memory.
    pub fn new(r: &Record<'a>) -> Result<SstReader<'a>, XlsError>
        ensures { Exactly (λ reader. reader) result (sst_marks r.now.body.now r.now.pieces) }
    {
        let text = marks_of(r)?;
        Ok(SstReader { text })
    }

    /// The units of the next string, and `None` exactly where no string is left. The error of `parse_sst`
    /// where that string isn't whole; else only running out of memory. After a refusal the reader is as it was.
    pub fn next_units(&mut self, alloc: Global) -> Result<Option<Vec<u16>>, XlsError>
        ensures { NextUnits self.old result self.new }
    {
        let mut text = self.text.again();
        if text.is_over() {
            return Ok(None);
        }
        let mut units = Vec::new(alloc);
        next_string(&mut text, &mut units)?;
        self.text = text;
        Ok(Some(units))
    }
}
