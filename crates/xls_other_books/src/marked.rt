//! The strings of a SupBook, which go on over Continue records.

ghost use Rattle.std.specs.Prelude.{◌≡◌, ◌≤◌, [], ◌∷◌, length, drop, IfOk, IfSome, MatchOption};
ghost use Rattle.std.specs.Option.{option_map};
ghost use Rattle.xls_stream.specs.StringTable.{prefix_of, units_at};
ghost use Rattle.xls_strings.specs.MarkSteps.{TakesByte, TakesMark, TakesHigh, TakesWidth};
ghost use Rattle.xls_other_books.specs.Strings as strings;
ghost use Rattle.xls_other_books.specs.Strings.{TakesText, TakesUnits, continues, past_continues};

use crate::cursor::Cursor;
use std::alloc::{AllocError, Global};
use std::marker::Model;
use xls_bytes::read_u16;
use xls_stream::types::CONTINUE;
use xls_text::text_of_units;

/// The rest of a body, and the records behind it, with a mark before the body of each Continue record directly behind.
#[derive(Drop)]
pub struct Marked<'a> {
    hand: &'a [u8],
    records: Cursor<'a>,
}

impl<'a> Model for Marked<'a> {
    ghost use Rattle.std.specs.Prelude.{List};
    ghost use Rattle.xls_stream.specs.StringTable.{Mark, marked};
    ghost use Rattle.xls_other_books.specs.Strings.{Left, continues, past_continues};

    ghost Value = { Left };

    ghost view = { λ m. record {
      marks = marked m.hand.now (continues m.records);
      behind = past_continues m.records;
    } };
}

impl<'a> Marked<'a> {
    ghost use Rattle.xls_stream.specs.StringTable.{marked, prefix_of};
    ghost use Rattle.xls_other_books.specs.Strings.{Left, continues, past_continues};

    /// The bytes of a body, and the records behind it.
    pub fn new(body: &'a [u8], records: Cursor<'a>) -> Marked<'a>
        ensures marks { result.marks ≡ marked body.entry.now (continues records.entry) }
        ensures behind { result.behind ≡ past_continues records.entry }
    {
        Marked {
            hand: body,
            records,
        }
    }

    /// The records behind the Continue records.
    pub fn into_records(self) -> Cursor<'a>
        ensures { result ≡ self.entry.behind }
    {
        let mut records = self.records;
        'continues: while records.is_at(CONTINUE) {
            records.take();
        }
        records
    }

    /// The next byte, if one stands before the next mark.
    fn take_byte(&mut self) -> Option<u8>
        ensures byte { TakesByte self.old.marks result self.new.marks }
        ensures kept { self.new.behind ≡ self.old.behind }
    {
        let (first, others) = self.hand.split_first()?;
        self.hand = others;
        Some(*first)
    }

    /// The bytes before the next mark.
    fn at_hand(&self) -> &'a [u8]
        ensures { result.now ≡ prefix_of self.now.marks }
    {
        self.hand
    }

    /// Goes past so many bytes before the next mark.
    fn skip(&mut self, count: usize)
        requires { count ≤ length (prefix_of self.old.marks) }
        ensures marks { self.new.marks ≡ drop count self.old.marks }
        ensures kept { self.new.behind ≡ self.old.behind }
    {
        let (_, rest) = self.hand.split_at(count);
        self.hand = rest;
    }

    /// Goes past a mark, if one is next.
    fn take_mark(&mut self) -> bool
        ensures mark { TakesMark self.old.marks result self.new.marks }
        ensures kept { self.new.behind ≡ self.old.behind }
    {
        if !self.hand.is_empty() {
            return false;
        }
        match self.records.take_continue() {
            Some(body) => {
                self.hand = body;
                true
            }
            None => false,
        }
    }
}

/// The high byte of a unit whose low byte was taken.
fn take_high(text: &mut Marked<'_>, is_wide: bool) -> Option<u8>
    ensures high { TakesHigh is_wide text.old.marks result text.new.marks }
    ensures kept { text.new.behind ≡ text.old.behind }
{
    if is_wide { text.take_byte() } else { Some(0) }
}

/// The width of the units in the next piece.
fn take_width(text: &mut Marked<'_>) -> Option<bool>
    ensures width { TakesWidth text.old.marks result text.new.marks }
    ensures kept { text.new.behind ≡ text.old.behind }
{
    if !text.take_mark() {
        return None;
    }
    let flags = text.take_byte()?;
    Some(flags % 2 == 1)
}

/// So many units, where they are there.
fn read_units(
    alloc: Global,
    text: &mut Marked<'_>,
    count: u16,
    wide: bool,
) -> Result<Option<Vec<u16>>, AllocError>
    ensures units { IfOk result (λ found. TakesUnits (units_at count wide text.old.marks) found text.new.marks) }
    ensures kept { text.new.behind ≡ text.old.behind }
{
    let mut units = Vec::new(alloc);
    let mut is_wide = wide;
    let mut left = count;
    'units: while left > 0 {
        match text.take_byte() {
            Some(low) => {
                let Some(high) = take_high(text, is_wide) else {
                    return Ok(None);
                };
                units.push(u16::from(low) + 256 * u16::from(high))?;
                left -= 1;
            }
            None => {
                let Some(next) = take_width(text) else {
                    return Ok(None);
                };
                is_wide = next;
            }
        }
    }
    Ok(Some(units))
}

/// What stands before the units of a string.
#[derive(Clone, Copy)]
struct Head {
    size: usize,
    count: u16,
    is_wide: bool,
}

/// How many bytes stand before the units, by the flags byte.
fn head_size(flags: u8) -> usize
    ensures { result ≡ strings.head_size flags }
{
    let after_runs = if flags / 8 % 2 == 1 { 5 } else { 3 };
    if flags / 4 % 2 == 1 {
        after_runs + 4
    } else {
        after_runs
    }
}

/// The head of a string, which stands in one piece.
fn head_at(prefix: &[u8]) -> Option<Head>
    ensures is { option_map strings.head_view result ≡ strings.head_at prefix.now }
    ensures within { IfSome result (λ head. head.size ≤ length prefix.now) }
{
    if prefix.len() < 3 {
        return None;
    }
    let size = head_size(prefix[2]);
    if prefix.len() < size {
        return None;
    }
    Some(Head {
        size,
        count: read_u16(prefix),
        is_wide: prefix[2] % 2 == 1,
    })
}

/// The text of the string that stands here, where it is there whole. Only running out of memory refuses.
pub fn read_text(alloc: Global, text: &mut Marked<'_>) -> Result<Option<String>, AllocError>
    ensures text { IfOk result (λ found. TakesText (strings.string_at text.old.marks) found text.new.marks) }
    ensures kept { text.new.behind ≡ text.old.behind }
{
    let Some(head) = head_at(text.at_hand()) else {
        return Ok(None);
    };
    text.skip(head.size);
    let Some(units) = read_units(alloc, text, head.count, head.is_wide)? else {
        return Ok(None);
    };
    Ok(Some(text_of_units(alloc, &units)?))
}

/// The text of the next string, which may begin with the next piece.
pub(crate) fn read_next_text(
    alloc: Global,
    text: &mut Marked<'_>,
) -> Result<Option<String>, AllocError>
    ensures text { IfOk result (λ found. TakesText (strings.next_at text.old.marks) found text.new.marks) }
    ensures kept { text.new.behind ≡ text.old.behind }
{
    text.take_mark();
    read_text(alloc, text)
}
