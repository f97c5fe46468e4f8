//! Bytes that go on over the bodies of Continue records, as a string table has them.

ghost use Rattle.std.specs.Prelude.{◌≡◌, ◌≤◌, ◌↔◌, [], IsTrue, length, drop};
ghost use Rattle.xls_strings.specs.MarkSteps.{TakesByte, TakesMark, TakesHigh, TakesWidth, TakesUnits, SkipsTail, SkipsUnits};

use std::marker::Model;
use xls_record::{Pieces, XlsError};
use xls_stream::Part;

/// The rest of a body, and the bodies that follow it, with a mark before each of those.
#[derive(Drop)]
pub(crate) struct Marked<'a> {
    hand: &'a [u8],
    pieces: Pieces<'a>,
}

impl<'a> Model for Marked<'a> {
    ghost use Rattle.std.specs.Prelude.{List};
    ghost use Rattle.xls_stream.specs.StringTable.{Mark, marked};

    ghost Value = { List Mark };

    ghost view = { λ m. marked m.hand.now m.pieces };
}

impl<'a> Marked<'a> {
    ghost use Rattle.xls_stream.specs.StringTable.{marked, prefix_of};

    /// The bytes of a body, and the bodies attached to it.
    pub(crate) fn new(body: &'a [u8], pieces: Pieces<'a>) -> Marked<'a>
        ensures { result ≡ marked body.entry.now pieces.entry }
    {
        Marked { hand: body, pieces }
    }

    /// The same bytes once more.
    pub(crate) fn again(&self) -> Marked<'a>
        ensures { result ≡ self.now }
    {
        Marked {
            hand: self.hand,
            pieces: self.pieces.again(),
        }
    }

    /// The next byte, if one stands before the next mark.
    pub(crate) fn take_byte(&mut self) -> Option<u8>
        ensures { TakesByte self.old result self.new }
    {
        let (first, others) = self.hand.split_first()?;
        self.hand = others;
        Some(*first)
    }

    /// The bytes before the next mark.
    pub(crate) fn at_hand(&self) -> &'a [u8]
        ensures { result.now ≡ prefix_of self.now }
    {
        self.hand
    }

    /// Goes past so many bytes before the next mark.
    pub(crate) fn skip(&mut self, count: usize)
        requires { count ≤ length (prefix_of self.old) }
        ensures { self.new ≡ drop count self.old }
    {
        let (_, rest) = self.hand.split_at(count);
        self.hand = rest;
    }

    /// Whether nothing is left, not even a mark.
    pub(crate) fn is_over(&self) -> bool
        ensures { IsTrue result ↔ (self.now ≡ []) }
    {
        self.hand.is_empty() && self.pieces.is_empty()
    }

    /// Goes past a mark, if one is next.
    pub(crate) fn take_mark(&mut self) -> bool
        ensures { TakesMark self.old result self.new }
    {
        if !self.hand.is_empty() {
            return false;
        }
        match self.pieces.next_piece() {
            Some(body) => {
                self.hand = body;
                true
            }
            None => false,
        }
    }
}

/// The high byte of a unit whose low byte was taken.
fn take_high(text: &mut Marked<'_>, is_wide: bool) -> Option<u8>
    ensures { TakesHigh is_wide text.old result text.new }
{
    if is_wide { text.take_byte() } else { Some(0) }
}

/// The width of the units in the next piece.
fn take_width(text: &mut Marked<'_>) -> Option<bool>
    ensures { TakesWidth text.old result text.new }
{
    if !text.take_mark() {
        return None;
    }
    let flags = text.take_byte()?;
    Some(flags % 2 == 1)
}

/// Adds so many units.
pub(crate) fn read_units(
    text: &mut Marked<'_>,
    out: &mut Vec<u16>,
    count: u16,
    wide: bool,
) -> Result<(), XlsError>
    ensures { TakesUnits count wide text.old out.old.items result out.new.items text.new }
{
    let mut is_wide = wide;
    let mut left = count;
    while left > 0 {
        match text.take_byte() {
            Some(low) => {
                let Some(high) = take_high(text, is_wide) else {
                    return Err(XlsError::EoStream(Part::Dbcs));
                };
                out.push(u16::from(low) + 256 * u16::from(high))?;
                left -= 1;
            }
            None => {
                let Some(next) = take_width(text) else {
                    return Err(XlsError::EoStream(Part::Dbcs));
                };
                is_wide = next;
            }
        }
    }
    Ok(())
}

/// Goes past so many units. Takes no memory.
pub(crate) fn skip_units(text: &mut Marked<'_>, count: u16, wide: bool) -> Result<(), XlsError>
    ensures { SkipsUnits count wide text.old result text.new }
{
    let mut width = wide;
    let mut left = count;
    while left > 0 {
        match text.take_byte() {
            Some(_low) => {
                let Some(_high) = take_high(text, width) else {
                    return Err(XlsError::EoStream(Part::Dbcs));
                };
                left -= 1;
            }
            None => {
                let Some(next) = take_width(text) else {
                    return Err(XlsError::EoStream(Part::Dbcs));
                };
                width = next;
            }
        }
    }
    Ok(())
}

/// Goes past so many bytes, over marks. Takes no memory.
pub(crate) fn skip_tail(text: &mut Marked<'_>, count: u64) -> Result<(), XlsError>
    ensures { SkipsTail count text.old result text.new }
{
    let mut left = count;
    while left > 0 {
        if text.take_byte().is_some() {
            left -= 1;
        } else if !text.take_mark() {
            return Err(XlsError::ContinueRecordTooShort);
        }
    }
    Ok(())
}
