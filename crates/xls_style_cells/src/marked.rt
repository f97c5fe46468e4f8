//! Bytes that go on over the bodies of Continue records, with all that stands behind them in the stream.

ghost use Rattle.std.specs.Prelude.{◌≡◌, ◌≤◌, ◌↔◌, ◌∷◌, [], IsTrue, MatchOption, length, drop};
ghost use Rattle.xls_parts.specs.Steps.{Steps};
ghost use Rattle.xls_strings.specs.MarkSteps.{TakesByte, TakesMark, TakesHigh, TakesWidth, SkipsAfter, SkipsTail, SkipsUnits};
ghost use Rattle.xls_style_cells.specs.Tables.{bytes_in};
ghost use Rattle.xls_style_cells.specs.Walking.{continues};

use std::marker::Model;
use xls_parts::WholeRecords;
use xls_record::XlsError;
use xls_stream::Part;
use xls_stream::types::CONTINUE;

/// The body of the Continue record that some bytes begin with, and what stands behind it.
fn next_continue(bytes: &[u8]) -> Option<(&[u8], &[u8])>
    ensures { MatchOption result (continues bytes.now ≡ []) (λ x. continues bytes.now ≡ x.0.now ∷ continues x.1.now) }
{
    let Some(r) = WholeRecords::new(bytes, 0).next() else {
        return None;
    };
    if r.typ != CONTINUE {
        return None;
    }
    let (_, rest) = bytes.split_at(4 + r.body.len());
    Some((r.body, rest))
}

/// Whether some bytes begin with no Continue record.
fn is_last(bytes: &[u8]) -> bool
    ensures { IsTrue result ↔ (continues bytes.now ≡ []) }
{
    match next_continue(bytes) {
        Some(_) => false,
        None => true,
    }
}

/// The rest of a body, and the stream behind it. Contracts see the bytes, with a mark before the body of each Continue
/// record directly behind.
#[derive(Drop)]
pub(crate) struct Marked<'a> {
    hand: &'a [u8],
    rest: &'a [u8],
}

impl<'a> Model for Marked<'a> {
    ghost use Rattle.std.specs.Prelude.{List};
    ghost use Rattle.xls_stream.specs.StringTable.{Mark, marked};
    ghost use Rattle.xls_style_cells.specs.Walking.{continues};

    ghost Value = { List Mark };

    ghost view = { λ m. marked m.hand.now (continues m.rest.now) };
}

impl<'a> Marked<'a> {
    ghost use Rattle.std.specs.Prelude.{◌≡◌, map, Some, []};
    ghost use Rattle.xls_stream.specs.StringTable.{marked, prefix_of};
    ghost use Rattle.xls_style_cells.specs.Tables.{bytes_in};
    ghost use Rattle.xls_style_cells.specs.Walking.{continues};

    /// The bytes of a body, and what stands behind it.
    pub(crate) fn new(hand: &'a [u8], rest: &'a [u8]) -> Marked<'a>
        ensures { result ≡ marked hand.entry.now (continues rest.entry.now) }
    {
        Marked { hand, rest }
    }

    /// The bytes of a body alone.
    pub(crate) fn alone(hand: &'a [u8]) -> Marked<'a>
        ensures { bytes_in result ≡ hand.entry.now }
    {
        Marked::new(hand, &[])
    }

    /// No bytes.
    pub(crate) fn nothing() -> Marked<'a>
        ensures { result ≡ [] }
    {
        Marked::new(&[], &[])
    }

    /// The same bytes once more.
    pub(crate) fn again(&self) -> Marked<'a>
        ensures { result ≡ self.now }
    {
        Marked {
            hand: self.hand,
            rest: self.rest,
        }
    }

    /// The next byte, if one stands before the next mark.
    pub(crate) fn take_byte(&mut self) -> Option<u8>
        ensures { TakesByte self.old result self.new }
    {
        let (first, others) = self.hand.split_first()?;
        self.hand = others;
        Some(*first)
    }

    /// The bytes before the next mark.
    pub(crate) fn at_hand(&self) -> &'a [u8]
        ensures { result.now ≡ prefix_of self.now }
    {
        self.hand
    }

    /// Goes past so many bytes before the next mark.
    pub(crate) fn skip(&mut self, count: usize)
        requires { count ≤ length (prefix_of self.old) }
        ensures { self.new ≡ drop count self.old }
    {
        let (_, rest) = self.hand.split_at(count);
        self.hand = rest;
    }

    /// Whether nothing is left, not even a mark.
    pub(crate) fn is_over(&self) -> bool
        ensures { IsTrue result ↔ (self.now ≡ []) }
    {
        self.hand.is_empty() && is_last(self.rest)
    }

    /// Goes past a mark, if one is next.
    pub(crate) fn take_mark(&mut self) -> bool
        ensures { TakesMark self.old result self.new }
    {
        if !self.hand.is_empty() {
            return false;
        }
        match next_continue(self.rest) {
            Some((body, rest)) => {
                self.hand = body;
                self.rest = rest;
                true
            }
            None => false,
        }
    }
}

/// The high byte of a unit whose low byte was taken.
fn take_high(text: &mut Marked<'_>, is_wide: bool) -> Option<u8>
    ensures { TakesHigh is_wide text.old result text.new }
{
    if is_wide { text.take_byte() } else { Some(0) }
}

/// The width of the units in the next piece.
fn take_width(text: &mut Marked<'_>) -> Option<bool>
    ensures { TakesWidth text.old result text.new }
{
    if !text.take_mark() {
        return None;
    }
    let flags = text.take_byte()?;
    Some(flags % 2 == 1)
}

/// Goes past so many units. Takes no memory.
pub(crate) fn skip_units(text: &mut Marked<'_>, count: u16, wide: bool) -> Result<(), XlsError>
    ensures { SkipsUnits count wide text.old result text.new }
{
    let mut width = wide;
    let mut left = count;
    while left > 0 {
        match text.take_byte() {
            Some(_low) => {
                let Some(_high) = take_high(text, width) else {
                    return Err(XlsError::EoStream(Part::Dbcs));
                };
                left -= 1;
            }
            None => {
                let Some(next) = take_width(text) else {
                    return Err(XlsError::EoStream(Part::Dbcs));
                };
                width = next;
            }
        }
    }
    Ok(())
}

/// Goes past so many bytes, over marks. Takes no memory.
pub(crate) fn skip_tail(text: &mut Marked<'_>, count: u64) -> Result<(), XlsError>
    ensures { SkipsTail count text.old result text.new }
{
    let mut left = count;
    while left > 0 {
        if text.take_byte().is_some() {
            left -= 1;
        } else if !text.take_mark() {
            return Err(XlsError::ContinueRecordTooShort);
        }
    }
    Ok(())
}

/// Goes past the bytes behind the units; where a length is negative they aren't there.
pub(crate) fn skip_after(text: &mut Marked<'_>, tail: Option<u64>) -> Result<(), XlsError>
    ensures { SkipsAfter tail text.old result text.new }
{
    match tail {
        Some(count) => skip_tail(text, count),
        None => Err(XlsError::ContinueRecordTooShort),
    }
}

/// The next byte, whatever marks stand before it.
pub(crate) fn take_joined(text: &mut Marked<'_>) -> Option<u8>
    ensures { Steps (bytes_in text.old) result (bytes_in text.new) }
{
    'pieces: loop {
        if let Some(byte) = text.take_byte() {
            return Some(byte);
        }
        if !text.take_mark() {
            return None;
        }
    }
}
