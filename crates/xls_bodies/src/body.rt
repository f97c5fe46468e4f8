//! A record's body, which goes on in the Continue records directly behind it.

ghost use Rattle.std.specs.Prelude.{◌≡◌, ◌↔◌, ◌≤◌, [], ◌∷◌, drop, length, IfOk, IsTrue, MatchOption};
ghost use Rattle.xls_bodies.specs.Bodies.{body_of, byte_in, bytes_of, joined, whole_at, word_in};

use crate::bytes::Bytes;
use crate::continues::Continues;
use std::alloc::{AllocError, Global};
use std::marker::Model;
use xls_parts::WholeRecords;

/// The bytes of a record's body and of the Continue records directly behind it, from one on. Contracts see the list of
/// them.
#[derive(Drop)]
pub struct Body<'a> {
    hand: &'a [u8],
    continues: Continues<'a>,
}

impl<'a> Model for Body<'a> {
    ghost use Rattle.std.specs.Prelude.{List, ℕ};
    ghost use Rattle.xls_bodies.specs.Bodies.{joined};

    ghost Value = { List ℕ };

    ghost view = { λ b. joined b.hand.now b.continues };
}

impl<'a> Body<'a> {
    /// That of the record that these bytes begin with; no bytes where it isn't there whole. Takes no memory.
    pub fn at(bytes: &'a [u8]) -> Body<'a>
        ensures { result ≡ whole_at bytes.now }
    {
        let mut records = WholeRecords::new(bytes, 0);
        let Some(first) = records.next() else {
            return Body {
                hand: &[],
                continues: Continues::new(records),
            };
        };
        Body {
            hand: first.body,
            continues: Continues::new(records),
        }
    }

    /// The next byte.
    pub fn take_byte(&mut self) -> Option<u8>
        ensures byte { result ≡ byte_in self.old }
        ensures rest { self.new ≡ drop 1 self.old }
    {
        'pieces: while self.hand.is_empty() {
            match self.continues.next_piece() {
                Some(piece) => self.hand = piece,
                None => return None,
            }
        }
        let (byte, rest) = self.hand.split_at(1);
        self.hand = rest;
        Some(byte[0])
    }

    /// The 16-bit number in the next two bytes.
    pub fn take_word(&mut self) -> Option<u16>
        ensures word { result ≡ word_in self.old }
        ensures rest { self.new ≡ drop 2 self.old }
    {
        let low = self.take_byte();
        let high = self.take_byte();
        match (low, high) {
            (Some(low), Some(high)) => Some(u16::from_le_bytes([low, high])),
            _ => None,
        }
    }

    /// Goes past so many bytes, and answers whether they are there.
    pub fn skip(&mut self, count: usize) -> bool
        ensures there { IsTrue result ↔ (count ≤ length self.old) }
        ensures rest { self.new ≡ drop count self.old }
    {
        'bytes: for _past in 0..count {
            if self.take_byte().is_none() {
                return false;
            }
        }
        true
    }

    /// All bytes that are left, borrowed where no Continue record follows, else in memory of their own; running out of it
    /// alone refuses.
    pub fn into_bytes(self, alloc: Global) -> Result<Bytes<'a>, AllocError>
        ensures { IfOk result (λ bytes. bytes_of bytes ≡ self.entry) }
    {
        let Body {
            hand,
            mut continues,
        } = self;
        let Some(first) = continues.next_piece() else {
            return Ok(Bytes::Lent(hand));
        };
        let mut all = Vec::new(alloc);
        all.extend_from_slice(hand)?;
        all.extend_from_slice(first)?;
        'pieces: while let Some(piece) = continues.next_piece() {
            all.extend_from_slice(piece)?;
        }
        Ok(Bytes::Joined(all))
    }
}

/// The body of the record whose header stands at a place of the stream, in a part that begins at an offset of it. Takes no
/// memory.
pub fn body_of(part: &[u8], offset: u64, place: u64) -> Body<'_>
    ensures { result ≡ body_of offset part.now place }
{
    let start = (place.saturating_sub(offset) as usize).min(part.len());
    let (_, bytes) = part.split_at(start);
    Body::at(bytes)
}
