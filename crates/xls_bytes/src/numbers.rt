//! Numbers as bytes, the lowest byte first.

ghost use Rattle.std.specs.Prelude.{◌≡◌, ◌≤◌, ◌%◌, length, take, IfSome, Some};
ghost use Rattle.std.specs.Iterator.{YieldsFirst, item_count, at_most, UpTo};
ghost use Rattle.std.specs.Iterator.SizeHint.{IsWithinCount};
ghost use Rattle.xls_bytes.specs.Numbers.{le, twos_complement, u32s_of};

use std::marker::Model;

/// The unsigned number that the first 2 bytes are, little-endian.
pub fn read_u16(s: &[u8]) -> u16
    requires { 2 ≤ length s.now }
    ensures { result ≡ le (take 2 s.now) }
{
    u16::from_le_bytes([s[0], s[1]])
}

/// The signed number that the first 2 bytes are, little-endian, in two's complement.
pub fn read_i16(s: &[u8]) -> i16
    requires { 2 ≤ length s.now }
    ensures { result ≡ twos_complement 16 (le (take 2 s.now)) }
{
    read_u16(s).cast_signed()
}

/// The unsigned number that the first 4 bytes are, little-endian.
pub fn read_u32(s: &[u8]) -> u32
    requires { 4 ≤ length s.now }
    ensures { result ≡ le (take 4 s.now) }
{
    u32::from_le_bytes([s[0], s[1], s[2], s[3]])
}

/// The signed number that the first 4 bytes are, little-endian, in two's complement.
pub fn read_i32(s: &[u8]) -> i32
    requires { 4 ≤ length s.now }
    ensures { result ≡ twos_complement 32 (le (take 4 s.now)) }
{
    read_u32(s).cast_signed()
}

/// The unsigned number that the first 4 bytes are, as a size.
pub fn read_usize(s: &[u8]) -> usize
    requires { 4 ≤ length s.now }
    ensures { result ≡ le (take 4 s.now) }
{
    read_u32(s) as usize
}

/// The unsigned number that the first 8 bytes are, little-endian.
pub fn read_u64(s: &[u8]) -> u64
    requires { 8 ≤ length s.now }
    ensures { result ≡ le (take 8 s.now) }
{
    u64::from_le_bytes([s[0], s[1], s[2], s[3], s[4], s[5], s[6], s[7]])
}

/// The bits of the double that the first 8 bytes are, little-endian.
pub fn read_bits(s: &[u8]) -> u64
    requires { 8 ≤ length s.now }
    ensures { result ≡ le (take 8 s.now) }
{
    read_u64(s)
}

/// The unsigned numbers of each 4 bytes, in order: an iterator that gives None for good after the
/// last one. Contracts see it as the list of the numbers left.
#[derive(Drop)]
pub struct U32s<'a> {
    bytes: &'a [u8],
}

impl<'a> Model for U32s<'a> {
    ghost use Rattle.std.specs.Prelude.{◌≡◌, ℕ, ◌%◌, List, length};
    ghost use Rattle.xls_bytes.specs.Numbers.{u32s_of};

    ghost Value = { List ℕ };

    ghost view = { λ numbers. u32s_of numbers.bytes.now };

    ghost invariant = { λ numbers. length numbers.bytes.now % 4 ≡ 0 };
}

/// The unsigned numbers of each 4 bytes, little-endian. Takes no memory.
pub fn to_u32(s: &[u8]) -> U32s<'_>
    requires { length s.now % 4 ≡ 0 }
    ensures { result ≡ u32s_of s.now }
{
    U32s { bytes: s }
}

impl<'a> Iterator for U32s<'a> {
    type Item = u32;

    ghost next_gives = { YieldsFirst (λ numbers. numbers) };

    ghost remaining = { item_count (λ numbers. numbers) };

    #[tactic(auto, using(crate::proofs::U32Lemmas::u32s_of_more, crate::proofs::U32Lemmas::u32s_of_none))]
    fn next(&mut self) -> Option<u32> {
        if self.bytes.is_empty() {
            return None;
        }
        let (first, others) = self.bytes.split_at(4);
        self.bytes = others;
        Some(read_u32(first))
    }

    #[tactic(auto, using(crate::proofs::U32Lemmas::length_u32s_of))]
    fn size_hint(&self) -> (usize, Option<usize>)
        ensures lower { IsWithinCount result.0 (at_most (length self.now)) }
        ensures upper { IfSome result.1 (UpTo (at_most (length self.now))) }
        ensures exact { result ≡ (length self.now, Some (length self.now)) }
    {
        let len = self.bytes.len() / 4;
        (len, Some(len))
    }
}

impl<'a> ExactSizeIterator for U32s<'a> {
    #[tactic(auto, using(crate::proofs::U32Lemmas::length_u32s_of))]
    fn len(&self) -> usize {
        self.bytes.len() / 4
    }
}
