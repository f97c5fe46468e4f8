//! A short text, made from its end to its beginning, as digits are.

ghost use Rattle.std.specs.Prelude.{◌≡◌, ◌∷◌, ◌++◌, ◌+◌, ◌/◌, ◌%◌, ◌<◌, ◌≤◌, [], codes, false, length};
ghost use Rattle.std.specs.Fmt.{decimal, digit_glyph, signed_decimal};
ghost use Rattle.xls_dates.specs.Numbers.{bits_text, decimals_text, hundredths_text, number_text, over_100_text, sixteen_digits};

use itoa::write_digits;
use std::marker::Model;
use xls_bytes::whole_of_bits;
use xls_data::Number;

/// How long a short text may be.
const ROOM: usize = 96;

/// How long a text is, at most, that is put before another one in a piece of this size.
const SMALL: usize = 16;

/// The bits of the double negative zero.
const NEGATIVE_ZERO: u64 = 1 << 63;

/// The digits in hexadecimal.
static HEX_DIGITS: [u8; 16] = *b"0123456789abcdef";

/// A digit in hexadecimal.
#[inline(always)]
fn hex_digit(n: u8) -> u8
    requires { n < 16 }
    ensures { result ≡ digit_glyph false n }
{
    HEX_DIGITS[usize::from(n)]
}

/// A text of at most 96 bytes, which grows at its beginning. Contracts see the text.
#[derive(Drop)]
pub struct Short {
    bytes: [u8; ROOM],
    start: usize,
}

impl Model for Short {
    ghost use Rattle.std.specs.Prelude.{List, ℕ, ◌≤◌, drop};
    ghost use Rattle.xls_lines.specs.declared.short.TheConstants.{ROOM};

    ghost Value = { List ℕ };

    ghost view = { λ s. drop s.start s.bytes };

    ghost invariant = { λ s. s.start ≤ ROOM };
}

impl Short {
    /// The empty text.
    pub fn new() -> Short
        ensures { result ≡ [] }
    {
        Short {
            bytes: [0; ROOM],
            start: ROOM,
        }
    }

    pub fn as_slice(&self) -> &[u8]
        ensures { result.now ≡ self.now }
    {
        self.bytes.split_at(self.start).1
    }

    /// Puts a byte before the text.
    pub fn put_byte(&mut self, byte: u8)
        requires { length self.old < ROOM }
        ensures { self.new ≡ byte ∷ self.old }
    {
        self.start -= 1;
        self.bytes[self.start] = byte;
    }

    /// Puts a word before the text.
    pub fn put_word(&mut self, word: &[u8])
        requires { length word.now + length self.old ≤ ROOM }
        ensures { self.new ≡ word.now ++ self.old }
    {
        let start = self.start - word.len();
        self.bytes[start..self.start].copy_from_slice(word);
        self.start = start;
    }

    /// Puts a small text before the text, in a piece that begins before it where it is shorter.
    #[inline(always)]
    pub(crate) fn put_small(&mut self, text: &Short)
        requires small { length text.now ≤ SMALL }
        requires room { length self.old + SMALL ≤ ROOM }
        ensures { self.new ≡ text.now ++ self.old }
    {
        let (_, piece) = text.bytes.split_at(ROOM - SMALL);
        self.bytes[self.start - SMALL..self.start].copy_from_slice(piece);
        self.start -= ROOM - text.start;
    }

    /// Puts a number before the text.
    pub fn put_digits(&mut self, n: u64)
        requires { length self.old + 20 ≤ ROOM }
        ensures puts { self.new ≡ decimal n ++ self.old }
        ensures room { length self.new ≤ length self.old + 20 }
    {
        self.start = write_digits(n, &mut self.bytes, self.start);
    }

    /// Puts a number with its sign before the text.
    #[inline(always)]
    pub fn put_int(&mut self, n: i64)
        requires { length self.old + 21 ≤ ROOM }
        ensures puts { self.new ≡ signed_decimal n ++ self.old }
        ensures room { length self.new ≤ length self.old + 21 }
    {
        self.put_digits(n.unsigned_abs());
        if n < 0 {
            self.put_byte(b'-');
        }
    }

    /// Puts a byte in hexadecimal, with two digits, before the text.
    #[inline(always)]
    fn put_hex_byte(&mut self, byte: u8)
        requires { length self.old + 2 ≤ ROOM }
        ensures { self.new ≡ digit_glyph false (byte / 16) ∷ digit_glyph false (byte % 16) ∷ self.old }
    {
        self.put_word(&[hex_digit(byte / 16), hex_digit(byte % 16)]);
    }

    /// Puts a number in hexadecimal, with sixteen digits, before the text.
    pub fn put_hex(&mut self, n: u64)
        requires { length self.old + 16 ≤ ROOM }
        ensures puts { self.new ≡ sixteen_digits n ++ self.old }
        ensures room { length self.new ≤ length self.old + 16 }
    {
        let mut left = n;
        for i in 0..8_usize {
            self.put_hex_byte((left % 256) as u8);
            left /= 256;
        }
    }

    /// Puts the bits of a double in hexadecimal before the text.
    fn put_bits_in_hex(&mut self, bits: u64)
        requires { length self.old + 18 ≤ ROOM }
        ensures puts { self.new ≡ (codes "0x" ++ sixteen_digits bits) ++ self.old }
        ensures room { length self.new ≤ length self.old + 18 }
    {
        self.put_hex(bits);
        self.put_word(b"0x");
    }

    /// Puts so many hundredths, below one, before the text: a point and as many decimals as are needed.
    fn put_decimals(&mut self, rest: u64)
        requires hundredths { rest < 100 }
        requires room { length self.old + 3 ≤ ROOM }
        ensures puts { self.new ≡ decimals_text rest ++ self.old }
        ensures room { length self.new ≤ length self.old + 3 }
    {
        if rest == 0 {
            return;
        }
        if rest % 10 != 0 {
            self.put_byte(b'0' + (rest % 10) as u8);
        }
        self.put_byte(b'0' + (rest / 10) as u8);
        self.put_byte(b'.');
    }

    /// Puts a number of hundredths before the text.
    fn put_hundredths(&mut self, n: i64)
        requires { length self.old + 24 ≤ ROOM }
        ensures puts { self.new ≡ hundredths_text n ++ self.old }
        ensures room { length self.new ≤ length self.old + 24 }
    {
        let size = n.unsigned_abs();
        self.put_decimals(size % 100);
        self.put_digits(size / 100);
        if n < 0 {
            self.put_byte(b'-');
        }
    }

    /// Puts the double with these bits before the text.
    fn put_bits(&mut self, bits: u64)
        requires { length self.old + 24 ≤ ROOM }
        ensures puts { self.new ≡ bits_text bits ++ self.old }
        ensures room { length self.new ≤ length self.old + 24 }
    {
        if bits == NEGATIVE_ZERO {
            return self.put_word(b"-0");
        }
        match whole_of_bits(bits) {
            Some(n) => self.put_int(n),
            None => self.put_bits_in_hex(bits),
        }
    }

    /// Puts the double with these bits, over 100, before the text.
    fn put_bits_over_100(&mut self, bits: u64)
        requires { length self.old + 24 ≤ ROOM }
        ensures puts { self.new ≡ over_100_text bits ++ self.old }
        ensures room { length self.new ≤ length self.old + 24 }
    {
        if bits == NEGATIVE_ZERO {
            return self.put_word(b"-0");
        }
        match whole_of_bits(bits) {
            Some(n) => self.put_hundredths(n),
            None => {
                self.put_word(b"/100");
                self.put_bits_in_hex(bits);
            }
        }
    }

    /// Puts a number before the text, as the workbook has it: a whole number or hundredths in decimal, the bits
    /// of another double in hexadecimal.
    #[inline(always)]
    pub fn put_number(&mut self, n: Number)
        requires { length self.old + 24 ≤ ROOM }
        ensures puts { self.new ≡ number_text n ++ self.old }
        ensures room { length self.new ≤ length self.old + 24 }
    {
        match n {
            Number::Bits(bits) => self.put_bits(bits),
            Number::Whole(n) => self.put_int(n),
            Number::Hundredths(n) => self.put_hundredths(n),
            Number::BitsOver100(bits) => self.put_bits_over_100(bits),
        }
    }
}
