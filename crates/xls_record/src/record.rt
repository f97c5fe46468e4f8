//! A record, and the Continue records attached to it.

ghost use Rattle.std.specs.Prelude.{◌≡◌, ◌≢◌, ◌↔◌, ◌<◌, ◌^◌, ◌∷◌, [], IsTrue, MatchOption};
ghost use Rattle.std.specs.List.{flat_map};
ghost use Rattle.xls_stream.specs.Stream.{bodies_of, AreContinues};
ghost use Rattle.xls_stream.specs.StringTable.{marked_piece, weight};

use std::fmt;
use std::marker::Model;
use xls_bytes::read_u16;

/// The body of the first Continue record, and the Continue records after it.
fn split_continue(bytes: &[u8]) -> (&[u8], &[u8])
    requires whole { AreContinues bytes.now }
    requires some { bytes.now ≢ [] }
    ensures bodies { bodies_of bytes.now ≡ result.0.now ∷ bodies_of result.1.now }
    ensures rest { AreContinues result.1.now }
{
    let size = read_u16(&bytes[2..]) as usize;
    let (record, rest) = bytes.split_at(4 + size);
    (&record[4..], rest)
}

/// A part of the stream that is made of whole Continue records. Contracts see the list of their
/// bodies.
#[derive(Drop)]
pub struct Pieces<'a> {
    bytes: &'a [u8],
}

impl<'a> Model for Pieces<'a> {
    ghost use Rattle.std.specs.Prelude.{List, ℕ};
    ghost use Rattle.xls_stream.specs.Stream.{bodies_of, AreContinues};

    ghost Value = { List (List ℕ) };

    ghost view = { λ p. bodies_of p.bytes.now };

    ghost invariant = { λ p. AreContinues p.bytes.now };
}

impl<'a> Pieces<'a> {
    /// The bodies of whole Continue records, which the bytes are.
    pub fn new(bytes: &'a [u8]) -> Pieces<'a>
        requires { AreContinues bytes.now }
        ensures { result ≡ bodies_of bytes.now }
    {
        Pieces { bytes }
    }

    /// The same bodies once more.
    pub fn again(&self) -> Pieces<'a>
        ensures same { result ≡ self.now }
        ensures light { weight (flat_map marked_piece self.now) < 2 ^ 64 }
    {
        Pieces { bytes: self.bytes }
    }

    /// Whether no body is left. Takes no memory.
    pub fn is_empty(&self) -> bool
        ensures { IsTrue result ↔ (self.now ≡ []) }
    {
        self.bytes.is_empty()
    }

    /// The next body, borrowed from the stream. Takes no memory.
    pub fn next_piece(&mut self) -> Option<&'a [u8]>
        ensures { MatchOption result ((self.old ≡ []) × (self.new ≡ [])) (λ body. self.old ≡ body.now ∷ self.new) }
    {
        if self.bytes.is_empty() {
            return None;
        }
        let (body, rest) = split_continue(self.bytes);
        self.bytes = rest;
        Some(body)
    }
}

/// A record of the stream, [MS-XLS] 2.1.4, borrowed from it.
#[derive(Drop)]
pub struct Record<'a> {
    /// The type, as in `xls_stream::types`.
    pub typ: u16,
    /// The body, of at most 65,535 bytes.
    pub body: &'a [u8],
    /// The bodies of the Continue records attached to it.
    pub pieces: Pieces<'a>,
}

/// A line with the type and the length, and a line for each 16 bytes of the body.
impl fmt::Debug for Record<'_> {
    fn fmt<W: fmt::Write>(&self, f: &mut fmt::Formatter<W>) -> fmt::Result {
        let typ = self.typ;
        let len = self.body.len();
        write!(f, "\nRecord = 0x{typ:04X}, Length = 0x{len:04X}, {len}\n")?;
        for line in self.body.chunks(16) {
            for byte in line {
                write!(f, "{byte:02X} ")?;
            }
            f.write_str("\n")?;
        }
        Ok(())
    }
}
