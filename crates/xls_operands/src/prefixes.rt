//! What was put before leaves: the bytes of all of it, in pieces that are chained from the newest to the oldest.

ghost use Rattle.std.specs.Prelude.{◌≡◌, ℕ, List, [], ◌∷◌, ◌++◌, length, OnOk, OnErr, IfOk, Option, Some, ◌<◌};
ghost use Rattle.xls_operands.specs.Prefixes.{IsChain, prefix_at};

use std::alloc::{AllocError, Global};
use std::marker::Model;

/// A range of the bytes, and the piece that was put before the same leaf before it.
#[derive(Drop)]
struct Piece {
    start: usize,
    end: usize,
    older: Option<usize>,
}

/// Contracts see the list of texts, one for each piece: its bytes, and then those that are chained to it.
#[derive(Drop)]
pub(crate) struct Prefixes {
    bytes: Vec<u8>,
    pieces: Vec<Piece>,
}

impl Model for Prefixes {
    ghost use Rattle.std.specs.Prelude.{List, ℕ};

    ghost Value = { List (List ℕ) };

    ghost use Rattle.xls_operands.specs.Prefixes.{ArePieces, prefixes_of};

    ghost view = { λ f. prefixes_of f.bytes.items f.pieces.items };

    ghost invariant = { λ f. ArePieces 0 f.bytes.items f.pieces.items };
}

impl Prefixes {
    /// No piece. Takes no memory.
    pub(crate) fn new(alloc: Global) -> Self
        ensures { result ≡ [] }
    {
        Prefixes {
            bytes: Vec::new(alloc),
            pieces: Vec::new(alloc),
        }
    }

    /// Leaves no piece. The memory stays.
    pub(crate) fn clear(&mut self)
        ensures { self.new ≡ [] }
    {
        self.bytes.clear();
        self.pieces.clear();
    }

    /// How many bytes all pieces have, by which room is asked for.
    pub(crate) fn size(&self) -> usize {
        self.bytes.len()
    }

    /// A piece more, before those of a chain, and its number.
    pub(crate) fn push(&mut self, mark: &[u8], older: Option<usize>) -> Result<usize, AllocError>
        requires { IsChain (length self.old) older }
        ensures ok { IfOk result (λ i. (i ≡ length self.old)
            × (self.new ≡ self.old ++ (mark.now ++ prefix_at self.old older) ∷ [])) }
        ensures err { OnErr result (self.new ≡ self.old) }
    {
        let i = self.pieces.len();
        let start = self.bytes.len();
        self.bytes.extend_from_slice(mark)?;
        let end = self.bytes.len();
        self.pieces.push(Piece { start, end, older })?;
        Ok(i)
    }

    /// The bytes of a piece, and the chain behind it.
    fn piece(&self, i: usize) -> (&[u8], Option<usize>)
        requires { i < length self.now }
        ensures text { prefix_at self.now (Some i) ≡ result.0.now ++ prefix_at self.now result.1 }
        ensures older { IsChain i result.1 }
    {
        let piece = &self.pieces[i];
        (&self.bytes[piece.start..piece.end], piece.older)
    }

    /// Appends the bytes of a chain.
    pub(crate) fn write(&self, newest: Option<usize>, out: &mut Vec<u8>) -> Result<(), AllocError>
        requires { IsChain (length self.now) newest }
        ensures { OnOk result (out.new.items ≡ out.old.items ++ prefix_at self.now newest) }
    {
        let mut next = newest;
        'pieces: while let Some(i) = next {
            let (bytes, older) = self.piece(i);
            out.extend_from_slice(bytes)?;
            next = older;
        }
        Ok(())
    }
}
