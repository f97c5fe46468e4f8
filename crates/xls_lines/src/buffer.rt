//! Text that is gathered, and written in large pieces.

ghost use Rattle.std.specs.Prelude.{◌≡◌, ◌++◌, ◌+◌, ◌<◌, ◌≤◌, [], length, IfOk, OnOk, codes};
ghost use Rattle.xls_output.specs.Gathering.{PutsInto};

use crate::head::Head;
use std::alloc::Global;
use std::marker::Model;
use xls_output::{Gathers, PIECE, Sink, Stop, flush};

/// The room for more bytes, of which there is some. A full piece is written.
fn room_in<K: Sink>(bytes: &mut Vec<u8>, sink: &mut K) -> Result<usize, Stop>
    requires { length bytes.old.items ≤ PIECE }
    ensures puts { PutsInto (K.state sink.old) bytes.old.items (K.state sink.new) bytes.new.items
        [] result }
    ensures room { IfOk result (λ n. (0 < n) × (n + length bytes.new.items ≡ PIECE)) }
    ensures bound { length bytes.new.items ≤ PIECE }
{
    if bytes.len() < PIECE {
        return Ok(PIECE - bytes.len());
    }
    flush(bytes, sink)?;
    Ok(PIECE)
}

/// Gathers some bytes. Each full piece is written.
#[inline(always)]
pub(crate) fn gather<K: Sink>(bytes: &mut Vec<u8>, sink: &mut K, text: &[u8]) -> Result<(), Stop>
    requires { length bytes.old.items ≤ PIECE }
    ensures puts { PutsInto (K.state sink.old) bytes.old.items (K.state sink.new) bytes.new.items
        text.now result }
    ensures bound { length bytes.new.items ≤ PIECE }
{
    if text.len() <= PIECE - bytes.len() {
        bytes.extend_from_slice(text)?;
        return Ok(());
    }
    gather_by_pieces(bytes, sink, text)
}

/// Gathers some bytes, as many at a time as there is room for.
#[inline(never)]
fn gather_by_pieces<K: Sink>(bytes: &mut Vec<u8>, sink: &mut K, text: &[u8]) -> Result<(), Stop>
    requires { length bytes.old.items ≤ PIECE }
    ensures puts { PutsInto (K.state sink.old) bytes.old.items (K.state sink.new) bytes.new.items
        text.now result }
    ensures bound { length bytes.new.items ≤ PIECE }
{
    let mut at = 0;
    while at < text.len() {
        let room = room_in(bytes, sink)?;
        let end = at + room.min(text.len() - at);
        bytes.extend_from_slice(&text[at..end])?;
        at = end;
    }
    Ok(())
}

/// Gathers a line of a beginning and a text.
#[inline(never)]
pub(crate) fn gather_line<K: Sink>(
    bytes: &mut Vec<u8>,
    sink: &mut K,
    start: &[u8],
    text: &[u8],
) -> Result<(), Stop>
    requires { length bytes.old.items ≤ PIECE }
    ensures puts { PutsInto (K.state sink.old) bytes.old.items (K.state sink.new) bytes.new.items
        (start.now ++ (text.now ++ codes "\n")) result }
    ensures bound { length bytes.new.items ≤ PIECE }
{
    gather(bytes, sink, start)?;
    gather(bytes, sink, text)?;
    gather(bytes, sink, b"\n")?;
    Ok(())
}

/// Text on its way to a sink: full pieces are written, and at most one piece is kept. Contracts see
/// the text that is kept.
#[derive(Drop)]
pub struct Buffer {
    pub(crate) piece: Vec<u8>,
    /// The text of the field that is being put, where it has to be printed first.
    pub(crate) printed: String,
    /// How the line of the last cell began.
    pub(crate) head: Head,
}

impl Model for Buffer {
    ghost use Rattle.std.specs.Prelude.{List, ℕ, ◌≤◌, length};
    ghost use Rattle.xls_output.specs.declared.writer.TheConstants.{PIECE};

    ghost Value = { List ℕ };

    ghost view = { λ b. b.piece.items };

    ghost invariant = { λ b. length b.piece.items ≤ PIECE };
}

impl Buffer {
    /// Nothing is kept.
    pub fn new(alloc: Global) -> Buffer
        ensures { result ≡ [] }
    {
        Buffer {
            piece: Vec::new(alloc),
            printed: String::new(alloc),
            head: Head::new(0),
        }
    }
}

impl Gathers for Buffer {
    ghost kept = { λ bytes. bytes };

    fn bytes(&self) -> &[u8] {
        &self.piece
    }

    fn clear(&mut self) {
        self.piece.clear();
    }
}
