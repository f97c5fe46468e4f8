//! A sink with the text that is on its way to it.

ghost use Rattle.std.specs.Prelude.{◌≡◌, ◌<◌, [], length, OnOk};
ghost use Rattle.xls_output.specs.Output.{Puts, output_of};

use crate::gathers::{Gathers, flush};
use crate::sink::Sink;
use crate::stop::Stop;

/// From so many bytes on, what is gathered is written.
pub const PIECE: usize = 65_536;

/// A sink, and what is gathered for it before it is written: text that has been put stands in the buffer until a
/// piece of it is full, or the writer is finished.
#[derive(Drop)]
pub struct Writer<'a, K, B> {
    pub buffer: &'a mut B,
    pub sink: &'a mut K,
}

impl<'a, K, B> Writer<'a, K, B> {
    pub fn new(buffer: &'a mut B, sink: &'a mut K) -> Writer<'a, K, B>
        ensures kept { result.buffer.now ≡ buffer.old }
        ensures sink { result.sink.now ≡ sink.old }
        ensures lender { result.sink.ghost_name ≡ sink.entry.ghost_name }
    {
        Writer { buffer, sink }
    }
}

impl<'a, K: Sink, B: Gathers> Writer<'a, K, B> {
    /// Writes all that is gathered.
    pub fn finish(&mut self) -> Result<(), Stop>
        ensures puts { Puts (output_of K.state B.kept self.old) (output_of K.state B.kept self.new) [] result }
        ensures none { OnOk result (B.kept self.new.buffer.now ≡ []) }
    {
        let buffer = &mut *self.buffer;
        flush(buffer, self.sink)
    }

    /// Writes what is gathered, where it is 64 KiB or more.
    #[inline(always)]
    pub fn pass(&mut self) -> Result<(), Stop>
        ensures puts { Puts (output_of K.state B.kept self.old) (output_of K.state B.kept self.new) [] result }

        // Less than a piece is kept.
        ensures small { OnOk result (length (B.kept self.new.buffer.now) < PIECE) }
    {
        if self.buffer.bytes().len() < PIECE {
            return Ok(());
        }
        self.finish()
    }
}
