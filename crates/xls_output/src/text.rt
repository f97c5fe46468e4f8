//! A text that is gathered.

ghost use Rattle.std.specs.Prelude.{◌≡◌, []};
ghost use Rattle.std.specs.String.{string_bytes};

use crate::gathers::Gathers;
use std::alloc::Global;

/// A text that is gathered before it is written, and memory into which numbers are printed first. Lines and rows
/// are appended to `text`, and after each of them the text is passed on.
#[derive(Drop)]
pub struct OutputText {
    pub text: String,
    pub scratch: String,
}

impl OutputText {
    /// No text. Takes no memory.
    pub fn new(alloc: Global) -> OutputText
        ensures { string_bytes result.text ≡ [] }
    {
        OutputText {
            text: String::new(alloc),
            scratch: String::new(alloc),
        }
    }
}

impl Gathers for OutputText {
    ghost use Rattle.std.specs.String.{string_bytes};

    ghost kept = { λ buffer. string_bytes buffer.text };

    #[inline(always)]
    fn bytes(&self) -> &[u8] {
        self.text.as_bytes()
    }

    fn clear(&mut self) {
        self.text.clear();
    }
}
