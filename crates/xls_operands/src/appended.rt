//! What stands in the text of an operand.

ghost use Rattle.std.specs.Prelude.{◌≡◌, ◌++◌, OnOk};
ghost use Rattle.xls_strings.specs.Texts.{text_of};

use std::alloc::AllocError;

/// What is appended to the text of an operand.
pub trait Appended {
    ghost use Rattle.std.specs.Prelude.{ℕ, List};

    /// Its characters.
    ghost text: { Self → List ℕ };

    /// Appends its characters. Where memory runs out, a part of them may be left.
    fn append(&self, out: &mut String) -> Result<(), AllocError>
        ensures { OnOk result (text_of out.new ≡ text_of out.old ++ text self.now) };
}
