//! White space that waits for the next token that writes (PtgAttrSpaceType).

ghost use Rattle.std.specs.Prelude.{◌≡◌, ◌++◌, replicate, if◌then◌else◌, OnOk};
ghost use Rattle.std.specs.Str.{chars};
ghost use Rattle.xls_strings.specs.Texts.{text_of};
ghost use Rattle.xls_formula_shown.specs.State.{blanks, nothing_waits, wait_before, wait_closing};

use std::alloc::{AllocError, Global};
use std::marker::Model;
use xls_formula::Word;
use xls_operands::Appended;
use xls_shown_ptg::Space;

/// What stands before what the token writes, and before the parenthesis that closes it.
#[derive(Drop)]
pub(crate) struct Waiting {
    before: String,
    closing: String,
}

impl Model for Waiting {
    ghost use Rattle.xls_formula_shown.specs.State.{Waiting as Waits};

    ghost Value = { Waits };

    ghost use Rattle.xls_strings.specs.Texts.{text_of};

    ghost view = { λ w. record { before = text_of w.before; closing = text_of w.closing } };
}

#[tactic(auto, unfolding(std::specs::Prelude::chars))]
fn blank_text(is_newline: bool) -> &'static str
    ensures { chars result.now ≡ replicate 1 (if is_newline then 0x0A else 0x20) }
{
    if is_newline { "\n" } else { " " }
}

/// Appends spaces or newlines.
pub(crate) fn push_blanks(space: Space, out: &mut String) -> Result<(), AllocError>
    ensures { OnOk result (text_of out.new ≡ text_of out.old ++ blanks space) }
{
    let blank = blank_text(space.is_newline);
    'blanks: for i in 0..space.count {
        Word::Plain(blank).append(out)?;
    }
    Ok(())
}

impl Waiting {
    /// Nothing waits. Takes no memory.
    pub(crate) fn new(alloc: Global) -> Self
        ensures { result ≡ nothing_waits }
    {
        Waiting {
            before: String::new(alloc),
            closing: String::new(alloc),
        }
    }

    /// Nothing waits any more. The memory stays.
    pub(crate) fn clear(&mut self)
        ensures { self.new ≡ nothing_waits }
    {
        self.before.clear();
        self.closing.clear();
    }

    pub(crate) fn before(&self) -> &str
        ensures { chars result.now ≡ self.now.before }
    {
        self.before.as_str()
    }

    pub(crate) fn closing(&self) -> &str
        ensures { chars result.now ≡ self.now.closing }
    {
        self.closing.as_str()
    }

    pub(crate) fn wait_before(&mut self, space: Space) -> Result<(), AllocError>
        ensures { OnOk result (self.new ≡ wait_before (blanks space) self.old) }
    {
        push_blanks(space, &mut self.before)
    }

    pub(crate) fn wait_closing(&mut self, space: Space) -> Result<(), AllocError>
        ensures { OnOk result (self.new ≡ wait_closing (blanks space) self.old) }
    {
        push_blanks(space, &mut self.closing)
    }
}
