//! What a user is shown in place of a command's work.

ghost use Rattle.std.specs.Prelude.{◌≡◌, IfOk};
ghost use Rattle.clap.specs.Values.{kind_of};
ghost use Rattle.xls_words.specs.Answers.{IsAnswer};
ghost use Rattle.xls_words.specs.declared.displayed.Displayed.TheVariants as displayed;

use clap::Error;
use clap::error::ErrorKind;
use std::alloc::{AllocError, Global};

/// What the words of the command line are answered by where they ask for no work.
#[derive(Debug, Drop)]
pub enum Displayed {
    /// Help or the version, which they ask for.
    Help(String),
    /// What is wrong with them.
    Mistake(String),
    /// Memory ran out.
    Memory,
}

impl From<AllocError> for Displayed {
    ghost from_gives = { λ _ s. s ≡ displayed.Memory };

    fn from(_error: AllocError) -> Displayed {
        Displayed::Memory
    }
}

// The text that a user is shown.
fn text_of(alloc: Global, error: &Error) -> Result<Displayed, AllocError>
    ensures { IfOk result (IsAnswer (kind_of error.now)) }
{
    let text = format!(in alloc; "{error}")?;
    if error.use_stderr() {
        return Ok(Displayed::Mistake(String::from_str(alloc, text.trim_end())?));
    }
    Ok(Displayed::Help(text))
}

/// What `clap` answers, as it is shown.
pub(crate) fn displayed_of(alloc: Global, error: &Error) -> Displayed
    ensures { IsAnswer (kind_of error.now) result }
{
    if error.kind() == ErrorKind::OutOfMemory {
        return Displayed::Memory;
    }
    match text_of(alloc, error) {
        Ok(displayed) => displayed,
        Err(_) => Displayed::Memory,
    }
}
