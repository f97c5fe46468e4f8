//! What else may be meant by words of the command line that name nothing.

ghost use Rattle.std.specs.Prelude.{◌≡◌};

use crate::problem::Problem;
use crate::say::say_of;
use std::alloc::{AllocError, Global};
use xls_answers::{Failure, Missing};
use xls_files::{Host, Reason, place_of};
use xls_words::{Command, Word};

/// What is told of many files without a folder for their texts.
pub(crate) const WANTS_FOLDER: &str = "error: many files want --out DIR (but for check)";

/// What is told where there is no sheet of a name.
const CHOOSES_SHEET: &str =
    "xls sheets tells the names, in which case counts; --number N chooses a sheet by its number";

/// Tells that a word is nearly a command's name, where it is.
fn say_near<H: Host>(alloc: Global, host: &mut H, path: &str) -> Result<(), AllocError>
    ensures { H.files host.new ≡ H.files host.old }
{
    let Some(word) = Word::near(alloc, path)? else {
        return Ok(());
    };
    let text = format!(in alloc; "the command {} stands before its files", word.name())?;
    say_of(alloc, host, path, text.as_str())
}

/// Tells what else may be meant, where a problem lets it be thought of.
pub(crate) fn say_advice<H: Host>(
    alloc: Global,
    host: &mut H,
    path: &str,
    problem: &Problem,
) -> Result<(), AllocError>
    ensures { H.files host.new ≡ H.files host.old }
{
    match problem {
        Problem::Unread(Reason::Reported(_)) => say_near(alloc, host, path),
        Problem::Failure(Failure::Missing(Missing::Name(_))) => {
            say_of(alloc, host, path, CHOOSES_SHEET)
        }
        _ => Ok(()),
    }
}

/// Tells of a word that is no file, and of what may be meant by it.
fn say_missing<H: Host>(
    alloc: Global,
    host: &mut H,
    command: &Command<'_>,
    path: &str,
) -> Result<(), AllocError>
    ensures { H.files host.new ≡ H.files host.old }
{
    let text = match command {
        Command::Csv(..) => "there is no such file; --sheet NAME chooses a sheet",
        _ => "there is no such file",
    };
    say_of(alloc, host, path, text)?;
    say_near(alloc, host, path)
}

/// Tells why files aren't read for whose texts there is no folder: the first of them isn't there, or they are many.
pub(crate) fn say_many<H: Host>(
    alloc: Global,
    host: &mut H,
    command: &Command<'_>,
    paths: &[&str],
) -> Result<(), AllocError>
    ensures { H.files host.new ≡ H.files host.old }
{
    'paths: for path in paths {
        if place_of(host, path).is_err() {
            return say_missing(alloc, host, command, path);
        }
    }
    host.say(WANTS_FOLDER);
    Ok(())
}
