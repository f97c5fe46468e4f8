//! Lines on standard error.

ghost use Rattle.std.specs.Prelude.{◌≡◌, IfOk};
ghost use Rattle.std.specs.String.{string_bytes};
ghost use Rattle.xls_tool.specs.Displayed.{said_line};

use crate::problem::Problem;
use std::alloc::{AllocError, Global};
use xls_bytes::push_escaped;
use xls_files::Host;

/// A line about a file. The tabs, newlines and returns of its name and of the text are escaped.
fn line_of(alloc: Global, file: &str, text: &str) -> Result<String, AllocError>
    ensures { IfOk result (λ line. string_bytes line ≡ said_line file.now text.now) }
{
    let mut line = String::from_str(alloc, "xls: ")?;
    push_escaped(file, &mut line)?;
    line.push_str(": ")?;
    push_escaped(text, &mut line)?;
    Ok(line)
}

/// Tells a text about a file.
pub(crate) fn say_of<H: Host>(
    alloc: Global,
    host: &mut H,
    file: &str,
    text: &str,
) -> Result<(), AllocError>
    ensures { H.files host.new ≡ H.files host.old }
{
    let line = line_of(alloc, file, text)?;
    host.say(line.as_str());
    Ok(())
}

/// Tells why the text of a file isn't written.
pub(crate) fn say_problem<H: Host>(
    alloc: Global,
    host: &mut H,
    file: &str,
    problem: &Problem,
) -> Result<(), AllocError>
    ensures { H.files host.new ≡ H.files host.old }
{
    let text = format!(in alloc; "{problem}")?;
    say_of(alloc, host, file, text.as_str())
}
