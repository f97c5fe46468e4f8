//! What can be asked for of what stands beside the values.

ghost use Rattle.xls_beside.specs.Lines.{IsLineText};
ghost use Rattle.xls_beside.specs.Topics.{beside_lines};
ghost use Rattle.xls_output.specs.Each.{DeliversEach};

use crate::books::write_books;
use crate::comments::write_comments;
use crate::hidden::write_hidden;
use crate::links::write_links;
use crate::styles::write_styles;
use std::alloc::Global;
use xls_open::Globals;
use xls_output::{Sink, Stop};
use xls_readable::Form;

/// What is asked for of what stands beside the values of a workbook.
#[derive(Clone, Copy, Debug, PartialEq, Eq)]
pub enum Topic {
    /// What is hidden in its sheets.
    Hidden,
    /// The other workbooks that it refers to.
    Books,
    /// The comments of its sheets.
    Comments,
    /// The hyperlinks of its sheets.
    Links,
    /// How the cells of its sheets look.
    Styles,
}

/// Writes the lines of a topic, by the stream of a workbook and its globals. At a refusal of the sink, or where memory
/// runs out, a prefix of these lines was written.
pub fn write_beside<K: Sink>(
    alloc: Global,
    sink: &mut K,
    topic: Topic,
    form: Form,
    stream: &[u8],
    globals: &Globals,
) -> Result<(), Stop>
    ensures { DeliversEach (IsLineText form)
        (beside_lines topic globals.now.version globals.now.page globals.now.sheets stream.now)
        (K.state sink.old) (K.state sink.new) result }
{
    match topic {
        Topic::Hidden => write_hidden(alloc, sink, form, stream, globals),
        Topic::Books => write_books(alloc, sink, form, stream, globals),
        Topic::Comments => write_comments(alloc, sink, form, stream, globals),
        Topic::Links => write_links(alloc, sink, form, stream, globals),
        Topic::Styles => write_styles(alloc, sink, form, stream, globals),
    }
}
