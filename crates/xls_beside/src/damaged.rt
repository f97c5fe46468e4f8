//! How many things of a topic are damaged.

ghost use Rattle.std.specs.Prelude.{◌≡◌, IfOk};
ghost use Rattle.xls_beside.specs.Damaged.{at_most_counted, damaged_among};
ghost use Rattle.xls_beside.specs.Topics.{beside_lines};

use crate::books::damaged_books;
use crate::comments::damaged_comments;
use crate::hidden::damaged_hidden;
use crate::links::damaged_links;
use crate::styles::damaged_styles;
use crate::topics::Topic;
use std::alloc::{AllocError, Global};
use xls_open::Globals;

/// How many lines `damaged` the lines of a topic have that `write_beside` writes, by the stream of a workbook and its
/// globals; 2^64 - 1 where they are more. Reads what it counts as `write_beside` does, and writes nothing. Refused where
/// memory runs out.
pub fn count_damaged(
    alloc: Global,
    topic: Topic,
    stream: &[u8],
    globals: &Globals,
) -> Result<u64, AllocError>
    ensures { IfOk result (λ n. n ≡ at_most_counted
        (damaged_among (beside_lines topic globals.now.version globals.now.page globals.now.sheets stream.now))) }
{
    match topic {
        Topic::Hidden => damaged_hidden(alloc, stream, globals),
        Topic::Books => damaged_books(alloc, stream, globals),
        Topic::Comments => damaged_comments(alloc, stream, globals),
        Topic::Links => damaged_links(alloc, stream, globals),
        Topic::Styles => damaged_styles(alloc, stream, globals),
    }
}
