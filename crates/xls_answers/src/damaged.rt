//! How many things of a topic are damaged.

ghost use Rattle.std.specs.Prelude.{IfErr, IfOk};
ghost use Rattle.xls_answers.specs.Damaged.{CountsDamaged};
ghost use Rattle.xls_open.specs.Workbook.{rules_of};
ghost use Rattle.xls_view.specs.Viewing.{ViewCause};

use std::alloc::Global;
use xls_beside::{Topic, count_damaged, read_globals_of};
use xls_biff::XlsError;
use xls_open::XlsOptions;

/// How many things of a topic are damaged, so that they can't be told, in the workbook that a stream's bytes hold; 2^64 - 1
/// where they are more. Memory may run out; without that only a fault of the globals refuses.
pub fn damaged_things(
    alloc: Global,
    topic: Topic,
    options: &XlsOptions,
    bytes: &[u8],
) -> Result<u64, XlsError>
    ensures ok { IfOk result (CountsDamaged topic options.now bytes.now) }
    ensures err { IfErr result (ViewCause (rules_of options.now) bytes.now) }
{
    let globals = read_globals_of(alloc, options, bytes)?;
    Ok(count_damaged(alloc, topic, bytes, &globals)?)
}
