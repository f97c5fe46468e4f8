//! The globals of a stream that is read, and of one that has no fault.

ghost use Rattle.std.specs.Prelude.{IfErr, IfOk};
ghost use Rattle.xls_open.specs.Globals.{AreGlobals};
ghost use Rattle.xls_open.specs.Workbook.{rules_of};
ghost use Rattle.xls_view.specs.Viewing.{ViewCause};
ghost use Rattle.xls_beside.specs.Checked.{HasGlobals};

use std::alloc::Global;
use xls_open::{Globals, XlsOptions, check_stream, read_globals};
use xls_record::XlsError;

/// What is in force at the end of the globals, and the sheets that they list. Memory may run out; without that only a
/// fault of the globals refuses.
pub fn read_globals_of(
    alloc: Global,
    options: &XlsOptions,
    bytes: &[u8],
) -> Result<Globals, XlsError>
    ensures ok { IfOk result (AreGlobals (rules_of options.now) bytes.now) }
    ensures err { IfErr result (ViewCause (rules_of options.now) bytes.now) }
{
    let page = options.first_page()?;
    read_globals(alloc, bytes, page, options)
}

/// The same, once all of the stream is checked: its first fault refuses.
pub fn checked_globals(
    alloc: Global,
    options: &XlsOptions,
    bytes: &[u8],
) -> Result<Globals, XlsError>
    ensures ok { IfOk result (λ globals. HasGlobals options.now bytes.now globals) }
    ensures err { IfErr result (ViewCause (rules_of options.now) bytes.now) }
{
    check_stream(bytes, options.force_codepage, options.max_cells)?;
    read_globals_of(alloc, options, bytes)
}
