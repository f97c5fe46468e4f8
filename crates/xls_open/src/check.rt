//! The first fault of a stream, without memory.

ghost use Rattle.std.specs.Prelude.{◌≡◌, None};
ghost use Rattle.xls_open.specs.Checking.{checked, Checks};
ghost use Rattle.xls_open.specs.CheckSteps.{under, AreChecked};
ghost use Rattle.xls_meaning.specs.GlobalsTable.{fault_of, forced_fault};

mod globals;
mod sheets;

use globals::check_globals;
use sheets::check_sheets;
use xls_biff::{Biff, XlsError};
use xls_text::XlsEncoding;

/// What a stream is checked under.
#[derive(Clone, Copy)]
pub(crate) struct CheckRules {
    /// A code page in place of those that the stream names.
    pub force_codepage: Option<u16>,
    /// How many cells the records of one sheet may give.
    pub max_cells: u64,
}

/// `Cfb` where the forced page isn't kept.
fn check_forced(force_codepage: Option<u16>) -> Result<(), XlsError>
    ensures { fault_of result ≡ forced_fault force_codepage }
{
    if let Some(number) = force_codepage {
        XlsEncoding::from_codepage(number)?;
    }
    Ok(())
}

/// The first fault of a stream's bytes, as `check_stream` answers it, where the globals have none and end
/// under this version: only the sheets are walked. Takes no memory.
pub fn check_sheets_of(
    bytes: &[u8],
    biff: Biff,
    force_codepage: Option<u16>,
    max_cells: u64,
) -> Result<(), XlsError>
    requires forced { forced_fault force_codepage ≡ None }
    requires globals { AreChecked (checked force_codepage max_cells) bytes.now biff }
    ensures { Checks force_codepage max_cells bytes.now result }
{
    let rules = CheckRules {
        force_codepage,
        max_cells,
    };
    check_sheets(bytes, biff, rules)
}

/// The first fault of a stream's bytes in reading order, under a forced page, if any, and a bound of
/// the cells of a sheet; it has no limit of bytes. Takes no memory.
pub fn check_stream(
    bytes: &[u8],
    force_codepage: Option<u16>,
    max_cells: u64,
) -> Result<(), XlsError>
    ensures { Checks force_codepage max_cells bytes.now result }
{
    check_forced(force_codepage)?;
    let rules = CheckRules {
        force_codepage,
        max_cells,
    };
    let biff = check_globals(bytes, rules)?;
    check_sheets_of(bytes, biff, force_codepage, max_cells)
}
