//! How a stream is read, as a caller in C says it.

ghost use Rattle.std.specs.Prelude.{◌≡◌, ◌==◌, IfOk, if◌then◌else◌};
ghost use Rattle.xls_arrays.specs.Options.{limit_or, options_by, forced_page_of};

use std::alloc::{AllocError, Global};
use xls_formula::push_functions;
use xls_open::XlsOptions;

/// How a stream is read. All zero is: every sheet, the limits by default, the page that the stream names,
/// and the names of the functions of index 0 to 71.
#[repr(C)]
#[derive(Clone, Copy, Debug, PartialEq, Eq)]
pub struct Options {
    /// How many bytes the stream may have; 0 for 268,435,456.
    pub max_bytes: u64,
    /// How many cells the records of one sheet may give; 0 for 33,554,432.
    pub max_cells: u64,
    /// The index of the sheet where `which` is 1.
    pub sheet: u64,
    /// 0 every sheet, 1 the one at `sheet`, any other number every sheet without its content.
    pub which: u32,
    /// The code page of the texts of a stream before BIFF8: 1200, 1252, 28591 or 65001; 0 for the one that the
    /// stream names.
    pub code_page: u16,
    /// Not 0: the names of the functions of index 72 to 380 too.
    pub all_functions: u16,
}

/// Every sheet with its content.
pub(crate) const ALL_SHEETS: u32 = 0;

/// One sheet with its content.
pub(crate) const ONE_SHEET: u32 = 1;

/// A limit that was given, or, for 0, the one by default.
pub(crate) fn limit_or(input: u64, default: u64) -> u64
    ensures { result ≡ limit_or input default }
{
    if input == 0 { default } else { input }
}

/// The page that is forced, and None for 0.
fn page_of(input: u16) -> Option<u16>
    ensures { result ≡ forced_page_of input }
{
    if input == 0 { None } else { Some(input) }
}

/// The options of the reader. Only running out of memory refuses.
pub fn options_of(alloc: Global, input: &Options) -> Result<XlsOptions, AllocError>
    ensures { IfOk result (λ options. options ≡ options_by input.now) }
{
    let mut options = XlsOptions::defaults(alloc)?;
    options.force_codepage = page_of(input.code_page);
    options.max_bytes = limit_or(input.max_bytes, options.max_bytes);
    options.max_cells = limit_or(input.max_cells, options.max_cells);
    if input.all_functions != 0 {
        push_functions(&mut options.functions)?;
    }
    Ok(options)
}
