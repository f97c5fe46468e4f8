//! How the workbooks of files are read.

ghost use Rattle.std.specs.Prelude.{◌≡◌, IfOk};
ghost use Rattle.xls_answers.specs.Views.{options_under};

use std::alloc::{AllocError, Global};
use xls_formula::push_functions;
use xls_open::XlsOptions;

/// The options by default with a forced page, and with the names of all functions unless texts are to be as
/// `xls_dump` has them.
pub fn options_of(
    alloc: Global,
    page: Option<u16>,
    is_exact: bool,
) -> Result<XlsOptions, AllocError>
    ensures { IfOk result (λ options. options ≡ options_under page is_exact) }
{
    let mut options = XlsOptions::defaults(alloc)?;
    options.force_codepage = page;
    if !is_exact {
        push_functions(&mut options.functions)?;
    }
    Ok(options)
}
