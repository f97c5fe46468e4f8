//! Lists the formulas of all sheets of a workbook. Its stream comes on standard input.
#![tactic(auto)]

ghost use Rattle.std.specs.Prelude.{◌≡◌, IfOk};
ghost use Rattle.xls_open.specs.Opening.{IsOpened};
ghost use Rattle.example_formulas.specs.Options.{all_functions};

mod lines;
mod listing;

use crate::listing::listing_of;
use anyhow::anyhow;
use std::alloc::{AllocError, Global};
use std::io::Read;
use xls_book::{SteadySource, Xls, XlsOptions};
use xls_formula::push_functions;

/// The options by default, with the names of all functions.
fn options(alloc: Global) -> Result<XlsOptions, AllocError>
    ensures { IfOk result (λ options. options ≡ all_functions) }
{
    let mut options = XlsOptions::defaults(alloc)?;
    push_functions(&mut options.functions)?;
    Ok(options)
}

/// The workbook whose stream these bytes are.
fn opened(alloc: Global, bytes: Vec<u8>) -> anyhow::Result<Xls>
    ensures { IfOk result (λ book. IsOpened all_functions book bytes.items) }
{
    let mut source = SteadySource::new(bytes);
    Xls::new_with_options(alloc, &mut source, options(alloc)?).map_err(|error| anyhow!("{error}"))
}

/// The bytes of standard input.
fn input(rt: &HostRuntime) -> anyhow::Result<Vec<u8>> {
    let mut bytes = Vec::new(rt.alloc());
    rt.stdin().read_to_end(&mut bytes)?;
    Ok(bytes)
}

fn main(rt: HostRuntime) -> anyhow::Result<()> {
    let alloc = rt.alloc();
    let book = opened(alloc, input(&rt)?)?;
    print!(rt; "{}", listing_of(alloc, &book)?)?;
    Ok(())
}
