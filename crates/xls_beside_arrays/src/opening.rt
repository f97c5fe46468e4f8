//! The globals of a stream without a fault, and the part of a sheet that is asked for.

ghost use Rattle.std.specs.Prelude.{◌≡◌, ◌<◌, IfErr, IfOk, length, map, slice_get};
ghost use Rattle.xls_open.specs.Globals.{listed_of};
ghost use Rattle.xls_beside_arrays.specs.Opened.{IsOpened, IsSheetOpened, RefusesBook, RefusesSheet, part_listed};

use std::alloc::{AllocError, Global};
use xls_arrays::{Options, Refusal, options_of, refuse_bytes};
use xls_beside::{SheetPart, checked_globals, read_parts};
use xls_open::{Globals, Listed};
use xls_record::Biff;

/// What the globals of a stream give, once all of it is checked.
pub(crate) fn open(alloc: Global, stream: &[u8], options: &Options) -> Result<Globals, Refusal>
    ensures ok { IfOk result (IsOpened options.now stream.now) }
    ensures err { IfErr result (RefusesBook options.now stream.now) }
{
    refuse_bytes(stream, options)?;
    let reader = options_of(alloc, options)?;
    let globals = checked_globals(alloc, &reader, stream)?;
    Ok(globals)
}

/// The part of the last sheet that has the name of the sheet at an index.
fn part_of(
    alloc: Global,
    stream: &[u8],
    version: Biff,
    listed: &[Listed],
    index: usize,
) -> Result<Option<SheetPart>, AllocError>
    requires { index < length listed.now }
    ensures { IfOk result (λ part. part
        ≡ part_listed version (map listed_of listed.now) stream.now (slice_get (map listed_of listed.now) index)) }
{
    let parts = read_parts(alloc, stream, version, listed)?;
    match parts.get(listed[index].sheet.name.as_str()) {
        Some(part) => Ok(Some(*part)),
        None => Ok(None),
    }
}

/// What the globals of a stream give, and the part of the sheet that is asked for.
#[derive(Drop)]
pub(crate) struct OpenedSheet {
    pub globals: Globals,
    pub part: Option<SheetPart>,
}

/// Likewise of the sheet that is asked for, whatever `which` of the options is.
pub(crate) fn open_sheet(
    alloc: Global,
    stream: &[u8],
    options: &Options,
) -> Result<OpenedSheet, Refusal>
    ensures ok { IfOk result (IsSheetOpened options.now stream.now) }
    ensures err { IfErr result (RefusesSheet options.now stream.now) }
{
    let globals = open(alloc, stream, options)?;
    if options.sheet >= globals.listed.len() as u64 {
        return Err(Refusal::NoSheet(options.sheet));
    }
    let index = options.sheet as usize;
    let part = part_of(alloc, stream, globals.version, &globals.listed, index)?;
    Ok(OpenedSheet { globals, part })
}
