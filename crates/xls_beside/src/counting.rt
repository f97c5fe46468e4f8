//! How many things are damaged in the sheets of a workbook.

ghost use Rattle.std.specs.Prelude.{◌≡◌, ◌+◌, IfOk, List, map};
ghost use Rattle.std.specs.Str.{chars};
ghost use Rattle.xls_data.specs.Sheets.{SheetContent};
ghost use Rattle.xls_open.specs.Globals.{listed_of};
ghost use Rattle.xls_meaning.specs.Reading.{last_named};
ghost use Rattle.xls_beside.specs.declared.parts.SheetPart.{SheetPart as PartFields};
ghost use Rattle.xls_beside.specs.Damaged.{at_most_counted, damaged_among};
ghost use Rattle.xls_beside.specs.Parts.{IsPartIndex, lines_if, parts_of, sheet_lines};

use crate::parts::{SheetPart, read_parts};
use std::alloc::{AllocError, Global};
use std::collections::BTreeMap;
use xls_open::{Globals, Listed};
use xls_record::Biff;

/// So many, and so many more; 2^64 - 1 where they are more than that.
pub(crate) fn counted(count: u64, more: u64) -> u64
    ensures { result ≡ at_most_counted (count + more) }
{
    count.saturating_add(more)
}

/// A kind of things that stand beside the values of a sheet, and may be damaged.
pub(crate) trait Damages {
    ghost use Rattle.std.specs.Prelude.{◌≡◌, IfOk, List};
    ghost use Rattle.xls_beside.specs.declared.parts.SheetPart.{SheetPart as PartFields};
    ghost use Rattle.xls_beside.specs.Damaged.{at_most_counted, damaged_among};
    ghost use Rattle.xls_beside.specs.Lines.{Line};

    /// The lines of a part.
    ghost lines: { Self → PartFields → List Line };

    /// How many things of a part are damaged.
    fn damaged(&self, alloc: Global, part: SheetPart) -> Result<u64, AllocError>
        ensures { IfOk result (λ n. n ≡ at_most_counted (damaged_among (lines self.now part))) };
}

/// How many things are damaged of the part of the last sheet of a name.
fn damaged_of_name<T: Damages>(
    alloc: Global,
    things: &T,
    index: &BTreeMap<String, SheetPart>,
    name: &str,
) -> Result<u64, AllocError>
    ensures { (parts : List (SheetContent × PartFields)) → IsPartIndex index.now parts → IfOk result (λ n. n
        ≡ at_most_counted (damaged_among (lines_if (T.lines things.now) (last_named parts (chars name.now))))) }
{
    match index.get(name) {
        Some(part) => things.damaged(alloc, *part),
        None => Ok(0),
    }
}

/// How many things are damaged of all sheets.
fn damaged_of_sheets<T: Damages>(
    alloc: Global,
    things: &T,
    index: &BTreeMap<String, SheetPart>,
    listed: &[Listed],
) -> Result<u64, AllocError>
    ensures { (parts : List (SheetContent × PartFields)) → IsPartIndex index.now parts → IfOk result (λ n. n
        ≡ at_most_counted (damaged_among (sheet_lines (T.lines things.now) parts (map listed_of listed.now)))) }
{
    let mut count: u64 = 0;
    for next in listed {
        let more = damaged_of_name(alloc, things, index, next.sheet.name.as_str())?;
        count = counted(count, more);
    }
    Ok(count)
}

/// How many things are damaged of sheets, by the version in force and the list of the sheets.
fn damaged_of_listed<T: Damages>(
    alloc: Global,
    things: &T,
    stream: &[u8],
    version: Biff,
    listed: &[Listed],
) -> Result<u64, AllocError>
    ensures { IfOk result (λ n. n ≡ at_most_counted (damaged_among
        (sheet_lines (T.lines things.now) (parts_of version (map listed_of listed.now) stream.now) (map listed_of listed.now)))) }
{
    let index = read_parts(alloc, stream, version, listed)?;
    damaged_of_sheets(alloc, things, &index, listed)
}

/// How many things are damaged of the sheets that the globals of a stream list, each by the part of the last sheet of its
/// name.
pub(crate) fn damaged_in_sheets<T: Damages>(
    alloc: Global,
    things: &T,
    stream: &[u8],
    globals: &Globals,
) -> Result<u64, AllocError>
    ensures { IfOk result (λ n. n ≡ at_most_counted (damaged_among
        (sheet_lines (T.lines things.now) (parts_of globals.now.version globals.now.sheets stream.now) globals.now.sheets))) }
{
    damaged_of_listed(alloc, things, stream, globals.version, &globals.listed)
}
