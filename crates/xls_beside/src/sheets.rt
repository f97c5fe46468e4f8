//! The sheets of a workbook, each with the lines of its part.

ghost use Rattle.std.specs.Prelude.{◌≡◌, ◌∷◌, [], List, map};
ghost use Rattle.std.specs.Str.{chars};
ghost use Rattle.xls_data.specs.Sheets.{SheetContent, sheet_content};
ghost use Rattle.xls_open.specs.Globals.{listed_of};
ghost use Rattle.xls_output.specs.Each.{DeliversEach, text_output};
ghost use Rattle.xls_meaning.specs.Reading.{last_named};
ghost use Rattle.xls_beside.specs.declared.parts.SheetPart.{SheetPart as PartFields};
ghost use Rattle.xls_beside.specs.Parts.{IsPartIndex, lines_if, lines_of_sheet, parts_of, sheet_lines};
ghost use Rattle.xls_beside.specs.Lines.{IsLineText, PutsLines};

use crate::lines::put_sheet_line;
use crate::parts::{SheetPart, read_parts};
use std::alloc::Global;
use std::collections::BTreeMap;
use xls_data::Sheet;
use xls_open::{Globals, Listed};
use xls_output::{OutputText, Sink, Stop, Writer};
use xls_readable::Form;
use xls_record::Biff;

/// A kind of things that stand beside the values of a sheet.
pub(crate) trait Tells {
    ghost use Rattle.std.specs.Prelude.{List};
    ghost use Rattle.xls_output.specs.Each.{text_output};
    ghost use Rattle.xls_beside.specs.declared.parts.SheetPart.{SheetPart as PartFields};
    ghost use Rattle.xls_beside.specs.Lines.{Line, PutsLines};

    /// The lines of a part.
    ghost lines: { Self → PartFields → List Line };

    /// Puts the lines of a part.
    fn put<K: Sink>(
        &self,
        form: Form,
        alloc: Global,
        out: &mut Writer<'_, K, OutputText>,
        part: SheetPart,
    ) -> Result<(), Stop>
        ensures { PutsLines form (lines self.now part) (text_output K.state out.old) (text_output K.state out.new) result };
}

/// Puts the lines of the part of the last sheet of a name.
fn put_named<K: Sink, T: Tells>(
    form: Form,
    alloc: Global,
    out: &mut Writer<'_, K, OutputText>,
    things: &T,
    index: &BTreeMap<String, SheetPart>,
    name: &str,
) -> Result<(), Stop>
    ensures { (parts : List (SheetContent × PartFields)) → IsPartIndex index.now parts
        → PutsLines form (lines_if (T.lines things.now) (last_named parts (chars name.now)))
        (text_output K.state out.old) (text_output K.state out.new) result }
{
    match index.get(name) {
        Some(part) => things.put(form, alloc, out, *part),
        None => Ok(()),
    }
}

/// Puts the line of a sheet, and those of the part of the last sheet of its name.
fn put_sheet<K: Sink, T: Tells>(
    form: Form,
    alloc: Global,
    out: &mut Writer<'_, K, OutputText>,
    things: &T,
    index: &BTreeMap<String, SheetPart>,
    sheet: &Sheet,
) -> Result<(), Stop>
    ensures { (parts : List (SheetContent × PartFields)) → IsPartIndex index.now parts
        → PutsLines form (lines_of_sheet (T.lines things.now) parts (sheet_content sheet.now))
        (text_output K.state out.old) (text_output K.state out.new) result }
{
    put_sheet_line(form, out, sheet)?;
    put_named(form, alloc, out, things, index, sheet.name.as_str())
}

/// Puts the lines of all sheets, in workbook order.
fn put_sheets<K: Sink, T: Tells>(
    form: Form,
    alloc: Global,
    out: &mut Writer<'_, K, OutputText>,
    things: &T,
    index: &BTreeMap<String, SheetPart>,
    listed: &[Listed],
) -> Result<(), Stop>
    ensures { (parts : List (SheetContent × PartFields)) → IsPartIndex index.now parts
        → PutsLines form (sheet_lines (T.lines things.now) parts (map listed_of listed.now))
        (text_output K.state out.old) (text_output K.state out.new) result }
{
    for next in listed {
        put_sheet(form, alloc, out, things, index, &next.sheet)?;
    }
    Ok(())
}

/// Puts the lines of sheets, by the version in force and the list of the sheets.
pub(crate) fn put_listed<K: Sink, T: Tells>(
    form: Form,
    alloc: Global,
    out: &mut Writer<'_, K, OutputText>,
    things: &T,
    stream: &[u8],
    version: Biff,
    listed: &[Listed],
) -> Result<(), Stop>
    ensures { PutsLines form
        (sheet_lines (T.lines things.now) (parts_of version (map listed_of listed.now) stream.now) (map listed_of listed.now))
        (text_output K.state out.old) (text_output K.state out.new) result }
{
    let index = read_parts(alloc, stream, version, listed)?;
    put_sheets(form, alloc, out, things, &index, listed)
}

/// Writes the sheets that the globals of a stream list, each with the lines of the part of the last sheet of its name.
pub(crate) fn write_sheets<K: Sink, T: Tells>(
    alloc: Global,
    sink: &mut K,
    form: Form,
    things: &T,
    stream: &[u8],
    globals: &Globals,
) -> Result<(), Stop>
    ensures { DeliversEach (IsLineText form)
        (sheet_lines (T.lines things.now) (parts_of globals.now.version globals.now.sheets stream.now) globals.now.sheets)
        (K.state sink.old) (K.state sink.new) result }
{
    let mut buffer = OutputText::new(alloc);
    let mut out = Writer::new(&mut buffer, sink);
    put_listed(
        form,
        alloc,
        &mut out,
        things,
        stream,
        globals.version,
        &globals.listed,
    )?;
    out.finish()
}
