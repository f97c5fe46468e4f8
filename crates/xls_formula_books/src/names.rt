//! Names by their numbers and, in BIFF8, by reference.

ghost use Rattle.std.specs.Prelude.{◌≡◌, ◌++◌, OnOk, map};
ghost use Rattle.std.specs.Str.{chars};
ghost use Rattle.std.specs.Option.{option_map};
ghost use Rattle.xls_strings.specs.Texts.{text_of};
ghost use Rattle.xls_defined_names.specs.Names as defined;
ghost use Rattle.xls_formula_names.specs.Tables.{lent_text};
ghost use Rattle.xls_formula_books.specs.ExternNames.{name_view};
ghost use Rattle.xls_formula_books.specs.Names as specs;
ghost use Rattle.xls_formula_books.specs.Sources.{source_view};

use crate::early_prefixes::{numbered_sheet, workbook_place};
use crate::extern_names::ExternName;
use crate::here::Here;
use crate::prefixes::sheet_at;
use crate::sources::{Kind, Source};
use crate::texts::{push_mark, push_nameless, push_text, push_this};
use std::alloc::AllocError;
use xls_defined_names::DefinedName;
use xls_formula_names::{push_link, push_name, push_sheets};
use xls_record::{Biff, is_biff8};
use xls_strings::Strings;

/// Appends a name of a sheet behind that sheet's.
fn append_of_sheet(
    sheets: &Strings,
    sheet: u16,
    name: &str,
    out: &mut String,
) -> Result<(), AllocError>
    ensures { OnOk result (text_of out.new ≡ text_of out.old ++ specs.of_sheet sheets.now sheet (chars name.now)) }
{
    push_sheets(numbered_sheet(sheets, usize::from(sheet)), out)?;
    push_mark(out)?;
    push_text(name, out)
}

/// Appends a defined name, as the formulas of a sheet of this number call it.
fn append_seen(here: &Here<'_>, name: &DefinedName, out: &mut String) -> Result<(), AllocError>
    ensures { OnOk result (text_of out.new ≡ text_of out.old ++ specs.seen here.now (defined.name_view name.now)) }
{
    if name.sheet == 0 || usize::from(name.sheet) == here.sheet {
        return push_text(&name.name, out);
    }
    append_of_sheet(here.sheets, name.sheet, &name.name, out)
}

/// The number of a defined name: two of the four bytes of its token (PtgName). The other two aren't read.
pub fn name_number(field: u32) -> u32
    ensures { result ≡ specs.name_number field }
{
    field % 0x1_0000
}

/// Appends the defined name whose number a token holds.
pub(crate) fn append_local(here: &Here<'_>, field: u32, out: &mut String) -> Result<(), AllocError>
    ensures { OnOk result (text_of out.new ≡ text_of out.old ++ specs.name here.now field) }
{
    match here.names.numbered(name_number(field)) {
        Some(name) => append_seen(here, name, out),
        None => push_nameless(out),
    }
}

/// Appends a defined name by reference.
fn append_called(sheets: &Strings, name: &DefinedName, out: &mut String) -> Result<(), AllocError>
    ensures { OnOk result (text_of out.new ≡ text_of out.old ++ specs.called sheets.now (defined.name_view name.now)) }
{
    if name.sheet == 0 {
        push_this(out)?;
        return push_text(&name.name, out);
    }
    append_of_sheet(sheets, name.sheet, &name.name, out)
}

/// Appends the defined name of a number by reference.
pub(crate) fn append_this_name(
    here: &Here<'_>,
    number: u32,
    out: &mut String,
) -> Result<(), AllocError>
    ensures { OnOk result (text_of out.new ≡ text_of out.old ++ specs.this_name here.now number) }
{
    match here.names.numbered(number) {
        Some(name) => append_called(here.sheets, name, out),
        None => push_nameless(out),
    }
}

/// The name of what is referred to with a number from 1.
pub(crate) fn numbered_name(source: &Source, number: u32) -> Option<&ExternName>
    ensures { option_map (λ name. name_view name.now) result ≡ specs.numbered_name (source_view source.now) number }
{
    if number == 0 {
        return None;
    }
    source.names.get(number as usize - 1)
}

/// The sheet of another workbook to which a name belongs.
fn sheet_of<'a>(version: Biff, source: &'a Source, name: &ExternName) -> Option<&'a str>
    ensures { lent_text result ≡ specs.sheet_of version (source_view source.now) (name_view name.now) }
{
    if !is_biff8(version) {
        return sheet_at(&source.sheets, 0);
    }
    if name.sheet == 0 {
        return None;
    }
    sheet_at(&source.sheets, usize::from(name.sheet) - 1)
}

/// Appends a name of another workbook.
fn append_of_workbook(
    version: Biff,
    source: &Source,
    name: &ExternName,
    out: &mut String,
) -> Result<(), AllocError>
    ensures { OnOk result (text_of out.new
        ≡ text_of out.old ++ specs.of_workbook version (source_view source.now) (name_view name.now)) }
{
    workbook_place(source, sheet_of(version, source, name)).append(out)?;
    push_mark(out)?;
    push_text(&name.name, out)
}

/// Appends an item of a program's topic.
fn append_item(source: &Source, item: &str, out: &mut String) -> Result<(), AllocError>
    ensures { OnOk result (text_of out.new ≡ text_of out.old ++ specs.item (source_view source.now) (chars item.now)) }
{
    push_link(&source.app, &source.topic, out)?;
    push_mark(out)?;
    push_name(item, out)
}

/// Appends a name of what is referred to.
fn append_of(
    version: Biff,
    source: &Source,
    name: &ExternName,
    out: &mut String,
) -> Result<(), AllocError>
    ensures { OnOk result (text_of out.new
        ≡ text_of out.old ++ specs.name_of version (source_view source.now) (name_view name.now)) }
{
    match source.kind {
        Kind::Functions => push_text(&name.name, out),
        Kind::Program => append_item(source, &name.name, out),
        Kind::Workbook => append_of_workbook(version, source, name, out),
        _ => push_nameless(out),
    }
}

/// Appends the name of a number of what is referred to.
pub(crate) fn append_other_name(
    version: Biff,
    source: &Source,
    number: u32,
    out: &mut String,
) -> Result<(), AllocError>
    ensures { OnOk result (text_of out.new
        ≡ text_of out.old ++ specs.other_name version (source_view source.now) number) }
{
    match numbered_name(source, number) {
        Some(name) => append_of(version, source, name, out),
        None => push_nameless(out),
    }
}

/// Appends the name of a number of what an entry refers to.
fn append_through(
    here: &Here<'_>,
    source: &Source,
    number: u32,
    out: &mut String,
) -> Result<(), AllocError>
    ensures { OnOk result (text_of out.new
        ≡ text_of out.old ++ specs.source_name here.now number (source_view source.now)) }
{
    if matches!(source.kind, Kind::This) {
        return append_this_name(here, number, out);
    }
    append_other_name(here.books.version(), source, number, out)
}

/// Appends the name of a number through an entry of ExternSheet.
pub(crate) fn append_xti_name(
    here: &Here<'_>,
    ixti: u16,
    number: u32,
    out: &mut String,
) -> Result<(), AllocError>
    ensures { OnOk result (text_of out.new ≡ text_of out.old ++ specs.xti_name here.now ixti number) }
{
    let Some(entry) = here.books.entry(ixti) else {
        return push_nameless(out);
    };
    match here.books.source(usize::from(entry.book)) {
        Some(source) => append_through(here, source, number, out),
        None => push_nameless(out),
    }
}
