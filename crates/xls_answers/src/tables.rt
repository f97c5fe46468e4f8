//! A sheet of a workbook as CSV.

ghost use Rattle.std.specs.Prelude.{◌≡◌, ◌<◌, ◌==◌, IfErr, IfOk, IfSome, Some, length, map};
ghost use Rattle.std.specs.Cmp.Lexicographic.{pointwise};
ghost use Rattle.std.specs.Str.{chars};
ghost use Rattle.xls_data.specs.Sheets.{sheet_content};
ghost use Rattle.xls_readable.specs.Choices.{IsNumbered};
ghost use Rattle.xls_open.specs.Workbook.{rules_of};
ghost use Rattle.xls_answers.specs.Sheets.{BeginsTableOf, HasNoSheet, IsMissing, IsTableOf, MissesSheet, WritesCells, WritesSheetAt, chosen_index, first_worksheet_from, index_of_number, is_worksheet, last_named_from};
ghost use Rattle.xls_answers.specs.Views.{OfView};
ghost use Rattle.std.specs.Option.{option_copied};

use crate::failure::{Failure, Missing};
use crate::hidden_parts::{skipped_at, skipped_parts};
use std::alloc::{AllocError, Global};
use xls_cell_formats::CellFormats;
use xls_csv::write_rows;
use xls_data::{Sheet, SheetType};
use xls_formula::NumberStyle;
use xls_hidden::HiddenSheet;
use xls_hidden_cells::Sight;
use xls_open::XlsOptions;
use xls_output::{Sink, Stop};
use xls_readable::{SheetChoice, Table};
use xls_tables::write_table;
use xls_view::{View, ViewSheet};

/// Whether a sheet is a worksheet.
fn is_worksheet(sheet: &Sheet) -> bool
    ensures { result ≡ is_worksheet sheet.now.typ }
{
    matches!(sheet.typ, SheetType::WorkSheet)
}

/// Whether a sheet has a name.
fn is_named(sheet: &Sheet, name: &str) -> bool
    ensures { result ≡ pointwise ◌==◌ (sheet_content sheet.now).name (chars name.now) }
{
    sheet.name.as_str() == name
}

/// The index of the first worksheet.
fn first_worksheet(sheets: &[Sheet]) -> Option<usize>
    ensures exact { result ≡ first_worksheet_from 0 (map sheet_content sheets.now) }
    ensures within { IfSome result (λ n. n < length sheets.now) }
{
    for index in 0..sheets.len() {
        if is_worksheet(&sheets[index]) {
            return Some(index);
        }
    }
    None
}

/// The index of the last sheet of a name.
pub(crate) fn last_named(sheets: &[Sheet], name: &str) -> Option<usize>
    ensures exact { result ≡ last_named_from 0 (chars name.now) (map sheet_content sheets.now) }
    ensures within { IfSome result (λ n. n < length sheets.now) }
{
    let mut found = None;
    for index in 0..sheets.len() {
        if is_named(&sheets[index], name) {
            found = Some(index);
        }
    }
    found
}

/// The index of the sheet of a number, of so many.
fn numbered(count: usize, number: u32) -> Option<usize>
    requires { 0 < number }
    ensures exact { result ≡ index_of_number number count }
    ensures within { IfSome result (λ n. n < count) }
{
    let index = number as usize - 1;
    if index < count { Some(index) } else { None }
}

/// The index of the sheet that is chosen.
fn index_of(sheets: &[Sheet], choice: &SheetChoice<'_>) -> Option<usize>
    requires { IsNumbered choice.now }
    ensures exact { result ≡ chosen_index choice.now (map sheet_content sheets.now) }
    ensures within { IfSome result (λ n. n < length sheets.now) }
{
    match choice {
        SheetChoice::First => first_worksheet(sheets),
        SheetChoice::Named(name) => last_named(sheets, name),
        SheetChoice::Number(number) => numbered(sheets.len(), *number),
    }
}

/// That the sheet that is chosen isn't there.
fn missing(alloc: Global, choice: &SheetChoice<'_>) -> Result<Missing, AllocError>
    ensures { IfOk result (IsMissing choice.now) }
{
    Ok(match choice {
        SheetChoice::Named(name) => Missing::Name(String::from_str(alloc, name)?),
        SheetChoice::Number(number) => Missing::Number(*number),
        SheetChoice::First => Missing::Worksheet,
    })
}

/// The index of the sheet that is chosen: the first worksheet, the last sheet of a name, or the sheet of a number;
/// or that there is none.
pub fn chosen(alloc: Global, view: &View<'_>, choice: &SheetChoice<'_>) -> Result<usize, Failure>
    requires { IsNumbered choice.now }
    ensures ok { IfOk result (λ n. Some n ≡ chosen_index choice.now view.now.book.sheets) }
    ensures within { IfOk result (λ n. n < length view.now.book.sheets) }
    ensures err { IfErr result (HasNoSheet choice.now view.now.book) }
{
    match index_of(view.sheets(), choice) {
        Some(index) => Ok(index),
        None => Err(Failure::Missing(missing(alloc, choice)?)),
    }
}

/// Writes the cells of a sheet as CSV, but for what is hidden, where that is given.
fn write_cells<K: Sink>(
    alloc: Global,
    sink: &mut K,
    table: &Table,
    formats: &CellFormats<'_>,
    hidden: Option<&HiddenSheet<'_>>,
    sheet: &ViewSheet<'_>,
) -> Result<(), Stop>
    ensures { WritesCells table.now (option_copied hidden.entry) formats.now sheet.now.cells sheet.now.formatted
        (K.state sink.old) (K.state sink.new) result }
{
    if table.is_exact {
        return write_rows(alloc, sink, &sheet.cells()?);
    }
    let cells = sheet.formatted()?;
    write_table(alloc, sink, table, formats, hidden, &cells)
}

/// Writes the sheet of an index as CSV, of the workbook whose formats are these, but for what is hidden in it, where that
/// is given. An exact table has all.
pub fn write_sheet_at<K: Sink>(
    alloc: Global,
    sink: &mut K,
    table: &Table,
    formats: &CellFormats<'_>,
    hidden: Option<&HiddenSheet<'_>>,
    index: usize,
) -> Result<(), Stop>
    requires { index < length formats.now.book.contents }
    ensures { WritesSheetAt table.now (option_copied hidden.entry) formats.now index (K.state sink.old) (K.state sink.new) result }
{
    match formats.view().sheet_at(index) {
        Some(sheet) => write_cells(alloc, sink, table, formats, hidden, &sheet),
        None => unreachable!(),
    }
}

/// Writes the sheet that is chosen of the workbook that a stream's bytes hold, or what can be seen of it. Nothing is
/// written where there is no such sheet.
pub(crate) fn write_sheet_of<K: Sink>(
    alloc: Global,
    sink: &mut K,
    choice: &SheetChoice<'_>,
    table: &Table,
    sight: Sight,
    options: &XlsOptions,
    bytes: &[u8],
) -> Result<(), Failure>
    requires { IsNumbered choice.now }
    ensures { OfView (rules_of options.now) bytes.now (IsTableOf choice.now table.now sight options.now bytes.now)
        (BeginsTableOf choice.now table.now sight options.now bytes.now) (MissesSheet choice.now)
        (K.state sink.old) (K.state sink.new) result }
{
    let view = View::new(alloc, bytes, options, NumberStyle::Bits)?;
    let index = chosen(alloc, &view, choice)?;
    let formats = CellFormats::new(alloc, &view)?;
    let parts = skipped_parts(alloc, sight, options, bytes)?;
    let hidden = skipped_at(alloc, parts.as_ref(), &view, index)?;
    write_sheet_at(alloc, sink, table, &formats, hidden.as_ref(), index)?;
    Ok(())
}
