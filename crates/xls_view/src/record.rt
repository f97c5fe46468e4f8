//! The cells of a record.

ghost use Rattle.std.specs.Prelude.{◌≡◌, ◌≢◌, [], ℕ, List, Option, Some, None, Ok, slice_get};
ghost use Rattle.std.specs.Option.{option_map};
ghost use Rattle.xls_stream.specs.Listing.{kept_group};
ghost use Rattle.xls_stream.specs.declared.types.TheConstants as types;
ghost use Rattle.xls_biff.specs.Cells.{CellEntry};
ghost use Rattle.xls_biff.specs.Records.Formula.{value_content};
ghost use Rattle.xls_biff.specs.Records.Label.{label_entry};
ghost use Rattle.xls_biff.specs.Records.LabelSst.{shared_entry};
ghost use Rattle.xls_biff.specs.SheetTable.{stands_for};
ghost use Rattle.xls_biff.specs.SheetTable as table;
ghost use Rattle.xls_biff.specs.Walking.{group_of};
ghost use Rattle.xls_meaning.specs.SheetTable.{adds, kept_line, listed_cell, listed_value};
ghost use Rattle.xls_view.specs.Formats.{with_formats, xf_in};
ghost use Rattle.xls_view.specs.Formatting.{listed_formatted};
ghost use Rattle.xls_view.specs.Values.{bare_entry, formatted_entry, lent_content as seen_content};
ghost use Rattle.xls_view.specs.Walking.{FormattedSteps, run_of};

use crate::formats::{LastFormula, xf_in};
use crate::run::Run;
use crate::value::{BareCell, CellValue, EncodedText, SheetCell, bes_cell, number_cell};
use xls_biff::{FormulaParts, FormulaValue, Record, SheetRecord, read_sheet_record, value_of_bits};
use xls_open::Settings;

/// A cell with a text that stands in its record.
#[inline(always)]
fn encoded<'c>(position: (u32, u32), string: &'c [u8], settings: &Settings<'c>) -> BareCell<'c>
    ensures { bare_entry result ≡ label_entry settings.now.cells.page settings.now.cells.version (position, string.now) }
{
    let text = EncodedText {
        string,
        page: settings.page,
        version: settings.version,
    };
    BareCell {
        position,
        value: CellValue::Encoded(text),
    }
}

/// A cell with a text of the table, if the table has it.
#[inline(always)]
fn shared<'c>(position: (u32, u32), index: u32, settings: &Settings<'c>) -> Option<BareCell<'c>>
    ensures { option_map bare_entry result ≡ shared_entry settings.now.cells.strings (position, index) }
{
    match settings.strings.get(index as usize) {
        Some(text) => Some(BareCell {
            position,
            value: CellValue::Shared(text),
        }),
        None => None,
    }
}

/// The value of a formula; none where it is the text of a String record.
fn formula_value<'c>(value: FormulaValue, xf: u16, settings: &Settings<'c>) -> Option<CellValue<'c>>
    ensures { option_map seen_content result
        ≡ value_content (slice_get settings.now.cells.classes xf) settings.now.cells.is_1904 value }
{
    match value {
        FormulaValue::Number(bits) => {
            let number = value_of_bits(bits, xf, settings.classes, settings.is_1904);
            Some(CellValue::Number(number))
        }
        FormulaValue::Bool(truth) => Some(CellValue::Bool(truth)),
        FormulaValue::Error(error) => Some(CellValue::Error(error)),
        FormulaValue::EmptyText => Some(CellValue::Shared("")),
        FormulaValue::Text => None,
    }
}

/// A formula whose value is the text of a String record has no cell.
fn formula<'c>(read: &FormulaParts<'c>, settings: &Settings<'c>) -> Option<BareCell<'c>>
    ensures { listed_cell (option_map bare_entry result) ≡ listed_value read.now.position
        (value_content (slice_get settings.now.cells.classes read.now.xf) settings.now.cells.is_1904 read.now.value) }
{
    match formula_value(read.value, read.xf, settings) {
        Some(value) => Some(BareCell {
            position: read.position,
            value,
        }),
        None => None,
    }
}

/// The body of a MulRk, and how many cells it has.
#[inline(always)]
pub(crate) fn run_of<'c>(read: &SheetRecord<'c>) -> Option<(&'c [u8], usize)>
    ensures { option_map (λ x. (x.0.now, x.1)) result ≡ run_of read.now }
{
    match read {
        SheetRecord::MulRk { body, count } => Some((*body, *count)),
        _ => None,
    }
}

/// The cell of a record that isn't a MulRk, if it has one, where the last Formula before it stands here.
#[inline(always)]
pub(crate) fn single_cell<'c>(
    read: &SheetRecord<'c>,
    at: (u32, u32),
    settings: &Settings<'c>,
) -> Option<BareCell<'c>>
    ensures { run_of read.now ≡ None → listed_cell (option_map bare_entry result)
        ≡ (adds settings.now.formulas at (stands_for settings.now.cells read.now)).cells }
{
    match read {
        SheetRecord::Number(cell) => {
            let value = cell.value(settings.classes, settings.is_1904);
            Some(number_cell((cell.position, value)))
        }
        SheetRecord::Rk(cell) => {
            let value = cell.value(settings.classes, settings.is_1904);
            Some(number_cell((cell.position, value)))
        }
        SheetRecord::BoolErr { position, value } => Some(bes_cell((*position, *value))),
        SheetRecord::Label { position, string } => Some(encoded(*position, string, settings)),
        SheetRecord::LabelSst { position, index } => shared(*position, *index, settings),
        SheetRecord::String(string) => Some(encoded(at, string, settings)),
        SheetRecord::Formula(read) => formula(read, settings),
        _ => None,
    }
}

/// The cell of a record without a fault that isn't a MulRk, if it has one, where the last Formula before
/// it stands here.
#[inline(always)]
pub(crate) fn cell_of<'c>(
    r: &Record<'c>,
    at: (u32, u32),
    settings: &Settings<'c>,
) -> Option<BareCell<'c>>
    requires { r.now.typ ≢ types.MUL_RK }
    ensures { (g : table.SheetRecord) → kept_line settings.now.cells (kept_group (group_of r.now)) ≡ Ok g
        → listed_cell (option_map bare_entry result) ≡ (adds settings.now.formulas at g).cells }
{
    match read_sheet_record(r, settings.version) {
        Ok(read) => single_cell(&read, at, settings),
        Err(_) => None,
    }
}

/// The cell of a record that isn't a MulRk, with its XF index, if it has one, where this is the last Formula
/// before it.
#[inline(always)]
fn formatted_cell<'c>(
    r: &Record<'c>,
    read: &SheetRecord<'c>,
    last: LastFormula,
    settings: &Settings<'c>,
) -> Option<SheetCell<'c>>
    ensures { run_of read.now ≡ None → listed_formatted (option_map formatted_entry result)
        ≡ with_formats (xf_in last.xf (kept_group (group_of r.now))) 0
        (adds settings.now.formulas last.at (stands_for settings.now.cells read.now)).cells }
{
    match single_cell(read, last.at, settings) {
        Some(cell) => Some(cell.with_format(xf_in(r, last.xf))),
        None => None,
    }
}

/// The first cell of a record without a fault, where this is the last Formula before the record; those after
/// it are left in `run`.
#[inline(always)]
pub(crate) fn first_cell<'c>(
    r: &Record<'c>,
    last: LastFormula,
    run: &mut Run<'c>,
    settings: &Settings<'c>,
) -> Option<SheetCell<'c>>
    requires { run.old ≡ [] }
    ensures { (g : table.SheetRecord) → kept_line settings.now.cells (kept_group (group_of r.now)) ≡ Ok g
        → FormattedSteps (with_formats (xf_in last.xf (kept_group (group_of r.now))) 0 (adds settings.now.formulas last.at g).cells)
        result run.new }
{
    let read = match read_sheet_record(r, settings.version) {
        Ok(read) => read,
        Err(_) => return None,
    };
    match run_of(&read) {
        Some((body, count)) => {
            *run = Run::new(body, count, settings.classes, settings.is_1904);
            run.next()
        }
        None => formatted_cell(r, &read, last, settings),
    }
}
