//! Lines as `xls_dump` writes them.

ghost use Rattle.std.specs.Prelude.{◌≡◌, codes};
ghost use Rattle.xls_lines.specs.Lines.{field_text};
ghost use Rattle.xls_output.specs.Output.{Puts, output};
ghost use Rattle.xls_readable.specs.Items.{exact_text, item_of};
ghost use Rattle.xls_readable.specs.Lines.{exact_line, formula_members, merge_members, ref_members, sheet_members};
ghost use Rattle.xls_listing.specs.Listing.{line_of};

use std::alloc::Global;
use xls_data::{Dimensions, SheetType, SheetVisible};
use xls_lines::{Buffer, Field, put_line};
use xls_listing::{BookLine, LineForm};
use xls_output::{Sink, Stop, Writer};
use xls_readable as items;
use xls_readable::{truth_word, type_word, visible_word, year_word};

/// A field as it is printed exactly.
#[inline(always)]
fn exact_field<'v>(field: &'v items::Field<'v>) -> Field<'v>
    ensures { field_text result ≡ exact_text (item_of field.now) }
{
    match field {
        items::Field::Word(word) => Field::Word(word),
        items::Field::Text(text) => Field::Text(text),
        items::Field::Count(n) => Field::Number(*n),
        items::Field::Int(n) => Field::Int(*n),
        items::Field::Number(n) => Field::Fraction(*n),
        items::Field::Truth(b) => Field::Word(truth_word(*b)),
        items::Field::Moment(d) => Field::Fraction(d.number()),
        items::Field::Failure(e) => Field::Failure(*e),
        items::Field::Unknown => Field::Word(""),
    }
}

/// Puts the line of a formula's row, column and text.
fn put_formula<K: Sink>(
    out: &mut Writer<'_, K, Buffer>,
    row: u32,
    column: u32,
    text: &str,
) -> Result<(), Stop>
    ensures { Puts (output K.state out.old) (output K.state out.new)
        (exact_line (codes "formula") (formula_members row column text.now)) result }
{
    let row = Field::Number(u64::from(row));
    let column = Field::Number(u64::from(column));
    put_line(out, "formula", &[row, column, Field::Text(text)])
}

/// Puts the line of a merged region.
fn put_merge<K: Sink>(out: &mut Writer<'_, K, Buffer>, region: Dimensions) -> Result<(), Stop>
    ensures { Puts (output K.state out.old) (output K.state out.new)
        (exact_line (codes "merge") (merge_members region)) result }
{
    let (first_row, first_column) = region.start;
    let (last_row, last_column) = region.end;
    let fields = [
        Field::Number(u64::from(first_row)),
        Field::Number(u64::from(first_column)),
        Field::Number(u64::from(last_row)),
        Field::Number(u64::from(last_column)),
    ];
    put_line(out, "merge", &fields)
}

/// Puts the line of cells that a formula cites.
fn put_ref<'x, K: Sink>(
    out: &mut Writer<'_, K, Buffer>,
    sheet: &'x str,
    cell: (u32, u32),
    cited_sheet: &'x str,
    cells: Dimensions,
) -> Result<(), Stop>
    ensures { Puts (output K.state out.old) (output K.state out.new)
        (exact_line (codes "ref") (ref_members sheet.now cell cited_sheet.now cells)) result }
{
    let (row, column) = cell;
    let (first_row, first_column) = cells.start;
    let (last_row, last_column) = cells.end;
    let fields = [
        Field::Text(sheet),
        Field::Number(u64::from(row)),
        Field::Number(u64::from(column)),
        Field::Text(cited_sheet),
        Field::Number(u64::from(first_row)),
        Field::Number(u64::from(first_column)),
        Field::Number(u64::from(last_row)),
        Field::Number(u64::from(last_column)),
    ];
    put_line(out, "ref", &fields)
}

/// Puts the line of a sheet.
fn put_sheet<K: Sink>(
    out: &mut Writer<'_, K, Buffer>,
    name: &str,
    kind: SheetType,
    visible: SheetVisible,
) -> Result<(), Stop>
    ensures { Puts (output K.state out.old) (output K.state out.new)
        (exact_line (codes "sheet") (sheet_members name.now kind visible)) result }
{
    let kind = Field::Word(type_word(kind));
    let visible = Field::Word(visible_word(visible));
    put_line(out, "sheet", &[Field::Text(name), kind, visible])
}

/// Puts a line.
fn put_book_line<K: Sink>(out: &mut Writer<'_, K, Buffer>, line: BookLine<'_>) -> Result<(), Stop>
    ensures { let l = line_of line.entry in
        Puts (output K.state out.old) (output K.state out.new) (exact_line l.word l.members) result }
{
    match line {
        BookLine::Dates { is_1904 } => put_line(out, "dates", &[Field::Word(year_word(is_1904))]),
        BookLine::Name { name, text } => {
            put_line(out, "name", &[Field::Text(name), Field::Text(text)])
        }
        BookLine::Sheet {
            name,
            kind,
            visible,
        } => put_sheet(out, name, kind, visible),
        BookLine::Formula { row, column, text } => put_formula(out, row, column, text),
        BookLine::Merge(region) => put_merge(out, region),
        BookLine::Ref {
            sheet,
            cell,
            cited_sheet,
            cells,
        } => put_ref(out, sheet, cell, cited_sheet, cells),
    }
}

/// Lines as `xls_dump` writes them: exact, with numbers as the workbook has them.
#[derive(Clone, Copy, Debug, PartialEq, Eq)]
pub struct ExactLines;

impl LineForm for ExactLines {
    ghost use Rattle.xls_readable.specs.declared.forms.Form.TheVariants.{Exact};
    ghost use Rattle.xls_listing.specs.Listing.{IsDisplayedLine};

    ghost is_text = { λ _. IsDisplayedLine Exact };

    type Buffer = Buffer;

    fn buffer(alloc: Global) -> Buffer {
        Buffer::new(alloc)
    }

    fn put_line<K: Sink>(
        &self,
        out: &mut Writer<'_, K, Buffer>,
        line: BookLine<'_>,
    ) -> Result<(), Stop> {
        put_book_line(out, line)
    }

    fn put_cell<K: Sink>(
        &self,
        out: &mut Writer<'_, K, Buffer>,
        position: (u32, u32),
        kind: &'static str,
        field: &items::Field<'_>,
        _shown: Option<&str>,
    ) -> Result<(), Stop> {
        let (row, column) = position;
        xls_lines::put_cell(out, row, column, kind, exact_field(field))
    }
}
