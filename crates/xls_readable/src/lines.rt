//! The lines of a workbook, a call for each kind.

ghost use Rattle.std.specs.Prelude.{◌≡◌, [], OnOk, OnErr, codes};
ghost use Rattle.std.specs.String.{string_bytes};
ghost use Rattle.xls_output.specs.Added.{AddsText};
ghost use Rattle.xls_readable.specs.Items.{count, named_of, text};
ghost use Rattle.xls_readable.specs.Lines.{IsLine};
ghost use Rattle.xls_readable.specs.Lines.{dates_members, name_members, sheet_members, formula_members, merge_members, ref_members, text_members, item_of};

use crate::forms::{Form, push_line};
use crate::items::{Field, Member};
use crate::words::{type_word, visible_word, year_word};
use std::alloc::AllocError;
use xls_data::{Dimensions, SheetType, SheetVisible};

/// Appends the line of the date system, `dates`. Of this call and those below: only running out of memory
/// refuses, and then `buf` is as it was; what is printed first is printed into `room`, whose text is lost.
pub fn push_dates(
    form: Form,
    is_1904: bool,
    room: &mut String,
    buf: &mut String,
) -> Result<(), AllocError>
    ensures ok { OnOk result (AddsText (IsLine form (codes "dates") (dates_members is_1904))
        (string_bytes buf.old) (string_bytes buf.new)) }
    ensures err { OnErr result (string_bytes buf.new ≡ string_bytes buf.old) }
{
    let year = Member {
        name: "year",
        field: Field::Word(year_word(is_1904)),
    };
    push_line(form, "dates", &[year], room, buf)
}

// A text under a name.
pub(crate) fn text_member<'a>(name: &'a str, displayed: &'a str) -> Member<'a>
    ensures { named_of result ≡ (name.now, text displayed.now) }
{
    Member {
        name,
        field: Field::Text(displayed),
    }
}

// Appends the line of a text.
pub(crate) fn push_one_text(
    form: Form,
    word: &str,
    text: &str,
    room: &mut String,
    buf: &mut String,
) -> Result<(), AllocError>
    ensures ok { OnOk result (AddsText (IsLine form word.now (text_members text.now))
        (string_bytes buf.old) (string_bytes buf.new)) }
    ensures err { OnErr result (string_bytes buf.new ≡ string_bytes buf.old) }
{
    push_line(form, word, &[text_member("text", text)], room, buf)
}

/// Appends the line of a defined name and its text, `name`.
pub fn push_name(
    form: Form,
    name: &str,
    text: &str,
    room: &mut String,
    buf: &mut String,
) -> Result<(), AllocError>
    ensures ok { OnOk result (AddsText (IsLine form (codes "name") (name_members name.now text.now))
        (string_bytes buf.old) (string_bytes buf.new)) }
    ensures err { OnErr result (string_bytes buf.new ≡ string_bytes buf.old) }
{
    let members = [text_member("name", name), text_member("text", text)];
    push_line(form, "name", &members, room, buf)
}

/// Appends the line of a sheet's name, kind and visibility, `sheet`.
pub fn push_sheet(
    form: Form,
    name: &str,
    kind: SheetType,
    visible: SheetVisible,
    room: &mut String,
    buf: &mut String,
) -> Result<(), AllocError>
    ensures ok { OnOk result (AddsText (IsLine form (codes "sheet") (sheet_members name.now kind visible))
        (string_bytes buf.old) (string_bytes buf.new)) }
    ensures err { OnErr result (string_bytes buf.new ≡ string_bytes buf.old) }
{
    let name = text_member("name", name);
    let kind = Member {
        name: "kind",
        field: Field::Word(type_word(kind)),
    };
    let visibility = Member {
        name: "visibility",
        field: Field::Word(visible_word(visible)),
    };
    push_line(form, "sheet", &[name, kind, visibility], room, buf)
}

/// Appends the line of a formula's row, column and text, `formula`.
pub fn push_formula_line(
    form: Form,
    row: u32,
    column: u32,
    text: &str,
    room: &mut String,
    buf: &mut String,
) -> Result<(), AllocError>
    ensures ok { OnOk result (AddsText (IsLine form (codes "formula") (formula_members row column text.now))
        (string_bytes buf.old) (string_bytes buf.new)) }
    ensures err { OnErr result (string_bytes buf.new ≡ string_bytes buf.old) }
{
    let row = Member {
        name: "row",
        field: Field::Count(u64::from(row)),
    };
    let column = Member {
        name: "column",
        field: Field::Count(u64::from(column)),
    };
    let text = Member {
        name: "text",
        field: Field::Text(text),
    };
    push_line(form, "formula", &[row, column, text], room, buf)
}

// A count under a name.
fn count_member<'a>(name: &'a str, n: u32) -> Member<'a>
    ensures { named_of result ≡ (name.now, count n) }
{
    Member {
        name,
        field: Field::Count(u64::from(n)),
    }
}

/// Appends the line of a merged region's first row, first column, last row and last column, `merge`.
pub fn push_merge(
    form: Form,
    region: Dimensions,
    room: &mut String,
    buf: &mut String,
) -> Result<(), AllocError>
    ensures ok { OnOk result (AddsText (IsLine form (codes "merge") (merge_members region))
        (string_bytes buf.old) (string_bytes buf.new)) }
    ensures err { OnErr result (string_bytes buf.new ≡ string_bytes buf.old) }
{
    let corners = [
        count_member("first_row", region.start.0),
        count_member("first_column", region.start.1),
        count_member("last_row", region.end.0),
        count_member("last_column", region.end.1),
    ];
    push_line(form, "merge", &corners, room, buf)
}

/// Appends the line of cells that a formula cites, `ref`: the formula's sheet, row and column, and of the
/// cells the sheet, first row, first column, last row and last column.
pub fn push_ref(
    form: Form,
    sheet: &str,
    cell: (u32, u32),
    cited_sheet: &str,
    cells: Dimensions,
    room: &mut String,
    buf: &mut String,
) -> Result<(), AllocError>
    ensures ok { OnOk result (AddsText (IsLine form (codes "ref") (ref_members sheet.now cell cited_sheet.now cells))
        (string_bytes buf.old) (string_bytes buf.new)) }
    ensures err { OnErr result (string_bytes buf.new ≡ string_bytes buf.old) }
{
    let members = [
        text_member("sheet", sheet),
        count_member("row", cell.0),
        count_member("column", cell.1),
        text_member("cited_sheet", cited_sheet),
        count_member("first_row", cells.start.0),
        count_member("first_column", cells.start.1),
        count_member("last_row", cells.end.0),
        count_member("last_column", cells.end.1),
    ];
    push_line(form, "ref", &members, room, buf)
}

/// Appends the line of a refusal's text, `error`.
pub fn push_error(
    form: Form,
    text: &str,
    room: &mut String,
    buf: &mut String,
) -> Result<(), AllocError>
    ensures ok { OnOk result (AddsText (IsLine form (codes "error") (text_members text.now))
        (string_bytes buf.old) (string_bytes buf.new)) }
    ensures err { OnErr result (string_bytes buf.new ≡ string_bytes buf.old) }
{
    push_one_text(form, "error", text, room, buf)
}

/// Appends the line of a stream without a fault, `ok`.
pub fn push_ok(form: Form, room: &mut String, buf: &mut String) -> Result<(), AllocError>
    ensures ok { OnOk result (AddsText (IsLine form (codes "ok") []) (string_bytes buf.old) (string_bytes buf.new)) }
    ensures err { OnErr result (string_bytes buf.new ≡ string_bytes buf.old) }
{
    push_line(form, "ok", &[], room, buf)
}
