//! Lines as people read them, as JSON, and exact.

ghost use Rattle.std.specs.Prelude.{◌≡◌, Option, Some, OnOk, OnErr};
ghost use Rattle.std.specs.Str.{chars};
ghost use Rattle.std.specs.String.{string_bytes};
ghost use Rattle.xls_output.specs.Added.{AddsText};
ghost use Rattle.xls_cell_formats.specs.Contents.{IsContentShown};
ghost use Rattle.xls_readable.specs.Items.{item_of};
ghost use Rattle.xls_listing.specs.Listing.{IsDisplayedLine, ShownAs, TellsShown, cell_line, line_of};

use crate::lines::{BookLine, LineForm};
use std::alloc::{AllocError, Global};
use xls_output::{Gathers, Sink, Stop, Writer};
use xls_readable::{
    CellLines, Field, Form, push_cell, push_dates, push_formula_line, push_merge, push_name,
    push_ref, push_sheet, push_shown_cell,
};

/// Text that is gathered, and memory into which is printed first.
#[derive(Drop)]
pub struct FormBuffer {
    text: String,
    room: String,
    cells: CellLines,
}

impl Gathers for FormBuffer {
    ghost use Rattle.std.specs.String.{string_bytes};

    ghost kept = { λ buffer. string_bytes buffer.text };

    #[inline(always)]
    fn bytes(&self) -> &[u8] {
        self.text.as_bytes()
    }

    fn clear(&mut self) {
        self.text.clear();
    }
}

/// Appends a line. Only running out of memory refuses, and then `buf` is as it was.
fn push_book_line(
    form: Form,
    line: BookLine<'_>,
    room: &mut String,
    buf: &mut String,
) -> Result<(), AllocError>
    ensures ok { OnOk result (AddsText (IsDisplayedLine form (line_of line.entry))
        (string_bytes buf.old) (string_bytes buf.new)) }
    ensures err { OnErr result (string_bytes buf.new ≡ string_bytes buf.old) }
{
    match line {
        BookLine::Dates { is_1904 } => push_dates(form, is_1904, room, buf),
        BookLine::Name { name, text } => push_name(form, name, text, room, buf),
        BookLine::Sheet {
            name,
            kind,
            visible,
        } => push_sheet(form, name, kind, visible, room, buf),
        BookLine::Formula { row, column, text } => {
            push_formula_line(form, row, column, text, room, buf)
        }
        BookLine::Merge(region) => push_merge(form, region, room, buf),
        BookLine::Ref {
            sheet,
            cell,
            cited_sheet,
            cells,
        } => push_ref(form, sheet, cell, cited_sheet, cells, room, buf),
    }
}

/// Appends the line of a cell with what Excel shows of it, which exact lines don't tell. Only running out of memory
/// refuses, and then `buf` is as it was.
#[inline(never)]
fn push_with_shown(
    form: Form,
    cells: &mut CellLines,
    room: &mut String,
    position: (u32, u32),
    kind: &'static str,
    field: &Field<'_>,
    text: &str,
    buf: &mut String,
) -> Result<(), AllocError>
    ensures ok { (s : ShownAs) → IsContentShown s.code s.is_1904 s.content (chars text.now)
        → OnOk result (AddsText (IsDisplayedLine form (cell_line position (kind.now, item_of field.now) (Some s)))
        (string_bytes buf.old) (string_bytes buf.new)) }
    ensures err { OnErr result (string_bytes buf.new ≡ string_bytes buf.old) }
{
    match form {
        Form::Text => push_shown_cell(Form::Text, position, kind, field, text, room, buf),
        Form::Json => push_shown_cell(Form::Json, position, kind, field, text, room, buf),
        Form::Exact => push_cell(Form::Exact, cells, position, kind, field, buf),
    }
}

/// Appends the line of a cell, and what Excel shows of it, if that is told. Only running out of memory refuses, and then
/// `buf` is as it was.
#[inline(always)]
fn push_listed_cell(
    form: Form,
    cells: &mut CellLines,
    room: &mut String,
    position: (u32, u32),
    kind: &'static str,
    field: &Field<'_>,
    shown: Option<&str>,
    buf: &mut String,
) -> Result<(), AllocError>
    ensures ok { (s : Option ShownAs) → TellsShown s shown.entry
        → OnOk result (AddsText (IsDisplayedLine form (cell_line position (kind.now, item_of field.now) s))
        (string_bytes buf.old) (string_bytes buf.new)) }
    ensures err { OnErr result (string_bytes buf.new ≡ string_bytes buf.old) }
{
    match shown {
        None => push_cell(form, cells, position, kind, field, buf),
        Some(text) => push_with_shown(form, cells, room, position, kind, field, text, buf),
    }
}

impl LineForm for Form {
    ghost use Rattle.xls_listing.specs.Listing.{IsDisplayedLine};

    ghost is_text = { IsDisplayedLine };

    type Buffer = FormBuffer;

    fn buffer(alloc: Global) -> FormBuffer {
        FormBuffer {
            text: String::new(alloc),
            room: String::new(alloc),
            cells: CellLines::new(alloc),
        }
    }

    fn put_line<K: Sink>(
        &self,
        out: &mut Writer<'_, K, FormBuffer>,
        line: BookLine<'_>,
    ) -> Result<(), Stop> {
        let buffer = &mut *out.buffer;
        push_book_line(*self, line, &mut buffer.room, &mut buffer.text)?;
        out.pass()
    }

    fn put_cell<K: Sink>(
        &self,
        out: &mut Writer<'_, K, FormBuffer>,
        position: (u32, u32),
        kind: &'static str,
        field: &Field<'_>,
        shown: Option<&str>,
    ) -> Result<(), Stop> {
        let buffer = &mut *out.buffer;
        push_listed_cell(
            *self,
            &mut buffer.cells,
            &mut buffer.room,
            position,
            kind,
            field,
            shown,
            &mut buffer.text,
        )?;
        out.pass()
    }
}
