//! One walk over a box of cells, for every form of its fields.

ghost use Rattle.std.specs.Prelude.{◌≡◌, ◌≤◌, ◌^◌, ◌+◌, ◌-◌, ◌==◌, ◌∷◌, ◌++◌, [], length, IfOk, OnOk};
ghost use Rattle.xls_output.specs.Added.{AddsText};
ghost use Rattle.xls_output.specs.Each.{PutsEach};
ghost use Rattle.xls_output.specs.Output.{output_of};
ghost use Rattle.xls_csv.specs.Boxes.{IsSeparated, PutsBox, lent_view, row_end};
ghost use Rattle.xls_csv.specs.Steps.{PutsFields};
ghost use Rattle.xls_csv.specs.Walk.{left_over, no_cell, row_over, take_at, value_in, walk_box};

use crate::ahead::Ahead;
use crate::extent::Extent;
use std::alloc::AllocError;
use xls_cell_formats::CellFormats;
use xls_output::{Gathers, Sink, Stop, Writer};
use xls_view::SheetCell;

/// A buffer that gathers the fields of a box.
pub trait BoxBuffer: Gathers {
    ghost use Rattle.std.specs.Prelude.{◌≡◌, ◌∷◌, ◌++◌, [], Option, OnOk};
    ghost use Rattle.xls_output.specs.Added.{AddsText};
    ghost use Rattle.xls_csv.specs.Boxes.{FieldForm, lent_view};
    ghost use Rattle.xls_view.specs.Viewing.{Viewed};
    ghost use Rattle.xls_csv.specs.Walk.{value_in};

    /// What the fields may look like.
    type Form: Copy;

    /// What stands between two fields in a form, and which text is the field of what a cell shows, where these are the
    /// formats of the workbook's cells.
    ghost fields: { Self.Form → Option Viewed → FieldForm };

    /// Appends what stands between two fields.
    fn push_delimiter(
        &mut self,
        form: Self::Form,
        formats: Option<&CellFormats<'_>>,
    ) -> Result<(), AllocError>
        ensures { OnOk result (Self.kept self.new ≡ Self.kept self.old ++ (fields form (lent_view formats.entry)).delimiter ∷ []) };

    /// Appends the field of a cell, or that of a place where none stands.
    fn push_field(
        &mut self,
        form: Self::Form,
        formats: Option<&CellFormats<'_>>,
        cell: Option<SheetCell<'_>>,
    ) -> Result<(), AllocError>
        ensures { OnOk result (AddsText ((fields form (lent_view formats.entry)).IsField (value_in cell.entry))
            (Self.kept self.old) (Self.kept self.new)) };

    /// Appends a text as it is.
    fn push_str(&mut self, text: &str) -> Result<(), AllocError>
        ensures { OnOk result (Self.kept self.new ≡ Self.kept self.old ++ text.now) };
}

/// Appends the first field of a row, and tells whether that is no byte.
#[inline(always)]
pub(crate) fn push_first<B: BoxBuffer>(
    buffer: &mut B,
    form: B::Form,
    formats: Option<&CellFormats<'_>>,
    cell: Option<SheetCell<'_>>,
) -> Result<bool, AllocError>
    ensures { IfOk result (λ is_empty. AddsText
        (λ field. (B.fields form (lent_view formats.entry)).IsField (value_in cell.entry) field × (is_empty ≡ (length field == 0)))
        (B.kept buffer.old) (B.kept buffer.new)) }
{
    let before = buffer.bytes().len();
    buffer.push_field(form, formats, cell)?;
    Ok(buffer.bytes().len() == before)
}

/// Puts the field at a place after a delimiter.
#[inline(always)]
fn put_separated<K: Sink, B: BoxBuffer>(
    out: &mut Writer<'_, K, B>,
    cells: &mut Ahead<'_>,
    form: B::Form,
    formats: Option<&CellFormats<'_>>,
    row: u64,
    column: u64,
) -> Result<(), Stop>
    ensures puts { PutsEach (IsSeparated (B.fields form (lent_view formats.entry))) ((take_at no_cell row column cells.old).0 ∷ [])
        (output_of K.state B.kept out.old) (output_of K.state B.kept out.new) result }
    ensures cells { OnOk result (cells.new ≡ (take_at no_cell row column cells.old).1) }
{
    out.buffer.push_delimiter(form, formats)?;
    out.buffer
        .push_field(form, formats, cells.take_at(row, column))?;
    out.pass()
}

/// Puts the fields of a row after its first, each after a delimiter.
fn put_others<K: Sink, B: BoxBuffer>(
    out: &mut Writer<'_, K, B>,
    cells: &mut Ahead<'_>,
    form: B::Form,
    formats: Option<&CellFormats<'_>>,
    extent: Extent,
    row: u64,
) -> Result<(), Stop>
    requires { extent.left + extent.width ≤ 2 ^ 32 }
    ensures puts { PutsEach (IsSeparated (B.fields form (lent_view formats.entry)))
        (row_over no_cell row (extent.left + 1) (extent.width - 1) cells.old)
        (output_of K.state B.kept out.old) (output_of K.state B.kept out.new) result }
    ensures cells { OnOk result (cells.new ≡ left_over no_cell row (extent.left + 1) (extent.width - 1) cells.old) }
{
    for column in extent.left + 1..extent.left + extent.width {
        put_separated(out, cells, form, formats, row, column)?;
    }
    Ok(())
}

/// Puts the fields of a row, and tells whether they are no byte.
fn put_fields<K: Sink, B: BoxBuffer>(
    out: &mut Writer<'_, K, B>,
    cells: &mut Ahead<'_>,
    form: B::Form,
    formats: Option<&CellFormats<'_>>,
    extent: Extent,
    row: u64,
) -> Result<bool, Stop>
    requires { extent.left + extent.width ≤ 2 ^ 32 }
    ensures puts { PutsFields (B.fields form (lent_view formats.entry)) (row_over no_cell row extent.left extent.width cells.old)
        (output_of K.state B.kept out.old) (output_of K.state B.kept out.new) result }
    ensures cells { OnOk result (cells.new ≡ left_over no_cell row extent.left extent.width cells.old) }
{
    if extent.width == 0 {
        return Ok(true);
    }
    let is_empty = push_first(out.buffer, form, formats, cells.take_at(row, extent.left))?;
    out.pass()?;
    put_others(out, cells, form, formats, extent, row)?;
    Ok(is_empty && extent.width == 1)
}

/// Appends the end of a row. A row without a byte has two quotes before it.
pub(crate) fn push_end<B: BoxBuffer>(buffer: &mut B, is_bare: bool) -> Result<(), AllocError>
    ensures { OnOk result (B.kept buffer.new ≡ B.kept buffer.old ++ row_end is_bare) }
{
    if is_bare {
        return buffer.push_str("\"\"\n");
    }
    buffer.push_str("\n")
}

/// Puts a row.
fn put_row<K: Sink, B: BoxBuffer>(
    out: &mut Writer<'_, K, B>,
    cells: &mut Ahead<'_>,
    form: B::Form,
    formats: Option<&CellFormats<'_>>,
    extent: Extent,
    row: u64,
) -> Result<(), Stop>
    requires { extent.left + extent.width ≤ 2 ^ 32 }
    ensures puts { PutsBox (B.fields form (lent_view formats.entry)) (row_over no_cell row extent.left extent.width cells.old ∷ [])
        (output_of K.state B.kept out.old) (output_of K.state B.kept out.new) result }
    ensures cells { OnOk result (cells.new ≡ left_over no_cell row extent.left extent.width cells.old) }
{
    let is_bare = put_fields(out, cells, form, formats, extent, row)?;
    push_end(out.buffer, is_bare)?;
    Ok(())
}

/// Puts a box row by row, in this form of its fields: each cell in its place, and an empty field where none
/// stands. The fields may hang on the formats of the workbook's cells. At most 64 KiB, one field and a row's end are
/// gathered; neither the box nor a row is ever made.
pub fn put_box<K: Sink, B: BoxBuffer>(
    out: &mut Writer<'_, K, B>,
    mut cells: Ahead<'_>,
    extent: Extent,
    form: B::Form,
    formats: Option<&CellFormats<'_>>,
) -> Result<(), Stop>
    requires rows { extent.top + extent.height ≤ 2 ^ 32 }
    requires columns { extent.left + extent.width ≤ 2 ^ 32 }
    ensures { PutsBox (B.fields form (lent_view formats.entry)) (walk_box no_cell extent cells.entry)
        (output_of K.state B.kept out.old) (output_of K.state B.kept out.new) result }
{
    for i in 0..extent.height {
        put_row(out, &mut cells, form, formats, extent, extent.top + i)?;
    }
    Ok(())
}
