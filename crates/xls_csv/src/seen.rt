//! One walk over a box of which some rows and columns can't be seen, for every form of its fields.

ghost use Rattle.std.specs.Prelude.{◌≡◌, ◌≤◌, ◌^◌, ◌+◌, ◌==◌, ◌∷◌, [], length, IfOk, OnOk};
ghost use Rattle.xls_output.specs.Added.{AddsText};
ghost use Rattle.xls_output.specs.Output.{output_of};
ghost use Rattle.xls_csv.specs.Boxes.{PutsBox, lent_view};
ghost use Rattle.xls_csv.specs.Seen.{seen_in};
ghost use Rattle.std.specs.Option.{option_copied};
ghost use Rattle.xls_csv.specs.Steps.{IsNextField, PutsFields, PutsNext};
ghost use Rattle.xls_csv.specs.Walk.{left_over, no_cell, row_over, value_in, walk_box};
ghost use Rattle.xls_hidden_cells.specs.Seen.{seen_from, seen_rows};

use crate::ahead::Ahead;
use crate::boxes::{BoxBuffer, push_end, push_first, put_box};
use crate::extent::Extent;
use std::alloc::AllocError;
use xls_cell_formats::CellFormats;
use xls_hidden::HiddenSheet;
use xls_hidden_cells::{is_column_hidden, is_row_hidden};
use xls_output::{Sink, Stop, Writer};
use xls_view::SheetCell;

/// Appends the next field of a row, after a delimiter where it isn't the first, and tells whether that is no byte.
#[inline(always)]
fn push_next<B: BoxBuffer>(
    buffer: &mut B,
    form: B::Form,
    formats: Option<&CellFormats<'_>>,
    cell: Option<SheetCell<'_>>,
    is_first: bool,
) -> Result<bool, AllocError>
    ensures { IfOk result (λ is_empty. AddsText
        (λ text. IsNextField (B.fields form (lent_view formats.entry)) is_first (value_in cell.entry) text
        × (is_empty ≡ (length text == 0)))
        (B.kept buffer.old) (B.kept buffer.new)) }
{
    if is_first {
        return push_first(buffer, form, formats, cell);
    }
    buffer.push_delimiter(form, formats)?;
    buffer.push_field(form, formats, cell)?;
    Ok(false)
}

/// Puts the next field of a row, and tells whether that is no byte.
#[inline(always)]
fn put_next<K: Sink, B: BoxBuffer>(
    out: &mut Writer<'_, K, B>,
    form: B::Form,
    formats: Option<&CellFormats<'_>>,
    cell: Option<SheetCell<'_>>,
    is_first: bool,
) -> Result<bool, Stop>
    ensures { PutsNext (B.fields form (lent_view formats.entry)) is_first (value_in cell.entry)
        (output_of K.state B.kept out.old) (output_of K.state B.kept out.new) result }
{
    let is_empty = push_next(out.buffer, form, formats, cell, is_first)?;
    out.pass()?;
    Ok(is_empty)
}

/// Puts the fields of a row that can be seen, and tells whether they are no byte.
fn put_seen_fields<K: Sink, B: BoxBuffer>(
    out: &mut Writer<'_, K, B>,
    cells: &mut Ahead<'_>,
    form: B::Form,
    formats: Option<&CellFormats<'_>>,
    extent: Extent,
    row: u64,
    hidden: &HiddenSheet<'_>,
) -> Result<bool, Stop>
    requires { extent.left + extent.width ≤ 2 ^ 32 }
    ensures puts { PutsFields (B.fields form (lent_view formats.entry))
        (seen_from hidden.now.columns extent.left (row_over no_cell row extent.left extent.width cells.old))
        (output_of K.state B.kept out.old) (output_of K.state B.kept out.new) result }
    ensures cells { OnOk result (cells.new ≡ left_over no_cell row extent.left extent.width cells.old) }
{
    let mut is_first = true;
    let mut is_bare = true;
    for column in extent.left..extent.left + extent.width {
        let cell = cells.take_at(row, column);
        if !is_column_hidden(hidden, column as u32) {
            let is_empty = put_next(out, form, formats, cell, is_first)?;
            is_bare &= is_empty;
            is_first = false;
        }
    }
    Ok(is_bare)
}

/// Puts a row that can be seen.
fn put_seen_row<K: Sink, B: BoxBuffer>(
    out: &mut Writer<'_, K, B>,
    cells: &mut Ahead<'_>,
    form: B::Form,
    formats: Option<&CellFormats<'_>>,
    extent: Extent,
    row: u64,
    hidden: &HiddenSheet<'_>,
) -> Result<(), Stop>
    requires { extent.left + extent.width ≤ 2 ^ 32 }
    ensures puts { PutsBox (B.fields form (lent_view formats.entry))
        (seen_from hidden.now.columns extent.left (row_over no_cell row extent.left extent.width cells.old) ∷ [])
        (output_of K.state B.kept out.old) (output_of K.state B.kept out.new) result }
    ensures cells { OnOk result (cells.new ≡ left_over no_cell row extent.left extent.width cells.old) }
{
    let is_bare = put_seen_fields(out, cells, form, formats, extent, row, hidden)?;
    push_end(out.buffer, is_bare)?;
    Ok(())
}

/// Passes over the cells of a row that can't be seen.
fn skip_row(cells: &mut Ahead<'_>, extent: Extent, row: u64)
    requires { extent.left + extent.width ≤ 2 ^ 32 }
    ensures { cells.new ≡ left_over no_cell row extent.left extent.width cells.old }
{
    for column in extent.left..extent.left + extent.width {
        cells.take_at(row, column);
    }
}

/// Puts the rows of a box that can be seen, each without the fields of columns that can't.
fn put_seen_rows<K: Sink, B: BoxBuffer>(
    out: &mut Writer<'_, K, B>,
    mut cells: Ahead<'_>,
    extent: Extent,
    form: B::Form,
    formats: Option<&CellFormats<'_>>,
    hidden: &HiddenSheet<'_>,
) -> Result<(), Stop>
    requires rows { extent.top + extent.height ≤ 2 ^ 32 }
    requires columns { extent.left + extent.width ≤ 2 ^ 32 }
    ensures { PutsBox (B.fields form (lent_view formats.entry))
        (seen_rows hidden.now extent.top extent.left (walk_box no_cell extent cells.entry))
        (output_of K.state B.kept out.old) (output_of K.state B.kept out.new) result }
{
    for i in 0..extent.height {
        let row = extent.top + i;
        if is_row_hidden(hidden, row as u32) {
            skip_row(&mut cells, extent, row);
        } else {
            put_seen_row(out, &mut cells, form, formats, extent, row, hidden)?;
        }
    }
    Ok(())
}

/// Puts a box as `put_box` does; where what is hidden in the sheet is given, only the rows that can be seen, each without
/// the fields of columns that can't.
pub fn put_seen_box<K: Sink, B: BoxBuffer>(
    out: &mut Writer<'_, K, B>,
    cells: Ahead<'_>,
    extent: Extent,
    form: B::Form,
    formats: Option<&CellFormats<'_>>,
    hidden: Option<&HiddenSheet<'_>>,
) -> Result<(), Stop>
    requires rows { extent.top + extent.height ≤ 2 ^ 32 }
    requires columns { extent.left + extent.width ≤ 2 ^ 32 }
    ensures { PutsBox (B.fields form (lent_view formats.entry))
        (seen_in (option_copied hidden.entry) extent (walk_box no_cell extent cells.entry))
        (output_of K.state B.kept out.old) (output_of K.state B.kept out.new) result }
{
    match hidden {
        Some(hidden) => put_seen_rows(out, cells, extent, form, formats, hidden),
        None => put_box(out, cells, extent, form, formats),
    }
}
