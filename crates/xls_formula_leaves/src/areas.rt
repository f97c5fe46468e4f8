//! Cells and areas.

ghost use Rattle.std.specs.Prelude.{◌≡◌, [], ◌∷◌, ◌++◌, OnOk, OnErr, codes};
ghost use Rattle.std.specs.Str.{chars};
ghost use Rattle.std.specs.String.{string_bytes};
ghost use Rattle.xls_bytes.specs.Growth.{IsGrown};
ghost use Rattle.xls_strings.specs.Texts.{text_of};
ghost use Rattle.xls_formula.specs.Tree.{dollar};
ghost use Rattle.xls_formula_leaves.specs.Cells.{area_text, cell_text, column_text, has_all_columns, has_all_rows, range_text, row_text};

use crate::appends::{append_decimal, append_letters, append_text};
use crate::places::row_count;
use std::alloc::AllocError;
use xls_ptg::Corner;
use xls_record::Biff;

#[tactic(auto, unfolding(std::specs::Prelude::chars))]
fn dollar(is_relative: bool) -> &'static str
    ensures { chars result.now ≡ dollar is_relative }
{
    if is_relative { "" } else { "$" }
}

fn append_column(corner: Corner, out: &mut String) -> Result<(), AllocError>
    ensures ok { OnOk result (text_of out.new ≡ text_of out.old ++ column_text corner) }
    ensures grown { IsGrown (string_bytes out.old) (string_bytes out.new) }
{
    append_text(dollar(corner.is_column_relative), out)?;
    append_letters(u32::from(corner.column), out)
}

fn append_row(corner: Corner, out: &mut String) -> Result<(), AllocError>
    ensures ok { OnOk result (text_of out.new ≡ text_of out.old ++ row_text corner) }
    ensures grown { IsGrown (string_bytes out.old) (string_bytes out.new) }
{
    append_text(dollar(corner.is_row_relative), out)?;
    append_decimal(u32::from(corner.row) + 1, out)
}

fn append_cell(corner: Corner, out: &mut String) -> Result<(), AllocError>
    ensures ok { OnOk result (text_of out.new ≡ text_of out.old ++ cell_text corner) }
    ensures grown { IsGrown (string_bytes out.old) (string_bytes out.new) }
{
    append_column(corner, out)?;
    append_row(corner, out)
}

#[tactic(auto, unfolding(std::specs::Prelude::chars))]
fn append_colon(out: &mut String) -> Result<(), AllocError>
    ensures ok { OnOk result (text_of out.new ≡ text_of out.old ++ codes ":") }
    ensures grown { IsGrown (string_bytes out.old) (string_bytes out.new) }
{
    append_text(":", out)
}

fn append_rows(first: Corner, last: Corner, out: &mut String) -> Result<(), AllocError>
    ensures ok { OnOk result (text_of out.new ≡ text_of out.old ++ range_text row_text first last) }
    ensures grown { IsGrown (string_bytes out.old) (string_bytes out.new) }
{
    append_row(first, out)?;
    append_colon(out)?;
    append_row(last, out)
}

fn append_columns(first: Corner, last: Corner, out: &mut String) -> Result<(), AllocError>
    ensures ok { OnOk result (text_of out.new ≡ text_of out.old ++ range_text column_text first last) }
    ensures grown { IsGrown (string_bytes out.old) (string_bytes out.new) }
{
    append_column(first, out)?;
    append_colon(out)?;
    append_column(last, out)
}

fn append_cells(first: Corner, last: Corner, out: &mut String) -> Result<(), AllocError>
    ensures ok { OnOk result (text_of out.new ≡ text_of out.old ++ range_text cell_text first last) }
    ensures grown { IsGrown (string_bytes out.old) (string_bytes out.new) }
{
    append_cell(first, out)?;
    append_colon(out)?;
    append_cell(last, out)
}

fn has_all_columns(first: Corner, last: Corner) -> bool
    ensures { result ≡ has_all_columns first last }
{
    first.column == 0 && last.column == 0xFF
}

fn has_all_rows(biff: Biff, first: Corner, last: Corner) -> bool
    ensures { result ≡ has_all_rows biff first last }
{
    first.row == 0 && u32::from(last.row) == row_count(biff) - 1
}

fn append_area(biff: Biff, first: Corner, last: Corner, out: &mut String) -> Result<(), AllocError>
    ensures ok { OnOk result (text_of out.new ≡ text_of out.old ++ area_text biff first last) }
    ensures grown { IsGrown (string_bytes out.old) (string_bytes out.new) }
{
    if has_all_columns(first, last) {
        append_rows(first, last, out)
    } else if has_all_rows(biff, first, last) {
        append_columns(first, last, out)
    } else {
        append_cells(first, last, out)
    }
}

/// Appends a cell, `$` before a column and a row that aren't relative: `A$1`. The letters of columns go on behind `IV`. Only running
/// out of memory refuses, and then `out` is as it was.
pub fn push_cell(corner: Corner, out: &mut String) -> Result<(), AllocError>
    ensures ok { OnOk result (text_of out.new ≡ text_of out.old ++ cell_text corner) }
    ensures err { OnErr result (string_bytes out.new ≡ string_bytes out.old) }
{
    let before = out.len();
    let done = append_cell(corner, out);
    if done.is_err() {
        out.truncate(before);
    }
    done
}

/// Appends an area by its corners as they are, `A1:$B$2`; one over all columns by its rows, `1:$3`, or else one over all rows by its
/// columns, `A:C`. Only running out of memory refuses, and then `out` is as it was.
pub fn push_area(
    biff: Biff,
    first: Corner,
    last: Corner,
    out: &mut String,
) -> Result<(), AllocError>
    ensures ok { OnOk result (text_of out.new ≡ text_of out.old ++ area_text biff first last) }
    ensures err { OnErr result (string_bytes out.new ≡ string_bytes out.old) }
{
    let before = out.len();
    let done = append_area(biff, first, last, out);
    if done.is_err() {
        out.truncate(before);
    }
    done
}
