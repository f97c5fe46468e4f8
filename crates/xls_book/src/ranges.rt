//! The ranges of a sheet.

ghost use Rattle.std.specs.Prelude.{◌≡◌, ◌++◌, ◌∷◌, [], map, length, IfOk, OnOk};
ghost use Rattle.std.specs.List.{AllByRecursion};
ghost use Rattle.std.specs.String.{string_bytes};
ghost use Rattle.xls_data.specs.Sheets.{sheet_content};
ghost use Rattle.xls_data.specs.Data.{is_nothing};
ghost use Rattle.xls_book.specs.LookUps.{AreWorksheets, IsBox, IsCut, IsRangeOf, IsTextBox, Worksheet, is_empty_text};
ghost use Rattle.xls_open.specs.Workbook.{IsOrdered};
ghost use Rattle.xls_meaning.specs.Reading.{last_named, paired};
ghost use Rattle.xls_view.specs.Index.{IsIndex};

use crate::collect::Content;
use std::alloc::{AllocError, Global};
use std::collections::BTreeMap;
use xls_data::{Data, HeaderRow, Sheet};
use xls_range::Range;

/// The smallest box with a sheet's cells, and blanks elsewhere. A box of 2^64 cells or more doesn't fit
/// into any memory.
pub(crate) fn box_of(alloc: Global, content: &Content) -> Result<Range<Data>, AllocError>
    requires { IsOrdered content.now }
    ensures { IfOk result (λ range. IsBox ⟦<Data as PartialEq>⟧.eq is_nothing content.now.cells range) }
{
    Range::from_sorted(alloc, &content.cells).map_err(|_| AllocError)
}

/// The smallest box with the texts of a sheet's formulas, and empty texts elsewhere.
pub(crate) fn text_box_of(alloc: Global, content: &Content) -> Result<Range<String>, AllocError>
    requires { IsOrdered content.now }
    ensures { IfOk result (λ range. IsTextBox ⟦<String as PartialEq>⟧.eq is_empty_text content.now.formulas range) }
{
    Range::from_sorted(alloc, &content.formulas).map_err(|_| AllocError)
}

/// The box from a row to its end, with the same columns.
fn cut(alloc: Global, whole: &Range<Data>, row: u32) -> Result<Range<Data>, AllocError>
    ensures { IfOk result (λ range. IsCut ⟦<Data as PartialEq>⟧.eq is_nothing row whole.now range) }
{
    match (whole.start(), whole.end()) {
        (Some(start), Some(end)) if row <= end.0 => whole
            .range(alloc, (row, start.1), end)
            .map_err(|_| AllocError),
        _ => Ok(Range::empty(alloc)),
    }
}

/// The range of a sheet under a header row.
pub(crate) fn range_of(
    alloc: Global,
    content: &Content,
    header: HeaderRow,
) -> Result<Range<Data>, AllocError>
    requires { IsOrdered content.now }
    ensures { IfOk result (λ range. IsRangeOf ⟦<Data as PartialEq>⟧.eq is_nothing header content.now.cells range) }
{
    let whole = box_of(alloc, content)?;
    match header {
        HeaderRow::FirstNonEmptyRow => Ok(whole),
        HeaderRow::Row(row) => cut(alloc, &whole, row),
    }
}

/// Puts a name and the box of a sheet's cells at the end.
fn push_worksheet(
    alloc: Global,
    list: &mut Vec<(String, Range<Data>)>,
    name: &str,
    content: &Content,
) -> Result<(), AllocError>
    requires { IsOrdered content.now }
    ensures { OnOk result ((w : Worksheet) × (list.new.items ≡ list.old.items ++ w ∷ [])
        × (string_bytes w.0 ≡ name.now) × IsBox ⟦<Data as PartialEq>⟧.eq is_nothing content.now.cells w.1) }
{
    let range = box_of(alloc, content)?;
    let name = String::from_str(alloc, name)?;
    list.push((name, range))?;
    Ok(())
}

/// Each name of these sheets once, in byte order, with the box of the cells of its last sheet.
pub(crate) fn list_worksheets(
    alloc: Global,
    sheets: &[Sheet],
    contents: &[Content],
    index: &BTreeMap<String, usize>,
) -> Result<Vec<(String, Range<Data>)>, AllocError>
    requires index { IsIndex index.now sheets.now }
    requires each { length contents.now ≡ length sheets.now }
    requires ordered { AllByRecursion IsOrdered contents.now }
    ensures { IfOk result (λ list. AreWorksheets ⟦<Data as PartialEq>⟧.eq is_nothing
        (last_named (paired (map sheet_content sheets.now) contents.now)) (map sheet_content sheets.now) list.items) }
{
    let mut list = Vec::new(alloc);
    for (name, place) in index.iter() {
        if let Some(content) = contents.get(*place) {
            push_worksheet(alloc, &mut list, name.as_str(), content)?;
        }
    }
    Ok(list)
}
