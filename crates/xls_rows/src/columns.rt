//! The columns of a range by their headers.

ghost use Rattle.std.specs.Prelude.{◌≡◌, ◌<◌, map, length, All, IfOk, IfSome};
ghost use Rattle.std.specs.String.{string_bytes};
ghost use Rattle.std.specs.Str.{trim};
ghost use Rattle.xls_rows.specs.Refusals.{Gives, Refuses, no_header};
ghost use Rattle.xls_rows.specs.Readers.{text_read};
ghost use Rattle.xls_rows.specs.Rows.{all_read};
ghost use Rattle.xls_rows.specs.Columns.{numbers_from, column_of, wanted_column, columns_of};

use crate::{DeError, ReadCell};
use std::alloc::Global;

// The indexes of so many columns.
#[tactic(auto, using(crate::proofs::ColumnLemmas::numbers_more, crate::proofs::ColumnLemmas::numbers_below))]
pub(crate) fn all_columns(alloc: Global, width: usize) -> Result<Vec<usize>, DeError>
    ensures value { Gives (λ v. v.items) result (Ok (numbers_from 0 width)) }
    ensures below { IfOk result (λ v. All (λ k. k < width) v.items) }
{
    let mut indexes = Vec::new(alloc);
    for i in 0..width {
        if indexes.push(i).is_err() {
            return Err(DeError::Memory);
        }
    }
    Ok(indexes)
}

// The printed texts of cells.
pub(crate) fn texts_of<T: ReadCell>(
    alloc: Global,
    cells: &[T],
    pos: (u32, u32),
) -> Result<Vec<String>, DeError>
    ensures value { Gives (λ v. map string_bytes v.items) result
        (all_read (text_read pos) (map T.content cells.now)) }
    ensures len { IfOk result (λ v. length v.items ≡ length cells.now) }
{
    let mut texts = Vec::new(alloc);
    for cell in cells {
        match cell.read_text(alloc, pos) {
            Ok(text) => {
                if texts.push(text).is_err() {
                    return Err(DeError::Memory);
                }
            }
            Err(refusal) => return Err(refusal),
        }
    }
    Ok(texts)
}

// The first column with a header, trimmed.
fn column_with(headers: &[String], name: &str) -> Option<usize>
    ensures value { result ≡ column_of (map string_bytes headers.now) name.now }
    ensures below { IfSome result (λ i. i < length headers.now) }
{
    for (i, header) in headers.iter().enumerate() {
        if header.as_str().trim() == name {
            return Some(i);
        }
    }
    None
}

// The refusal of a header that is in no column.
fn missing(alloc: Global, name: &str) -> DeError
    ensures { Refuses (no_header name.now) result }
{
    match String::from_str(alloc, name) {
        Ok(name) => DeError::HeaderNotFound(name),
        Err(_) => DeError::Memory,
    }
}

// The column with a wanted header.
fn wanted_column(alloc: Global, headers: &[String], name: &str) -> Result<usize, DeError>
    ensures value { Gives (λ i. i) result (wanted_column (map string_bytes headers.now) name.now) }
    ensures below { IfOk result (λ i. i < length headers.now) }
{
    let name = name.trim();
    match column_with(headers, name) {
        Some(i) => Ok(i),
        None => Err(missing(alloc, name)),
    }
}

// The columns with wanted headers.
pub(crate) fn columns_with(
    alloc: Global,
    headers: &[String],
    names: &[String],
) -> Result<Vec<usize>, DeError>
    ensures value { Gives (λ v. v.items) result
        (columns_of (map string_bytes headers.now) (map string_bytes names.now)) }
    ensures below { IfOk result (λ v. All (λ k. k < length headers.now) v.items) }
{
    let mut indexes = Vec::new(alloc);
    for name in names {
        match wanted_column(alloc, headers, name.as_str()) {
            Ok(i) => {
                if indexes.push(i).is_err() {
                    return Err(DeError::Memory);
                }
            }
            Err(e) => return Err(e),
        }
    }
    Ok(indexes)
}
