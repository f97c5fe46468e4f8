//! Lists of cells.

ghost use Rattle.std.specs.Prelude.{◌≡◌, ◌+◌, ◌*◌, ◌^◌, ◌<◌, ◌≤◌, ◌↔◌, IfOk, IsErrOf, OnOk, OnErr, option_copied, slice_get};
ghost use Rattle.xls_range.specs.Grid.{AreBlank, AddsBlanks, IsDisordered, AreOrderedCorners, count_between};

use crate::error::RangeError;
use std::alloc::{AllocError, Global};
use xls_data::CellType;

/// The height and the width of the box between two corners, both included.
pub fn box_size(start: (u32, u32), end: (u32, u32)) -> Result<(usize, usize), RangeError>
    ensures bounds { IsErrOf result RangeError.Bounds ↔ IsDisordered start end }
    ensures too_large { IsErrOf result RangeError.TooLarge
        ↔ (AreOrderedCorners start end × (2 ^ 64 ≤ count_between start end)) }
    ensures memory { ¬ IsErrOf result RangeError.Memory }
    ensures height { IfOk result (λ size. size.0 + start.0 ≡ end.0 + 1) }
    ensures width { IfOk result (λ size. size.1 + start.1 ≡ end.1 + 1) }
    ensures some { IfOk result (λ size. (0 < size.0) × (0 < size.1)) }
    ensures fits { IfOk result (λ size. size.0 * size.1 < 2 ^ 64) }
{
    if end.0 < start.0 || end.1 < start.1 {
        return Err(RangeError::Bounds);
    }
    let rows = (end.0 - start.0) as usize + 1;
    let columns = (end.1 - start.1) as usize + 1;
    match rows.checked_mul(columns) {
        Some(_) => Ok((rows, columns)),
        None => Err(RangeError::TooLarge),
    }
}

/// So many blanks, by one request for memory.
pub fn blanks<T: CellType>(alloc: Global, count: usize) -> Result<Vec<T>, AllocError>
    ensures { IfOk result (λ cells. AreBlank T.blank_test count cells.items) }
{
    let mut cells = Vec::with_capacity(alloc, count)?;
    for _i in 0..count {
        cells.push(T::blank(alloc))?;
    }
    Ok(cells)
}

/// Adds so many blanks at the end, or none where memory runs out. The room grows by doubling.
pub fn push_blanks<T: CellType>(cells: &mut Vec<T>, count: usize) -> Result<(), AllocError>
    ensures ok { OnOk result (AddsBlanks T.blank_test count cells.old.items cells.new.items) }
    ensures err { OnErr result (cells.new.items ≡ cells.old.items) }
{
    cells.reserve(count)?;
    let before = cells.len();
    for _i in 0..count {
        let blank = T::blank(*cells.allocator());
        if cells.push(blank).is_err() {
            cells.truncate(before);
            return Err(AllocError);
        }
    }
    Ok(())
}

/// The cell at an index.
pub fn cell_of<T>(cells: &[T], i: usize) -> Option<&T>
    ensures { option_copied result ≡ slice_get cells.now i }
{
    cells.get(i)
}
