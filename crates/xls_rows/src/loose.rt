//! Cells as whole numbers where they can be taken for one.

ghost use Rattle.std.specs.Prelude.{IfOk};
ghost use Rattle.xls_rows.specs.Loose.{IsLooseWhole, IsWholeElseText};

use crate::{DeError, ReadCell};
use std::alloc::{AllocError, Global};
use xls_data::DataType;

/// The whole number that a cell is taken for: a whole number, a number or date cut toward zero, 0
/// or 1 for a truth value, or the whole number that a text is read as. None for every other cell.
pub fn deserialize_as_i64_or_none<T: ReadCell>(
    alloc: Global,
    cell: &T,
) -> Result<Option<i64>, AllocError>
    ensures { IfOk result (λ o. IsLooseWhole (T.content cell.now) o) }
{
    match cell.read_data(alloc, (0, 0)) {
        Ok(copy) => Ok(copy.as_i64()),
        Err(DeError::Memory) => Err(AllocError),
        Err(_) => Ok(None),
    }
}

/// That whole number, or the printed text where there is none.
pub fn deserialize_as_i64_or_string<T: ReadCell>(
    alloc: Global,
    cell: &T,
) -> Result<Result<i64, String>, AllocError>
    ensures { IfOk result (λ r. IsWholeElseText (T.content cell.now) r) }
{
    if let Some(n) = deserialize_as_i64_or_none(alloc, cell)? {
        return Ok(Ok(n));
    }
    match cell.read_text(alloc, (0, 0)) {
        Ok(text) => Ok(Err(text)),
        Err(DeError::CellError { err, .. }) => Ok(Err(err.to_string(alloc)?)),
        Err(_) => Err(AllocError),
    }
}
