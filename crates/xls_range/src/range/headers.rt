//! The printed texts of the first row.

use crate::range::Range;
use std::alloc::{AllocError, Global};
use std::fmt::Display;
use xls_data::CellType;

impl<T: CellType + Display> Range<T> {
    ghost use Rattle.std.specs.Prelude.{◌≡◌, ◌<◌, IfOk, IfSome, MatchOption};
    ghost use Rattle.std.specs.List.{AllZip};
    ghost use Rattle.xls_range.specs.Grid.{no_cells, row_at};
    ghost use Rattle.xls_range.specs.Headers.{Prints};

    /// The printed texts of the first row; `None` exactly where there are no cells.
    pub fn headers(&self, alloc: Global) -> Result<Option<Vec<String>>, AllocError>
        ensures none { IfOk result (λ o.
            MatchOption o (self.now ≡ no_cells) (λ _. 0 < self.now.height)) }
        ensures some { IfOk result (λ o. IfSome o (λ v.
            AllZip (Prints T.output) (row_at self.now 0) v.items)) }
    {
        if self.rows == 0 {
            return Ok(None);
        }
        let first = self.row(0);
        let mut headers = Vec::with_capacity(alloc, first.len())?;
        for cell in first {
            headers.push(cell.to_string(alloc)?)?;
        }
        Ok(Some(headers))
    }
}
