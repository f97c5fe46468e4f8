//! The place of a cell, for parts whose records don't ascend.

ghost use Rattle.std.specs.Prelude.{◌==◌, ◌&&◌};
ghost use Rattle.std.proofs.Common.{rules};

use std::alloc::{AllocError, Global};
use xls_data::CellType;

/// Where the record of a cell begins in its part, and the XF index of the cell.
#[derive(Clone, Copy, PartialEq, Eq)]
pub(crate) struct CellPlace {
    pub(crate) offset: usize,
    pub(crate) xf: u16,
}

impl CellType for CellPlace {
    ghost blank_test = { λ p. p.offset == 0 && p.xf == 0 };

    fn blank(_alloc: Global) -> CellPlace {
        CellPlace { offset: 0, xf: 0 }
    }

    fn is_blank(&self) -> bool {
        self.offset == 0 && self.xf == 0
    }

    fn try_copy(&self, _alloc: Global) -> Result<CellPlace, AllocError> {
        Ok(*self)
    }

    ghost blank_exactly = { Prim.search rules };
}
