//! The values that a range may have in its cells.

ghost use Rattle.std.specs.Prelude.{◌≡◌, ◌==◌, Bool, true, IsTrue, IfOk};
ghost use Rattle.std.specs.String.{string_bytes};
ghost use Rattle.std.proofs.Common.{rules};
ghost use Rattle.xls_data.specs.Blank.{is_nil, nil_exactly};

use std::alloc::{AllocError, Global};

/// A type of cells. Two values are equal where `==` says so.
pub trait CellType: Eq + Drop + Sized {
    /// Whether a value is blank.
    ghost blank_test: { Self → Bool };

    /// The blank. It takes no memory.
    fn blank(alloc: Global) -> Self
        ensures { IsTrue (blank_test result) };

    /// Whether it is the blank.
    fn is_blank(&self) -> bool
        ensures { result ≡ blank_test self.now };

    /// A value equal to this one.
    fn try_copy(&self, alloc: Global) -> Result<Self, AllocError>
        ensures { IfOk result (λ copy. IsTrue (Self.eq self.now copy)) };

    /// A value is blank exactly where it equals a blank one.
    ghost blank_exactly: { (x y : Self) → blank_test x ≡ true → blank_test y ≡ Self.eq x y };
}

impl CellType for usize {
    ghost blank_test = { λ n. n == 0 };

    fn blank(_alloc: Global) -> usize {
        0
    }

    fn is_blank(&self) -> bool {
        *self == 0
    }

    fn try_copy(&self, _alloc: Global) -> Result<usize, AllocError> {
        Ok(*self)
    }

    ghost blank_exactly = { Prim.search rules };
}

impl CellType for String {
    ghost blank_test = { λ s. is_nil (string_bytes s) };

    fn blank(alloc: Global) -> String {
        String::new(alloc)
    }

    fn is_blank(&self) -> bool {
        self.is_empty()
    }

    fn try_copy(&self, alloc: Global) -> Result<String, AllocError> {
        String::from_str(alloc, self.as_str())
    }

    ghost blank_exactly = { λ x y e. nil_exactly (string_bytes x) (string_bytes y) e };
}
