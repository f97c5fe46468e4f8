//! Laws of the definitions.

ghost use Rattle.std.specs.Prelude.{◌≡◌, ℕ, List};
ghost use Rattle.xls_compound.specs.Compound.{Compound, HoldsCompound};
ghost use Rattle.xls_compound.specs.Layout.{LaidIsFound};

use crate::one_listing;
use xls_sectors::one_answer;

/// A file holds at most one compound.
pub fn one_compound()
    ensures { (file : List ℕ) (c d : Compound) → HoldsCompound file c → HoldsCompound file d → c ≡ d }
{
    one_answer();
    one_listing();
}

/// A file in which streams are laid out, their sectors in any order, is opened, and each stream that is
/// found by its name is the one that was laid.
pub fn laid_found()
    ensures { LaidIsFound }
{}
