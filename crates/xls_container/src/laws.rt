//! Laws of the definitions.

ghost use Rattle.std.specs.Prelude.{ℕ, List};
ghost use Rattle.xls_container.specs.Laws.{HasOneAnswer};

use xls_compound::one_listing;
use xls_sectors::one_answer as one_answer_of_sectors;

/// A file gives the bytes of at most one workbook, or one fault, as it is printed, and never both, unless
/// memory ran out.
pub fn one_answer()
    ensures { (file : List ℕ) → HasOneAnswer file }
{
    one_answer_of_sectors();
    one_listing();
}
