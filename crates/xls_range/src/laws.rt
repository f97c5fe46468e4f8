//! Laws of ranges. Each function does nothing, and its contract is the law.

ghost use Rattle.xls_range.specs.Laws.{FillsItsBox, EqualWhereSame, HasCorners, LastWins, DenseInAnyOrder, RowsJoinToCells, CellsInPlace, UsedWithoutBlanks, ShowsEachCell, ShowsBlanksOfNone, PlacesAgree, RowsInPlace};
ghost use Rattle.std.specs.Borrow.{Bor};
ghost use Rattle.std.specs.Prelude.{ℕ, List};
ghost use Rattle.xls_range.specs.Calls.{EachOnce};
ghost use Rattle.xls_range.specs.Lists.{used};

use xls_data::CellType;

/// A range has one value for each position of its box, and none elsewhere.
pub fn fills_its_box<T: CellType>()
    ensures { FillsItsBox T }
{}

/// Two ranges are equal exactly where their corners and all their cells are.
pub fn equal_where_same<T: CellType>()
    ensures { EqualWhereSame T.eq }
{}

/// Where any positions are given, the smallest box has its corners.
pub fn has_corners<T: CellType>()
    ensures { HasCorners T }
{}

/// In a dense box, of equal positions the one that was given last wins.
pub fn last_wins<T: CellType>()
    ensures { LastWins T.eq T.blank_test }
{}

/// The dense box of cells with distinct positions does not depend on their order.
pub fn dense_in_any_order<T: CellType>()
    ensures { DenseInAnyOrder T.eq T.blank_test }
{}

/// The rows joined are the values of the cells in order.
pub fn rows_join_to_cells<T: CellType>()
    ensures { RowsJoinToCells T }
{}

/// Each cell comes at its place, with its row and its column.
pub fn cells_in_place<T: CellType>()
    ensures { CellsInPlace T }
{}

/// The used cells are the cells without blanks.
pub fn used_without_blanks<T: CellType>()
    ensures { UsedWithoutBlanks T.blank_test }
{}

/// A part of a range, or a box around it, has at each of its positions an equal copy of the cell
/// there, or a blank.
pub fn shows_each_cell<T: CellType>()
    ensures { ShowsEachCell T.eq T.blank_test }
{}

/// Of an empty range it has blanks alone.
pub fn shows_blanks_of_none<T: CellType>()
    ensures { ShowsBlanksOfNone T.eq T.blank_test }
{}

/// A place counted from the start has the cell of its absolute position.
pub fn places_agree<T: CellType>()
    ensures { PlacesAgree T }
{}

/// Each row comes in its turn, with the cells of its places.
pub fn rows_in_place<T: CellType>()
    ensures { RowsInPlace T }
{}

/// Each row of `rows`, each cell of `cells` and each one of `used_cells` comes once, in whatever
/// order `next` and `next_back` are called.
pub fn each_once<T: CellType>()
    ensures rows { EachOnce {S = List (List T)} {A = Bor (List T)} (λ row. row.now) (λ rows. rows) }
    ensures cells { EachOnce {S = List (ℕ × ℕ × T)} {A = ℕ × ℕ × Bor T}
        (λ cell. (cell.0, cell.1, cell.2.now)) (λ cells. cells) }
    ensures used { EachOnce {S = List (ℕ × ℕ × T)} {A = ℕ × ℕ × Bor T}
        (λ cell. (cell.0, cell.1, cell.2.now)) (used T.blank_test) }
{}
