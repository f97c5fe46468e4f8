//! Laws of the definitions.

ghost use Rattle.std.specs.Prelude.{ℕ};
ghost use Rattle.xls_bytes.specs.Columns.{HasOneName, ColumnNamesDiffer, NamesInOrder, SevenLettersDo};

/// Every column has exactly one name, different columns have different names, a smaller column's
/// name is shorter, or as long and earlier by its letters, and 32 bits need at most seven letters.
pub fn column_names()
    ensures one { (column : ℕ) → HasOneName column }
    ensures different { ColumnNamesDiffer }
    ensures in_order { NamesInOrder }
    ensures seven { SevenLettersDo }
{}
