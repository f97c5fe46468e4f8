//! A law of rows. The function does nothing, and its contract is the law.

ghost use Rattle.xls_rows.specs.Laws.{ReadsByKey};

use xls_data::CellType;

/// A row that is read by `next_key` and `next_value` in turn, until there is no key, gives for each
/// exposed column whose cell is not empty its header and its cell, in the order of the indexes; and
/// nothing else.
pub fn reads_by_key<T: CellType>()
    ensures { ReadsByKey T }
{}
