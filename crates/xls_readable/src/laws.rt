//! Laws over the definitions, each the contract of a call that does nothing.

ghost use Rattle.xls_readable.specs.Laws.{NumbersAreBare, RowsReadBack, TextsReadBack};

/// A row reads back as its fields, by the kit's reader, for every delimiter.
pub fn rows_read_back()
    ensures row { RowsReadBack }
    ensures rows { TextsReadBack }
{}

/// A finite number is a number of JSON in a line of JSON, by its decimal text.
pub fn numbers_are_bare()
    ensures { NumbersAreBare }
{}
