//! What is written of a workbook.

use xls_beside::Topic;
use xls_hidden_cells::Sight;
use xls_readable::{Form, Listing, SheetChoice, Table};

/// What is written of a workbook.
#[derive(Clone, Copy, Debug, PartialEq, Eq)]
pub enum Answer<'w> {
    /// Its lines as people read them.
    Lines(Listing, Form),
    /// All that it holds, each cell with what Excel shows, in a form.
    Shown(Form),
    /// All that it holds, as `xls_dump` writes it.
    Exact,
    /// One of its sheets as CSV, or what can be seen of it.
    Sheet(SheetChoice<'w>, Table, Sight),
    /// That its stream has no fault.
    Check,
    /// What stands beside its values, in a form.
    Beside(Topic, Form),
    /// Its stream once more in canonical form.
    Remade,
    /// The bytes of its stream.
    Bytes,
}
