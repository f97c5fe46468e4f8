//! The lines of a workbook, and what writes them.

ghost use Rattle.std.specs.Prelude.{◌≡◌, ◌≤◌, ◌∷◌, [], Option, length};
ghost use Rattle.xls_readable.specs.Items.{item_of};
ghost use Rattle.xls_listing.specs.Listing.{Line, PutsLines, ShownAs, TellsShown, cell_line, line_of};

use std::alloc::Global;
use xls_data::{Dimensions, SheetType, SheetVisible};
use xls_output::{Gathers, Sink, Stop, Writer};
use xls_readable::Field;

/// A line of a workbook, other than that of a cell.
#[derive(Clone, Copy, Drop)]
pub enum BookLine<'a> {
    /// The date system.
    Dates {
        is_1904: bool,
    },
    /// A defined name and its text.
    Name {
        name: &'a str,
        text: &'a str,
    },
    /// A sheet.
    Sheet {
        name: &'a str,
        kind: SheetType,
        visible: SheetVisible,
    },
    /// A formula.
    Formula {
        row: u32,
        column: u32,
        text: &'a str,
    },
    /// A merged region.
    Merge(Dimensions),
    /// Cells that a formula cites: the formula's sheet and cell, and the sheet and the corners of the cells.
    Ref {
        sheet: &'a str,
        cell: (u32, u32),
        cited_sheet: &'a str,
        cells: Dimensions,
    },
}

/// A form in which the lines of a workbook are written.
pub trait LineForm {
    ghost use Rattle.std.specs.Prelude.{◌≡◌, ◌≤◌, ◌∷◌, ℕ, List, [], Option, length};
    ghost use Rattle.xls_readable.specs.Items.{item_of};
    ghost use Rattle.xls_listing.specs.Listing.{Line, PutsLines, ShownAs, TellsShown, cell_line, line_of};

    /// Which texts a line may have.
    ghost is_text: { Self → Line → List ℕ → Type 0 };

    /// What lines are gathered in.
    type Buffer: Gathers + Drop;

    /// One in which there is nothing. Takes no memory.
    fn buffer(alloc: Global) -> Self::Buffer
        ensures { Self.Buffer.kept result ≡ [] };

    /// Puts a line.
    fn put_line<K: Sink>(
        &self,
        out: &mut Writer<'_, K, Self::Buffer>,
        line: BookLine<'_>,
    ) -> Result<(), Stop>
        ensures { PutsLines K.state Self.Buffer.kept (is_text self.now) (line_of line.entry ∷ []) out.old out.new result };

    /// Puts the line of a cell at a position, of a value's kind and its field, and of what Excel shows of it, if that is
    /// told.
    fn put_cell<K: Sink>(
        &self,
        out: &mut Writer<'_, K, Self::Buffer>,
        position: (u32, u32),
        kind: &'static str,
        field: &Field<'_>,
        shown: Option<&str>,
    ) -> Result<(), Stop>
        requires { length kind.now ≤ 5 }
        ensures { (s : Option ShownAs) → TellsShown s shown.entry
            → PutsLines K.state Self.Buffer.kept (is_text self.now) (cell_line position (kind.now, item_of field.now) s ∷ [])
            out.old out.new result };
}
