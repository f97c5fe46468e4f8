//! How the line of a cell begins.

ghost use Rattle.std.specs.Prelude.{◌≡◌, ◌+◌, ◌≤◌, ◌++◌, codes, length};
ghost use Rattle.std.specs.Fmt.{decimal};
ghost use Rattle.xls_lines.specs.Lines.{tabbed};

use crate::short::Short;
use std::marker::Model;

/// The line of a cell up to its column, which the cells of a row have in common, so that it is made once for
/// them. Contracts see the row.
#[derive(Drop)]
pub(crate) struct Head {
    row: u32,
    text: Short,
}

impl Model for Head {
    ghost use Rattle.std.specs.Prelude.{◌≡◌, ◌≤◌, ◌++◌, ℕ, codes, length};
    ghost use Rattle.std.specs.Fmt.{decimal};
    ghost use Rattle.xls_lines.specs.Lines.{tabbed};
    ghost use Rattle.xls_lines.specs.declared.short.TheConstants.{SMALL};

    ghost Value = { ℕ };

    ghost view = { λ h. h.row };

    ghost invariant = { λ h. (h.text ≡ codes "cell" ++ (tabbed (decimal h.row) ++ codes "\t")) × (length h.text ≤ SMALL) };
}

impl Head {
    /// That of the cells of a row.
    pub(crate) fn new(row: u32) -> Head
        ensures { result ≡ row }
    {
        let mut text = Short::new();
        text.put_byte(b'\t');
        text.put_digits(u64::from(row));
        text.put_word(b"cell\t");
        Head { row, text }
    }

    /// That of the cells of another row in its place.
    #[inline(never)]
    fn turn_to(&mut self, row: u32)
        ensures { self.new ≡ row }
    {
        *self = Head::new(row);
    }

    /// Puts that of the cells of a row before the text.
    #[inline(always)]
    pub(crate) fn put(&mut self, row: u32, line: &mut Short)
        requires { length line.old + 16 ≤ 96 }
        ensures { line.new ≡ codes "cell" ++ (tabbed (decimal row) ++ (codes "\t" ++ line.old)) }
    {
        if self.row != row {
            self.turn_to(row);
        }
        line.put_small(&self.text);
    }
}
