//! Sizes of fonts.

use std::fmt;

/// The size of a font, in twentieths of a point.
#[derive(Clone, Copy, Debug, PartialEq, Eq)]
pub struct Size {
    pub twentieths: u16,
}

/// The size in points, with one or two decimals where it isn't whole.
impl fmt::Display for Size {
    ghost use Rattle.std.specs.Prelude.{Some};
    ghost use Rattle.xls_styles.specs.Sizes.{size_text};

    ghost output = { λ size. Some (size_text size) };

    fn fmt<W: fmt::Write>(&self, f: &mut fmt::Formatter<W>) -> fmt::Result {
        let whole = self.twentieths / 20;
        let rest = self.twentieths % 20;
        if rest == 0 {
            write!(f, "{whole}")
        } else if rest % 2 == 0 {
            write!(f, "{whole}.{}", rest / 2)
        } else {
            write!(f, "{whole}.{}{}", rest * 5 / 10, rest * 5 % 10)
        }
    }
}
