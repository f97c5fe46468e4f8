//! What a cell is filled with.

ghost use Rattle.std.specs.Prelude.{◌≡◌, IfOk};
ghost use Rattle.std.specs.String.{string_bytes};
ghost use Rattle.xls_styles.specs.Fills as fills;

use crate::colors::{Color, color_of};
use crate::xfs::Xf;
use std::alloc::{AllocError, Global};
use xls_record::Biff;

/// What a cell is filled with: a pattern, by its number in [MS-XLS] FillPattern, where 0 is none and 1 all of its colour,
/// and else its colour and that of its background.
#[derive(Clone, Copy, Debug, PartialEq, Eq)]
pub struct Fill {
    pub pattern: u8,
    pub color: Color,
    pub back: Color,
}

pub(crate) fn fill_of(version: Biff, palette: &[u32], xf: &Xf) -> Fill
    ensures { result ≡ fills.fill_of version palette.now xf.now }
{
    Fill {
        pattern: xf.pattern,
        color: color_of(version, palette, u16::from(xf.color)),
        back: color_of(version, palette, u16::from(xf.back)),
    }
}

/// Nothing for no fill, the colour where it is all of one, else the number of the pattern, its colour and that of its
/// background, separated by blanks.
pub fn fill_text(alloc: Global, fill: &Fill) -> Result<String, AllocError>
    ensures { IfOk result (λ text. string_bytes text ≡ fills.fill_text fill.now) }
{
    match fill.pattern {
        0 => Ok(String::new(alloc)),
        1 => format!(in alloc; "{}", fill.color),
        _ => format!(in alloc; "{} {} {}", fill.pattern, fill.color, fill.back),
    }
}
