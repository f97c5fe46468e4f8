//! The formatting runs of a text.

ghost use Rattle.std.specs.Prelude.{◌≡◌};
ghost use Rattle.xls_style_cells.specs.Runs.{own_list, runs_in};
ghost use Rattle.xls_style_cells.specs.Tables.{bytes_in};
ghost use Rattle.xls_style_cells.specs.Walking.{TakesNumber, TakesRun};

use crate::fields::{bytes_from, u16_at};
use crate::marked::{Marked, take_joined};
use std::marker::Model;
use xls_record::{Biff, is_biff8};

/// From a unit of a text on it has a font, FormatRun of [MS-XLS].
#[derive(Clone, Copy, Debug, PartialEq, Eq)]
pub struct Run {
    /// The 16-bit unit, counted from 0.
    pub unit: u16,
    /// The index of the font.
    pub font: u16,
}

/// A number of one byte or of two.
fn take_number(text: &mut Marked<'_>, is_narrow: bool) -> Option<u16>
    ensures { TakesNumber is_narrow (bytes_in text.old) result (bytes_in text.new) }
{
    let Some(low) = take_joined(text) else {
        return None;
    };
    if is_narrow {
        return Some(u16::from(low));
    }
    let Some(high) = take_joined(text) else {
        return None;
    };
    Some(u16::from(low) + 256 * u16::from(high))
}

/// The runs that are left, those that are there whole. Contracts see the list of them.
#[derive(Drop)]
pub struct Runs<'a> {
    text: Marked<'a>,
    left: u16,
    is_narrow: bool,
}

impl<'a> Model for Runs<'a> {
    ghost use Rattle.std.specs.Prelude.{List};
    ghost use Rattle.xls_style_cells.specs.declared.runs.Run.{Run};
    ghost use Rattle.xls_style_cells.specs.Runs.{runs_in};
    ghost use Rattle.xls_style_cells.specs.Tables.{bytes_in};

    ghost Value = { List Run };

    ghost view = { λ s. runs_in s.is_narrow s.left (bytes_in s.text) };
}

impl<'a> Runs<'a> {
    ghost use Rattle.std.specs.Prelude.{◌≡◌, [], false};
    ghost use Rattle.xls_style_cells.specs.Runs.{own_list, runs_in};
    ghost use Rattle.xls_style_cells.specs.Tables.{bytes_in};

    /// So many of a string of the string table.
    pub(crate) fn shared(text: Marked<'a>, count: u16) -> Runs<'a>
        ensures { result ≡ runs_in false count (bytes_in text.entry) }
    {
        Runs {
            text,
            left: count,
            is_narrow: false,
        }
    }

    /// Those of a text of its own, which stand behind it.
    pub(crate) fn own(version: Biff, bytes: &'a [u8]) -> Runs<'a>
        ensures { result ≡ own_list version bytes.entry.now }
    {
        if is_biff8(version) {
            return Runs::shared(Marked::alone(bytes_from(bytes, 2)), u16_at(bytes, 0));
        }
        let count = if bytes.is_empty() { 0 } else { bytes[0] };
        Runs {
            text: Marked::alone(bytes_from(bytes, 1)),
            left: u16::from(count),
            is_narrow: true,
        }
    }

    /// No runs.
    pub(crate) fn none() -> Runs<'a>
        ensures { result ≡ [] }
    {
        Runs::shared(Marked::nothing(), 0)
    }

    /// The same runs once more. Takes no memory.
    pub fn again(&self) -> Runs<'a>
        ensures { result ≡ self.now }
    {
        Runs {
            text: self.text.again(),
            left: self.left,
            is_narrow: self.is_narrow,
        }
    }
}

/// The run that stands here whole.
fn take_run(text: &mut Marked<'_>, is_narrow: bool) -> Option<Run>
    ensures { TakesRun is_narrow (bytes_in text.old) result (bytes_in text.new) }
{
    let Some(unit) = take_number(text, is_narrow) else {
        return None;
    };
    let Some(font) = take_number(text, is_narrow) else {
        return None;
    };
    Some(Run { unit, font })
}

impl<'a> Iterator for Runs<'a> {
    ghost use Rattle.std.specs.Prelude.{length};
    ghost use Rattle.std.specs.Iterator.{at_most};
    ghost use Rattle.xls_parts.specs.Steps.{Steps};

    type Item = Run;

    ghost next_gives = { Steps };

    ghost remaining = { λ runs. at_most (length runs) };

    fn next(&mut self) -> Option<Run> {
        if self.left == 0 {
            return None;
        }
        match take_run(&mut self.text, self.is_narrow) {
            Some(run) => {
                self.left -= 1;
                Some(run)
            }
            None => {
                self.left = 0;
                None
            }
        }
    }
}
