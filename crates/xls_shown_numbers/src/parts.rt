//! A walk over the items of a section, or over those before its exponent.

ghost use Rattle.std.specs.Prelude.{◌≡◌, ◌<◌, ◌^◌, length};
ghost use Rattle.xls_shown_numbers.specs.Parts.{part_of, tokens_left};

use std::marker::Model;
use xls_number_formats::{Item, SectionItems, SectionIter};

// What of a section shows a number.
#[derive(Clone, Copy)]
pub(crate) enum Part {
    // All its items.
    Whole,
    // Those before the first exponent.
    Mantissa,
}

// The items of a part of a section, in order, each with its text.
#[derive(Drop)]
pub(crate) struct PartItems<'s, 'a> {
    items: SectionIter<'s, 'a>,
    part: Part,
}

impl<'s, 'a> Model for PartItems<'s, 'a> {
    ghost use Rattle.xls_shown_numbers.specs.Parts.{Rest};

    ghost Value = { Rest };

    ghost view = { λ walk. record { part = walk.part; left = walk.items } };
}

impl<'s, 'a> PartItems<'s, 'a> {
    // Those of a section.
    pub(crate) fn new(section: &'s SectionItems<'a>, part: Part) -> PartItems<'s, 'a>
        ensures items { tokens_left result ≡ part_of part section.now }
        ensures few { length (tokens_left result) < 2 ^ 63 }
    {
        PartItems {
            items: section.iter(),
            part,
        }
    }
}

impl<'s, 'a> Iterator for PartItems<'s, 'a> {
    ghost use Rattle.std.specs.Iterator.{item_count};
    ghost use Rattle.xls_shown_numbers.specs.Parts.{Steps, tokens_left};

    type Item = (Item, &'a str);

    ghost next_gives = { Steps };

    ghost remaining = { item_count tokens_left };

    fn next(&mut self) -> Option<(Item, &'a str)> {
        let (item, own) = self.items.next()?;
        match self.part {
            Part::Whole => Some((item, own)),
            Part::Mantissa => match item {
                Item::Exponent(_) => None,
                _ => Some((item, own)),
            },
        }
    }
}
