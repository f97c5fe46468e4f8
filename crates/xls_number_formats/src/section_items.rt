//! The items of a section, told apart once.

ghost use Rattle.std.specs.Prelude.{◌≡◌, ◌<◌, ◌^◌, length, IfOk};
ghost use Rattle.std.specs.Str.{chars};
ghost use Rattle.xls_number_formats.specs.Grammar.{items};

use crate::items::Item;
use crate::walk::Items;
use std::alloc::{AllocError, Global};
use std::marker::Model;

/// The items of a section in order, each with the text that it shows where it stands for itself. They
/// are told apart once, and may be walked over many times. It borrows the code, and takes memory for
/// each item. Contracts see the list of the items.
#[derive(Drop)]
pub struct SectionItems<'a> {
    items: Vec<(Item, &'a str)>,
}

impl<'a> Model for SectionItems<'a> {
    ghost use Rattle.std.specs.Prelude.{List};
    ghost use Rattle.xls_number_formats.specs.Grammar.{Token};
    ghost use Rattle.xls_number_formats.specs.SectionItems.{tokens_of};

    ghost Value = { List Token };

    ghost view = { λ section. tokens_of section.items.items };
}

impl<'a> SectionItems<'a> {
    /// The items of the first section of a code. Only running out of memory refuses.
    pub fn new(alloc: Global, code: &'a str) -> Result<SectionItems<'a>, AllocError>
        ensures { IfOk result (λ section. section ≡ items (chars code.now)) }
    {
        let mut kept = Vec::new(alloc);
        let mut items = Items::new(code);
        'items: while let Some(item) = items.next() {
            kept.push(item)?;
        }
        Ok(SectionItems { items: kept })
    }

    /// A walk over the items. Takes no memory.
    pub fn iter(&self) -> SectionIter<'_, 'a>
        ensures items { result ≡ self.now }
        ensures few { length self.now < 2 ^ 63 }
    {
        SectionIter {
            items: &self.items,
            given: 0,
        }
    }
}

/// A walk over the items of a section that were told apart. Contracts see the list of the items left.
#[derive(Drop)]
pub struct SectionIter<'s, 'a> {
    items: &'s [(Item, &'a str)],
    given: usize,
}

impl<'s, 'a> Model for SectionIter<'s, 'a> {
    ghost use Rattle.std.specs.Prelude.{List, drop};
    ghost use Rattle.xls_number_formats.specs.Grammar.{Token};
    ghost use Rattle.xls_number_formats.specs.SectionItems.{tokens_of};

    ghost Value = { List Token };

    ghost view = { λ walk. tokens_of (drop walk.given walk.items.now) };
}

impl<'s, 'a> Iterator for SectionIter<'s, 'a> {
    ghost use Rattle.std.specs.Iterator.{YieldsFirstBy, item_count};
    ghost use Rattle.xls_number_formats.specs.SectionItems.{token_of};

    type Item = (Item, &'a str);

    ghost next_gives = { YieldsFirstBy token_of (λ tokens. tokens) };

    ghost remaining = { item_count (λ tokens. tokens) };

    fn next(&mut self) -> Option<(Item, &'a str)> {
        let item = self.items.get(self.given)?;
        self.given += 1;
        Some(*item)
    }
}
