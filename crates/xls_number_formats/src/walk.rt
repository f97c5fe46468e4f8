//! A walk over the items of a section.

ghost use Rattle.std.specs.Prelude.{◌≡◌, ◌||◌, [], MatchOption, Some, None};
ghost use Rattle.std.specs.Str.{chars};
ghost use Rattle.xls_number_formats.specs.Grammar.{is_place, items, after_section};
ghost use Rattle.xls_number_formats.specs.Walk.{items_left, after_left};

use crate::heads::first_item;
use crate::items::Item;
use std::marker::Model;
use xls_bytes::first_char;

/// The items of a section in order, each with the text that it shows where it stands for itself,
/// and `None` for good from the `;` or the end of the code on. It borrows the code and takes no
/// memory. Contracts see the list of the items left, `items_left`.
#[derive(Drop)]
pub struct Items<'a> {
    rest: &'a str,
    placed: bool,
    closes: bool,
}

impl<'a> Model for Items<'a> {
    ghost use Rattle.std.specs.Prelude.{◌≡◌, false};
    ghost use Rattle.std.specs.Str.{chars};
    ghost use Rattle.std.specs.List.{list_any};
    ghost use Rattle.xls_bytes.specs.Characters.{is};
    ghost use Rattle.xls_number_formats.specs.Walk.{Left};

    ghost Value = { Left };

    ghost view = { λ walk. record { placed = walk.placed; characters = chars walk.rest.now } };

    ghost invariant = { λ walk. walk.closes ≡ false → list_any (is 93) (chars walk.rest.now) ≡ false };
}

impl<'a> Items<'a> {
    /// The items of the first section of a code.
    pub fn new(code: &'a str) -> Items<'a>
        ensures items { items_left result ≡ items (chars code.now) }
        ensures after { after_left result ≡ after_section (chars code.now) }
    {
        Items {
            rest: code,
            placed: false,
            closes: true,
        }
    }

    /// What follows the `;` behind the section, where all its items have been given.
    pub fn after(&self) -> Option<&'a str>
        requires { items_left self.now ≡ [] }
        ensures { MatchOption result (after_left self.now ≡ None) (λ rest. after_left self.now ≡ Some (chars rest.now)) }
    {
        match first_char(self.rest) {
            Some((';', rest)) => Some(rest),
            _ => None,
        }
    }
}

// Whether the section has had a place after this item.
fn placed_after(placed: bool, item: Item) -> bool
    ensures { result ≡ (placed || is_place item) }
{
    placed || matches!(item, Item::Place(_))
}

impl<'a> Iterator for Items<'a> {
    ghost use Rattle.std.specs.Iterator.{item_count};
    ghost use Rattle.xls_number_formats.specs.Walk.{Steps, items_left};

    type Item = (Item, &'a str);

    ghost next_gives = { Steps };

    ghost remaining = { item_count items_left };

    fn next(&mut self) -> Option<(Item, &'a str)> {
        let (c, rest) = first_char(self.rest)?;
        if c == ';' {
            return None;
        }
        let (first, closes) = first_item(self.rest, c, rest, self.placed, self.closes);
        self.placed = placed_after(self.placed, first.item);
        self.closes = closes;
        self.rest = first.rest;
        Some((first.item, first.text))
    }
}
