//! Formats that are kept.

ghost use Rattle.std.specs.Prelude.{◌≡◌, ℕ, List, IfSome, OnOk};
ghost use Rattle.std.specs.Str.{chars};
ghost use Rattle.xls_cell_formats.specs.Kept.{AreKept};

use crate::places::{place_at, put_place};
use std::alloc::{AllocError, Global};
use xls_shown::ShownFormat;

/// Formats by their identifiers, each of which is read once.
#[derive(Drop)]
pub(crate) struct KeptFormats<'v> {
    /// The place of the format of each identifier, from 1 on, and 0 where it has none.
    places: Vec<usize>,
    /// In the order in which they were read.
    formats: Vec<ShownFormat<'v>>,
}

impl<'v> KeptFormats<'v> {
    /// None. Takes no memory.
    pub(crate) fn new(alloc: Global) -> KeptFormats<'v>
        ensures { (code : ℕ → List ℕ) → AreKept code result.places.items result.formats.items }
    {
        KeptFormats {
            places: Vec::new(alloc),
            formats: Vec::new(alloc),
        }
    }

    /// The format of an identifier, if it is kept.
    #[inline(always)]
    pub(crate) fn get(&self, identifier: u16) -> Option<&ShownFormat<'v>>
        ensures { IfSome result (λ format. (code : ℕ → List ℕ) → AreKept code self.now.places.items self.now.formats.items
            → format.now ≡ code identifier) }
    {
        match place_at(&self.places, identifier) {
            0 => None,
            place => self.formats.get(place - 1),
        }
    }

    /// Reads the format of an identifier, which has this code.
    pub(crate) fn keep(
        &mut self,
        alloc: Global,
        identifier: u16,
        code: &'v str,
    ) -> Result<(), AllocError>
        ensures { OnOk result ((c : ℕ → List ℕ) → c identifier ≡ chars code.now
            → AreKept c self.old.places.items self.old.formats.items → AreKept c self.new.places.items self.new.formats.items) }
    {
        let place = self.formats.len() + 1;
        self.formats.push(ShownFormat::new(alloc, code)?)?;
        put_place(&mut self.places, identifier, place)
    }
}
