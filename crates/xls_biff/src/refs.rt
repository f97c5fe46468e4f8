//! The first sheets of references, which formulas name by an index.

ghost use Rattle.std.specs.Prelude.{◌≡◌, ◌++◌, ◌∷◌, [], length, OnOk, OnErr};
ghost use Rattle.std.specs.List.{slice_get};

use std::alloc::{AllocError, Global};
use std::marker::Model;

/// The first sheets of the references of a workbook, by index. Contracts see the list of numbers.
#[derive(Debug, Drop)]
pub struct Refs {
    firsts: Vec<i16>,
}

impl Model for Refs {
    ghost use Rattle.std.specs.Prelude.{List, ℤ};

    ghost Value = { List ℤ };

    ghost view = { λ refs. refs.firsts.items };
}

impl Refs {
    /// No references. Takes no memory.
    pub fn new(alloc: Global) -> Refs
        ensures { result ≡ [] }
    {
        Refs {
            firsts: Vec::new(alloc),
        }
    }

    /// Appends the number of a reference's first sheet. Refuses only when memory runs out, and then the list
    /// is as it was.
    pub fn push(&mut self, first: i16) -> Result<(), AllocError>
        ensures ok { OnOk result (self.new ≡ self.old ++ first ∷ []) }
        ensures err { OnErr result (self.new ≡ self.old) }
    {
        self.firsts.push(first)?;
        Ok(())
    }

    /// Appends the references of another list. Refuses only when memory runs out, and then the list is as it
    /// was.
    pub fn extend(&mut self, more: &Refs) -> Result<(), AllocError>
        ensures ok { OnOk result (self.new ≡ self.old ++ more.now) }
        ensures err { OnErr result (self.new ≡ self.old) }
    {
        self.firsts.extend_from_slice(&more.firsts)
    }

    /// How many references there are.
    pub fn len(&self) -> usize
        ensures { result ≡ length self.now }
    {
        self.firsts.len()
    }

    /// The number of the first sheet of a reference, and `None` exactly past the end.
    pub fn first(&self, i: usize) -> Option<i16>
        ensures { result ≡ slice_get self.now i }
    {
        self.firsts.get(i).copied()
    }
}
