//! The defined names of a workbook.

ghost use Rattle.std.specs.Prelude.{◌≡◌, ◌++◌, ◌∷◌, [], length, OnOk, OnErr, slice_get};
ghost use Rattle.std.specs.Option.{option_map};
ghost use Rattle.std.specs.Str.{chars};

use std::alloc::{AllocError, Global};
use std::marker::Model;

#[derive(Debug, Drop)]
struct NameEntry {
    name: String,
    text: String,
}

/// Defined names and their texts, by index. Contracts see the list of both, each as the list of its
/// characters.
#[derive(Debug, Drop)]
pub struct Names {
    alloc: Global,
    entries: Vec<NameEntry>,
}

impl Model for Names {
    ghost use Rattle.std.specs.Prelude.{List, ℕ, map};
    ghost use Rattle.xls_formula.specs.Names.{named};

    ghost Value = { List (List ℕ × List ℕ) };

    ghost view = { λ names. map named names.entries.items };
}

impl Names {
    /// No names. Takes no memory.
    pub fn new(alloc: Global) -> Names
        ensures { result ≡ [] }
    {
        Names {
            alloc,
            entries: Vec::new(alloc),
        }
    }

    /// Appends a name and its text. Only running out of memory refuses, and then the list is as it was.
    pub fn push(&mut self, name: &str, text: &str) -> Result<(), AllocError>
        ensures ok { OnOk result (self.new ≡ self.old ++ (chars name.now, chars text.now) ∷ []) }
        ensures err { OnErr result (self.new ≡ self.old) }
    {
        let name = String::from_str(self.alloc, name)?;
        let text = String::from_str(self.alloc, text)?;
        self.entries.push(NameEntry { name, text })?;
        Ok(())
    }

    /// How many names there are.
    pub fn len(&self) -> usize
        ensures { result ≡ length self.now }
    {
        self.entries.len()
    }

    /// The name of an index, counted from 0, and `None` exactly past the end.
    pub fn name(&self, i: usize) -> Option<&str>
        ensures { option_map (λ name. chars name.now) result
            ≡ option_map (λ entry. entry.0) (slice_get self.now i) }
    {
        match self.entries.get(i) {
            Some(entry) => Some(entry.name.as_str()),
            None => None,
        }
    }
}
