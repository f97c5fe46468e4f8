//! The texts of a string table.

ghost use Rattle.std.specs.Prelude.{◌≡◌, ◌++◌, ◌∷◌, [], length, OnOk, OnErr};
ghost use Rattle.std.specs.List.{slice_get};
ghost use Rattle.std.specs.Option.{option_map};
ghost use Rattle.std.specs.Str.{chars};

use std::alloc::{AllocError, Global};
use std::marker::Model;

/// The texts of a string table, by index. Contracts see the list of texts, each as the list of its
/// characters.
#[derive(Debug, Drop)]
pub struct Strings {
    texts: Vec<String>,
}

impl Model for Strings {
    ghost use Rattle.std.specs.Prelude.{List, ℕ, map};
    ghost use Rattle.xls_strings.specs.Texts.{text_of};

    ghost Value = { List (List ℕ) };

    ghost view = { λ strings. map text_of strings.texts.items };
}

impl Strings {
    ghost use Rattle.xls_strings.specs.Texts.{text_of};

    /// No texts. Takes no memory.
    pub fn new(alloc: Global) -> Strings
        ensures { result ≡ [] }
    {
        Strings {
            texts: Vec::new(alloc),
        }
    }

    /// Appends a text that is there already.
    pub(crate) fn push_text(&mut self, text: String) -> Result<(), AllocError>
        ensures ok { OnOk result (self.new ≡ self.old ++ text_of text ∷ []) }
        ensures err { OnErr result (self.new ≡ self.old) }
    {
        self.texts.push(text)?;
        Ok(())
    }

    /// Appends a copy of a text. Refuses only when memory runs out, and then the list is as it was.
    pub fn push(&mut self, text: &str) -> Result<(), AllocError>
        ensures ok { OnOk result (self.new ≡ self.old ++ chars text.now ∷ []) }
        ensures err { OnErr result (self.new ≡ self.old) }
    {
        let alloc = *self.texts.allocator();
        let copy = String::from_str(alloc, text)?;
        self.push_text(copy)
    }

    /// How many texts there are.
    pub fn len(&self) -> usize
        ensures { result ≡ length self.now }
    {
        self.texts.len()
    }

    /// The text of an index, and `None` exactly past the end.
    pub fn get(&self, i: usize) -> Option<&str>
        ensures { option_map (λ text. chars text.now) result ≡ slice_get self.now i }
    {
        match self.texts.get(i) {
            Some(text) => Some(text.as_str()),
            None => None,
        }
    }
}
