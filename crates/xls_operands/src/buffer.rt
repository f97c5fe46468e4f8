//! Texts of operands in one text. What is put before an operand is kept apart and chained to its first leaf,
//! so that no text is moved.

ghost use Rattle.std.specs.Prelude.{◌≡◌, ℕ, List, [], ◌∷◌, ◌<◌, length, OnOk, OnErr, IfOk, IsUtf8};
ghost use Rattle.std.specs.List.{concat};
ghost use Rattle.std.specs.Str.{chars};
ghost use Rattle.xls_record.specs.Reading.{Gives};
ghost use Rattle.xls_operands.specs.Prefixes.{IsChain};
ghost use Rattle.xls_operands.specs.Leaves.{AreChained, AreWhole, IsMarked, leaf_texts};
ghost use Rattle.xls_operands.specs.Pieces.{one_text, with_join, with_prefix, with_suffix};

use crate::appended::Appended;
use crate::prefixes::Prefixes;
use std::alloc::{AllocError, Global};
use std::marker::Model;
use xls_record::XlsError;

/// A leaf of a formula: so many bytes of the text, and the newest piece of what was put before it.
#[derive(Drop)]
struct Leaf {
    prefix: Option<usize>,
    len: usize,
}

/// The texts of operands on a stack. Contracts see the list of texts, the last one first, each as the
/// list of its characters.
#[derive(Drop)]
pub struct Operands {
    alloc: Global,
    /// The leaves' texts, one after another.
    text: String,
    leaves: Vec<Leaf>,
    /// What was put before leaves.
    prefixes: Prefixes,
    /// The first leaf of each operand.
    starts: Vec<usize>,
}

impl Model for Operands {
    ghost use Rattle.std.specs.Prelude.{List, ℕ};
    ghost use Rattle.std.specs.String.{string_bytes};

    ghost Value = { List (List ℕ) };

    ghost use Rattle.xls_operands.specs.Leaves.{AreOperands, texts_of};

    ghost view = { λ b. texts_of b.prefixes (string_bytes b.text) b.leaves.items b.starts.items };

    ghost invariant = { λ b. AreOperands b.prefixes (string_bytes b.text) b.leaves.items b.starts.items };
}

/// Puts a mark before a leaf.
fn put_at(prefixes: &mut Prefixes, leaf: &mut Leaf, mark: &str) -> Result<(), AllocError>
    requires { IsChain (length prefixes.old) leaf.old.prefix }
    ensures ok { OnOk result (IsMarked prefixes.old prefixes.new leaf.old leaf.new mark.now) }
    ensures err { OnErr result ((prefixes.new ≡ prefixes.old) × (leaf.new ≡ leaf.old)) }
{
    leaf.prefix = Some(prefixes.push(mark.as_bytes(), leaf.prefix)?);
    Ok(())
}

/// The leaves one after another, each after what was put before it, in place of what `out` holds.
fn join_leaves(
    out: &mut Vec<u8>,
    text: &[u8],
    prefixes: &Prefixes,
    leaves: &[Leaf],
) -> Result<(), AllocError>
    requires whole { AreWhole text.now leaves.now }
    requires chained { AreChained (length prefixes.now) leaves.now }
    ensures { OnOk result (out.new.items ≡ concat (leaf_texts prefixes.now text.now leaves.now)) }
{
    out.clear();
    out.reserve(text.len().saturating_add(prefixes.size()))?;
    let mut rest = text;
    'leaves: for leaf in leaves {
        prefixes.write(leaf.prefix, out)?;
        let (body, after) = rest.split_at(leaf.len);
        out.extend_from_slice(body)?;
        rest = after;
    }
    Ok(())
}

impl Operands {
    /// No operand. Takes no memory.
    pub fn new(alloc: Global) -> Self
        ensures { result ≡ [] }
    {
        Operands {
            alloc,
            text: String::new(alloc),
            leaves: Vec::new(alloc),
            prefixes: Prefixes::new(alloc),
            starts: Vec::new(alloc),
        }
    }

    /// Leaves no operand. The memory stays.
    pub fn clear(&mut self)
        ensures { self.new ≡ [] }
    {
        self.text.clear();
        self.leaves.clear();
        self.prefixes.clear();
        self.starts.clear();
    }

    /// How many operands there are.
    pub fn len(&self) -> usize
        ensures { result ≡ length self.now }
    {
        self.starts.len()
    }

    /// Puts an empty text on top.
    fn push_empty(&mut self) -> Result<(), AllocError>
        ensures { OnOk result (self.new ≡ [] ∷ self.old) }
    {
        self.starts.push(self.leaves.len())?;
        let leaf = Leaf {
            prefix: None,
            len: 0,
        };
        match self.leaves.push(leaf) {
            Ok(()) => Ok(()),
            Err(_) => {
                self.starts.pop();
                Err(AllocError)
            }
        }
    }

    /// Puts the text of a word on top. Where memory runs out, no operand may be left.
    pub fn push<W: Appended>(&mut self, word: &W) -> Result<(), AllocError>
        ensures { OnOk result (self.new ≡ W.text word.now ∷ self.old) }
    {
        self.push_empty()?;
        self.put_after(word)
    }

    /// Puts a mark before the text on top, where there is one.
    fn put_mark(&mut self, mark: &str) -> Result<(), AllocError>
        ensures { OnOk result (self.new ≡ with_prefix (chars mark.now) self.old) }
    {
        match self.starts.last() {
            Some(start) => put_at(&mut self.prefixes, &mut self.leaves[*start], mark),
            None => Ok(()),
        }
    }

    /// Puts a mark before the text on top, where there is one. A mark without characters takes no memory.
    pub fn put_before(&mut self, mark: &str) -> Result<(), AllocError>
        ensures { OnOk result (self.new ≡ with_prefix (chars mark.now) self.old) }
    {
        if mark.is_empty() {
            return Ok(());
        }
        self.put_mark(mark)
    }

    /// Appends a word to the text on top. Where memory runs out, no operand is left.
    pub fn put_after<W: Appended>(&mut self, word: &W) -> Result<(), AllocError>
        requires { 0 < length self.old }
        ensures { OnOk result (self.new ≡ with_suffix (W.text word.now) self.old) }
    {
        let before = self.text.len();
        match word.append(&mut self.text) {
            Ok(()) => {
                let last = self.leaves.len() - 1;
                self.leaves[last].len += self.text.len() - before;
                Ok(())
            }
            Err(error) => {
                *self = Operands::new(self.alloc);
                Err(error)
            }
        }
    }

    /// Makes the two texts on top one, with a mark between them.
    pub fn join(&mut self, mark: &str) -> Result<(), AllocError>
        requires { 1 < length self.old }
        ensures { OnOk result (self.new ≡ with_join (chars mark.now) self.old) }
    {
        match self.starts.pop() {
            Some(start) => put_at(&mut self.prefixes, &mut self.leaves[start], mark),
            None => Ok(()),
        }
    }

    /// The text where there is one alone, in place of what `out` holds. `InvalidFormula` with their number
    /// where there is another.
    pub fn write_text(&self, out: &mut Vec<u8>) -> Result<(), XlsError>
        ensures text { Gives (λ u. chars out.new.items) result (one_text self.now) }
        ensures utf8 { IfOk result (λ u. IsUtf8 out.new.items) }
    {
        if self.starts.len() != 1 {
            return Err(XlsError::InvalidFormula {
                stack_size: self.starts.len(),
            });
        }
        join_leaves(out, self.text.as_bytes(), &self.prefixes, &self.leaves)?;
        Ok(())
    }
}
