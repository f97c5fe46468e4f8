//! Operands on a stack, each with its text as it is shown, and as it is shown where it is the name of a call.

ghost use Rattle.std.specs.Prelude.{◌≡◌, ◌<◌, [], ◌∷◌, ◌++◌, length, false, true, IfOk, IsUtf8, OnOk};
ghost use Rattle.std.specs.Str.{chars};
ghost use Rattle.xls_formula_shown.specs.ShownFold.{named, whole};
ghost use Rattle.xls_formula_shown.specs.State.{alike};
ghost use Rattle.xls_formula_shown.specs.Steps.{Tells, changed, joined};

use crate::held::{Held, join, push_alike, push_named, put_after, put_before, write_alone};
use std::alloc::{AllocError, Global};
use std::marker::Model;
use xls_operands::Operands;
use xls_shown_ptg::Fault;

/// Contracts see the list of operands, the last one first. Where memory runs out, no operand is left.
#[derive(Drop)]
pub(crate) struct Stack {
    texts: Operands,
    held: Vec<Held>,
}

impl Model for Stack {
    ghost use Rattle.std.specs.Prelude.{List, reverse};
    ghost use Rattle.xls_formula_shown.specs.State.{Operand};

    ghost Value = { List Operand };

    ghost use Rattle.xls_formula_shown.specs.Held.{AreHeld, operands_of};

    ghost view = { λ s. operands_of (reverse s.held.items) s.texts };

    ghost invariant = { λ s. AreHeld (reverse s.held.items) s.texts };
}

impl Stack {
    /// No operand. Takes no memory.
    pub(crate) fn new(alloc: Global) -> Self
        ensures { result ≡ [] }
    {
        Stack {
            texts: Operands::new(alloc),
            held: Vec::new(alloc),
        }
    }

    /// Leaves no operand. The memory stays.
    pub(crate) fn clear(&mut self)
        ensures { self.new ≡ [] }
    {
        self.texts.clear();
        self.held.clear();
    }

    /// How many operands there are.
    #[tactic(auto, using(crate::proofs::HeldLemmas::held_length))]
    pub(crate) fn len(&self) -> usize
        ensures { result ≡ length self.now }
    {
        self.held.len()
    }

    /// Puts a text on top.
    pub(crate) fn push(&mut self, text: &str) -> Result<(), AllocError>
        ensures { OnOk result (self.new ≡ alike (chars text.now) ∷ self.old) }
    {
        match push_alike(&mut self.texts, &mut self.held, text) {
            Ok(()) => Ok(()),
            Err(error) => {
                self.texts.clear();
                self.held.clear();
                Err(error)
            }
        }
    }

    /// Puts a name on top, behind white space.
    pub(crate) fn push_named(
        &mut self,
        before: &str,
        closing: &str,
        name: &str,
    ) -> Result<(), AllocError>
        ensures { OnOk result (self.new ≡ named (chars before.now ++ chars closing.now) (chars name.now) ∷ self.old) }
    {
        match push_named(&mut self.texts, &mut self.held, before, closing, name) {
            Ok(()) => Ok(()),
            Err(error) => {
                self.texts.clear();
                self.held.clear();
                Err(error)
            }
        }
    }

    /// Puts a mark before the operand on top.
    pub(crate) fn put_before(&mut self, mark: &str) -> Result<(), AllocError>
        requires { 0 < length self.old }
        ensures { OnOk result (self.new ≡ changed (λ t. chars mark.now ++ t) self.old) }
    {
        match put_before(&mut self.texts, &mut self.held, mark) {
            Ok(()) => Ok(()),
            Err(error) => {
                self.texts.clear();
                self.held.clear();
                Err(error)
            }
        }
    }

    /// Puts a mark behind the operand on top.
    pub(crate) fn put_after(&mut self, mark: &str) -> Result<(), AllocError>
        requires { 0 < length self.old }
        ensures { OnOk result (self.new ≡ changed (λ t. t ++ chars mark.now) self.old) }
    {
        match put_after(&mut self.texts, &mut self.held, mark) {
            Ok(()) => Ok(()),
            Err(error) => {
                self.texts.clear();
                self.held.clear();
                Err(error)
            }
        }
    }

    /// Makes the two operands on top one, with a mark between them.
    #[tactic(auto, using(crate::proofs::HeldLemmas::held_length))]
    pub(crate) fn join(&mut self, mark: &str) -> Result<(), AllocError>
        requires { 1 < length self.old }
        ensures { OnOk result (self.new ≡ joined false (chars mark.now) self.old) }
    {
        match join(&mut self.texts, &mut self.held, mark, false) {
            Ok(()) => Ok(()),
            Err(error) => {
                self.texts.clear();
                self.held.clear();
                Err(error)
            }
        }
    }

    /// The same where the first of them is called.
    #[tactic(auto, using(crate::proofs::HeldLemmas::held_length))]
    pub(crate) fn join_called(&mut self, mark: &str) -> Result<(), AllocError>
        requires { 1 < length self.old }
        ensures { OnOk result (self.new ≡ joined true (chars mark.now) self.old) }
    {
        match join(&mut self.texts, &mut self.held, mark, true) {
            Ok(()) => Ok(()),
            Err(error) => {
                self.texts.clear();
                self.held.clear();
                Err(error)
            }
        }
    }

    /// The operand where there is one alone, behind white space and in place of what `out` holds. `InvalidFormula` with their number where
    /// there is another. No operand is left.
    pub(crate) fn write_text(&mut self, front: &str, out: &mut Vec<u8>) -> Result<(), Fault>
        ensures text { Tells (λ u. chars out.new.items) result (whole (chars front.now) self.old) }
        ensures utf8 { IfOk result (λ u. IsUtf8 out.new.items) }
    {
        let done = write_alone(&mut self.texts, &mut self.held, front, out);
        self.texts.clear();
        self.held.clear();
        done
    }
}
