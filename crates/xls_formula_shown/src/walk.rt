//! The text of a formula: its tokens one after the other.

ghost use Rattle.std.specs.Prelude.{◌≡◌, ◌<◌, ◌++◌, length, IfOk, IsUtf8, OnOk};
ghost use Rattle.std.specs.Str.{chars};
ghost use Rattle.xls_strings.specs.Texts.{text_of};
ghost use Rattle.xls_shown_ptg.specs.Reading.{gives};
ghost use Rattle.xls_formula_shown.specs.ShownFold as fold;
ghost use Rattle.xls_formula_shown.specs.State as state;
ghost use Rattle.xls_formula_shown.specs.Scope.{scope_of};
ghost use Rattle.xls_formula_shown.specs.Steps.{Leaves, StepsTo, Tells, effect_of, step};

use crate::effects::{Effect, token_effect};
use crate::leaves::{append, empty};
use crate::puts::{
    put_call, put_call_by_name, put_lead, put_name, put_pair, put_parentheses, put_text, put_trail,
};
use crate::scope::Scope;
use crate::stack::Stack;
use crate::waiting::{Waiting, push_blanks};
use std::alloc::{AllocError, Global};
use std::marker::Model;
use xls_shown_ptg::{Fault, Space, SpacePlace, read_shown_ptg};

/// What a token that writes leaves of the operands, under the white space that waits.
fn put(stack: &mut Stack, waiting: &Waiting, effect: Effect<'_>) -> Result<(), Fault>
    ensures { Leaves result stack.new (fold.write (effect_of effect.entry) waiting.now stack.old) }
{
    match effect {
        Effect::Text(text) => put_text(stack, waiting, text),
        Effect::Name(name) => put_name(stack, waiting, name),
        Effect::Lead(sign) => put_lead(stack, waiting, sign),
        Effect::Trail(sign) => put_trail(stack, waiting, sign),
        Effect::Pair(operator) => put_pair(stack, waiting, operator),
        Effect::Parentheses => put_parentheses(stack, waiting),
        Effect::Call { count, name } => put_call(stack, waiting, name, count),
        Effect::CallByName(count) => put_call_by_name(stack, waiting, count),
        Effect::Space(_) => Ok(()),
        Effect::Nothing => Ok(()),
    }
}

/// The operands so far, what waits, and what stands before the formula.
#[derive(Drop)]
struct State {
    stack: Stack,
    waiting: Waiting,
    front: String,
}

impl Model for State {
    ghost use Rattle.xls_formula_shown.specs.State.{State as Walked};

    ghost Value = { Walked };

    ghost use Rattle.xls_strings.specs.Texts.{text_of};

    ghost view = { λ s. record { operands = s.stack; waiting = s.waiting; front = text_of s.front } };
}

impl State {
    fn new(alloc: Global) -> Self
        ensures { result ≡ state.start }
    {
        State {
            stack: Stack::new(alloc),
            waiting: Waiting::new(alloc),
            front: String::new(alloc),
        }
    }

    fn clear(&mut self)
        ensures { self.new ≡ state.start }
    {
        self.stack.clear();
        self.waiting.clear();
        self.front.clear();
    }

    /// White space waits, behind what waits at its place.
    fn wait(&mut self, space: Space) -> Result<(), AllocError>
        ensures { OnOk result (self.new ≡ state.wait_at space.place (state.blanks space) self.old) }
    {
        match space.place {
            SpacePlace::Before => self.waiting.wait_before(space),
            SpacePlace::Closing => self.waiting.wait_closing(space),
            SpacePlace::Front => push_blanks(space, &mut self.front),
        }
    }

    /// What a token that writes leaves; nothing waits any more.
    fn put(&mut self, effect: Effect<'_>) -> Result<(), Fault>
        ensures { Leaves result self.new
            (gives (λ operands. state.written operands self.old) (fold.write (effect_of effect.entry) self.old.waiting self.old.operands)) }
    {
        put(&mut self.stack, &self.waiting, effect)?;
        self.waiting.clear();
        Ok(())
    }

    /// What a token leaves.
    fn change(&mut self, effect: Effect<'_>) -> Result<(), Fault>
        ensures { Leaves result self.new (fold.change (effect_of effect.entry) self.old) }
    {
        match effect {
            Effect::Space(space) => {
                self.wait(space)?;
                Ok(())
            }
            Effect::Nothing => Ok(()),
            Effect::Text(_) => self.put(effect),
            Effect::Name(_) => self.put(effect),
            Effect::Lead(_) => self.put(effect),
            Effect::Trail(_) => self.put(effect),
            Effect::Pair(_) => self.put(effect),
            Effect::Parentheses => self.put(effect),
            Effect::Call { .. } => self.put(effect),
            Effect::CallByName(_) => self.put(effect),
        }
    }

    /// The one operand behind what stands before the formula and before that a text, in place of what `out` holds. `leaf` is memory for
    /// both. No operand is left.
    fn write(&mut self, opening: &str, leaf: &mut String, out: &mut Vec<u8>) -> Result<(), Fault>
        ensures text { Tells (λ u. chars out.new.items) result (fold.whole (chars opening.now ++ self.old.front) self.old.operands) }
        ensures utf8 { IfOk result (λ u. IsUtf8 out.new.items) }
    {
        write_behind(leaf, opening, self.front.as_str())?;
        self.stack.write_text(leaf.as_str(), out)
    }
}

/// Writes two texts, in place of what `leaf` holds.
fn write_behind(leaf: &mut String, first: &str, second: &str) -> Result<(), AllocError>
    ensures { OnOk result (text_of leaf.new ≡ chars first.now ++ chars second.now) }
{
    empty(leaf);
    append(first, leaf)?;
    append(second, leaf)
}

/// The first token takes its extra bytes and changes what is there. Answers how many bytes of it stand after its first, and the extra bytes
/// behind its own.
fn step<'x>(
    alloc: Global,
    scope: &Scope<'_>,
    bytes: &[u8],
    extra: &'x [u8],
    state: &mut State,
    leaf: &mut String,
) -> Result<(usize, &'x [u8]), Fault>
    requires { 0 < length bytes.now }
    ensures step { StepsTo result state.new (step (scope_of scope.now) bytes.now extra.entry.now state.old) }
    ensures within { IfOk result (λ x. x.0 < length bytes.now) }
{
    let (ptg, more) = read_shown_ptg(bytes, scope.biff)?;
    let (done, left) = token_effect(alloc, scope, extra, ptg, leaf)?;
    state.change(done)?;
    Ok((more, left))
}

/// Each token in turn.
fn walk(
    alloc: Global,
    scope: &Scope<'_>,
    tokens: &[u8],
    extra: &[u8],
    state: &mut State,
    leaf: &mut String,
) -> Result<(), Fault>
    ensures { Leaves result state.new (fold.walk (scope_of scope.now) tokens.now 0 extra.now state.old) }
{
    let mut rest = tokens;
    let mut left = extra;
    'tokens: while !rest.is_empty() {
        let (more, behind) = step(alloc, scope, rest, left, state, leaf)?;
        left = behind;
        let (_, after) = rest.split_at(1);
        let (_, next) = after.split_at(more);
        rest = next;
    }
    Ok(())
}

/// Memory in which texts of formulas are made, one after the other.
#[derive(Drop)]
pub struct FormulaText {
    alloc: Global,
    state: State,
    /// The text of a leaf.
    leaf: String,
}

impl FormulaText {
    /// No text. Takes no memory.
    pub fn new(alloc: Global) -> Self {
        FormulaText {
            alloc,
            state: State::new(alloc),
            leaf: String::new(alloc),
        }
    }

    /// Writes the text of tokens, to which the extra bytes behind them belong, behind `opening` and in place of what `out` holds. Refuses what
    /// can't be spelled by its first fault, from left to right, or where memory runs out; then `out` holds whatever text there is.
    pub fn write(
        &mut self,
        scope: &Scope<'_>,
        opening: &str,
        tokens: &[u8],
        extra: &[u8],
        out: &mut Vec<u8>,
    ) -> Result<(), Fault>
        ensures text { Tells (λ u. chars out.new.items) result
            (gives (λ text. chars opening.now ++ text) (fold.shown_text (scope_of scope.now) tokens.now extra.now)) }
        ensures utf8 { IfOk result (λ u. IsUtf8 out.new.items) }
    {
        self.state.clear();
        walk(
            self.alloc,
            scope,
            tokens,
            extra,
            &mut self.state,
            &mut self.leaf,
        )?;
        self.state.write(opening, &mut self.leaf, out)
    }
}
