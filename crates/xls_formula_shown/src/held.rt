//! What operands lie as on a stack of texts.

ghost use Rattle.std.specs.Prelude.{◌≡◌, ◌≤◌, ◌<◌, ◌∷◌, ◌++◌, drop, length, reverse, IfOk, IsUtf8, OnOk};
ghost use Rattle.std.specs.Str.{chars};
ghost use Rattle.xls_formula_names.specs.Tables.{lent_text};
ghost use Rattle.xls_formula_shown.specs.Held.{AreHeld, SplitsMarks, Stands, marks_text, operand_of, operands_of, size};
ghost use Rattle.xls_formula_shown.specs.ShownFold.{behind_text, named, whole};
ghost use Rattle.xls_formula_shown.specs.State.{alike};
ghost use Rattle.xls_formula_shown.specs.Steps.{Tells, changed, joined, text_as};

use std::alloc::AllocError;
use xls_formula::Word;
use xls_operands::Operands;
use xls_record::XlsError;
use xls_shown_ptg::Fault;

/// What a name begins with that isn't shown where it is called: the marks of functions that came later.
#[derive(Clone, Copy)]
pub(crate) enum Marks {
    Neither,
    Xlfn,
    Xlws,
    Both,
}

/// What an operand lies as.
#[derive(Clone, Copy)]
pub(crate) enum Held {
    /// One text, which is shown alike wherever it stands.
    Alike,
    /// White space, and above it a name without its marks, which stand between them unless the name is called.
    Named(Marks),
}

#[tactic(auto, unfolding(std::specs::Prelude::chars))]
pub(crate) fn marks_text(marks: Marks) -> &'static str
    ensures { chars result.now ≡ marks_text marks }
{
    match marks {
        Marks::Neither => "",
        Marks::Xlfn => "_xlfn.",
        Marks::Xlws => "_xlws.",
        Marks::Both => "_xlfn._xlws.",
    }
}

/// What stands behind a text at the beginning of another.
fn behind_text<'a>(prefix: &str, name: &'a str) -> Option<&'a str>
    ensures { lent_text result ≡ behind_text (chars prefix.now) (chars name.now) }
{
    name.strip_prefix(prefix)
}

/// The marks that a name begins with, and what stands behind them.
#[tactic(auto, unfolding(std::specs::Prelude::chars))]
pub(crate) fn split_marks(name: &str) -> (Marks, &str)
    ensures { SplitsMarks result.0 (chars result.1.now) (chars name.now) }
{
    match behind_text("_xlfn.", name) {
        Some(rest) => match behind_text("_xlws.", rest) {
            Some(last) => (Marks::Both, last),
            None => (Marks::Xlfn, rest),
        },
        None => match behind_text("_xlws.", name) {
            Some(rest) => (Marks::Xlws, rest),
            None => (Marks::Neither, name),
        },
    }
}

/// Makes the texts of the operand on top one: as it is shown, or as it is shown where it is called.
#[tactic(auto, unfolding(std::specs::Prelude::chars))]
fn join_held(texts: &mut Operands, held: Held, is_called: bool) -> Result<(), AllocError>
    requires { size held ≤ length texts.old }
    ensures { OnOk result (texts.new ≡ text_as is_called (operand_of held texts.old) ∷ drop (size held) texts.old) }
{
    match held {
        Held::Alike => Ok(()),
        Held::Named(_) if is_called => texts.join(""),
        Held::Named(marks) => texts.join(marks_text(marks)),
    }
}

/// An operand more.
pub(crate) fn push_alike(
    texts: &mut Operands,
    held: &mut Vec<Held>,
    text: &str,
) -> Result<(), AllocError>
    requires { AreHeld (reverse held.old.items) texts.old }
    ensures { OnOk result (Stands held.new.items texts.new
        (alike (chars text.now) ∷ operands_of (reverse held.old.items) texts.old)) }
{
    held.push(Held::Alike)?;
    texts.push(&Word::Plain(text))
}

/// A name more, behind white space.
pub(crate) fn push_named(
    texts: &mut Operands,
    held: &mut Vec<Held>,
    before: &str,
    closing: &str,
    name: &str,
) -> Result<(), AllocError>
    requires { AreHeld (reverse held.old.items) texts.old }
    ensures { OnOk result (Stands held.new.items texts.new
        (named (chars before.now ++ chars closing.now) (chars name.now) ∷ operands_of (reverse held.old.items) texts.old)) }
{
    let (marks, rest) = split_marks(name);
    held.push(Held::Named(marks))?;
    texts.push(&Word::Plain(before))?;
    texts.put_after(&Word::Plain(closing))?;
    texts.push(&Word::Plain(rest))
}

/// Puts a mark before the last operand.
pub(crate) fn put_before(
    texts: &mut Operands,
    held: &mut Vec<Held>,
    mark: &str,
) -> Result<(), AllocError>
    requires sound { AreHeld (reverse held.old.items) texts.old }
    requires some { 0 < length held.old.items }
    ensures { OnOk result (Stands held.new.items texts.new
        (changed (λ t. chars mark.now ++ t) (operands_of (reverse held.old.items) texts.old))) }
{
    if let Some(last) = held.pop() {
        join_held(texts, last, false)?;
        texts.put_before(mark)?;
        held.push(Held::Alike)?;
    }
    Ok(())
}

/// Puts a mark behind the last operand.
pub(crate) fn put_after(
    texts: &mut Operands,
    held: &mut Vec<Held>,
    mark: &str,
) -> Result<(), AllocError>
    requires sound { AreHeld (reverse held.old.items) texts.old }
    requires some { 0 < length held.old.items }
    ensures { OnOk result (Stands held.new.items texts.new
        (changed (λ t. t ++ chars mark.now) (operands_of (reverse held.old.items) texts.old))) }
{
    if let Some(last) = held.pop() {
        join_held(texts, last, false)?;
        texts.put_after(&Word::Plain(mark))?;
        held.push(Held::Alike)?;
    }
    Ok(())
}

/// Makes the last two operands one, with a mark between them.
pub(crate) fn join(
    texts: &mut Operands,
    held: &mut Vec<Held>,
    mark: &str,
    is_called: bool,
) -> Result<(), AllocError>
    requires sound { AreHeld (reverse held.old.items) texts.old }
    requires some { 1 < length held.old.items }
    ensures { OnOk result (Stands held.new.items texts.new
        (joined is_called (chars mark.now) (operands_of (reverse held.old.items) texts.old))) }
{
    if let Some(right) = held.pop() {
        if let Some(left) = held.pop() {
            join_held(texts, right, false)?;
            texts.join(mark)?;
            join_held(texts, left, is_called)?;
            held.push(Held::Alike)?;
        }
    }
    Ok(())
}

/// The operand where there is one alone, behind white space and in place of what `out` holds. `InvalidFormula` with their number where
/// there is another.
#[tactic(auto, using(crate::proofs::HeldLemmas::not_alone))]
pub(crate) fn write_alone(
    texts: &mut Operands,
    held: &mut Vec<Held>,
    front: &str,
    out: &mut Vec<u8>,
) -> Result<(), Fault>
    requires { AreHeld (reverse held.old.items) texts.old }
    ensures text { Tells (λ u. chars out.new.items) result
        (whole (chars front.now) (operands_of (reverse held.old.items) texts.old)) }
    ensures utf8 { IfOk result (λ u. IsUtf8 out.new.items) }
{
    if held.len() != 1 {
        return Err(Fault::Xls(XlsError::InvalidFormula {
            stack_size: held.len(),
        }));
    }
    if let Some(last) = held.pop() {
        join_held(texts, last, false)?;
        texts.put_before(front)?;
        texts.write_text(out)?;
    }
    Ok(())
}
