//! What the tokens that write leave of the operands, under the white space that waits.

ghost use Rattle.std.specs.Prelude.{◌≡◌, ◌<◌, ◌≤◌, ◌++◌, codes, length, MatchResult, OnOk, true};
ghost use Rattle.std.specs.Str.{chars};
ghost use Rattle.xls_formula_shown.specs.ShownEffects.{calls, calls_by_name, encloses, leads, names, pairs, pushes, trails};
ghost use Rattle.xls_formula_shown.specs.ShownFold.{too_few, write};
ghost use Rattle.xls_formula_shown.specs.State.{all_of};
ghost use Rattle.xls_formula_shown.specs.Steps.{Leaves, changed, gathered};

use crate::stack::Stack;
use crate::waiting::Waiting;
use std::alloc::AllocError;
use xls_record::XlsError;
use xls_shown_ptg::Fault;

fn need(stack: &Stack, count: usize) -> Result<(), Fault>
    ensures { MatchResult result (λ _. count ≤ length stack.now)
        (λ e. (e ≡ too_few) × (length stack.now < count)) }
{
    if stack.len() < count {
        return Err(Fault::Xls(XlsError::StackLen));
    }
    Ok(())
}

/// Puts all white space that waits before the last operand.
#[tactic(auto, using(crate::proofs::PutLemmas::before_twice))]
fn put_all_before(stack: &mut Stack, waiting: &Waiting) -> Result<(), AllocError>
    requires { 0 < length stack.old }
    ensures { OnOk result (stack.new ≡ changed (λ t. all_of waiting.now ++ t) stack.old) }
{
    stack.put_before(waiting.closing())?;
    stack.put_before(waiting.before())
}

/// Puts it behind.
#[tactic(auto, using(crate::proofs::PutLemmas::after_twice))]
fn put_all_after(stack: &mut Stack, waiting: &Waiting) -> Result<(), AllocError>
    requires { 0 < length stack.old }
    ensures { OnOk result (stack.new ≡ changed (λ t. t ++ all_of waiting.now) stack.old) }
{
    stack.put_after(waiting.before())?;
    stack.put_after(waiting.closing())
}

/// Puts white space before the last operand, and the parenthesis that closes it behind.
#[tactic(auto, unfolding(std::specs::Prelude::chars), using(crate::proofs::PutLemmas::closed_thrice))]
fn close(stack: &mut Stack, waiting: &Waiting) -> Result<(), AllocError>
    requires { 0 < length stack.old }
    ensures { OnOk result (stack.new
        ≡ changed (λ t. waiting.now.before ++ (t ++ (waiting.now.closing ++ codes ")"))) stack.old) }
{
    stack.put_before(waiting.before())?;
    stack.put_after(waiting.closing())?;
    stack.put_after(")")?;
    Ok(())
}

/// Makes so many of the last operands one, with commas between them; of none an empty text.
#[tactic(auto, unfolding(std::specs::Prelude::chars))]
fn gather(stack: &mut Stack, count: usize) -> Result<(), AllocError>
    requires { count ≤ length stack.old }
    ensures { OnOk result (stack.new ≡ gathered count stack.old) }
{
    if count == 0 {
        return stack.push("");
    }
    'commas: for i in 1..count {
        stack.join(",")?;
    }
    stack.put_before("")?;
    Ok(())
}

pub(crate) fn put_text(stack: &mut Stack, waiting: &Waiting, text: &str) -> Result<(), Fault>
    ensures { Leaves result stack.new (write (pushes (chars text.now)) waiting.now stack.old) }
{
    stack.push(text)?;
    put_all_before(stack, waiting)?;
    Ok(())
}

pub(crate) fn put_name(stack: &mut Stack, waiting: &Waiting, name: &str) -> Result<(), Fault>
    ensures { Leaves result stack.new (write (names (chars name.now)) waiting.now stack.old) }
{
    stack.push_named(waiting.before(), waiting.closing(), name)?;
    Ok(())
}

pub(crate) fn put_lead(stack: &mut Stack, waiting: &Waiting, sign: &str) -> Result<(), Fault>
    ensures { Leaves result stack.new (write (leads (chars sign.now)) waiting.now stack.old) }
{
    need(stack, 1)?;
    stack.put_before(sign)?;
    put_all_before(stack, waiting)?;
    Ok(())
}

pub(crate) fn put_trail(stack: &mut Stack, waiting: &Waiting, sign: &str) -> Result<(), Fault>
    ensures { Leaves result stack.new (write (trails (chars sign.now)) waiting.now stack.old) }
{
    need(stack, 1)?;
    put_all_after(stack, waiting)?;
    stack.put_after(sign)?;
    Ok(())
}

#[tactic(auto, unfolding(std::specs::Prelude::chars))]
pub(crate) fn put_pair(stack: &mut Stack, waiting: &Waiting, operator: &str) -> Result<(), Fault>
    ensures { Leaves result stack.new (write (pairs (chars operator.now)) waiting.now stack.old) }
{
    need(stack, 2)?;
    stack.put_before(operator)?;
    put_all_before(stack, waiting)?;
    stack.join("")?;
    Ok(())
}

#[tactic(auto, unfolding(std::specs::Prelude::chars))]
pub(crate) fn put_parentheses(stack: &mut Stack, waiting: &Waiting) -> Result<(), Fault>
    ensures { Leaves result stack.new (write encloses waiting.now stack.old) }
{
    need(stack, 1)?;
    stack.put_before("(")?;
    close(stack, waiting)?;
    Ok(())
}

/// A call of so many of the last operands.
#[tactic(auto, unfolding(std::specs::Prelude::chars))]
fn put_call_of(stack: &mut Stack, waiting: &Waiting, name: &str, count: usize) -> Result<(), Fault>
    ensures { Leaves result stack.new (write (calls count (chars name.now)) waiting.now stack.old) }
{
    need(stack, count)?;
    gather(stack, count)?;
    stack.put_before("(")?;
    stack.put_before(name)?;
    close(stack, waiting)?;
    Ok(())
}

/// The same where the first of them is the name.
#[tactic(auto, unfolding(std::specs::Prelude::chars))]
fn put_call_by_first(stack: &mut Stack, waiting: &Waiting, count: usize) -> Result<(), Fault>
    ensures { Leaves result stack.new (write (calls_by_name count) waiting.now stack.old) }
{
    if count == 0 {
        return Err(Fault::Xls(XlsError::StackLen));
    }
    need(stack, count)?;
    gather(stack, count - 1)?;
    stack.join_called("(")?;
    close(stack, waiting)?;
    Ok(())
}

pub(crate) fn put_call(
    stack: &mut Stack,
    waiting: &Waiting,
    name: &str,
    count: u8,
) -> Result<(), Fault>
    ensures { Leaves result stack.new (write (calls count (chars name.now)) waiting.now stack.old) }
{
    put_call_of(stack, waiting, name, usize::from(count))
}

pub(crate) fn put_call_by_name(stack: &mut Stack, waiting: &Waiting, count: u8) -> Result<(), Fault>
    ensures { Leaves result stack.new (write (calls_by_name count) waiting.now stack.old) }
{
    put_call_by_first(stack, waiting, usize::from(count))
}
