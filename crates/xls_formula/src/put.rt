//! What each effect leaves of the texts of the operands.

ghost use Rattle.std.specs.Prelude.{◌≡◌, ◌≤◌, ◌<◌, length, replicate, MatchResult, Ok};
ghost use Rattle.std.specs.Str.{chars};
ghost use Rattle.xls_operands.specs.Pieces.{with_join, with_prefix};
ghost use Rattle.xls_formula.specs.Holding.{effect_of};
ghost use Rattle.xls_formula.specs.Words.{space_mark};
ghost use Rattle.xls_formula.specs.buffer.Put.{needs, put, with_call, with_wrap};
ghost use Rattle.xls_formula.specs.buffer.Steps.{Leaves};

use crate::effect::Effect;
use crate::words::{Word, ascii, space_mark};
use xls_biff::XlsError;
use xls_operands::Operands;

fn need(texts: &Operands, count: usize) -> Result<(), XlsError>
    ensures { MatchResult result (λ _. count ≤ length texts.now)
        (λ e. (e ≡ XlsError.StackLen) × (length texts.now < count)) }
{
    if texts.len() < count {
        return Err(XlsError::StackLen);
    }
    Ok(())
}

fn put_wrap(texts: &mut Operands, before: &str, after: &str) -> Result<(), XlsError>
    ensures { Leaves result texts.new
        (needs 1 texts.old (with_wrap (chars before.now) (chars after.now) texts.old)) }
{
    need(texts, 1)?; // what they stand around
    texts.put_before(before)?;
    texts.put_after(&Word::Plain(after))?;
    Ok(())
}

fn put_pair(texts: &mut Operands, operator: &str) -> Result<(), XlsError>
    ensures { Leaves result texts.new
        (needs 2 texts.old (with_join (chars operator.now) texts.old)) }
{
    need(texts, 2)?;
    texts.join(operator)?;
    Ok(())
}

/// Makes the last operands one call.
#[tactic(auto, unfolding(std::specs::Prelude::chars))]
fn put_call(texts: &mut Operands, name: &str, count: usize) -> Result<(), XlsError>
    requires { count ≤ length texts.old }
    ensures { Leaves result texts.new (Ok (with_call count (chars name.now) texts.old)) }
{
    if count == 0 {
        texts.push(&Word::Plain(name))?;
        texts.put_after(&Word::Plain("()"))?;
        return Ok(());
    }
    'commas: for i in 1..count {
        texts.join(",")?;
    }
    texts.put_before("(")?;
    texts.put_before(name)?;
    texts.put_after(&Word::Plain(")"))?;
    Ok(())
}

fn put_space(texts: &mut Operands, is_return: bool, count: u8) -> Result<(), XlsError>
    ensures { Leaves result texts.new
        (Ok (with_prefix (replicate count (space_mark is_return)) texts.old)) }
{
    let all = [space_mark(is_return); 255];
    let (marks, _) = all.split_at(usize::from(count));
    texts.put_before(ascii(marks))?;
    Ok(())
}

/// Puts what a token does. `StackLen` for too few operands.
pub(crate) fn put(texts: &mut Operands, effect: Effect<'_>) -> Result<(), XlsError>
    ensures { Leaves result texts.new (put (effect_of effect.entry) texts.old) }
{
    match effect {
        Effect::Pushes(word) => {
            texts.push(&word)?;
            Ok(())
        }
        Effect::Wraps { before, after } => put_wrap(texts, before, after),
        Effect::Pairs(operator) => put_pair(texts, operator),
        Effect::Calls { count, name } => {
            need(texts, usize::from(count))?;
            put_call(texts, name, usize::from(count))
        }
        Effect::Spaces { is_return, count } => put_space(texts, is_return, count),
        Effect::Keeps => Ok(()),
    }
}
