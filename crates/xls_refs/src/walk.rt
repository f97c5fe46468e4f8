//! The cells that the tokens of a formula cite, in order, repeats too.

ghost use Rattle.std.specs.Prelude.{◌≡◌, ◌++◌, ◌∷◌, [], ◌≤◌, ◌+◌, ◌<◌, ◌^◌, IfOk, OnOk, map};
ghost use Rattle.std.specs.Option.{option_map};
ghost use Rattle.xls_record.specs.Reading.{Exactly, Gives};
ghost use Rattle.xls_ptg.specs.Cites.{position_of};
ghost use Rattle.xls_formula.specs.Fold.{walk_tokens};
ghost use Rattle.xls_formula.specs.Holding.{scope_context, effect_of, tree_of};
ghost use Rattle.xls_meaning.specs.Order.{somes};
ghost use Rattle.xls_refs.specs.Citations.{leaves};
ghost use Rattle.xls_refs.specs.Steps.{joined, key_cite, leaves_at, leaves_of, tally};

use std::alloc::{AllocError, Global};
use xls_biff::XlsError;
use xls_formula::{Effect, Scope, Word, read_effect, tokens_of};
use xls_ptg::Corner;

/// Cells that an operand cites: the name of their sheet, where it has one, the first and the last.
pub(crate) type Cells<'a> = (Option<&'a str>, (u32, u32), (u32, u32));

fn position(corner: Corner) -> (u32, u32)
    ensures { result ≡ position_of corner }
{
    (u32::from(corner.row), u32::from(corner.column))
}

/// The cells that an operand cites, if it does.
fn cells_of<'a>(operand: Word<'a>) -> Option<Cells<'a>>
    ensures { somes (option_map key_cite result ∷ []) ≡ leaves (tree_of operand.entry) }
{
    match operand {
        Word::Ref { sheet, corner } => Some((sheet, position(corner), position(corner))),
        Word::Area { sheet, first, last } => Some((sheet, position(first), position(last))),
        _ => None,
    }
}

/// Puts the cells that an operand cites to the end.
fn push_cells<'a>(cites: &mut Vec<Cells<'a>>, operand: Word<'a>) -> Result<(), AllocError>
    ensures { OnOk result (map key_cite cites.new.items
        ≡ map key_cite cites.old.items ++ leaves (tree_of operand.entry)) }
{
    if let Some(cells) = cells_of(operand) {
        cites.push(cells)?;
    }
    Ok(())
}

/// How many operands there are where the last of so many become one.
fn join(count: usize, taken: usize) -> Result<usize, XlsError>
    requires { count < 2 ^ 63 }
    ensures exact { Exactly (λ n. n) result (joined taken count) }
    ensures within { IfOk result (λ n. n ≤ count + 1) }
{
    match count.checked_sub(taken) {
        Some(left) => Ok(left + 1),
        None => Err(XlsError::StackLen),
    }
}

/// How many operands there are after a token, where there are so many before it. What it cites is put
/// to the end.
fn tally<'a>(
    count: usize,
    cites: &mut Vec<Cells<'a>>,
    effect: Effect<'a>,
) -> Result<usize, XlsError>
    requires { count < 2 ^ 63 }
    ensures exact { Gives (λ n. (n, map key_cite cites.new.items)) result
        (tally (effect_of effect.entry) (count, map key_cite cites.old.items)) }
    ensures within { IfOk result (λ n. n ≤ count + 1) }
{
    match effect {
        Effect::Pushes(operand) => {
            push_cells(cites, operand)?;
            Ok(count + 1)
        }
        Effect::Wraps { .. } => join(count, 1),
        Effect::Pairs(_) => join(count, 2),
        Effect::Calls { count: taken, .. } => join(count, usize::from(taken)),
        Effect::Spaces { .. } => Ok(count),
        Effect::Keeps => Ok(count),
    }
}

/// How many operands the tokens leave. What they cite is put to the end.
fn tally_all<'a>(
    cites: &mut Vec<Cells<'a>>,
    tokens: &'a [u8],
    scope: Scope<'a>,
) -> Result<usize, XlsError>
    ensures { Gives (λ n. (n, map key_cite cites.new.items)) result
        (walk_tokens (scope_context scope.entry) tally tokens.now 0 (0, map key_cite cites.old.items)) }
{
    let mut count = 0;
    let mut rest = tokens;
    'tokens: while !rest.is_empty() {
        let (effect, more) = read_effect(rest, scope)?;
        count = tally(count, cites, effect)?;
        let (_, after) = rest.split_at(1);
        let (_, next) = after.split_at(more);
        rest = next;
    }
    Ok(count)
}

/// What the tokens cite, where exactly one operand is left after them.
fn cells_of_tokens<'a>(
    alloc: Global,
    tokens: &'a [u8],
    scope: Scope<'a>,
) -> Result<Vec<Cells<'a>>, XlsError>
    ensures { Gives (λ v. map key_cite v.items) result (leaves_of (scope_context scope.entry) tokens.now) }
{
    let mut cites = Vec::new(alloc);
    let count = tally_all(&mut cites, tokens, scope)?;
    if count != 1 {
        return Err(XlsError::InvalidFormula { stack_size: count });
    }
    Ok(cites)
}

/// What a formula cites, or its refusal.
pub(crate) fn cited_cells<'a>(
    alloc: Global,
    rgce: &'a [u8],
    scope: Scope<'a>,
) -> Result<Vec<Cells<'a>>, XlsError>
    ensures { Gives (λ v. map key_cite v.items) result (leaves_at (scope_context scope.entry) rgce.now) }
{
    let tokens = tokens_of(rgce)?;
    cells_of_tokens(alloc, tokens, scope)
}
