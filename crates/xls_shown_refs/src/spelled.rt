//! Whether a formula can be spelled.

ghost use Rattle.std.specs.Prelude.{◌≡◌};
ghost use Rattle.xls_shown_ptg.specs.Reading.{Exactly};
ghost use Rattle.xls_shown_refs.specs.Counts.{counted};
ghost use Rattle.xls_shown_refs.specs.Spelled.{functions as all_functions, is_spelled};

use crate::steps::token_step;
use xls_formula::FunctionTable;
use xls_record::Biff;
use xls_shown_ptg::{Fault, read_shown_ptg};

/// How many operands the tokens of a formula leave.
fn operand_count(
    functions: &FunctionTable,
    biff: Biff,
    tokens: &[u8],
    extra: &[u8],
) -> Result<usize, Fault>
    requires { functions.now ≡ all_functions }
    ensures { Exactly (λ n. n) result (counted biff tokens.now 0 extra.now 0) }
{
    let mut count = 0;
    let mut rest = tokens;
    let mut left = extra;
    'tokens: while !rest.is_empty() {
        let (token, more) = read_shown_ptg(rest, biff)?;
        let (step, behind) = token_step(functions, biff, left, token)?;
        count = step.count_after(count)?;
        left = behind;
        let (_, after) = rest.split_at(1);
        let (_, next) = after.split_at(more);
        rest = next;
    }
    Ok(count)
}

/// Whether a formula can be spelled as Excel shows it, by its tokens and the extra bytes behind them: one operand is left. Takes no memory.
pub(crate) fn is_spelled(functions: &FunctionTable, biff: Biff, tokens: &[u8], extra: &[u8]) -> bool
    requires { functions.now ≡ all_functions }
    ensures { result ≡ is_spelled biff tokens.now extra.now }
{
    let Ok(count) = operand_count(functions, biff, tokens, extra) else {
        return false;
    };
    count == 1
}
