//! What each token does to the operands so far: one table of all tokens.

ghost use Rattle.std.specs.Prelude.{◌≡◌, ◌<◌, length, IfOk};
ghost use Rattle.std.specs.Str.{chars};
ghost use Rattle.xls_record.specs.Reading.{Exactly};
ghost use Rattle.xls_ptg.specs.Readings.{ptg_of};
ghost use Rattle.xls_formula.specs.Effects.{effect, effect_at, function_at};
ghost use Rattle.xls_formula.specs.Holding.{as_held, scope_context, effect_of};

use crate::scope::{Scope, defined_name, sheet_name};
use crate::words::{Word, bool_text, operator_text};
use xls_biff::XlsError;
use xls_ptg::{Ptg, read_ptg};

/// What a token does to the operands, borrowed from the token and from what a formula may name.
#[derive(Clone, Copy)]
pub enum Effect<'a> {
    /// An operand more.
    Pushes(Word<'a>),
    /// Texts around the last operand.
    Wraps { before: &'a str, after: &'a str },
    /// An operator between the last two.
    Pairs(&'a str),
    /// A call of so many of the last ones.
    Calls { count: u8, name: &'a str },
    /// So many spaces or returns before the last one, if there is one.
    Spaces { is_return: bool, count: u8 },
    /// Nothing.
    Keeps,
}

/// The function of an index: its name and the count of its operands.
fn function_at<'a>(scope: Scope<'a>, iftab: u16) -> Result<(&'a str, u8), XlsError>
    ensures { Exactly (λ f. (chars f.0.now, f.1)) result (function_at (scope_context scope.entry) iftab) }
{
    match scope.functions.get(usize::from(iftab)) {
        Some(function) => Ok(function),
        None => Err(XlsError::IfTab(usize::from(iftab))),
    }
}

/// What a token does. `IfTab` for a function outside the table.
#[tactic(auto, unfolding(std::specs::Prelude::chars))]
fn ptg_effect<'a>(scope: Scope<'a>, ptg: Ptg<&'a [u8]>) -> Result<Effect<'a>, XlsError>
    ensures { Exactly effect_of result (effect (scope_context scope.entry) (ptg_of ptg.entry)) }
{
    match ptg {
        Ptg::Exp => Ok(Effect::Pushes(Word::Plain(""))),
        Ptg::Binary(operator) => Ok(Effect::Pairs(operator_text(operator))),
        Ptg::Uplus => Ok(Effect::Wraps {
            before: "+",
            after: "",
        }),
        Ptg::Uminus => Ok(Effect::Wraps {
            before: "-",
            after: "",
        }),
        Ptg::Percent => Ok(Effect::Wraps {
            before: "",
            after: "%",
        }),
        Ptg::Paren => Ok(Effect::Wraps {
            before: "(",
            after: ")",
        }),
        Ptg::MissArg => Ok(Effect::Pushes(Word::Plain(""))),
        Ptg::AttrSum => Ok(Effect::Wraps {
            before: "SUM(",
            after: ")",
        }),
        Ptg::Str {
            units,
            cch,
            high_byte,
        } => Ok(Effect::Pushes(Word::Str {
            encoding: scope.encoding,
            high_byte,
            units,
            cch,
        })),
        Ptg::Elf => Ok(Effect::Keeps),
        Ptg::AttrSemi => Ok(Effect::Keeps),
        Ptg::AttrIf => Ok(Effect::Keeps),
        Ptg::AttrChoose => Ok(Effect::Keeps),
        Ptg::AttrGoto => Ok(Effect::Keeps),
        Ptg::AttrBaxcel => Ok(Effect::Keeps),
        Ptg::AttrSpace { is_return, count } => Ok(Effect::Spaces { is_return, count }),
        Ptg::AttrSpaceSemi { is_return, count } => Ok(Effect::Spaces { is_return, count }),
        Ptg::Err(error) => Ok(Effect::Pushes(Word::Err(error))),
        Ptg::Bool(truth) => Ok(Effect::Pushes(Word::Plain(bool_text(truth)))),
        Ptg::Int(n) => Ok(Effect::Pushes(Word::Int(n))),
        Ptg::Num(bits) => Ok(Effect::Pushes(Word::Num(scope.numbers, bits))),
        Ptg::Array => Ok(Effect::Pushes(Word::Plain("{PtgArray}"))),
        Ptg::Func { iftab } => {
            let (name, count) = function_at(scope, iftab)?;
            Ok(Effect::Calls { count, name })
        }
        Ptg::FuncVar { count, iftab } => {
            let (name, _) = function_at(scope, iftab)?;
            Ok(Effect::Calls { count, name })
        }
        Ptg::Name { index } => Ok(Effect::Pushes(Word::Plain(defined_name(scope, index)))),
        Ptg::Ref(corner) => Ok(Effect::Pushes(Word::Ref {
            sheet: None,
            corner,
        })),
        Ptg::Area { first, last } => Ok(Effect::Pushes(Word::Area {
            sheet: None,
            first,
            last,
        })),
        Ptg::RefErr => Ok(Effect::Pushes(Word::Plain("#REF!"))),
        Ptg::AreaErr => Ok(Effect::Pushes(Word::Plain("#REF!"))),
        Ptg::NameX => Ok(Effect::Pushes(Word::Plain("[PtgNameX]"))),
        Ptg::Ref3d { ixti, corner } => Ok(Effect::Pushes(Word::Ref {
            sheet: Some(sheet_name(scope, ixti)),
            corner,
        })),
        Ptg::Area3d { ixti, first, last } => Ok(Effect::Pushes(Word::Area {
            sheet: Some(sheet_name(scope, ixti)),
            first,
            last,
        })),
        Ptg::RefErr3d { ixti } => Ok(Effect::Pushes(Word::Err3d(sheet_name(scope, ixti)))),
        Ptg::AreaErr3d { ixti } => Ok(Effect::Pushes(Word::Err3d(sheet_name(scope, ixti)))),
    }
}

/// What the first token does, and how many bytes of it stand after its first. `Len`, `Unrecognized`
/// and `Etpg` exactly where its bytes or a code table refuse it, then `IfTab` for a function outside
/// the table; the operands are not looked at. Takes no memory.
pub fn read_effect<'a>(bytes: &'a [u8], scope: Scope<'a>) -> Result<(Effect<'a>, usize), XlsError>
    requires { 0 < length bytes.now }
    ensures exact { Exactly as_held result (effect_at (scope_context scope.entry) bytes.now) }
    ensures within { IfOk result (λ x. x.1 < length bytes.now) }
{
    let (ptg, more) = read_ptg(bytes, scope.biff)?;
    let effect = ptg_effect(scope, ptg)?;
    Ok((effect, more))
}
