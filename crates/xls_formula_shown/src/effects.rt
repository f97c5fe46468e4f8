//! What each token does to the operands so far: one table of all tokens.

ghost use Rattle.std.specs.Prelude.{◌≡◌};
ghost use Rattle.std.specs.Str.{chars};
ghost use Rattle.std.specs.List.{slice_get};
ghost use Rattle.xls_strings.specs.Texts.{text_of};
ghost use Rattle.xls_ptg.specs.Readings.{ptg_of};
ghost use Rattle.xls_formula_names.specs.Commands.{command_name};
ghost use Rattle.xls_shown_ptg.specs.Reading.{shown_of};
ghost use Rattle.xls_shown_ptg.specs.declared.tokens.ShownPtg.TheVariants as shown;
ghost use Rattle.xls_formula_shown.specs.ShownEffects as effects;
ghost use Rattle.xls_formula_shown.specs.Scope.{scope_of};
ghost use Rattle.xls_formula_shown.specs.Steps.{Tells, effect_of};

use crate::leaves::{
    at_place, write_area, write_area3d, write_array, write_cell, write_err3d, write_int,
    write_name, write_name_x, write_number, write_ref3d, write_string,
};
use crate::scope::Scope;
use std::alloc::Global;
use xls_formula_leaves::{bool_text, error_text, operator_text};
use xls_formula_names::command_name;
use xls_ptg::{Corner, Ptg};
use xls_record::XlsError;
use xls_shown_ptg::{Fault, ShownPtg, Space, after_elf, after_mem_area, operand_count};

/// What a token does to the operands.
#[derive(Clone, Copy)]
pub(crate) enum Effect<'a> {
    /// An operand more.
    Text(&'a str),
    /// A name more.
    Name(&'a str),
    /// A sign before the last one.
    Lead(&'a str),
    /// A sign behind it.
    Trail(&'a str),
    /// An operator between the last two.
    Pair(&'a str),
    /// Parentheses around the last one.
    Parentheses,
    /// A call of so many of the last ones.
    Call { count: u8, name: &'a str },
    /// A call by the first of so many of the last ones.
    CallByName(u8),
    /// White space that waits.
    Space(Space),
    /// Nothing.
    Nothing,
}

/// The function of an index: its name and its count of operands in the table.
fn function_at<'a>(scope: &'a Scope<'_>, iftab: u16) -> Result<(&'a str, u8), Fault>
    ensures { Tells (λ f. (chars f.0.now, f.1)) result (effects.known iftab (slice_get (scope_of scope.now).functions iftab)) }
{
    let index = usize::from(iftab);
    match (scope.functions.name(index), scope.functions.argc(index)) {
        (Some(name), Some(count)) => Ok((name, count)),
        _ => Err(Fault::Xls(XlsError::IfTab(index))),
    }
}

/// A function with the table's count of operands (PtgFunc).
fn func<'a>(scope: &'a Scope<'_>, iftab: u16) -> Result<Effect<'a>, Fault>
    ensures { Tells effect_of result (effects.func (scope_of scope.now) iftab) }
{
    let (name, count) = function_at(scope, iftab)?;
    Ok(Effect::Call {
        count: operand_count(iftab, count),
        name,
    })
}

/// A function with a count of its own (PtgFuncVar).
fn func_var<'a>(scope: &'a Scope<'_>, count: u8, iftab: u16) -> Result<Effect<'a>, Fault>
    ensures { Tells effect_of result (effects.func_var (scope_of scope.now) count iftab) }
{
    let (name, _) = function_at(scope, iftab)?;
    Ok(Effect::Call { count, name })
}

/// A command of macro sheets.
fn command(count: u8, cetab: u16) -> Result<Effect<'static>, Fault>
    ensures { Tells effect_of result (effects.command count cetab) }
{
    match command_name(cetab) {
        Some(name) => Ok(Effect::Call { count, name }),
        None => Err(Fault::Xls(XlsError::IfTab(0x8000 + usize::from(cetab)))),
    }
}

/// A leaf whose text was written.
fn text_in(leaf: &String) -> Effect<'_>
    ensures { effect_of result ≡ effects.pushes (text_of leaf.now) }
{
    Effect::Text(leaf.as_str())
}

/// A name whose text was written.
fn name_in(leaf: &String) -> Effect<'_>
    ensures { effect_of result ≡ effects.names (text_of leaf.now) }
{
    Effect::Name(leaf.as_str())
}

/// What a token does that means in every reading what it means in one.
#[tactic(auto, unfolding(std::specs::Prelude::chars))]
fn known_effect<'a>(
    alloc: Global,
    scope: &'a Scope<'_>,
    ptg: Ptg<&[u8]>,
    leaf: &'a mut String,
) -> Result<Effect<'a>, Fault>
    ensures { Tells effect_of result (effects.known_effect (scope_of scope.now) (ptg_of ptg.entry)) }
{
    match ptg {
        Ptg::Binary(operator) => Ok(Effect::Pair(operator_text(operator))),
        Ptg::Uplus => Ok(Effect::Lead("+")),
        Ptg::Uminus => Ok(Effect::Lead("-")),
        Ptg::Percent => Ok(Effect::Trail("%")),
        Ptg::Paren => Ok(Effect::Parentheses),
        Ptg::MissArg => Ok(Effect::Text("")),
        Ptg::Str {
            units,
            cch,
            high_byte,
        } => {
            write_string(alloc, scope, high_byte, units, cch, leaf)?;
            Ok(text_in(leaf))
        }
        Ptg::AttrSum => Ok(Effect::Call {
            count: 1,
            name: "SUM",
        }),
        Ptg::Err(error) => Ok(Effect::Text(error_text(error))),
        Ptg::Bool(truth) => Ok(Effect::Text(bool_text(truth))),
        Ptg::Int(n) => {
            write_int(n, leaf)?;
            Ok(text_in(leaf))
        }
        Ptg::Num(bits) => {
            write_number(bits, leaf)?;
            Ok(text_in(leaf))
        }
        Ptg::Func { iftab } => func(scope, iftab),
        Ptg::FuncVar { count, iftab } => func_var(scope, count, iftab),
        Ptg::Name { index } => {
            write_name(scope, index, leaf)?;
            Ok(name_in(leaf))
        }
        Ptg::Ref(corner) => {
            write_cell(corner, leaf)?;
            Ok(text_in(leaf))
        }
        Ptg::Area { first, last } => {
            write_area(scope, first, last, leaf)?;
            Ok(text_in(leaf))
        }
        Ptg::RefErr => Ok(Effect::Text("#REF!")),
        Ptg::AreaErr => Ok(Effect::Text("#REF!")),
        Ptg::Exp => Ok(Effect::Nothing),
        Ptg::Elf => Ok(Effect::Nothing),
        Ptg::AttrSemi => Ok(Effect::Nothing),
        Ptg::AttrIf => Ok(Effect::Nothing),
        Ptg::AttrChoose => Ok(Effect::Nothing),
        Ptg::AttrGoto => Ok(Effect::Nothing),
        Ptg::AttrBaxcel => Ok(Effect::Nothing),
        Ptg::AttrSpace { .. } => Ok(Effect::Nothing),
        Ptg::AttrSpaceSemi { .. } => Ok(Effect::Nothing),
        Ptg::Array => Ok(Effect::Nothing),
        Ptg::NameX => Ok(Effect::Nothing),
        Ptg::Ref3d { .. } => Ok(Effect::Nothing),
        Ptg::Area3d { .. } => Ok(Effect::Nothing),
        Ptg::RefErr3d { .. } => Ok(Effect::Nothing),
        Ptg::AreaErr3d { .. } => Ok(Effect::Nothing),
    }
}

/// What a token without extra bytes does.
fn plain_effect<'a>(
    alloc: Global,
    scope: &'a Scope<'_>,
    ptg: ShownPtg<&[u8]>,
    leaf: &'a mut String,
) -> Result<Effect<'a>, Fault>
    ensures { Tells effect_of result (effects.plain_effect (scope_of scope.now) (shown_of ptg.entry)) }
{
    match ptg {
        ShownPtg::Known(token) => known_effect(alloc, scope, token, leaf),
        ShownPtg::AttrSpace(space) => Ok(Effect::Space(space)),
        ShownPtg::Command { count, cetab } => command(count, cetab),
        ShownPtg::UserFunc { count } => Ok(Effect::CallByName(count)),
        ShownPtg::RefN(corner) => {
            write_cell(at_place(scope, corner), leaf)?;
            Ok(text_in(leaf))
        }
        ShownPtg::AreaN { first, last } => {
            write_area(scope, at_place(scope, first), at_place(scope, last), leaf)?;
            Ok(text_in(leaf))
        }
        ShownPtg::NameX(link) => {
            write_name_x(scope, link, leaf)?;
            Ok(name_in(leaf))
        }
        ShownPtg::Ref3d { sheets, corner } => {
            write_ref3d(scope, sheets, corner, leaf)?;
            Ok(text_in(leaf))
        }
        ShownPtg::Area3d {
            sheets,
            first,
            last,
        } => {
            write_area3d(scope, sheets, first, last, leaf)?;
            Ok(text_in(leaf))
        }
        ShownPtg::Err3d(sheets) => {
            write_err3d(scope, sheets, leaf)?;
            Ok(text_in(leaf))
        }
        ShownPtg::Nothing => Ok(Effect::Nothing),
        ShownPtg::ElfRadicalS => Ok(Effect::Nothing),
        ShownPtg::MemArea => Ok(Effect::Nothing),
    }
}

/// What a token without extra bytes does, and the extra bytes, which it leaves.
fn with_extra<'a, 'x>(
    alloc: Global,
    scope: &'a Scope<'_>,
    extra: &'x [u8],
    ptg: ShownPtg<&[u8]>,
    leaf: &'a mut String,
) -> Result<(Effect<'a>, &'x [u8]), Fault>
    ensures { Tells (λ x. (effect_of x.0, x.1.now)) result
        (effects.with_extra extra.entry.now (effects.plain_effect (scope_of scope.now) (shown_of ptg.entry))) }
{
    let done = plain_effect(alloc, scope, ptg, leaf)?;
    Ok((done, extra))
}

/// What a token does that means in every reading what it means in one, and the extra bytes that it leaves.
fn known_with_extra<'a, 'x>(
    alloc: Global,
    scope: &'a Scope<'_>,
    extra: &'x [u8],
    ptg: Ptg<&[u8]>,
    leaf: &'a mut String,
) -> Result<(Effect<'a>, &'x [u8]), Fault>
    ensures { Tells (λ x. (effect_of x.0, x.1.now)) result
        (effects.effect (scope_of scope.now) extra.entry.now (shown.Known (ptg_of ptg.entry))) }
{
    match ptg {
        Ptg::Array => {
            let left = write_array(alloc, scope, extra, leaf)?;
            Ok((text_in(leaf), left))
        }
        _ => with_extra(alloc, scope, extra, ShownPtg::Known(ptg), leaf),
    }
}

/// What a token does, its text made in `leaf`, and the extra bytes that it leaves.
pub(crate) fn token_effect<'a, 'x>(
    alloc: Global,
    scope: &'a Scope<'_>,
    extra: &'x [u8],
    ptg: ShownPtg<&[u8]>,
    leaf: &'a mut String,
) -> Result<(Effect<'a>, &'x [u8]), Fault>
    ensures { Tells (λ x. (effect_of x.0, x.1.now)) result (effects.effect (scope_of scope.now) extra.entry.now (shown_of ptg.entry)) }
{
    match ptg {
        ShownPtg::Known(token) => known_with_extra(alloc, scope, extra, token, leaf),
        ShownPtg::ElfRadicalS => Ok((Effect::Nothing, after_elf(extra))),
        ShownPtg::MemArea => Ok((Effect::Nothing, after_mem_area(extra, scope.biff))),
        _ => with_extra(alloc, scope, extra, ptg, leaf),
    }
}
