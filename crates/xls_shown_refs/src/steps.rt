//! What tokens do to the number of operands, and which extra bytes they take.

ghost use Rattle.std.specs.Prelude.{◌≡◌, ◌<◌, ◌≤◌, ◌+◌, ◌*◌, ◌^◌, IfOk, length};
ghost use Rattle.std.specs.Option.{option_map};
ghost use Rattle.std.specs.Prelude.{slice_get};
ghost use Rattle.xls_ptg.specs.Readings.{ptg_of};
ghost use Rattle.xls_formula_shown.specs.ShownEffects.{known};
ghost use Rattle.xls_shown_ptg.specs.Arrays.{sers_at};
ghost use Rattle.xls_shown_ptg.specs.Reading.{Exactly, gives, shown_of};
ghost use Rattle.xls_shown_refs.specs.Counts as specs;
ghost use Rattle.xls_shown_refs.specs.Spelled.{functions as all_functions};

use xls_formula::FunctionTable;
use xls_formula_names::command_name;
use xls_ptg::Ptg;
use xls_record::{Biff, XlsError};
use xls_shown_ptg::{
    ArraySize, Fault, ShownPtg, after_elf, after_mem_area, operand_count, read_array_size,
    read_ser_ar,
};

/// What a token does to the number of operands.
#[derive(Clone, Copy, Debug, PartialEq, Eq)]
pub(crate) enum Step {
    /// Nothing.
    Keeps,
    /// So many of the last ones become one; of none there is one more.
    Makes(u8),
}

impl Step {
    /// How many operands there are then.
    pub(crate) fn count_after(self, count: usize) -> Result<usize, Fault>
        requires { count < 2 ^ 63 }
        ensures exact { Exactly (λ n. n) result (specs.stepped self count) }
        ensures within { IfOk result (λ n. n ≤ count + 1) }
    {
        let Step::Makes(taken) = self else {
            return Ok(count);
        };
        match count.checked_sub(usize::from(taken)) {
            Some(left) => Ok(left + 1),
            None => Err(Fault::Xls(XlsError::StackLen)),
        }
    }
}

/// The count of operands of a function; `IfTab` for one outside the table.
fn argc(functions: &FunctionTable, iftab: u16) -> Result<u8, Fault>
    ensures { Exactly (λ n. n) result (gives (λ f. f.1) (known iftab (slice_get functions.now iftab))) }
{
    match functions.argc(usize::from(iftab)) {
        Some(count) => Ok(count),
        None => Err(Fault::Xls(XlsError::IfTab(usize::from(iftab)))),
    }
}

/// 21 (PtgFunc).
fn func_step(functions: &FunctionTable, iftab: u16) -> Result<Step, Fault>
    requires { functions.now ≡ all_functions }
    ensures { Exactly (λ s. s) result (specs.func_step iftab) }
{
    let count = argc(functions, iftab)?;
    Ok(Step::Makes(operand_count(iftab, count)))
}

/// 22 (PtgFuncVar).
fn func_var_step(functions: &FunctionTable, count: u8, iftab: u16) -> Result<Step, Fault>
    requires { functions.now ≡ all_functions }
    ensures { Exactly (λ s. s) result (specs.func_var_step count iftab) }
{
    argc(functions, iftab)?;
    Ok(Step::Makes(count))
}

/// 22 with a command of macro sheets.
fn command_step(count: u8, cetab: u16) -> Result<Step, Fault>
    ensures { Exactly (λ s. s) result (specs.command_step count cetab) }
{
    match command_name(cetab) {
        Some(_) => Ok(Step::Makes(count)),
        None => Err(Fault::Xls(XlsError::IfTab(0x8000 + usize::from(cetab)))),
    }
}

/// 22 with the name of the function as the first operand.
fn user_step(count: u8) -> Result<Step, Fault>
    ensures { Exactly (λ s. s) result (specs.user_step count) }
{
    if count == 0 {
        return Err(Fault::Xls(XlsError::StackLen));
    }
    Ok(Step::Makes(count))
}

/// A token that means what it means in every reading.
fn known_step(functions: &FunctionTable, ptg: Ptg<&[u8]>) -> Result<Step, Fault>
    requires { functions.now ≡ all_functions }
    ensures { Exactly (λ s. s) result (specs.known_step (ptg_of ptg.entry)) }
{
    match ptg {
        Ptg::Binary(_) => Ok(Step::Makes(2)),
        Ptg::Uplus | Ptg::Uminus | Ptg::Percent | Ptg::Paren | Ptg::AttrSum => Ok(Step::Makes(1)),
        Ptg::Func { iftab } => func_step(functions, iftab),
        Ptg::FuncVar { count, iftab } => func_var_step(functions, count, iftab),
        Ptg::MissArg
        | Ptg::Str { .. }
        | Ptg::Err(_)
        | Ptg::Bool(_)
        | Ptg::Int(_)
        | Ptg::Num(_)
        | Ptg::Name { .. }
        | Ptg::Ref(_)
        | Ptg::Area { .. }
        | Ptg::RefErr
        | Ptg::AreaErr => Ok(Step::Makes(0)),
        Ptg::Exp
        | Ptg::Elf
        | Ptg::AttrSemi
        | Ptg::AttrIf
        | Ptg::AttrChoose
        | Ptg::AttrGoto
        | Ptg::AttrBaxcel
        | Ptg::AttrSpace { .. }
        | Ptg::AttrSpaceSemi { .. }
        | Ptg::Array
        | Ptg::NameX
        | Ptg::Ref3d { .. }
        | Ptg::Area3d { .. }
        | Ptg::RefErr3d { .. }
        | Ptg::AreaErr3d { .. } => Ok(Step::Keeps),
    }
}

/// A token that takes no extra bytes.
fn plain_step(functions: &FunctionTable, token: ShownPtg<&[u8]>) -> Result<Step, Fault>
    requires { functions.now ≡ all_functions }
    ensures { Exactly (λ s. s) result (specs.plain_step (shown_of token.entry)) }
{
    match token {
        ShownPtg::Known(ptg) => known_step(functions, ptg),
        ShownPtg::Command { count, cetab } => command_step(count, cetab),
        ShownPtg::UserFunc { count } => user_step(count),
        ShownPtg::RefN(_)
        | ShownPtg::AreaN { .. }
        | ShownPtg::NameX(_)
        | ShownPtg::Ref3d { .. }
        | ShownPtg::Area3d { .. }
        | ShownPtg::Err3d(_) => Ok(Step::Makes(0)),
        _ => Ok(Step::Keeps),
    }
}

fn value_count(size: ArraySize) -> u32
    requires columns { size.columns ≤ 256 }
    requires rows { size.rows ≤ 65536 }
    ensures { result ≡ size.columns * size.rows }
{
    u32::from(size.columns) * size.rows
}

/// What stands behind so many values.
fn behind_values(biff: Biff, count: u32, bytes: &[u8]) -> Result<&[u8], Fault>
    ensures { Exactly (λ left. left.now) result (gives (λ x. x.1) (sers_at biff count bytes.now)) }
{
    let mut left = bytes;
    'values: for i in 0..count {
        let (_, rest) = read_ser_ar(left, biff)?;
        left = rest;
    }
    Ok(left)
}

/// What stands behind the constant array that extra bytes begin with.
fn behind_array(biff: Biff, extra: &[u8]) -> Result<&[u8], Fault>
    ensures { Exactly (λ left. left.now) result (specs.behind_array biff extra.now) }
{
    let (size, values) = read_array_size(extra, biff)?;
    behind_values(biff, value_count(size), values)
}

/// What a token does, and the extra bytes that it leaves.
pub(crate) fn token_step<'e>(
    functions: &FunctionTable,
    biff: Biff,
    extra: &'e [u8],
    token: ShownPtg<&[u8]>,
) -> Result<(Step, &'e [u8]), Fault>
    requires { functions.now ≡ all_functions }
    ensures { Exactly (λ x. (x.0, x.1.now)) result (specs.token_step biff extra.entry.now (shown_of token.entry)) }
{
    match token {
        ShownPtg::Known(Ptg::Array) => Ok((Step::Makes(0), behind_array(biff, extra)?)),
        ShownPtg::ElfRadicalS => Ok((Step::Keeps, after_elf(extra))),
        ShownPtg::MemArea => Ok((Step::Keeps, after_mem_area(extra, biff))),
        _ => Ok((plain_step(functions, token)?, extra)),
    }
}
