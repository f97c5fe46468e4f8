//! What a formula may name.

ghost use Rattle.std.specs.Prelude.{◌≡◌, slice_get};
ghost use Rattle.std.specs.Str.{chars};
ghost use Rattle.xls_formula.specs.Context.{name_text, numbered_sheet, sheet_text};
ghost use Rattle.xls_formula.specs.Holding.{scope_context};

use crate::functions::FunctionTable;
use crate::names::Names;
use crate::numbers::NumberStyle;
use xls_biff::{Biff, Refs, Strings};
use xls_text::XlsEncoding;

/// The lists that a formula names things by, the code page, the version, and how it shows doubles.
#[derive(Clone, Copy)]
pub struct Scope<'a> {
    pub sheets: &'a Strings,
    pub names: &'a Names,
    pub refs: &'a Refs,
    pub encoding: XlsEncoding,
    pub biff: Biff,
    pub functions: &'a FunctionTable,
    pub numbers: NumberStyle,
}

/// The name of the sheet whose number a reference holds, and `#REF` where either is missing or
/// negative. Takes no memory.
#[tactic(auto, unfolding(std::specs::Prelude::chars))]
pub fn sheet_of_reference<'a>(sheets: &'a Strings, refs: &Refs, index: usize) -> &'a str
    ensures { chars result.now ≡ numbered_sheet sheets.now (slice_get refs.now index) }
{
    match refs.first(index) {
        Some(first) if first >= 0 => match sheets.get(first as usize) {
            Some(name) => name,
            None => "#REF",
        },
        _ => "#REF",
    }
}

/// The same of an index in a token.
pub(crate) fn sheet_name<'a>(scope: Scope<'a>, index: u16) -> &'a str
    ensures { chars result.now ≡ sheet_text (scope_context scope.entry) index }
{
    sheet_of_reference(scope.sheets, scope.refs, usize::from(index))
}

/// The name of an index, which counts from 1, and `#REF!` where none has it.
#[tactic(auto, unfolding(std::specs::Prelude::chars))]
pub(crate) fn defined_name<'a>(scope: Scope<'a>, index: u32) -> &'a str
    ensures { chars result.now ≡ name_text (scope_context scope.entry) index }
{
    if index == 0 {
        return "#REF!";
    }
    match scope.names.name(index as usize - 1) {
        Some(name) => name,
        None => "#REF!",
    }
}
