//! The text of a leaf, in place of what a text holds.

ghost use Rattle.std.specs.Prelude.{◌≡◌, [], ◌++◌, codes, OnOk, length, Ok};
ghost use Rattle.std.specs.Fmt.{decimal};
ghost use Rattle.std.specs.Str.{bytes_eq, chars};
ghost use Rattle.xls_rounding.specs.FormulaNumbers.{formula_number};
ghost use Rattle.xls_strings.specs.Texts.{text_of};
ghost use Rattle.xls_formula_leaves.specs.Cells.{area_text, cell_text, placed};
ghost use Rattle.xls_formula_leaves.specs.Constants.{array_text_at, str_text};
ghost use Rattle.xls_formula_shown.specs.ShownEffects.{area3d_text, err3d_text, on_sheets, ref3d_text};
ghost use Rattle.xls_formula_shown.specs.Scope.{scope_of};
ghost use Rattle.xls_formula_shown.specs.Steps.{TellsLent};

use crate::scope::Scope;
use std::alloc::{AllocError, Global};
use xls_formula_leaves::{
    placed, push_area, push_array, push_cell, push_int, push_number, push_string,
};
use xls_ptg::Corner;
use xls_shown_ptg::{Fault, NameLink, SheetLink};

pub(crate) fn empty(leaf: &mut String)
    ensures { text_of leaf.new ≡ [] }
{
    leaf.clear();
}

pub(crate) fn append(text: &str, leaf: &mut String) -> Result<(), AllocError>
    ensures { OnOk result (text_of leaf.new ≡ text_of leaf.old ++ chars text.now) }
{
    leaf.push_str(text)
}

/// A whole number.
pub(crate) fn write_int(n: u16, leaf: &mut String) -> Result<(), AllocError>
    ensures { OnOk result (text_of leaf.new ≡ decimal n) }
{
    empty(leaf);
    push_int(n, leaf)
}

/// A double by its bits.
pub(crate) fn write_number(bits: u64, leaf: &mut String) -> Result<(), AllocError>
    ensures { OnOk result (text_of leaf.new ≡ formula_number bits) }
{
    empty(leaf);
    push_number(bits, leaf)
}

/// A string in quotes.
pub(crate) fn write_string(
    alloc: Global,
    scope: &Scope<'_>,
    high_byte: Option<bool>,
    units: &[u8],
    cch: u8,
    leaf: &mut String,
) -> Result<(), AllocError>
    ensures { OnOk result (text_of leaf.new ≡ str_text (scope_of scope.now).page high_byte units.now cch) }
{
    empty(leaf);
    push_string(
        alloc,
        scope.encoding,
        high_byte,
        units,
        u16::from(cch),
        leaf,
    )
}

/// The constant array that the extra bytes begin with. Answers those behind it.
pub(crate) fn write_array<'x>(
    alloc: Global,
    scope: &Scope<'_>,
    extra: &'x [u8],
    leaf: &mut String,
) -> Result<&'x [u8], Fault>
    ensures { TellsLent (text_of leaf.new) result (array_text_at (scope_of scope.now).page (scope_of scope.now).biff extra.entry.now) }
{
    empty(leaf);
    push_array(alloc, scope.encoding, scope.biff, extra, leaf)
}

/// A cell of the formula's sheet.
pub(crate) fn write_cell(corner: Corner, leaf: &mut String) -> Result<(), AllocError>
    ensures { OnOk result (text_of leaf.new ≡ cell_text corner) }
{
    empty(leaf);
    push_cell(corner, leaf)
}

/// An area of the formula's sheet.
pub(crate) fn write_area(
    scope: &Scope<'_>,
    first: Corner,
    last: Corner,
    leaf: &mut String,
) -> Result<(), AllocError>
    ensures { OnOk result (text_of leaf.new ≡ area_text (scope_of scope.now).biff first last) }
{
    empty(leaf);
    push_area(scope.biff, first, last, leaf)
}

/// The cell of a token whose relative parts are offsets.
pub(crate) fn at_place(scope: &Scope<'_>, corner: Corner) -> Corner
    ensures { result ≡ placed (scope_of scope.now).biff (scope_of scope.now).place corner }
{
    placed(scope.biff, scope.place, corner)
}

/// A name by its number.
pub(crate) fn write_name(
    scope: &Scope<'_>,
    number: u32,
    leaf: &mut String,
) -> Result<(), AllocError>
    ensures { OnOk result (text_of leaf.new ≡ (scope_of scope.now).name number) }
{
    empty(leaf);
    scope.here.append_name(number, leaf)
}

/// A name by reference.
pub(crate) fn write_name_x(
    scope: &Scope<'_>,
    link: NameLink,
    leaf: &mut String,
) -> Result<(), AllocError>
    ensures { OnOk result (text_of leaf.new ≡ (scope_of scope.now).name_x link) }
{
    empty(leaf);
    scope.here.append_name_x(link, leaf)
}

/// What stands before the `!` of cells on sheets.
fn write_sheets(scope: &Scope<'_>, sheets: SheetLink, leaf: &mut String) -> Result<(), AllocError>
    ensures { OnOk result (text_of leaf.new ≡ (scope_of scope.now).sheets sheets) }
{
    empty(leaf);
    scope.here.append_sheets(sheets, leaf)
}

/// A cell on other sheets, which a defined name has by offsets.
fn on_sheets(scope: &Scope<'_>, corner: Corner) -> Corner
    ensures { result ≡ on_sheets (scope_of scope.now) corner }
{
    if scope.is_name {
        at_place(scope, corner)
    } else {
        corner
    }
}

/// A cell on sheets.
#[tactic(auto, unfolding(std::specs::Prelude::chars))]
pub(crate) fn write_ref3d(
    scope: &Scope<'_>,
    sheets: SheetLink,
    corner: Corner,
    leaf: &mut String,
) -> Result<(), AllocError>
    ensures { OnOk result (text_of leaf.new ≡ ref3d_text (scope_of scope.now) sheets corner) }
{
    write_sheets(scope, sheets, leaf)?;
    append("!", leaf)?;
    push_cell(on_sheets(scope, corner), leaf)
}

/// An area on sheets.
#[tactic(auto, unfolding(std::specs::Prelude::chars))]
pub(crate) fn write_area3d(
    scope: &Scope<'_>,
    sheets: SheetLink,
    first: Corner,
    last: Corner,
    leaf: &mut String,
) -> Result<(), AllocError>
    ensures { OnOk result (text_of leaf.new ≡ area3d_text (scope_of scope.now) sheets first last) }
{
    write_sheets(scope, sheets, leaf)?;
    append("!", leaf)?;
    push_area(
        scope.biff,
        on_sheets(scope, first),
        on_sheets(scope, last),
        leaf,
    )
}

#[tactic(auto, unfolding(std::specs::Prelude::chars))]
fn is_gone(sheets: &str) -> bool
    ensures { result ≡ bytes_eq (chars sheets.now) (codes "#REF") }
{
    sheets == "#REF"
}

/// Cells that are gone, on sheets.
#[tactic(auto, unfolding(std::specs::Prelude::chars))]
pub(crate) fn write_err3d(
    scope: &Scope<'_>,
    sheets: SheetLink,
    leaf: &mut String,
) -> Result<(), AllocError>
    ensures { OnOk result (text_of leaf.new ≡ err3d_text ((scope_of scope.now).sheets sheets)) }
{
    write_sheets(scope, sheets, leaf)?;
    if is_gone(leaf.as_str()) {
        empty(leaf);
    } else {
        append("!", leaf)?;
    }
    append("#REF!", leaf)
}
