//! What the tokens of a formula cite.

ghost use Rattle.std.specs.Prelude.{◌≡◌, ◌++◌, [], OnOk};
ghost use Rattle.std.specs.Option.{option_map};
ghost use Rattle.xls_formula_books.specs.Places.{place_view};
ghost use Rattle.xls_ptg.specs.Readings.{ptg_of};
ghost use Rattle.xls_shown_ptg.specs.Reading.{shown_of};
ghost use Rattle.xls_shown_refs.specs.Items as specs;
ghost use Rattle.xls_shown_refs.specs.Spelled.{functions as all_functions};
ghost use Rattle.xls_shown_refs.specs.Views.{item_view, items_view, origin_view};

use crate::citation::{Citation, cells_between};
use crate::spelled::is_spelled;
use std::alloc::AllocError;
use xls_formula::FunctionTable;
use xls_formula_books::{Here, SheetPlace, name_number};
use xls_formula_leaves::{Place, placed};
use xls_ptg::{Corner, Ptg};
use xls_record::Biff;
use xls_shown_ptg::{ShownPtg, read_shown_ptg};

/// Where tokens stand: the cell from which offsets count, whether those of cells on other sheets do, and what they may name.
#[derive(Clone, Copy)]
pub(crate) struct Origin<'o, 'a> {
    pub(crate) biff: Biff,
    pub(crate) place: Place,
    pub(crate) is_name: bool,
    pub(crate) here: &'o Here<'a>,
}

/// What a token cites.
#[derive(Clone, Copy, Debug)]
pub(crate) enum Item<'a> {
    Cells(Citation<'a>),
    /// A defined name of this workbook, by its number.
    Name(u32),
}

/// Cells on sheets, where those are cited.
fn on_place<'a>(sheets: SheetPlace<'a>, first: Corner, last: Corner) -> Option<Item<'a>>
    ensures { option_map item_view result ≡ specs.on_place (place_view sheets.entry) first last }
{
    if !sheets.is_cited() {
        return None;
    }
    Some(Item::Cells(cells_between(sheets, first, last)))
}

/// Cells in the sheet of the formula.
fn own_cells<'a>(origin: Origin<'_, 'a>, first: Corner, last: Corner) -> Option<Item<'a>>
    ensures { option_map item_view result ≡ specs.own_cells (origin_view origin.entry) first last }
{
    on_place(origin.here.own_place(), first, last)
}

/// The same by offsets.
fn offset_cells<'a>(origin: Origin<'_, 'a>, first: Corner, last: Corner) -> Option<Item<'a>>
    ensures { option_map item_view result ≡ specs.offset_cells (origin_view origin.entry) first last }
{
    let first = placed(origin.biff, origin.place, first);
    let last = placed(origin.biff, origin.place, last);
    own_cells(origin, first, last)
}

/// A cell on other sheets, which a defined name has by offsets.
fn moved(origin: Origin<'_, '_>, corner: Corner) -> Corner
    ensures { result ≡ specs.moved (origin_view origin.entry) corner }
{
    if origin.is_name {
        placed(origin.biff, origin.place, corner)
    } else {
        corner
    }
}

/// Cells on other sheets.
fn sheet_cells<'a>(
    origin: Origin<'_, 'a>,
    sheets: SheetPlace<'a>,
    first: Corner,
    last: Corner,
) -> Option<Item<'a>>
    ensures { option_map item_view result
        ≡ specs.sheet_cells (origin_view origin.entry) (place_view sheets.entry) first last }
{
    on_place(sheets, moved(origin, first), moved(origin, last))
}

/// What a token cites that means what it means in every reading.
fn known_item<'a>(origin: Origin<'_, 'a>, ptg: Ptg<&[u8]>) -> Option<Item<'a>>
    ensures { option_map item_view result ≡ specs.known_item (origin_view origin.entry) (ptg_of ptg.entry) }
{
    match ptg {
        Ptg::Ref(corner) => own_cells(origin, corner, corner),
        Ptg::Area { first, last } => own_cells(origin, first, last),
        Ptg::Name { index } => Some(Item::Name(name_number(index))),
        _ => None,
    }
}

/// A defined name of this workbook.
fn own_name<'a>(number: Option<u32>) -> Option<Item<'a>>
    ensures { option_map item_view result ≡ option_map specs.name number }
{
    match number {
        Some(number) => Some(Item::Name(number)),
        None => None,
    }
}

/// What a token cites.
fn token_item<'a>(origin: Origin<'_, 'a>, token: ShownPtg<&[u8]>) -> Option<Item<'a>>
    ensures { option_map item_view result ≡ specs.token_item (origin_view origin.entry) (shown_of token.entry) }
{
    match token {
        ShownPtg::Known(ptg) => known_item(origin, ptg),
        ShownPtg::RefN(corner) => offset_cells(origin, corner, corner),
        ShownPtg::AreaN { first, last } => offset_cells(origin, first, last),
        ShownPtg::NameX(link) => own_name(origin.here.own_name(link)),
        ShownPtg::Ref3d { sheets, corner } => {
            sheet_cells(origin, origin.here.place(sheets), corner, corner)
        }
        ShownPtg::Area3d {
            sheets,
            first,
            last,
        } => sheet_cells(origin, origin.here.place(sheets), first, last),
        _ => None,
    }
}

/// Puts an item to the end, where there is one.
fn push_some<'a>(item: Option<Item<'a>>, out: &mut Vec<Item<'a>>) -> Result<(), AllocError>
    ensures { OnOk result (items_view out.new.items
        ≡ items_view out.old.items ++ specs.before (option_map item_view item.entry) []) }
{
    if let Some(item) = item {
        out.push(item)?;
    }
    Ok(())
}

/// Puts what tokens cite to the end, up to one that can't be read.
fn push_items<'a>(
    origin: Origin<'_, 'a>,
    tokens: &[u8],
    out: &mut Vec<Item<'a>>,
) -> Result<(), AllocError>
    ensures { OnOk result (items_view out.new.items
        ≡ items_view out.old.items ++ specs.items (origin_view origin.entry) tokens.now 0) }
{
    let mut rest = tokens;
    'tokens: while !rest.is_empty() {
        let Ok((token, more)) = read_shown_ptg(rest, origin.biff) else {
            return Ok(());
        };
        push_some(token_item(origin, token), out)?;
        let (_, after) = rest.split_at(1);
        let (_, next) = after.split_at(more);
        rest = next;
    }
    Ok(())
}

/// Puts what a formula cites to the end, by its tokens and the extra bytes behind them; nothing where it can't be spelled.
pub(crate) fn push_formula<'a>(
    functions: &FunctionTable,
    origin: Origin<'_, 'a>,
    tokens: &[u8],
    extra: &[u8],
    out: &mut Vec<Item<'a>>,
) -> Result<(), AllocError>
    requires { functions.now ≡ all_functions }
    ensures { OnOk result (items_view out.new.items
        ≡ items_view out.old.items ++ specs.formula_items (origin_view origin.entry) tokens.now extra.now) }
{
    if !is_spelled(functions, origin.biff, tokens, extra) {
        return Ok(());
    }
    push_items(origin, tokens, out)
}
