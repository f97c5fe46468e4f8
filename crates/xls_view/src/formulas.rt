//! The formulas of a sheet.

ghost use Rattle.xls_stream.specs.Walks.{IsBytes};
ghost use Rattle.std.specs.Prelude.{◌≡◌, ◌++◌, ◌∷◌, [], IfOk, OnOk, map};
ghost use Rattle.xls_meaning.specs.Order.{somes};
ghost use Rattle.xls_view.specs.Placed.{formula_placed, formulas_held};
ghost use Rattle.xls_view.specs.SheetPlacing.{IsAscent};
ghost use Rattle.std.specs.Str.{chars};
ghost use Rattle.xls_view.specs.Formulas.{Formula, formula_of, formulas_kept, text_entry};
ghost use Rattle.xls_view.specs.SheetContents.{kept_in, settled};
ghost use Rattle.xls_biff.specs.Walking.{group_of};
ghost use Rattle.xls_stream.specs.Listing.{kept_group};
ghost use Rattle.std.specs.Option.{option_map};
ghost use Rattle.xls_view.specs.Walking.{formula_seen, PassesFormula};

use crate::ascent::Ascent;
use crate::places::{next_place, placed_formula};
use crate::value::FormulaCell;
use std::alloc::{AllocError, Global};
use std::marker::Model;
use xls_biff::{PlacedRecords, Record, SheetRecords, read_formula};
use xls_data::Cell;
use xls_open::{FormulaBuffer, Settings};
use xls_range::{Numbered, Settled, Unsettled};
use xls_stream::types::FORMULA;

/// The formulas of a sheet, by row, then column, of those of one position the last. Contracts see the list
/// of them, each by its tokens, and what they may name.
#[derive(Drop)]
pub struct SheetFormulas<'v> {
    settings: Settings<'v>,
    part: &'v [u8],
    /// Where the formulas stand, in order, where the records don't ascend.
    sorted: Option<Settled<usize>>,
}

impl<'v> Model for SheetFormulas<'v> {
    ghost use Rattle.xls_stream.specs.Walks.{IsBytes};
    ghost use Rattle.xls_view.specs.Placed.{formulas_held};
    ghost use Rattle.xls_view.specs.Walking.{NamedContext};

    ghost Value = { NamedContext };

    ghost view = { λ f. record { context = f.settings.formulas; left = formulas_held f.part.now f.sorted } };

    ghost invariant = { λ f. IsBytes f.part.now };
}

/// Where the formulas of a part stand. So many are expected.
fn places_of(alloc: Global, part: &[u8], count: usize) -> Result<Unsettled<usize>, AllocError>
    ensures { IfOk result (λ places. map (formula_placed part.now) places ≡ formulas_kept (kept_in part.now 0)) }
{
    let mut places = Unsettled::with_room(alloc, count)?;
    for item in PlacedRecords::new(part) {
        let (start, record) = match item {
            Ok(placed) => placed,
            Err(_) => return Ok(places),
        };
        push_formula(&mut places, &record, part.len() - start.len())?;
    }
    Ok(places)
}

/// Likewise by position, of those of one position the last.
fn in_order(alloc: Global, part: &[u8], count: usize) -> Result<Settled<usize>, AllocError>
    ensures { IfOk result (λ places. map (formula_placed part.now) places ≡ settled (formulas_kept (kept_in part.now 0))) }
{
    let places = places_of(alloc, part, count)?;
    Ok(places.settled())
}

/// Where the formulas of a part stand in order, where they don't ascend.
fn order_of(alloc: Global, part: &[u8], found: Ascent) -> Result<Option<Settled<usize>>, AllocError>
    requires { IsAscent found (map (λ (f : Formula). f.0) (formulas_kept (kept_in part.now 0))) }
    ensures { IfOk result (λ o. formulas_held part.now o ≡ settled (formulas_kept (kept_in part.now 0))) }
{
    if found.is_strict() {
        return Ok(None);
    }
    let sorted = in_order(alloc, part, found.count())?;
    Ok(Some(sorted))
}

/// A part with the same formulas: no bytes where it has none.
fn part_with<'v>(part: &'v [u8], found: Ascent) -> &'v [u8]
    requires { IsAscent found (map (λ (f : Formula). f.0) (formulas_kept (kept_in part.now 0))) }
    ensures { formulas_kept (kept_in result.now 0) ≡ formulas_kept (kept_in part.now 0) }
{
    if found.is_empty() {
        return &[];
    }
    part
}

impl<'v> SheetFormulas<'v> {
    /// The formulas of a part, of which this was found. Takes memory only where they don't ascend.
    pub(crate) fn new(
        alloc: Global,
        settings: Settings<'v>,
        part: &'v [u8],
        found: Ascent,
    ) -> Result<SheetFormulas<'v>, AllocError>
        requires { IsAscent found (map (λ (f : Formula). f.0) (formulas_kept (kept_in part.now 0))) }
        ensures { IfOk result (λ formulas. formulas ≡ record {
          context = settings.entry.formulas;
          left = settled (formulas_kept (kept_in part.now 0));
        }) }
    {
        let part = part_with(part, found);
        let sorted = order_of(alloc, part, found)?;
        Ok(SheetFormulas {
            settings,
            part,
            sorted,
        })
    }

    /// The formulas in order. Takes no memory.
    pub fn iter(&self) -> FormulaCells<'_>
        ensures { result ≡ self.now.left }
    {
        match &self.sorted {
            None => FormulaCells::new(FormulaWalk::new(self.part), self.part, &[]),
            Some(places) => { FormulaCells::new(FormulaWalk::none(), self.part, places.as_slice()) }
        }
    }

    /// The text of a formula of the sheet, or why it is refused, made in this buffer in place of the one
    /// before. Only running out of memory refuses.
    pub fn text_in<'b>(
        &self,
        buffer: &'b mut FormulaBuffer,
        formula: FormulaCell<'_>,
    ) -> Result<&'b str, AllocError>
        ensures { IfOk result (λ text. ((formula.entry.row, formula.entry.column), chars text.now)
            ≡ text_entry self.now.context (formula_seen formula.entry)) }
    {
        buffer.text_of(formula.rgce, (formula.row, formula.column), &self.settings)
    }
}

/// The formulas of a part that are left, in the order of its records. Contracts see the list of them.
#[derive(Drop)]
pub(crate) struct FormulaWalk<'c> {
    records: SheetRecords<'c>,
}

impl<'c> Model for FormulaWalk<'c> {
    ghost use Rattle.std.specs.Prelude.{List};
    ghost use Rattle.xls_stream.specs.Walks.{IsBytes};
    ghost use Rattle.xls_view.specs.SheetContents.{kept_in};
    ghost use Rattle.xls_view.specs.Formulas.{Formula, formulas_kept};

    ghost Value = { List Formula };

    ghost view = { λ f. formulas_kept (kept_in f.records.0 f.records.1) };

    ghost invariant = { λ f. IsBytes f.records.0 };
}

/// A Formula record, and `None` for a record of another type or with a fault.
pub(crate) fn formula_of<'c>(r: &Record<'c>) -> Option<FormulaCell<'c>>
    ensures { option_map formula_seen result ≡ formula_of (kept_group (group_of r.now)) }
{
    if r.typ != FORMULA {
        return None;
    }
    match read_formula(r.body) {
        Ok(formula) => {
            let (row, column) = formula.position;
            Some(FormulaCell {
                row,
                column,
                rgce: formula.rgce,
            })
        }
        Err(_) => None,
    }
}

/// Puts the place of a Formula record, which begins at this offset of its part.
fn push_formula(places: &mut Unsettled<usize>, r: &Record<'_>, at: usize) -> Result<(), AllocError>
    ensures { OnOk result (places.new ≡ places.old
        ++ map (λ (f : Formula). (f.0, at)) (somes (formula_of (kept_group (group_of r.now)) ∷ []))) }
{
    if let Some(formula) = formula_of(r) {
        places.push(Cell::new((formula.row, formula.column), at))?;
    }
    Ok(())
}

/// The next formula of the records that are left.
fn next_formula<'c>(records: &mut SheetRecords<'c>) -> Option<FormulaCell<'c>>
    requires { IsBytes records.old.0 }
    ensures bytes { IsBytes records.new.0 }
    ensures passes { PassesFormula records.old result records.new }
{
    while let Some(item) = records.next() {
        let record = match item {
            Ok(record) => record,
            Err(_) => return None,
        };
        if let Some(formula) = formula_of(&record) {
            return Some(formula);
        }
    }
    None
}

impl<'c> Iterator for FormulaWalk<'c> {
    ghost use Rattle.std.specs.Prelude.{length};
    ghost use Rattle.std.specs.Iterator.{at_most};
    ghost use Rattle.xls_view.specs.Walking.{LendsFormula};

    type Item = FormulaCell<'c>;

    ghost next_gives = { LendsFormula };

    ghost remaining = { λ formulas. at_most (length formulas) };

    fn next(&mut self) -> Option<FormulaCell<'c>> {
        next_formula(&mut self.records)
    }
}

impl<'c> FormulaWalk<'c> {
    ghost use Rattle.std.specs.Prelude.{◌≡◌, []};
    ghost use Rattle.xls_view.specs.SheetContents.{kept_in};
    ghost use Rattle.xls_view.specs.Formulas.{formulas_kept};

    /// The formulas of a part.
    fn new(part: &'c [u8]) -> FormulaWalk<'c>
        ensures { result ≡ formulas_kept (kept_in part.now 0) }
    {
        FormulaWalk {
            records: SheetRecords::new(part),
        }
    }

    /// No formulas.
    #[tactic(auto, using(crate::proofs::WalkLemmas::kept_nothing))]
    fn none() -> FormulaWalk<'c>
        ensures { result ≡ [] }
    {
        FormulaWalk {
            records: SheetRecords::new(&[]),
        }
    }

    /// The same formulas, to be gone through once more.
    fn again(&self) -> FormulaWalk<'c>
        ensures { result ≡ self.now }
    {
        FormulaWalk {
            records: self.records.again(),
        }
    }
}

/// The formulas of a sheet that are left: each once, by row, then column. Contracts see the list of them.
#[derive(Drop)]
pub struct FormulaCells<'c> {
    /// The formulas of the records that are left, where these ascend.
    walk: FormulaWalk<'c>,
    part: &'c [u8],
    /// Else the places that are left.
    places: &'c [Numbered<usize>],
}

impl<'c> Model for FormulaCells<'c> {
    ghost use Rattle.std.specs.Prelude.{◌++◌, List, map};
    ghost use Rattle.xls_stream.specs.Walks.{IsBytes};
    ghost use Rattle.xls_view.specs.Formulas.{Formula};
    ghost use Rattle.xls_range.specs.Positions.{numbered_entry};
    ghost use Rattle.xls_view.specs.Placed.{formula_placed};

    ghost Value = { List Formula };

    ghost view = { λ f. f.walk ++ map (formula_placed f.part.now) (map numbered_entry f.places.now) };

    ghost invariant = { λ f. IsBytes f.part.now };
}

impl<'c> Iterator for FormulaCells<'c> {
    ghost use Rattle.std.specs.Prelude.{length};
    ghost use Rattle.std.specs.Iterator.{at_most};
    ghost use Rattle.xls_view.specs.Walking.{LendsFormula};

    type Item = FormulaCell<'c>;

    ghost next_gives = { LendsFormula };

    ghost remaining = { λ formulas. at_most (length formulas) };

    fn next(&mut self) -> Option<FormulaCell<'c>> {
        if let Some(formula) = self.walk.next() {
            return Some(formula);
        }
        let (position, at) = next_place(&mut self.places)?;
        Some(placed_formula(self.part, position, at))
    }
}

impl<'c> FormulaCells<'c> {
    ghost use Rattle.std.specs.Prelude.{◌≡◌, ◌++◌, map};
    ghost use Rattle.xls_stream.specs.Walks.{IsBytes};
    ghost use Rattle.xls_range.specs.Positions.{numbered_entry};
    ghost use Rattle.xls_view.specs.Placed.{formula_placed};

    /// These formulas, and those at some places of a part.
    fn new(walk: FormulaWalk<'c>, part: &'c [u8], places: &'c [Numbered<usize>]) -> FormulaCells<'c>
        requires { IsBytes part.now }
        ensures { result ≡ walk.entry ++ map (formula_placed part.now) (map numbered_entry places.now) }
    {
        FormulaCells { walk, part, places }
    }

    /// The same formulas, to be gone through once more. Takes no memory.
    pub fn again(&self) -> FormulaCells<'c>
        ensures { result ≡ self.now }
    {
        FormulaCells {
            walk: self.walk.again(),
            part: self.part,
            places: self.places,
        }
    }
}
