//! The cells that a formula cites.

ghost use Rattle.std.specs.Prelude.{◌≡◌, [], ◌++◌, IfOk, OnOk};
ghost use Rattle.std.specs.Option.{option_map};
ghost use Rattle.xls_shown_refs.specs.Citations as specs;
ghost use Rattle.xls_shown_refs.specs.Items.{before};
ghost use Rattle.xls_shown_refs.specs.Spelled.{functions as all_functions};
ghost use Rattle.xls_shown_refs.specs.Views.{citation_view, citations_view, items_view};
ghost use Rattle.xls_shown_refs.specs.Walk.{IsSound, NoneFollowed, found_in, in_all, waiting};

use crate::citation::Citation;
use crate::citing::Citing;
use crate::items::{Item, Origin, push_formula};
use crate::walk::{Walk, put_before, take_some};
use std::alloc::{AllocError, Global};
use std::marker::Model;
use xls_defined_names::{name_bytes, name_formula};
use xls_formula::{FunctionTable, push_functions};
use xls_formula_books::Here;
use xls_shared_formulas::{TableInput, TableInputs};

/// Puts what the formula of the name of a number cites to the end.
fn push_name<'a>(
    alloc: Global,
    functions: &FunctionTable,
    citing: &Citing<'a>,
    number: u32,
    out: &mut Vec<Item<'a>>,
) -> Result<(), AllocError>
    requires { functions.now ≡ all_functions }
    ensures { OnOk result (items_view out.new.items
        ≡ items_view out.old.items ++ specs.number_items citing.now number) }
{
    let Some(name) = citing.here.names.numbered(number) else {
        return Ok(());
    };
    let bytes = name_bytes(alloc, citing.stream, name)?;
    let Ok(formula) = name_formula(citing.biff, bytes.as_slice()) else {
        return Ok(());
    };
    let here = Here {
        books: citing.globals,
        names: citing.here.names,
        sheets: citing.here.sheets,
        sheet: citing.here.sheet,
    };
    let origin = Origin {
        biff: citing.biff,
        place: citing.cell,
        is_name: true,
        here: &here,
    };
    push_formula(functions, origin, formula.tokens, formula.extra, out)
}

/// Takes what the items that wait cite, with the formulas of names in their places.
fn follow<'a>(
    alloc: Global,
    functions: &FunctionTable,
    citing: &Citing<'a>,
    items: &mut Vec<Item<'a>>,
    walk: &mut Walk<'a>,
) -> Result<(), AllocError>
    requires functions { functions.now ≡ all_functions }
    requires none { items.old.items ≡ [] }
    requires sound { IsSound walk.old }
    requires followed { NoneFollowed walk.old }
    ensures { OnOk result (found_in walk.new
        ≡ in_all walk.old (specs.followed citing.now (waiting walk.old.pending.items))) }
{
    'names: while let Some(number) = walk.next_name(citing.here.names)? {
        push_name(alloc, functions, citing, number, items)?;
        put_before(items, &mut walk.pending)?;
    }
    Ok(())
}

/// Takes what a formula cites.
fn cite<'a>(
    alloc: Global,
    functions: &FunctionTable,
    citing: &Citing<'a>,
    tokens: &[u8],
    extra: &[u8],
    items: &mut Vec<Item<'a>>,
    walk: &mut Walk<'a>,
) -> Result<(), AllocError>
    requires { functions.now ≡ all_functions }
    ensures { OnOk result (found_in walk.new ≡ specs.citations citing.now tokens.now extra.now) }
{
    items.clear();
    walk.clear();
    let origin = Origin {
        biff: citing.biff,
        place: citing.place,
        is_name: false,
        here: &citing.here,
    };
    push_formula(functions, origin, tokens, extra, items)?;
    put_before(items, &mut walk.pending)?;
    follow(alloc, functions, citing, items, walk)
}

/// An input of a table in the sheet of a formula, where both are there.
fn input_citation<'a>(here: &Here<'a>, input: Option<TableInput>) -> Option<Citation<'a>>
    ensures { before (option_map citation_view result) [] ≡ specs.input_citations here.now input }
{
    let sheets = here.own_place();
    match input {
        Some(TableInput::Cell(cell)) if sheets.is_cited() => {
            let place = (u32::from(cell.row), u32::from(cell.column));
            Some(Citation {
                sheets,
                first: place,
                last: place,
            })
        }
        _ => None,
    }
}

/// The cells that a formula cites, from left to right, each once. Of all formulas one after the other the memory is used again. Contracts see
/// the list of them.
#[derive(Drop)]
pub struct Citations<'a> {
    pub(crate) alloc: Global,
    functions: FunctionTable,
    items: Vec<Item<'a>>,
    walk: Walk<'a>,
}

impl<'a> Model for Citations<'a> {
    ghost use Rattle.std.specs.Prelude.{◌≡◌, List};
    ghost use Rattle.xls_shown_refs.specs.Items.{Citation as CitationValue};
    ghost use Rattle.xls_shown_refs.specs.Spelled.{functions as all_functions};
    ghost use Rattle.xls_shown_refs.specs.Views.{citations_view};

    ghost Value = { List CitationValue };

    ghost view = { λ c. citations_view c.walk.found.items };

    ghost invariant = { λ c. c.functions ≡ all_functions };
}

/// The functions by index.
fn all_functions(alloc: Global) -> Result<FunctionTable, AllocError>
    ensures { IfOk result (λ table. table ≡ all_functions) }
{
    let mut table = FunctionTable::shipped(alloc)?;
    push_functions(&mut table)?;
    Ok(table)
}

impl<'a> Citations<'a> {
    /// None. Takes memory for the names of functions.
    pub fn new(alloc: Global) -> Result<Citations<'a>, AllocError>
        ensures { IfOk result (λ citations. citations ≡ []) }
    {
        Ok(Citations {
            alloc,
            functions: all_functions(alloc)?,
            items: Vec::new(alloc),
            walk: Walk::new(alloc),
        })
    }

    /// The citations of a formula, by its tokens and the extra bytes behind them, in place of those before; none where it can't be spelled as
    /// Excel shows it. They are those of its tokens of the families 24, 25, 2C, 2D, 3A and 3B, and in the place of a defined name of this
    /// workbook (23 and 39) those of the name's formula, each name once. Only running out of memory refuses, and then some may be left.
    pub fn read(
        &mut self,
        citing: &Citing<'a>,
        tokens: &[u8],
        extra: &[u8],
    ) -> Result<(), AllocError>
        ensures { OnOk result (self.new ≡ specs.citations citing.now tokens.now extra.now) }
    {
        cite(
            self.alloc,
            &self.functions,
            citing,
            tokens,
            extra,
            &mut self.items,
            &mut self.walk,
        )
    }

    /// The citations of a data table, likewise: its inputs that are there.
    pub fn read_table(&mut self, here: &Here<'a>, inputs: TableInputs) -> Result<(), AllocError>
        ensures { OnOk result (self.new ≡ specs.table_citations here.now inputs) }
    {
        self.walk.clear();
        let walk = &mut self.walk;
        take_some(
            &mut walk.cells,
            &mut walk.found,
            input_citation(here, inputs.row),
        )?;
        take_some(
            &mut walk.cells,
            &mut walk.found,
            input_citation(here, inputs.column),
        )
    }

    /// None. Of lists the memory stays.
    pub(crate) fn clear(&mut self)
        ensures { self.new ≡ [] }
    {
        self.walk.clear();
    }

    /// All of them. Takes no memory.
    pub fn all(&self) -> &[Citation<'a>]
        ensures { citations_view result.now ≡ self.now }
    {
        &self.walk.found
    }
}
