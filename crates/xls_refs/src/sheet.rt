//! The cells that the formulas of a sheet cite, formula by formula.

ghost use Rattle.std.specs.Prelude.{◌≡◌, IfOk, slice_get};
ghost use Rattle.std.specs.Str.{chars};
ghost use Rattle.xls_refs.specs.Citations.{cites_at};
ghost use Rattle.xls_refs.specs.Cited.{cited_by, citations_unless_refused};
ghost use Rattle.xls_refs.specs.Views.{sheets_cited};
ghost use Rattle.xls_view.specs.Naming.{context_in};
ghost use Rattle.xls_view.specs.Walking.{formula_seen};

use crate::cite::{CitedFormula, Cites};
use crate::formula::cites_in_scope;
use std::alloc::{AllocError, Global};
use std::marker::Model;
use xls_formula::Scope;
use xls_view::{FormulaCell, FormulaCells, SheetFormulas, View, ViewNaming};

/// What a formula cites; nothing where it is refused.
fn cites_unless_refused(
    alloc: Global,
    rgce: &[u8],
    naming: ViewNaming<'_>,
) -> Result<Cites, AllocError>
    ensures { IfOk result (λ cites. cites ≡ citations_unless_refused (cites_at (context_in naming.entry) rgce.now)) }
{
    let scope = Scope {
        sheets: naming.sheets,
        names: naming.names,
        refs: naming.refs,
        encoding: naming.page,
        biff: naming.biff,
        functions: naming.functions,
        numbers: naming.numbers,
    };
    match cites_in_scope(alloc, rgce, scope) {
        Ok(cites) => Ok(cites),
        Err(error) if error.is_memory() => Err(AllocError),
        Err(_) => Ok(Cites {
            items: Vec::new(alloc),
        }),
    }
}

/// What a formula of the sheet of an index and a name cites.
fn cited_formula<'c>(
    alloc: Global,
    naming: ViewNaming<'_>,
    sheet: usize,
    name: &'c str,
    formula: FormulaCell<'_>,
) -> Result<CitedFormula<'c>, AllocError>
    ensures { IfOk result (λ cited. cited
        ≡ cited_by (context_in naming.entry) sheet (chars name.entry.now) (formula_seen formula.entry)) }
{
    let FormulaCell { row, column, rgce } = formula;
    let cites = cites_unless_refused(alloc, rgce, naming)?;
    Ok(CitedFormula {
        sheet,
        name,
        row,
        col: column,
        cites,
    })
}

/// The cells that the formulas of a sheet cite. Contracts see, for each formula by row, then column, the
/// list of its citations.
#[derive(Drop)]
pub struct SheetCites<'v> {
    alloc: Global,
    naming: ViewNaming<'v>,
    /// The index and the name of the sheet.
    sheet: usize,
    name: &'v str,
    formulas: SheetFormulas<'v>,
}

impl<'v> Model for SheetCites<'v> {
    ghost use Rattle.std.specs.Prelude.{List, map};
    ghost use Rattle.std.specs.Str.{chars};
    ghost use Rattle.xls_refs.specs.Cited.{BookCitation, cited_by};
    ghost use Rattle.xls_view.specs.Naming.{context_in};

    ghost Value = { List (List BookCitation) };

    ghost view = { λ c. map (cited_by (context_in c.naming) c.sheet (chars c.name.now)) c.formulas.left };
}

impl<'v> SheetCites<'v> {
    /// The citations of each formula, in order.
    pub fn iter(&self) -> FormulaCites<'_>
        ensures { result ≡ self.now }
    {
        FormulaCites {
            alloc: self.alloc,
            naming: self.naming,
            sheet: self.sheet,
            name: self.name,
            formulas: self.formulas.iter(),
        }
    }
}

/// What the formulas that are left of a sheet cite, one after the other. Only running out of memory refuses a
/// formula; its citations are lost then, and the next call gives those of the formula after it. Contracts
/// see the list of the citations of each.
#[derive(Drop)]
pub struct FormulaCites<'c> {
    alloc: Global,
    naming: ViewNaming<'c>,
    sheet: usize,
    name: &'c str,
    formulas: FormulaCells<'c>,
}

impl<'c> Model for FormulaCites<'c> {
    ghost use Rattle.std.specs.Prelude.{List, map};
    ghost use Rattle.std.specs.Str.{chars};
    ghost use Rattle.xls_refs.specs.Cited.{BookCitation, cited_by};
    ghost use Rattle.xls_view.specs.Naming.{context_in};

    ghost Value = { List (List BookCitation) };

    ghost view = { λ c. map (cited_by (context_in c.naming) c.sheet (chars c.name.now)) c.formulas };
}

impl<'c> Iterator for FormulaCites<'c> {
    ghost use Rattle.std.specs.Prelude.{length};
    ghost use Rattle.std.specs.Iterator.{at_most};
    ghost use Rattle.xls_refs.specs.Views.{CitedSteps};

    type Item = Result<CitedFormula<'c>, AllocError>;

    ghost next_gives = { CitedSteps };

    ghost remaining = { λ formulas. at_most (length formulas) };

    fn next(&mut self) -> Option<Result<CitedFormula<'c>, AllocError>> {
        let formula = self.formulas.next()?;
        Some(cited_formula(self.alloc, self.naming, self.sheet, self.name, formula))
    }
}

/// The cells that the formulas of the sheet at an index cite, those of the last sheet of its name: by the
/// formula's row, then its column, and from left to right as by `cites_of_formula`. Cells without a sheet of
/// their own stand on the sheet at the index; a formula that `parse_formula` refuses cites nothing. `None`
/// exactly where no sheet has the index. Only running out of memory refuses.
pub fn cites_of_sheet<'v>(
    alloc: Global,
    view: &'v View<'_>,
    sheet: usize,
) -> Result<Option<SheetCites<'v>>, AllocError>
    ensures { IfOk result (λ found. found ≡ slice_get (sheets_cited view.entry.now) sheet) }
{
    match view.naming().sheets.get(sheet) {
        Some(name) => match view.formulas_at(sheet)? {
            Some(formulas) => Ok(Some(SheetCites {
                alloc,
                naming: view.naming(),
                sheet,
                name,
                formulas,
            })),
            None => Ok(None),
        },
        None => Ok(None),
    }
}
