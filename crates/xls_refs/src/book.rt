//! The cells that the formulas of a workbook cite.

ghost use Rattle.std.specs.Prelude.{◌≡◌, ◌++◌, Err, IfErr, IfOk, OnOk, map, slice_get};
ghost use Rattle.std.specs.Str.{chars};
ghost use Rattle.xls_record.specs.declared.error.XlsError.{XlsError};
ghost use Rattle.xls_refs.specs.Citations.{citation_of};
ghost use Rattle.xls_refs.specs.Cited.{book_citation_of, on_own_sheet};
ghost use Rattle.xls_refs.specs.Citing.{CitingCause, IsBookCited};
ghost use Rattle.xls_open.specs.Workbook.{rules_of};
ghost use Rattle.xls_view.specs.Viewing.{IsViewFault};
ghost use Rattle.xls_refs.specs.Views.{cited_in, cited_of, each_cited, sheets_cited};

use crate::cite::{BookCite, BookCites, Cite, CitedFormula};
use crate::sheet::{SheetCites, cites_of_sheet};
use std::alloc::{AllocError, Global};
use xls_biff::{Strings, XlsError};
use xls_formula::NumberStyle;
use xls_open::XlsOptions;
use xls_view::View;

/// The citation on the sheet of this name, where it has none.
fn on_own_sheet(alloc: Global, name: &str, cite: Cite) -> Result<Cite, AllocError>
    ensures { IfOk result (λ c. citation_of c ≡ on_own_sheet (chars name.now) (citation_of cite)) }
{
    let Cite { sheet, first, last } = cite;
    let sheet = match sheet {
        Some(reported) => reported,
        None => String::from_str(alloc, name)?,
    };
    Ok(Cite {
        sheet: Some(sheet),
        first,
        last,
    })
}

/// Puts what a formula cites after what was cited so far.
fn put_formula(
    alloc: Global,
    out: &mut Vec<BookCite>,
    formula: CitedFormula<'_>,
) -> Result<(), AllocError>
    ensures { OnOk result (map book_citation_of out.new.items ≡ map book_citation_of out.old.items ++ formula.entry) }
{
    let CitedFormula {
        sheet,
        name,
        row,
        col,
        cites,
    } = formula;
    for cite in cites.items {
        let cite = on_own_sheet(alloc, name, cite)?;
        out.push(BookCite {
            sheet,
            row,
            col,
            cite,
        })?;
    }
    Ok(())
}

/// Likewise what all formulas of a sheet cite.
fn put_sheet(
    alloc: Global,
    out: &mut Vec<BookCite>,
    cites: &SheetCites<'_>,
) -> Result<(), AllocError>
    ensures { OnOk result (map book_citation_of out.new.items
        ≡ map book_citation_of out.old.items ++ each_cited cites.now) }
{
    for formula in cites.iter() {
        put_formula(alloc, out, formula?)?;
    }
    Ok(())
}

/// Likewise those of the sheet at an index, if there is one.
fn put_sheet_at(
    alloc: Global,
    out: &mut Vec<BookCite>,
    view: &View<'_>,
    sheet: usize,
) -> Result<(), AllocError>
    ensures { OnOk result (map book_citation_of out.new.items
        ≡ map book_citation_of out.old.items ++ cited_of (slice_get (sheets_cited view.now) sheet)) }
{
    match cites_of_sheet(alloc, view, sheet)? {
        Some(cites) => put_sheet(alloc, out, &cites),
        None => Ok(()),
    }
}

/// A list of the same texts.
fn copy_of(alloc: Global, texts: &Strings) -> Result<Strings, AllocError>
    ensures { IfOk result (λ copy. copy ≡ texts.now) }
{
    let mut copy = Strings::new(alloc);
    for i in 0..texts.len() {
        if let Some(text) = texts.get(i) {
            copy.push(text)?;
        }
    }
    Ok(copy)
}

/// What the formulas of all sheets of a view cite, in order.
fn cites_of_view(alloc: Global, view: &View<'_>) -> Result<BookCites, AllocError>
    ensures { IfOk result (λ book. book ≡ cited_in view.now) }
{
    let names = copy_of(alloc, view.naming().sheets)?;
    let mut items = Vec::new(alloc);
    for sheet in 0..names.len() {
        put_sheet_at(alloc, &mut items, view, sheet)?;
    }
    Ok(BookCites { names, items })
}

/// The cells that the formulas of a workbook cite, by the bytes of its stream: sheet by sheet in
/// workbook order, by the formula's row, then its column, and from left to right as by
/// `cites_of_formula`. A sheet shows the formulas of the last sheet of its name, at each position the
/// last one; cells without a sheet of their own stand on the sheet that shows the formula; a formula
/// that `parse_formula` refuses cites nothing.
///
/// The forced page, the bound of cells and the functions are those of the options. The first fault of
/// the bytes is the one that `check_stream` answers; there is no limit of bytes. Otherwise only running
/// out of memory refuses.
pub fn cites_of_book(
    alloc: Global,
    bytes: &[u8],
    options: &XlsOptions,
) -> Result<BookCites, XlsError>
    ensures ok { IfOk result (λ book. IsBookCited (rules_of options.now) bytes.now book) }
    ensures fault { (e : XlsError) → IsViewFault (rules_of options.now) bytes.now e → result ≡ Err e }
    ensures cause { IfErr result (CitingCause (rules_of options.now) bytes.now) }
{
    let view = View::new(alloc, bytes, options, NumberStyle::Bits)?;
    let cites = cites_of_view(alloc, &view)?;
    Ok(cites)
}
