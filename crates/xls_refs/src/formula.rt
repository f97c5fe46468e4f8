//! The cells that a formula cites.

ghost use Rattle.xls_record.specs.Reading.{Gives};
ghost use Rattle.xls_formula.specs.Holding.{scope_context};
ghost use Rattle.xls_refs.specs.Citations.{cites_at};

use crate::cite::Cites;
use crate::distinct::distinct_cites;
use crate::walk::cited_cells;
use std::alloc::Global;
use xls_biff::{Biff, Refs, Strings, XlsError};
use xls_formula::{FunctionTable, Names, NumberStyle, Scope};
use xls_text::XlsEncoding;

/// What a formula cites.
pub(crate) fn cites_in_scope(
    alloc: Global,
    rgce: &[u8],
    scope: Scope<'_>,
) -> Result<Cites, XlsError>
    ensures { Gives (λ c. c) result (cites_at (scope_context scope.entry) rgce.now) }
{
    let cells = cited_cells(alloc, rgce, scope)?;
    let cites = distinct_cites(alloc, &cells)?;
    Ok(cites)
}

/// The cells that a formula cites, [MS-XLS] CellParsedFormula 2.5.198.3, from left to right, each
/// later repeat of an equal one left out. They are those of its tokens of the families 24 (PtgRef),
/// 25 (PtgArea), 3A (PtgRef3d) and 3B (PtgArea3d). The last two tell a sheet: the one whose number the
/// reference holds, `#REF` where either is missing or negative. Defined names and cells that are gone
/// cite nothing.
///
/// Arguments and refusals are those of `parse_formula`; the names and the page change nothing.
pub fn cites_of_formula(
    alloc: Global,
    rgce: &[u8],
    sheets: &Strings,
    names: &Names,
    refs: &Refs,
    encoding: &XlsEncoding,
    biff: Biff,
    functions: &FunctionTable,
) -> Result<Cites, XlsError>
    ensures exact { Gives (λ c. c) result (cites_at (record {
      sheets = sheets.now;
      names = names.now;
      refs = refs.now;
      page = encoding.now;
      biff = biff;
      functions = functions.now;
      numbers = NumberStyle.Bits;
    }) rgce.now) }
{
    let scope = Scope {
        sheets,
        names,
        refs,
        encoding: *encoding,
        biff,
        functions,
        numbers: NumberStyle::Bits,
    };
    cites_in_scope(alloc, rgce, scope)
}
