//! Citations without repeats. Repeats are found in a set that is ordered, so that a formula of many
//! citations takes no more than a few comparisons for each.

ghost use Rattle.std.specs.Prelude.{◌≡◌, ◌++◌, ◌∷◌, [], List, OnOk, IfOk, IfSome, map};
ghost use Rattle.std.specs.Str.{IsUtf8};
ghost use Rattle.xls_refs.specs.Citations.{Citation, citation_of, distinct};
ghost use Rattle.xls_refs.specs.Steps.{IsDistinctSoFar, key_cite};

use crate::cite::{Cite, Cites};
use crate::walk::Cells;
use std::alloc::{AllocError, Global};
use std::collections::BTreeSet;

/// A citation that owns the name of its sheet.
fn owned(alloc: Global, cells: Cells<'_>) -> Result<Cite, AllocError>
    ensures { IfOk result (λ c. citation_of c ≡ key_cite cells.entry) }
{
    let (sheet, first, last) = cells;
    let sheet = match sheet {
        Some(name) => Some(String::from_str(alloc, name)?),
        None => None,
    };
    Ok(Cite { sheet, first, last })
}

/// The name of the sheet, of which contracts then see that it is a text.
fn sheet_of<'a>(cells: Cells<'a>) -> Option<&'a str>
    ensures is { result ≡ cells.entry.0 }
    ensures text { IfSome result (λ s. IsUtf8 s.now) }
{
    match cells.0 {
        Some(name) => Some(name),
        None => None,
    }
}

/// Takes the next citation, unless the set has it.
fn take<'a>(
    alloc: Global,
    seen: &mut BTreeSet<Cells<'a>>,
    items: &mut Vec<Cite>,
    cells: Cells<'a>,
) -> Result<(), AllocError>
    ensures { OnOk result ((before : List Citation)
        → IsDistinctSoFar seen.old (map citation_of items.old.items) before
        → IsDistinctSoFar seen.new (map citation_of items.new.items) (before ++ key_cite cells.entry ∷ [])) }
{
    let sheet = sheet_of(cells);
    if seen.insert((sheet, cells.1, cells.2))? {
        items.push(owned(alloc, cells)?)?;
    }
    Ok(())
}

/// Each citation once, where it stands first.
pub(crate) fn distinct_cites(alloc: Global, cites: &[Cells<'_>]) -> Result<Cites, AllocError>
    ensures { IfOk result (λ c. c ≡ distinct (map key_cite cites.now)) }
{
    let mut seen = BTreeSet::new(alloc);
    let mut items = Vec::new(alloc);
    'cites: for cells in cites {
        take(alloc, &mut seen, &mut items, *cells)?;
    }
    Ok(Cites { items })
}
