//! What items cite, up to a name whose formula stands in its place.

ghost use Rattle.std.specs.Prelude.{◌≡◌, ℕ, [], ◌++◌, IfOk, List, OnOk};
ghost use Rattle.std.specs.Option.{option_map};
ghost use Rattle.xls_shown_refs.specs.Citations.{numbers, with_distinct};
ghost use Rattle.xls_shown_refs.specs.Items.{Citation as CitationValue, Item as ItemValue, before};
ghost use Rattle.xls_shown_refs.specs.Keys.{SeenSo, kept};
ghost use Rattle.xls_shown_refs.specs.Origins.{Citing};
ghost use Rattle.xls_shown_refs.specs.Views.{citation_view, citations_view, items_view};
ghost use Rattle.xls_shown_refs.specs.Walk as specs;

use crate::citation::Citation;
use crate::items::Item;
use crate::keys::{Key, key_of};
use std::alloc::{AllocError, Global};
use std::collections::BTreeSet;
use xls_defined_names::DefinedNames;

/// What is cited so far, and what waits.
#[derive(Drop)]
pub(crate) struct Walk<'a> {
    /// The items that wait, the next one last.
    pub(crate) pending: Vec<Item<'a>>,
    pub(crate) found: Vec<Citation<'a>>,
    /// Those that were found.
    pub(crate) cells: BTreeSet<Key<'a>>,
    /// The numbers of the names that were followed.
    pub(crate) names: BTreeSet<u32>,
}

/// Takes a citation, unless an equal one was found.
pub(crate) fn take<'a>(
    cells: &mut BTreeSet<Key<'a>>,
    found: &mut Vec<Citation<'a>>,
    citation: Citation<'a>,
) -> Result<(), AllocError>
    ensures { OnOk result (SeenSo cells.old (citations_view found.old.items)
        → SeenSo cells.new (citations_view found.new.items)
        × (citations_view found.new.items ≡ kept (citations_view found.old.items) (citation_view citation.entry))) }
{
    if cells.insert(key_of(citation))? {
        found.push(citation)?;
    }
    Ok(())
}

/// Moves items to those that wait, so that the first of them is the next one.
pub(crate) fn put_before<'a>(
    items: &mut Vec<Item<'a>>,
    pending: &mut Vec<Item<'a>>,
) -> Result<(), AllocError>
    ensures moved { OnOk result (specs.waiting pending.new.items
        ≡ items_view items.old.items ++ specs.waiting pending.old.items) }
    ensures none { OnOk result (items.new.items ≡ []) }
{
    'items: while let Some(item) = items.pop() {
        pending.push(item)?;
    }
    Ok(())
}

/// Whether there is a name of a number that wasn't followed; it counts as followed then.
fn begin_name(
    followed: &mut BTreeSet<u32>,
    names: &DefinedNames,
    number: u32,
) -> Result<bool, AllocError>
    ensures { IfOk result (specs.Begins followed.old followed.new (numbers names.now) number) }
{
    if names.numbered(number).is_none() {
        return Ok(false);
    }
    let is_new = followed.insert(number)?;
    Ok(is_new)
}

/// Takes a citation, where there is one.
pub(crate) fn take_some<'a>(
    cells: &mut BTreeSet<Key<'a>>,
    found: &mut Vec<Citation<'a>>,
    citation: Option<Citation<'a>>,
) -> Result<(), AllocError>
    ensures { OnOk result (SeenSo cells.old (citations_view found.old.items)
        → SeenSo cells.new (citations_view found.new.items)
        × (citations_view found.new.items ≡ with_distinct (citations_view found.old.items) (before (option_map citation_view citation.entry) []))) }
{
    match citation {
        Some(citation) => take(cells, found, citation),
        None => Ok(()),
    }
}

impl<'a> Walk<'a> {
    /// Nothing is cited, and nothing waits. Takes no memory.
    pub(crate) fn new(alloc: Global) -> Walk<'a>
        ensures found { specs.found_in result ≡ [] }
        ensures waiting { result.pending.items ≡ [] }
        ensures sound { specs.IsSound result }
        ensures followed { specs.NoneFollowed result }
    {
        Walk {
            pending: Vec::new(alloc),
            found: Vec::new(alloc),
            cells: BTreeSet::new(alloc),
            names: BTreeSet::new(alloc),
        }
    }

    /// Forgets all. Of lists the memory stays.
    pub(crate) fn clear(&mut self)
        ensures found { specs.found_in self.new ≡ [] }
        ensures waiting { self.new.pending.items ≡ [] }
        ensures sound { specs.IsSound self.new }
        ensures followed { specs.NoneFollowed self.new }
    {
        self.pending.clear();
        self.found.clear();
        self.cells.clear();
        self.names.clear();
    }

    /// Takes what the items that wait cite, up to a name that wasn't followed.
    pub(crate) fn next_name(&mut self, names: &DefinedNames) -> Result<Option<u32>, AllocError>
        ensures { IfOk result (λ number. (c : Citing) → (next : List ℕ → List ItemValue → List CitationValue)
            → c.here.names ≡ names.now → specs.IsSound self.old → specs.IsStep c next self.old self.new number) }
    {
        'items: while let Some(item) = self.pending.pop() {
            match item {
                Item::Cells(citation) => take(&mut self.cells, &mut self.found, citation)?,
                Item::Name(number) => {
                    if begin_name(&mut self.names, names, number)? {
                        return Ok(Some(number));
                    }
                }
            }
        }
        Ok(None)
    }
}
