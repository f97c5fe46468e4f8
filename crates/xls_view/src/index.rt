//! The last sheet of each name.

ghost use Rattle.std.specs.Prelude.{◌≡◌, ℕ, List, Some, IfOk, OnOk, length, map};
ghost use Rattle.std.specs.Option.{option_copied};
ghost use Rattle.std.specs.Str.{bytes_eq, chars};
ghost use Rattle.std.specs.BTreeMap.{get_by_text};
ghost use Rattle.std.specs.Map.{update};
ghost use Rattle.xls_data.specs.Sheets.{sheet_content};
ghost use Rattle.xls_meaning.specs.Reading.{last_named, paired};
ghost use Rattle.xls_view.specs.Index.{IsIndex};

use std::alloc::{AllocError, Global};
use std::collections::BTreeMap;
use xls_data::Sheet;

/// Gives a place to a name.
fn put(
    alloc: Global,
    index: &mut BTreeMap<String, usize>,
    name: &str,
    place: usize,
) -> Result<(), AllocError>
    ensures { OnOk result ((q : List ℕ)
        → get_by_text index.new q ≡ update bytes_eq (get_by_text index.old) name.now (Some place) q) }
{
    let key = String::from_str(alloc, name)?;
    index.insert(key, place)?;
    Ok(())
}

/// The place of the last sheet of each name.
pub fn index_of(alloc: Global, sheets: &[Sheet]) -> Result<BTreeMap<String, usize>, AllocError>
    ensures { IfOk result (λ m. IsIndex m sheets.now) }
{
    let mut index = BTreeMap::new(alloc);
    for i in 0..sheets.len() {
        put(alloc, &mut index, sheets[i].name.as_str(), i)?;
    }
    Ok(index)
}

/// What is at the place of the last sheet of a name, if a sheet has it, of what is at the place of each sheet.
pub fn find_named<'a, X>(
    sheets: &[Sheet],
    each: &'a [X],
    index: &BTreeMap<String, usize>,
    name: &str,
) -> Option<&'a X>
    requires index { IsIndex index.now sheets.now }
    requires each { length each.now ≡ length sheets.now }
    ensures { option_copied result ≡ last_named (paired (map sheet_content sheets.now) each.now) (chars name.now) }
{
    match index.get(name) {
        Some(place) => each.get(*place),
        None => None,
    }
}
