//! Custom properties: names and values.

ghost use Rattle.std.specs.Prelude.{◌≡◌, ℕ, ◌++◌, List, Some, IfOk, OnOk};
ghost use Rattle.std.specs.Str.{bytes_eq};
ghost use Rattle.std.specs.String.{string_bytes};
ghost use Rattle.std.specs.BTreeMap.{get_by_text};
ghost use Rattle.std.specs.Map.{update};
ghost use Rattle.xls_props.specs.Values.{Value};
ghost use Rattle.xls_props.specs.Names.{Name, HasNames};
ghost use Rattle.xls_props.specs.Custom.{custom_of, customs_of, HasLast};
ghost use Rattle.xls_props.specs.Walked.{IsWalked};

use crate::entries::Entry;
use crate::names::Names;
use crate::values::{stored_at, text_of};
use std::alloc::{AllocError, Global};
use std::collections::BTreeMap;
use xls_text::XlsEncoding;

// Gives a value to a name.
fn put(map: &mut BTreeMap<String, String>, name: String, value: String) -> Result<(), AllocError>
    ensures { OnOk result ((q : List ℕ) → get_by_text map.new q
        ≡ update bytes_eq (get_by_text map.old) (string_bytes name) (Some value) q) }
{
    map.insert(name, value)?;
    Ok(())
}

/// A walk over the entries of a section, from the last one on.
#[derive(Drop)]
struct Walk {
    /// The names that no later entry took, by their numbers.
    names: Names,
    /// The values of the later entries, by their names.
    found: BTreeMap<String, String>,
}

impl Walk {
    // Gives the value of an entry to its name, unless a later entry has given it one. The name is
    // taken, so that no earlier entry of the number is looked at again.
    fn put_entry(
        &mut self,
        alloc: Global,
        page: XlsEncoding,
        s: &[u8],
        entry: Entry,
    ) -> Result<(), AllocError>
        ensures { OnOk result ((ns : List Name) (ps : List (List ℕ × Value))
            → IsWalked ns ps self.old.found self.old.names
            → IsWalked ns (custom_of ns page s.now entry ++ ps) self.new.found self.new.names) }
    {
        if entry.0 < 2 {
            return Ok(());
        }
        let Some(value) = stored_at(page, s, entry.1 as usize) else {
            return Ok(());
        };
        let Some(name) = self.names.remove(&entry.0) else {
            return Ok(());
        };
        if self.found.contains_key(name.as_str()) {
            return Ok(());
        }
        let text = text_of(alloc, value)?;
        put(&mut self.found, name, text)?;
        Ok(())
    }
}

/// The custom properties of a section, by their names: the last entry that gives a name a value
/// decides, so they are walked from the last on.
pub(crate) fn customs_of(
    alloc: Global,
    names: Names,
    page: XlsEncoding,
    s: &[u8],
    entries: &[Entry],
) -> Result<BTreeMap<String, String>, AllocError>
    ensures { IfOk result (λ m. (ns : List Name) → HasNames names ns
        → HasLast m (customs_of ns page s.now entries.now)) }
{
    let found = BTreeMap::new(alloc);
    let mut walk = Walk { names, found };
    let mut left = entries.len();
    'entries: while left > 0 {
        left -= 1;
        walk.put_entry(alloc, page, s, entries[left])?;
    }
    Ok(walk.found)
}
