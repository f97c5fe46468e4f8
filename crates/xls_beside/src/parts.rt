//! The part of the last sheet of each name.

ghost use Rattle.std.specs.Prelude.{◌≡◌, ◌+◌, ◌<◌, ◌^◌, ℕ, List, Some, IfOk, OnOk, drop, length, map};
ghost use Rattle.std.specs.BTreeMap.{get_by_text};
ghost use Rattle.std.specs.Map.{update};
ghost use Rattle.std.specs.Str.{bytes_eq};
ghost use Rattle.xls_hidden.specs.FilterAreas.{AreAreas};
ghost use Rattle.xls_parts.specs.PartRecords.{Placed, globals_records};
ghost use Rattle.xls_open.specs.Globals.{listed_of};
ghost use Rattle.xls_beside.specs.Parts.{IsPartIndex, parts_from, parts_of};

use std::alloc::{AllocError, Global};
use std::collections::BTreeMap;
use xls_hidden::{FilterArea, read_filter_areas};
use xls_open::Listed;
use xls_record::Biff;

/// Where the part of a sheet begins in the stream, in bytes, and the area of the sheet's filter.
#[derive(Clone, Copy)]
pub struct SheetPart {
    pub offset: usize,
    pub area: Option<FilterArea>,
}

/// The bytes from an offset on; none past the end.
pub fn part_at(stream: &[u8], offset: usize) -> &[u8]
    ensures bytes { result.now ≡ drop offset stream.now }
    ensures fits { offset + length result.now < 2 ^ 64 }
{
    if offset > stream.len() {
        return &[];
    }
    let (_, part) = stream.split_at(offset);
    part
}

/// Gives a part to a name.
fn put(
    alloc: Global,
    index: &mut BTreeMap<String, SheetPart>,
    name: &str,
    part: SheetPart,
) -> Result<(), AllocError>
    ensures { OnOk result ((q : List ℕ)
        → get_by_text index.new q ≡ update bytes_eq (get_by_text index.old) name.now (Some part) q) }
{
    let key = String::from_str(alloc, name)?;
    index.insert(key, part)?;
    Ok(())
}

/// The part of the last sheet of each name, where the filters of the sheets have these areas.
fn index_of(
    alloc: Global,
    listed: &[Listed],
    areas: &[Option<FilterArea>],
) -> Result<BTreeMap<String, SheetPart>, AllocError>
    requires { length areas.now ≡ length listed.now }
    ensures { IfOk result (λ m. (version : Biff) (globals : List Placed) → AreAreas version globals (length listed.now) areas.now
        → IsPartIndex m (parts_from version globals 0 (map listed_of listed.now))) }
{
    let mut index = BTreeMap::new(alloc);
    for i in 0..listed.len() {
        let next = &listed[i];
        let part = SheetPart {
            offset: next.offset,
            area: areas[i],
        };
        put(alloc, &mut index, next.sheet.name.as_str(), part)?;
    }
    Ok(index)
}

/// The part of the last sheet of each name, by the stream, the version in force and the sheets that its globals list. Only
/// memory can run out.
pub fn read_parts(
    alloc: Global,
    stream: &[u8],
    version: Biff,
    listed: &[Listed],
) -> Result<BTreeMap<String, SheetPart>, AllocError>
    ensures { IfOk result (λ m. IsPartIndex m (parts_of version (map listed_of listed.now) stream.now)) }
{
    let areas = read_filter_areas(alloc, stream, version, listed.len())?;
    index_of(alloc, listed, &areas)
}
