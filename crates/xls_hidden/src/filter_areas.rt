//! The areas of the filters of a workbook's sheets, by the names of its globals.

ghost use Rattle.std.specs.Prelude.{◌≡◌, ◌<◌, ◌≤◌, ◌+◌, ◌^◌, ℕ, None, IfOk, length, slice_index_or};
ghost use Rattle.xls_parts.specs.PartRecords.{globals_records, placed_of};
ghost use Rattle.xls_hidden.specs.FilterAreas as areas;
ghost use Rattle.xls_hidden.specs.FilterAreas.{AreAreas};
ghost use Rattle.xls_hidden.specs.Walking.{GainsArea};

use crate::fields::u16_at;
use crate::lines::FilterArea;
use std::alloc::{AllocError, Global};
use xls_parts::{GlobalsRecords, PartRecord};
use xls_record::{Biff, is_biff8};
use xls_stream::types::LBL;

/// The area of a filter, and the number of its sheet from 1.
#[derive(Clone, Copy)]
pub(crate) struct SheetArea {
    pub(crate) number: u16,
    pub(crate) area: FilterArea,
}

/// Whether a name of one unit is that of a filter's area.
fn is_filter_unit(version: Biff, name: &[u8]) -> bool
    ensures { result ≡ areas.is_filter_unit version name.now }
{
    if !is_biff8(version) {
        return !name.is_empty() && name[0] == 0x0D;
    }
    if name.len() < 2 {
        return false;
    }
    if name[0] % 2 == 1 {
        return name.len() >= 3 && u16_at(name, 1) == 0x0D;
    }
    name[1] == 0x0D
}

/// Whether the first byte is a token for an area of a sheet.
fn starts_area(tokens: &[u8]) -> bool
    ensures { result ≡ areas.starts_area tokens.now }
{
    !tokens.is_empty() && matches!(tokens[0], 0x3B | 0x5B | 0x7B)
}

/// The rows of the area that tokens begin with, where it is there whole.
fn area_at(version: Biff, tokens: &[u8]) -> Option<FilterArea>
    ensures { result ≡ areas.area_at version tokens.now }
{
    if !starts_area(tokens) {
        return None;
    }
    if is_biff8(version) {
        if tokens.len() < 11 {
            return None;
        }
        return Some(FilterArea {
            first: u16_at(tokens, 3),
            last: u16_at(tokens, 5),
        });
    }
    if tokens.len() < 21 {
        return None;
    }
    Some(FilterArea {
        first: u16_at(tokens, 15) % 0x4000,
        last: u16_at(tokens, 17) % 0x4000,
    })
}

/// The tokens of a name: the last bytes of the record, so many as it says; none where it has fewer.
fn tokens_of(body: &[u8], size: usize) -> &[u8]
    ensures { result.now ≡ areas.tokens_of size body.now }
{
    if body.len() < size {
        return &[];
    }
    let (_, tokens) = body.split_at(body.len() - size);
    tokens
}

/// The area of a filter that the body of a Lbl tells, with its sheet's number.
fn lbl_area(version: Biff, body: &[u8]) -> Option<SheetArea>
    ensures { result ≡ areas.lbl_area version body.now }
{
    if body.len() < 14 {
        return None;
    }
    let is_built_in = u16_at(body, 0) / 0x0020 % 2 == 1;
    let (_, name) = body.split_at(14);
    if !is_built_in || body[3] != 1 || !is_filter_unit(version, name) {
        return None;
    }
    match area_at(version, tokens_of(body, u16_at(body, 4) as usize)) {
        Some(area) => Some(SheetArea {
            number: u16_at(body, 8),
            area,
        }),
        None => None,
    }
}

/// The area of a filter that a record tells, if it is a Lbl that does.
fn record_area(version: Biff, r: &PartRecord<'_>) -> Option<SheetArea>
    ensures { result ≡ areas.record_area version (placed_of r.now) }
{
    if r.typ != LBL {
        return None;
    }
    lbl_area(version, r.body)
}

/// Keeps the area of a sheet that has none yet.
fn put_area(areas: &mut Vec<Option<FilterArea>>, found: Option<SheetArea>)
    ensures { GainsArea areas.old.items found areas.new.items }
{
    if let Some(found) = found {
        if found.number > 0 {
            let sheet = found.number as usize - 1;
            if sheet < areas.len() && areas[sheet].is_none() {
                areas[sheet] = Some(found.area);
            }
        }
    }
}

/// The area of each sheet's filter, by the first name that tells it, in the globals that a workbook's stream begins
/// with. Refused where memory runs out.
pub fn read_filter_areas(
    alloc: Global,
    stream: &[u8],
    version: Biff,
    sheets: usize,
) -> Result<Vec<Option<FilterArea>>, AllocError>
    ensures { IfOk result (λ areas. AreAreas version (globals_records stream.now) sheets areas.items) }
{
    let mut areas: Vec<Option<FilterArea>> = vec![in alloc; None; sheets]?;
    'records: for r in GlobalsRecords::new(stream) {
        put_area(&mut areas, record_area(version, &r));
    }
    Ok(areas)
}
