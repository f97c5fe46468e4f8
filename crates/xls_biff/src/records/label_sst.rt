//! LabelSst.

ghost use Rattle.std.specs.Prelude.{ℕ, List};
ghost use Rattle.std.specs.Option.{option_map};
ghost use Rattle.std.specs.Str.{chars};
ghost use Rattle.xls_data.specs.Content.{text};
ghost use Rattle.xls_record.specs.Reading.{Exactly, Gives};
ghost use Rattle.xls_biff.specs.Cells.{cell_entry_of};
ghost use Rattle.xls_biff.specs.Records.LabelSst.{label_sst_at, shared_entry};

use crate::cells::position_of;
use crate::fields::u32_at;
use std::alloc::Global;
use xls_data::{Cell, Data};
use xls_strings::{Part, Strings, XlsError, need};

/// The row and the column of a LabelSst record's body, both counted from 0, and the 32-bit index of a
/// string of the table, which stands after the XF index. `Len` for fewer than 10 bytes. Takes no memory.
#[inline]
pub fn read_label_sst(r: &[u8]) -> Result<((u32, u32), u32), XlsError>
    ensures { (strings : List (List ℕ)) → Exactly (shared_entry strings) result (label_sst_at strings r.now) }
{
    need(r, 10, Part::LabelSst)?;
    Ok((position_of(r), u32_at(r, 6)))
}

/// Where a LabelSst record's body stands, and the string of the table, lent by it; `None` exactly where
/// the table has no such string. `Len` as `read_label_sst` says. Takes no memory.
#[inline]
pub fn find_label_sst<'s>(
    r: &[u8],
    strings: &'s Strings,
) -> Result<Option<((u32, u32), &'s str)>, XlsError>
    ensures { Exactly (λ found. option_map (λ x. (x.0, text (chars x.1.now))) found) result (label_sst_at strings.now r.now) }
{
    let (position, index) = read_label_sst(r)?;
    match strings.get(index as usize) {
        Some(string) => Ok(Some((position, string))),
        None => Ok(None),
    }
}

/// The cell of a LabelSst record's body: its position, and a copy of its string; `None` and `Len` as
/// `find_label_sst` says, else only out of memory.
pub fn parse_label_sst(
    alloc: Global,
    r: &[u8],
    strings: &Strings,
) -> Result<Option<Cell<Data>>, XlsError>
    ensures { Gives (λ cell. option_map cell_entry_of cell) result (label_sst_at strings.now r.now) }
{
    let Some((at, string)) = find_label_sst(r, strings)? else {
        return Ok(None);
    };
    let value = Data::from_text(alloc, string)?;
    Ok(Some(Cell::new(at, value)))
}
