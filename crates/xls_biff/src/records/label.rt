//! Label and RString.

ghost use Rattle.xls_text.specs.declared.encoding.XlsEncoding.{XlsEncoding};
ghost use Rattle.xls_record.specs.Reading.{Exactly, Gives};
ghost use Rattle.xls_biff.specs.Cells.{cell_entry_of};
ghost use Rattle.xls_biff.specs.Records.Label.{label_at, label_entry, label_prefix};

use crate::cells::position_of;
use std::alloc::Global;
use xls_data::{Cell, Data};
use xls_strings::{Biff, Part, XlsError, need, parse_string, split_string};
use xls_text::XlsEncoding;

/// The row and the column of the body of a Label, [MS-XLS] 2.4.148, or of an RString, both counted from
/// 0, and the bytes of its string, which aren't decoded: those after row, column and XF index. `Len` for
/// fewer than 6 bytes. Takes no memory.
pub fn split_label(r: &[u8]) -> Result<((u32, u32), &[u8]), XlsError>
    ensures { Exactly (λ x. (x.0, x.1.now)) result (label_prefix r.now) }
{
    need(r, 6, Part::Label)?;
    let (_, string) = r.split_at(6);
    Ok((position_of(r), string))
}

/// The cell of the body of a Label or an RString: its position, and its string as a text. `Len` as
/// `split_label` and `parse_string` say; else only running out of memory.
pub fn parse_label(
    alloc: Global,
    r: &[u8],
    encoding: &XlsEncoding,
    biff: Biff,
) -> Result<Cell<Data>, XlsError>
    ensures { Gives cell_entry_of result (label_at encoding.now biff r.now) }
{
    let (at, string) = split_label(r)?;
    let text = parse_string(alloc, string, encoding, biff)?;
    Ok(Cell::new(at, Data::String(text)))
}

/// What the body of a Label or an RString holds, as `split_label` says, where its string has no fault
/// either. Takes no memory.
pub fn read_label(r: &[u8], biff: Biff) -> Result<((u32, u32), &[u8]), XlsError>
    ensures { (page : XlsEncoding) →
        Exactly (λ x. label_entry page biff (x.0, x.1.now)) result (label_at page biff r.now) }
{
    let (position, string) = split_label(r)?;
    split_string(string, biff)?;
    Ok((position, string))
}
