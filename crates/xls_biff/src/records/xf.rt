//! XF.

ghost use Rattle.xls_record.specs.Reading.{Exactly};
ghost use Rattle.xls_biff.specs.Records.Xf.{xf_at};

use crate::fields::u16_at;
use xls_strings::{Part, Record, XlsError, need};

/// The format identifier (ifmt) of an XF record, [MS-XLS] 2.4.353: bytes 2 and 3 of the body.
/// `Len` for a body of fewer than 4 bytes. Takes no memory.
pub fn parse_xf(r: &Record<'_>) -> Result<u16, XlsError>
    ensures { Exactly (λ ifmt. ifmt) result (xf_at r.now.body.now) }
{
    need(r.body, 4, Part::Xf)?;
    Ok(u16_at(r.body, 2))
}
