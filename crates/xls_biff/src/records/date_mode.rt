//! DateMode.

ghost use Rattle.xls_record.specs.Reading.{Exactly};
ghost use Rattle.xls_biff.specs.Records.DateMode.{date_mode_at};

use xls_bytes::read_u16;
use xls_strings::{Part, Record, XlsError, need};

/// Whether a DateMode record, [MS-XLS] 2.4.77, sets the date system of 1904: its first 16-bit number is
/// 1. `Len` for a body of fewer than 2 bytes. Takes no memory.
pub fn parse_date_mode(r: &Record<'_>) -> Result<bool, XlsError>
    ensures { Exactly (λ b. b) result (date_mode_at r.now.body.now) }
{
    need(r.body, 2, Part::DateMode)?;
    Ok(read_u16(r.body) == 1)
}
