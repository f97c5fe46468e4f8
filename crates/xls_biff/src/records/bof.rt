//! BOF.

ghost use Rattle.std.specs.Prelude.{◌≡◌};
ghost use Rattle.xls_record.specs.Reading.{Exactly};
ghost use Rattle.xls_biff.specs.Records.Bof.{bof_at};

use xls_bytes::read_u16;
use xls_strings::{Biff, Part, Record, XlsError, need};

/// What a BOF record says of the records after it.
#[derive(Clone, Copy, Debug, PartialEq, Eq)]
pub struct Bof {
    pub biff: Biff,
}

/// The version that a BOF record tells, [MS-XLS] 2.4.21: by its first 16-bit number, and where that
/// is 0 by the second one. `Len` for a body of fewer than 2 bytes. Takes no memory.
pub fn parse_bof(r: &Record<'_>) -> Result<Bof, XlsError>
    ensures { Exactly (λ x. x) result (bof_at r.now.body.now) }
{
    let body = r.body;
    need(body, 2, Part::Bof)?;
    let biff = match read_u16(body) {
        0x0200 | 0x0002 | 0x0007 => Biff::Biff2,
        0x0300 => Biff::Biff3,
        0x0400 => Biff::Biff4,
        0x0500 => Biff::Biff5,
        0x0000 if body.len() >= 4 && read_u16(&body[2..]) == 0x1000 => Biff::Biff5,
        _ => Biff::Biff8,
    };
    Ok(Bof { biff })
}
