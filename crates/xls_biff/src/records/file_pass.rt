//! FilePass.

ghost use Rattle.xls_record.specs.Reading.{Exactly};
ghost use Rattle.xls_biff.specs.Records.FilePass.{file_pass_at};

use xls_bytes::read_u16;
use xls_strings::{Part, Record, XlsError, need};

/// Nothing, where the first 16-bit number of a FilePass record, [MS-XLS] 2.4.117, is 0. That means XOR
/// obfuscation, and the records are read as they stand. `Len` for a body of fewer than 2 bytes,
/// `Password` for every other number. Takes no memory.
pub fn parse_file_pass(r: &Record<'_>) -> Result<(), XlsError>
    ensures { Exactly (λ u. u) result (file_pass_at r.now.body.now) }
{
    need(r.body, 2, Part::FilePass)?;
    if read_u16(r.body) != 0 {
        return Err(XlsError::Password);
    }
    Ok(())
}
