//! String: its body is a string, which `parse_string` reads.

ghost use Rattle.xls_text.specs.declared.encoding.XlsEncoding.{XlsEncoding};
ghost use Rattle.xls_record.specs.Reading.{Exactly};
ghost use Rattle.xls_strings.specs.Strings.{string_at};
ghost use Rattle.xls_biff.specs.Cells.{characters_in};

use xls_strings::{Biff, XlsError, split_string};

/// The body of a String record, where its string has no fault. Takes no memory.
pub(crate) fn read_string(r: &[u8], biff: Biff) -> Result<&[u8], XlsError>
    ensures { (page : XlsEncoding) →
        Exactly (λ s. characters_in (string_at page biff s.now)) result (string_at page biff r.now) }
{
    split_string(r, biff)?;
    Ok(r)
}
