//! CodePage.

ghost use Rattle.xls_record.specs.Reading.{Exactly};
ghost use Rattle.xls_biff.specs.Records.CodePage.{code_page_at};

use xls_bytes::read_u16;
use xls_strings::{Part, Record, XlsError, need};
use xls_text::XlsEncoding;

/// The page whose number a CodePage record, [MS-XLS] 2.4.52, has in bytes 0 and 1. `Len` for a body of
/// fewer than 2 bytes, `Cfb` for a page that isn't kept. Takes no memory.
pub fn parse_code_page(r: &Record<'_>) -> Result<XlsEncoding, XlsError>
    ensures { Exactly (λ page. page) result (code_page_at r.now.body.now) }
{
    need(r.body, 2, Part::CodePage)?;
    Ok(XlsEncoding::from_codepage(read_u16(r.body))?)
}
