//! Format.

ghost use Rattle.std.specs.Prelude.{◌≡◌};
ghost use Rattle.xls_record.specs.Reading.{Exactly, Gives};
ghost use Rattle.xls_strings.specs.Texts.{text_of};
ghost use Rattle.xls_biff.specs.Records.Format.{format_at, format_code_at, format_id, format_text_at, is_format_id};

use std::alloc::Global;
use xls_bytes::read_u16;
use xls_data::{CellFormat, detect_custom_number_format};
use xls_strings::{Biff, Part, Record, XlsError, is_biff8, need, parse_short_string, parse_string};
use xls_text::XlsEncoding;

/// Whether a Format record may have this identifier: 5 to 8, 23 to 26, 41 to 44, 63 to 66 or 164 to 382.
/// The class of a number is decided by those alone.
pub fn is_format_id(ifmt: u16) -> bool
    ensures { result ≡ is_format_id ifmt }
{
    matches!(ifmt, 5..=8 | 23..=26 | 41..=44 | 63..=66 | 164..=382)
}

/// Nothing, where a Format record may have this identifier.
fn check_id(ifmt: u16) -> Result<(), XlsError>
    ensures { Exactly (λ u. u) result (format_id ifmt) }
{
    if !is_format_id(ifmt) {
        return Err(XlsError::InvalidFormat { ifmt });
    }
    Ok(())
}

/// The text of a Format record.
fn format_text(
    alloc: Global,
    bytes: &[u8],
    encoding: &XlsEncoding,
    biff: Biff,
) -> Result<String, XlsError>
    ensures { Gives text_of result (format_text_at encoding.now biff bytes.now) }
{
    if is_biff8(biff) {
        parse_string(alloc, bytes, encoding, biff)
    } else {
        parse_short_string(alloc, bytes, encoding, biff)
    }
}

/// The identifier (ifmt) of a Format record, [MS-XLS] 2.4.126, whichever it is, and its text, the format's
/// code, which is a string from byte 2 on, before BIFF8 a short string. `Len` for fewer than 2 bytes and as
/// those readers say; else only running out of memory.
pub fn parse_format_code(
    alloc: Global,
    r: &Record<'_>,
    encoding: &XlsEncoding,
    biff: Biff,
) -> Result<(u16, String), XlsError>
    ensures { Gives (λ f. (f.0, text_of f.1)) result (format_code_at encoding.now biff r.now.body.now) }
{
    need(r.body, 2, Part::Format)?;
    let (_, string) = r.body.split_at(2);
    let code = format_text(alloc, string, encoding, biff)?;
    Ok((read_u16(r.body), code))
}

/// The identifier (ifmt) of a Format record, [MS-XLS] 2.4.126, and the class of its text, which is a
/// string from byte 2 on, before BIFF8 a short string. `Len` for fewer than 2 bytes and as those
/// readers say, `InvalidFormat` unless the identifier is 5 to 8, 23 to 26, 41 to 44, 63 to 66 or 164
/// to 382; else only running out of memory.
pub fn parse_format(
    alloc: Global,
    r: &Record<'_>,
    encoding: &XlsEncoding,
    biff: Biff,
) -> Result<(u16, CellFormat), XlsError>
    ensures { Gives (λ x. x) result (format_at encoding.now biff r.now.body.now) }
{
    need(r.body, 2, Part::Format)?;
    let ifmt = read_u16(r.body);
    check_id(ifmt)?;
    let (_, string) = r.body.split_at(2);
    let text = format_text(alloc, string, encoding, biff)?;
    Ok((ifmt, detect_custom_number_format(text.as_str())))
}
