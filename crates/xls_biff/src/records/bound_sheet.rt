//! BoundSheet8.

ghost use Rattle.std.specs.Prelude.{◌≡◌, IfOk, encode_utf8_all};
ghost use Rattle.std.specs.String.{string_bytes};
ghost use Rattle.std.specs.Str.{chars};
ghost use Rattle.xls_text.specs.declared.encoding.XlsEncoding.{XlsEncoding};
ghost use Rattle.xls_data.specs.Sheets.{sheet_content};
ghost use Rattle.xls_record.specs.Reading.{Exactly, Gives, gives};
ghost use Rattle.xls_strings.specs.Texts.{text_of};
ghost use Rattle.xls_biff.specs.Records.BoundSheet.{bound_sheet_at, kind_at, visible_at, without_nuls};

use std::alloc::{AllocError, Global};
use xls_bytes::read_usize;
use xls_data::{Sheet, SheetType, SheetVisible};
use xls_strings::{Biff, Part, Record, XlsError, need, parse_short_string, split_short};
use xls_text::XlsEncoding;

/// The visibility of the low six bits of byte 4.
fn visible_of(state: u8) -> Result<SheetVisible, XlsError>
    ensures { Exactly (λ v. v) result (visible_at state) }
{
    match state {
        0 => Ok(SheetVisible::Visible),
        1 => Ok(SheetVisible::Hidden),
        2 => Ok(SheetVisible::VeryHidden),
        _ => Err(XlsError::Unrecognized {
            typ: Part::HsState,
            val: state,
        }),
    }
}

/// The kind of byte 5.
fn kind_of(dt: u8) -> Result<SheetType, XlsError>
    ensures { Exactly (λ k. k) result (kind_at dt) }
{
    match dt {
        0 => Ok(SheetType::WorkSheet),
        1 => Ok(SheetType::MacroSheet),
        2 => Ok(SheetType::ChartSheet),
        6 => Ok(SheetType::Vba),
        _ => Err(XlsError::Unrecognized {
            typ: Part::SheetKind,
            val: dt,
        }),
    }
}

// The characters that are no NULs, in UTF-8.
fn kept_characters(alloc: Global, text: &str) -> Result<String, AllocError>
    ensures { IfOk result (λ t. string_bytes t ≡ encode_utf8_all (without_nuls (chars text.now))) }
{
    text.chars().filter(|c| '\0' < *c).collect(alloc)
}

/// The text without its NULs.
fn text_without_nuls(alloc: Global, text: &str) -> Result<String, AllocError>
    ensures { IfOk result (λ t. text_of t ≡ without_nuls (chars text.now)) }
{
    let kept = kept_characters(alloc, text)?;
    Ok(kept)
}

/// The offset of a sheet's part and what a BoundSheet8 record, [MS-XLS] 2.4.28, tells of the sheet: the
/// offset in bytes 0 to 3, the visibility in the low six bits of byte 4, the kind in byte 5, and the
/// name, a short string from byte 6 on, without its NULs. `Len` for fewer than 6 bytes and as
/// `parse_short_string` says, `Unrecognized` for another visibility or kind; else only running out of memory.
pub fn parse_sheet_metadata(
    alloc: Global,
    r: &Record<'_>,
    encoding: &XlsEncoding,
    biff: Biff,
) -> Result<(usize, Sheet), XlsError>
    ensures { Gives (λ x. (x.0, sheet_content x.1)) result (bound_sheet_at encoding.now biff r.now.body.now) }
{
    need(r.body, 6, Part::BoundSheet)?;
    let visible = visible_of(r.body[4] % 64)?;
    let typ = kind_of(r.body[5])?;
    let (_, string) = r.body.split_at(6);
    let text = parse_short_string(alloc, string, encoding, biff)?;
    let name = text_without_nuls(alloc, text.as_str())?;
    Ok((read_usize(r.body), Sheet { name, typ, visible }))
}

/// The offset of a sheet's part by its BoundSheet8 record, or the error that `parse_sheet_metadata`
/// answers, out of memory apart, under every page. Takes no memory.
pub fn check_sheet_metadata(r: &Record<'_>, biff: Biff) -> Result<usize, XlsError>
    ensures { (page : XlsEncoding) → Exactly (λ n. n) result (gives (λ x. x.0) (bound_sheet_at page biff r.now.body.now)) }
{
    need(r.body, 6, Part::BoundSheet)?;
    visible_of(r.body[4] % 64)?;
    kind_of(r.body[5])?;
    let (_, string) = r.body.split_at(6);
    split_short(string, biff)?;
    Ok(read_usize(r.body))
}
