//! Libids: where a library stands, and what it is.

ghost use Rattle.std.specs.Prelude.{◌≡◌, Some};
ghost use Rattle.std.specs.Option.{option_map};
ghost use Rattle.std.specs.String.{string_bytes};
ghost use Rattle.xls_vba.specs.Fields.{Gives};
ghost use Rattle.xls_vba.specs.Libids.{at_last_hash, after_last_hash, says_nothing, libid_of, libid_view, text_of};

use crate::error::VbaError;
use std::alloc::{AllocError, Global};
use xls_text::XlsEncoding;

/// The path and the description that a libid says, or None where it changes nothing.
pub(crate) type Libid = Option<(String, String)>;

const TWO_HASHES: &[u8] = b"##";

// What stands before the last `#` and after it.
fn at_last_hash(text: &str) -> Option<(&str, &str)>
    ensures { option_map (λ x. (x.0.now, x.1.now)) result ≡ at_last_hash text.now }
{
    text.rsplit_once('#')
}

// What stands after the last `#`, or everything.
fn after_last_hash(text: &str) -> &str
    ensures { result.now ≡ after_last_hash text.now }
{
    match at_last_hash(text) {
        None => text,
        Some((_, following)) => following,
    }
}

// An empty libid, and one that ends in `##`.
fn says_nothing(libid: &[u8]) -> bool
    ensures { result ≡ says_nothing libid.now }
{
    let (_, end) = libid.split_at(libid.len() - libid.len().min(2));
    libid.is_empty() || end == TWO_HASHES
}

/// What the bytes of a libid say.
pub(crate) fn libid_of(alloc: Global, page: XlsEncoding, libid: &[u8]) -> Result<Libid, VbaError>
    ensures { Gives libid_view result (libid_of page libid.now) }
{
    if says_nothing(libid) {
        return Ok(None);
    }
    let text = page.decode_all(alloc, libid)?;
    let Some((before, following)) = at_last_hash(text.as_str()) else {
        return Err(VbaError::LibId);
    };
    let path = String::from_str(alloc, after_last_hash(before))?;
    let description = String::from_str(alloc, following)?;
    Ok(Some((path, description)))
}
