//! The source of a module.

ghost use Rattle.std.specs.Prelude.{◌≡◌, MatchResult};
ghost use Rattle.std.specs.String.{string_bytes};
ghost use Rattle.xls_vba.specs.Container.{FailsIn};
ghost use Rattle.xls_vba.specs.Source.{IsSource, IsSourceFault};

use crate::compression_error::OvbaError;
use crate::container::decompress;
use std::alloc::Global;
use xls_text::XlsEncoding;

/// The source of a module ([MS-OVBA] 2.3.4.3): what its stream says from the text offset on (in
/// bytes, as the directory gives it), in the project's code page. An offset after the end of the
/// stream is refused; the places of all other faults count from the offset.
pub fn module_source(
    alloc: Global,
    stream: &[u8],
    offset: u32,
    page: XlsEncoding,
) -> Result<String, OvbaError>
    ensures { MatchResult result
        (λ text. IsSource stream.now offset page (string_bytes text))
        (λ e. FailsIn e (IsSourceFault stream.now offset)) }
{
    let start = offset as usize;
    if stream.len() < start {
        return Err(OvbaError::OffsetPastEnd {
            offset,
            size: stream.len(),
        });
    }
    let (_, container) = stream.split_at(start);
    let bytes = decompress(alloc, container)?;
    let text = page.decode_all(alloc, &bytes)?;
    Ok(text)
}
