//! The source in a module's stream.

ghost use Rattle.std.specs.Prelude.{◌≡◌, IfOk, IfErr, MatchResult};
ghost use Rattle.std.specs.String.{string_bytes};
ghost use Rattle.xls_vba.specs.Container.{FailsIn};
ghost use Rattle.xls_vba.specs.Source.{IsSourceFault};
ghost use Rattle.xls_macros.specs.Kinds.{entries_in, entry_views};
ghost use Rattle.xls_macros.specs.Sources.{IsLinedSource, listing_text};

use crate::kind::{NamedModule, named_modules};
use crate::newlines::with_newlines;
use std::alloc::{AllocError, Global};
use xls_text::XlsEncoding;
use xls_vba::{OvbaError, module_source};

/// The source that begins at an offset of a module's stream, each of its lines ended by LF. Refused as `module_source`
/// refuses it.
pub(crate) fn source_in(
    alloc: Global,
    stream: &[u8],
    offset: u32,
    page: XlsEncoding,
) -> Result<String, OvbaError>
    ensures { MatchResult result (λ text. IsLinedSource stream.now offset page (string_bytes text))
        (λ e. FailsIn e (IsSourceFault stream.now offset)) }
{
    let source = module_source(alloc, stream, offset, page)?;
    Ok(with_newlines(alloc, source.as_str())?)
}

/// The modules that the bytes of a project's stream name.
pub(crate) fn listed_in(
    alloc: Global,
    stream: &[u8],
    page: XlsEncoding,
) -> Result<Vec<NamedModule>, AllocError>
    ensures { IfOk result (λ modules. entry_views modules.items ≡ entries_in (listing_text page stream.now)) }
{
    let decoded = page.decode_all(alloc, stream)?;
    let text = with_newlines(alloc, decoded.as_str())?;
    named_modules(alloc, text.as_str())
}
