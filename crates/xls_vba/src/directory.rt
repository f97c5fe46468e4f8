//! A project directory, part by part.

ghost use Rattle.std.specs.Prelude.{◌≡◌, [], List, IfOk, MatchResult};
ghost use Rattle.xls_vba.specs.Items.{ItemsFault};
ghost use Rattle.xls_vba.specs.References.{reference_view, reference_views, all_with};
ghost use Rattle.xls_vba.specs.Directory.{Refers, FailsIn};

use crate::error::VbaError;
use crate::items::item_of;
use crate::references::{Listing, Reference, list, next, start};
use std::alloc::{AllocError, Global};
use xls_text::XlsEncoding;

// The references at the end of the items.
fn finish(listing: Listing) -> Result<Vec<Reference>, AllocError>
    ensures { IfOk result (λ v. reference_views v.items
        ≡ all_with (reference_views listing.listed.items) (reference_view listing.current) []) }
{
    let Listing { listed, current } = listing;
    list(listed, current)
}

/// The references of the items up to their end, and the bytes after it.
pub(crate) fn references_in(
    alloc: Global,
    page: XlsEncoding,
    bytes: &[u8],
) -> Result<(Vec<Reference>, &[u8]), VbaError>
    ensures { MatchResult result
        (λ x. Refers page bytes.now (reference_views x.0.items) x.1.now)
        (λ e. FailsIn e (ItemsFault page bytes.now)) }
{
    let mut listing = start(alloc);
    let mut rest = bytes;
    'items: loop {
        let (item, after) = item_of(alloc, page, rest)?;
        let Some(item) = item else {
            let references = finish(listing)?;
            return Ok((references, after));
        };
        listing = next(alloc, listing, item)?;
        rest = after;
    }
}
