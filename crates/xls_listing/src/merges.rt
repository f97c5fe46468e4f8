//! The merged regions of a sheet.

ghost use Rattle.std.specs.Prelude.{◌≡◌, ◌∷◌, [], map};
ghost use Rattle.xls_listing.specs.Listing.{PutsLines, merge_line};

use crate::lines::{BookLine, LineForm};
use xls_output::{Sink, Stop, Writer};
use xls_view::Merges;

/// Puts the lines of merged regions.
pub(crate) fn put_merges<K: Sink, F: LineForm>(
    form: &F,
    out: &mut Writer<'_, K, F::Buffer>,
    merges: Merges<'_>,
) -> Result<(), Stop>
    ensures { PutsLines K.state F.Buffer.kept (F.is_text form.now) (map merge_line merges.entry)
        out.old out.new result }
{
    for region in merges {
        form.put_line(out, BookLine::Merge(region))?;
    }
    Ok(())
}
