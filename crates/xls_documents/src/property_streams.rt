//! The property streams of a file.

ghost use Rattle.std.specs.Prelude.{◌≡◌, IfOk, IfErr};
ghost use Rattle.std.specs.Cow.{cow_slice_items};
ghost use Rattle.std.specs.Option.{option_map};
ghost use Rattle.xls_container.specs.declared.fault.FileFault.TheVariants.{Memory};
ghost use Rattle.xls_documents.specs.PropertyStreams.{HasStream, ReadsAs, RefusesStream, AreProperties, RefusesProperties, HasProperties, RefusesInFile};

use std::alloc::Global;
use std::borrow::CowSlice;
use xls_compound::Compound;
use xls_container::{Container, FileFault};
use xls_props::{WorkbookProperties, workbook_properties_of};

/// The stream of titles, authors and dates.
const SUMMARY: &str = "\u{5}SummaryInformation";

/// The stream of categories, managers and custom properties.
const DOCUMENT: &str = "\u{5}DocumentSummaryInformation";

// The bytes of the stream of this name in the root, if it is there.
fn stream_named<'c>(
    alloc: Global,
    compound: &'c Compound<'_>,
    name: &str,
) -> Result<Option<CowSlice<'c, u8>>, FileFault>
    ensures ok { IfOk result (λ found. HasStream compound.now name.now (option_map cow_slice_items found)) }
    ensures err { IfErr result (RefusesStream compound.now name.now) }
{
    let Some(entry) = compound.find(&[name]) else {
        return Ok(None);
    };
    if !entry.is_stream() {
        return Ok(None);
    }
    let bytes = compound.stream(alloc, &entry)?;
    Ok(Some(bytes))
}

// The bytes of a stream, if it is there.
fn bytes_of<'b>(stream: &'b Option<CowSlice<'_, u8>>) -> Option<&'b [u8]>
    ensures { option_map (λ x. x.now) result ≡ option_map cow_slice_items stream.now }
{
    match stream {
        Some(bytes) => Some(bytes.as_slice()),
        None => None,
    }
}

// The properties in two streams, if one of them is there.
fn read_properties(
    alloc: Global,
    summary: Option<&[u8]>,
    document: Option<&[u8]>,
) -> Result<Option<WorkbookProperties>, FileFault>
    ensures ok { IfOk result (ReadsAs (option_map (λ x. x.now) summary.entry) (option_map (λ x. x.now) document.entry)) }
    ensures err { IfErr result (λ e. e ≡ Memory) }
{
    if summary.is_none() && document.is_none() {
        return Ok(None);
    }
    let properties = workbook_properties_of(alloc, summary, document)?;
    Ok(Some(properties))
}

// The properties in a compound file.
fn properties_in(
    alloc: Global,
    compound: &Compound<'_>,
) -> Result<Option<WorkbookProperties>, FileFault>
    ensures ok { IfOk result (AreProperties compound.now) }
    ensures err { IfErr result (RefusesProperties compound.now) }
{
    let summary = stream_named(alloc, compound, SUMMARY)?;
    let document = stream_named(alloc, compound, DOCUMENT)?;
    read_properties(alloc, bytes_of(&summary), bytes_of(&document))
}

/// The properties in the streams `\u{5}SummaryInformation` and `\u{5}DocumentSummaryInformation` in the root of a
/// compound file ([MS-OLEPS]); None where neither is there, and for a workbook's stream alone. What can't be read
/// in them is none. Refused where the chain of one of them has a fault, the first of them first.
pub fn properties_of(
    alloc: Global,
    container: &Container<'_>,
) -> Result<Option<WorkbookProperties>, FileFault>
    ensures ok { IfOk result (HasProperties container.now) }
    ensures err { IfErr result (RefusesInFile container.now) }
{
    match container.compound() {
        Some(compound) => properties_in(alloc, compound),
        None => Ok(None),
    }
}
