//! The cells of a sheet as CSV.

ghost use Rattle.xls_report.specs.Endings.{EndsWithEither};
ghost use Rattle.xls_report.specs.Texts.{IsCsvOf, IsMissingLine, IsMissingOf};

use crate::ending::Ending;
use crate::faults::write_fault;
use std::alloc::Global;
use xls_biff::XlsError;
use xls_csv::write_rows;
use xls_output::{Sink, Stop};
use xls_view::View;

/// Writes that no sheet has a name.
fn write_missing<K: Sink>(alloc: Global, sink: &mut K, name: &str) -> Result<Ending, Stop>
    ensures { EndsWithEither (λ _. ⊥) (IsMissingLine name.now) (K.state sink.old) (K.state sink.new) result }
{
    let error = XlsError::WorksheetNotFound(String::from_str(alloc, name)?);
    write_fault(alloc, sink, &error)?;
    Ok(Ending::Refused)
}

/// Writes the cells of the last sheet of a name as CSV, or that no sheet has the name.
pub fn write_csv<K: Sink>(
    alloc: Global,
    sink: &mut K,
    view: &View<'_>,
    name: &str,
) -> Result<Ending, Stop>
    ensures { EndsWithEither (IsCsvOf name.now view.now.book) (IsMissingOf name.now view.now.book)
        (K.state sink.old) (K.state sink.new) result }
{
    match view.cells_named(name)? {
        Some(cells) => {
            write_rows(alloc, sink, &cells)?;
            Ok(Ending::Done)
        }
        None => write_missing(alloc, sink, name),
    }
}
