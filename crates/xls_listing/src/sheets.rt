//! The sheets of a workbook.

ghost use Rattle.std.specs.Prelude.{◌≡◌, ◌∷◌, [], map};
ghost use Rattle.xls_data.specs.Sheets.{sheet_content};
ghost use Rattle.xls_listing.specs.Listing.{PutsLines, sheet_line, sheet_lines};
ghost use Rattle.xls_output.specs.Each.{DeliversEach};

use crate::lines::{BookLine, LineForm};
use std::alloc::Global;
use xls_data::Sheet;
use xls_output::{Sink, Stop, Writer};
use xls_view::View;

/// Puts the line of a sheet.
pub(crate) fn put_sheet<K: Sink, F: LineForm>(
    form: &F,
    out: &mut Writer<'_, K, F::Buffer>,
    sheet: &Sheet,
) -> Result<(), Stop>
    ensures { PutsLines K.state F.Buffer.kept (F.is_text form.now) (sheet_line (sheet_content sheet.now) ∷ [])
        out.old out.new result }
{
    let line = BookLine::Sheet {
        name: sheet.name.as_str(),
        kind: sheet.typ,
        visible: sheet.visible,
    };
    form.put_line(out, line)
}

/// Puts the lines of sheets.
fn put_sheets<K: Sink, F: LineForm>(
    form: &F,
    out: &mut Writer<'_, K, F::Buffer>,
    sheets: &[Sheet],
) -> Result<(), Stop>
    ensures { PutsLines K.state F.Buffer.kept (F.is_text form.now) (map (λ s. sheet_line (sheet_content s)) sheets.now)
        out.old out.new result }
{
    for sheet in sheets {
        put_sheet(form, out, sheet)?;
    }
    Ok(())
}

/// Writes the line of each sheet, in workbook order.
pub fn write_sheet_list<K: Sink, F: LineForm>(
    alloc: Global,
    sink: &mut K,
    form: &F,
    view: &View<'_>,
) -> Result<(), Stop>
    ensures { DeliversEach (F.is_text form.now) (sheet_lines view.now.book)
        (K.state sink.old) (K.state sink.new) result }
{
    let mut buffer = F::buffer(alloc);
    let mut out = Writer::new(&mut buffer, sink);
    put_sheets(form, &mut out, view.sheets())?;
    out.finish()
}
