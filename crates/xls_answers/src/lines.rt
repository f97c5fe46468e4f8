//! The lines of a workbook.

ghost use Rattle.std.specs.Prelude.{◌≡◌};
ghost use Rattle.xls_listing.specs.Listing.{IsDisplayedLine};
ghost use Rattle.xls_output.specs.Each.{DeliversEach};
ghost use Rattle.xls_answers.specs.Views.{AreLines, AreShownLines, BeginLines, BeginShownLines, MissesNone, OfView, lines_listed, numbers_in, reading_in, rules_shown};

use crate::failure::Failure;
use std::alloc::Global;
use xls_formula::NumberStyle;
use xls_listing::{
    CellReading, write_formula_list, write_listing, write_ref_list, write_sheet_list,
};
use xls_open::XlsOptions;
use xls_output::{Sink, Stop};
use xls_readable::{Form, Listing};
use xls_view::View;

/// How formulas show doubles in the lines of a form.
fn numbers_in(form: Form) -> NumberStyle
    ensures { result ≡ numbers_in form }
{
    match form {
        Form::Text | Form::Json => NumberStyle::Decimal,
        Form::Exact => NumberStyle::Bits,
    }
}

/// How cells are read for the lines of a form.
fn reading_in(form: Form) -> CellReading
    ensures { result ≡ reading_in form }
{
    match form {
        Form::Text | Form::Json => CellReading::ByCode,
        Form::Exact => CellReading::Recorded,
    }
}

/// Writes the lines of a view.
fn write_view<K: Sink>(
    alloc: Global,
    sink: &mut K,
    lines: Listing,
    form: Form,
    view: &View<'_>,
) -> Result<(), Stop>
    ensures { DeliversEach (IsDisplayedLine form) (lines_listed lines form view.now) (K.state sink.old) (K.state sink.new) result }
{
    match lines {
        Listing::Dump => write_listing(alloc, sink, &form, reading_in(form), view),
        Listing::Sheets => write_sheet_list(alloc, sink, &form, view),
        Listing::Formulas => write_formula_list(alloc, sink, &form, view),
        Listing::Refs => write_ref_list(alloc, sink, &form, view),
    }
}

/// Writes the lines of the workbook that a stream's bytes hold. Nothing is written before all of the stream is
/// checked.
pub fn write_lines<K: Sink>(
    alloc: Global,
    sink: &mut K,
    lines: Listing,
    form: Form,
    options: &XlsOptions,
    bytes: &[u8],
) -> Result<(), Failure>
    ensures { OfView (rules_shown form options.now) bytes.now (AreLines lines form) (BeginLines lines form) MissesNone
        (K.state sink.old) (K.state sink.new) result }
{
    let view = View::new(alloc, bytes, options, numbers_in(form))?;
    write_view(alloc, sink, lines, form, &view)?;
    Ok(())
}

/// Writes all that the workbook holds, each cell with what Excel shows. Nothing is written before all of the stream is
/// checked.
pub(crate) fn write_shown<K: Sink>(
    alloc: Global,
    sink: &mut K,
    form: Form,
    options: &XlsOptions,
    bytes: &[u8],
) -> Result<(), Failure>
    ensures { OfView (rules_shown form options.now) bytes.now (AreShownLines form) (BeginShownLines form) MissesNone
        (K.state sink.old) (K.state sink.new) result }
{
    let view = View::new(alloc, bytes, options, numbers_in(form))?;
    write_listing(alloc, sink, &form, CellReading::Shown, &view)?;
    Ok(())
}
