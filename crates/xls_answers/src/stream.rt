//! What is written of a workbook's stream, and of a file.

ghost use Rattle.std.specs.Prelude.{◌≡◌, IfErr, IfOk, length};
ghost use Rattle.xls_answers.specs.Answers.{HasNumber, OfFile, OfReadable, OfStream};
ghost use Rattle.xls_answers.specs.Views.{IsDump, MissesNone, OfView, RefusesView};
ghost use Rattle.xls_open.specs.Workbook.{rules_of};
ghost use Rattle.xls_view.specs.Viewing.{IsViewed};

use crate::answer::Answer;
use crate::beside::write_beside_lines;
use crate::check::write_check;
use crate::failure::Failure;
use crate::lines::{write_lines, write_shown};
use crate::remake::{write_remade, write_whole};
use crate::tables::write_sheet_of;
use std::alloc::Global;
use xls_container::{Container, is_obfuscated};
use xls_formula::NumberStyle;
use xls_open::XlsOptions;
use xls_output::Sink;
use xls_report::write_report;
use xls_view::View;

/// Writes the dump of the workbook that a stream's bytes hold, as `xls_dump` does.
fn write_exact<K: Sink>(
    alloc: Global,
    sink: &mut K,
    options: &XlsOptions,
    bytes: &[u8],
) -> Result<(), Failure>
    ensures { OfView (rules_of options.now) bytes.now IsDump IsDump MissesNone (K.state sink.old) (K.state sink.new) result }
{
    let view = View::new(alloc, bytes, options, NumberStyle::Bits)?;
    write_report(alloc, sink, &view)?;
    Ok(())
}

/// Writes what is asked for of a workbook's stream. Nothing is written before all of it is checked.
pub fn write_stream<K: Sink>(
    alloc: Global,
    sink: &mut K,
    answer: &Answer<'_>,
    options: &XlsOptions,
    bytes: &[u8],
) -> Result<(), Failure>
    requires { HasNumber answer.now }
    ensures { OfStream answer.now options.now bytes.now (K.state sink.old) (K.state sink.new) result }
{
    match answer {
        Answer::Lines(lines, form) => { write_lines(alloc, sink, *lines, *form, options, bytes) }
        Answer::Shown(form) => write_shown(alloc, sink, *form, options, bytes),
        Answer::Exact => write_exact(alloc, sink, options, bytes),
        Answer::Sheet(choice, table, sight) => {
            write_sheet_of(alloc, sink, choice, table, *sight, options, bytes)
        }
        Answer::Check => write_check(alloc, sink, options, bytes),
        Answer::Beside(topic, form) => {
            write_beside_lines(alloc, sink, *topic, *form, options, bytes)
        }
        Answer::Remade => write_remade(alloc, sink, bytes),
        Answer::Bytes => write_whole(sink, bytes),
    }
}

/// The view of a workbook's stream. One whose records are obfuscated with a password is refused.
pub fn view_of<'s>(
    alloc: Global,
    options: &XlsOptions,
    bytes: &'s [u8],
) -> Result<View<'s>, Failure>
    ensures ok { IfOk result (λ view. IsViewed (rules_of options.now) bytes.now view) }
    ensures sheets { IfOk result (λ view. length view.book.contents ≡ length view.book.sheets) }
    ensures err { IfErr result (RefusesView options.now bytes.now) }
{
    if !is_obfuscated(bytes) {
        return Ok(View::new(alloc, bytes, options, NumberStyle::Bits)?);
    }
    Err(Failure::Obfuscated)
}

/// Writes what is asked for of a workbook's stream. One whose records are obfuscated with a password is refused, and
/// nothing is written before all of it is checked.
pub fn write_workbook<K: Sink>(
    alloc: Global,
    sink: &mut K,
    answer: &Answer<'_>,
    options: &XlsOptions,
    bytes: &[u8],
) -> Result<(), Failure>
    requires { HasNumber answer.now }
    ensures { OfReadable answer.now options.now bytes.now (K.state sink.old) (K.state sink.new) result }
{
    if is_obfuscated(bytes) {
        return Err(Failure::Obfuscated);
    }
    write_stream(alloc, sink, answer, options, bytes)
}

/// Writes what is asked for of the workbook that a file holds: a compound file, or a workbook's stream alone.
/// Nothing is written where the file gives no workbook, its records are obfuscated, or its stream has a fault.
pub fn write_file<K: Sink>(
    alloc: Global,
    sink: &mut K,
    answer: &Answer<'_>,
    options: &XlsOptions,
    file: &[u8],
) -> Result<(), Failure>
    requires { HasNumber answer.now }
    ensures { OfFile answer.now options.now file.now (K.state sink.old) (K.state sink.new) result }
{
    let container = Container::open(alloc, file)?;
    let bytes = container.workbook(alloc)?;
    write_workbook(alloc, sink, answer, options, bytes.as_slice())
}
