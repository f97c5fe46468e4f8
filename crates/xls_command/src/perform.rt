//! What each command does.

ghost use Rattle.std.specs.Prelude.{◌≡◌, ◌≤◌, ◌↔◌, IsTrue, length, IfErr, IfOk, Some, None};
ghost use Rattle.xls_open.specs.Opening.{default_options, default_rules};
ghost use Rattle.xls_refs.specs.Citing.{IsBookCited};
ghost use Rattle.xls_refs.specs.Views.{cited_in};
ghost use Rattle.xls_command.specs.Endings.{Ends, IsViewRefusal, OpensTo, Reads};
ghost use Rattle.xls_report.specs.Endings.{EndsWithEither, EndsWithError};
ghost use Rattle.xls_command.specs.Outputs.{IsOutput, IsRefusalText, MayWrite, ReadsNothing};
ghost use Rattle.xls_output.specs.SinkState.{TakesEach};
ghost use Rattle.xls_command.specs.Words.{IsPossible, max_rows};
ghost use Rattle.xls_command.specs.declared.command.Command.TheVariants.{Dump, Sheets, Props, Check, Refs, Csv, Generate};

use crate::command::Command;
use crate::summary::{summary_of, write_summary};
use std::alloc::Global;
use xls_biff::XlsError;
use xls_book::{Source, StreamBytes, XlsOptions, check_stream, read_all};
use xls_documents::write_properties;
use xls_formula::NumberStyle;
use xls_listing::write_ref_list;
use xls_open::{MAX_BYTES, MAX_CELLS};
use xls_output::{Sink, Stop};
use xls_props::workbook_properties_of;
use xls_readable::Form;
use xls_report::{
    Ending, write_csv, write_fault, write_refusal, write_remake, write_report, write_sheets,
    write_sound,
};
use xls_view::View;

/// The view of bytes under the options by default.
fn view_of<'a>(alloc: Global, bytes: &'a [u8]) -> Result<View<'a>, XlsError>
    requires within { length bytes.now ≤ default_options.max_bytes }
    ensures opened { IfOk result (λ view. OpensTo bytes.now view.book) }
    ensures cited { IfOk result (λ view. IsBookCited default_rules bytes.now (cited_in view)) }
    ensures fault { IfErr result (IsViewRefusal bytes.now) }
{
    let options = XlsOptions::defaults(alloc)?;
    View::new(alloc, bytes, &options, NumberStyle::Bits)
}

/// Writes the dump of the bytes' workbook, or the first fault of the bytes.
fn write_dump<K: Sink>(alloc: Global, sink: &mut K, bytes: &[u8]) -> Result<Ending, Stop>
    requires within { length bytes.now ≤ default_options.max_bytes }
    ensures { EndsWithEither (IsOutput Dump (Some bytes.now)) (IsRefusalText Dump (Some bytes.now))
        (K.state sink.old) (K.state sink.new) result }
{
    match view_of(alloc, bytes) {
        Ok(view) => {
            write_report(alloc, sink, &view)?;
            Ok(Ending::Done)
        }
        Err(error) => write_refusal(alloc, sink, &error),
    }
}

/// Writes the lines of the sheets of the bytes' workbook alone, or the first fault of the bytes.
fn write_sheet_lines<K: Sink>(alloc: Global, sink: &mut K, bytes: &[u8]) -> Result<Ending, Stop>
    requires within { length bytes.now ≤ default_options.max_bytes }
    ensures { EndsWithEither (IsOutput Sheets (Some bytes.now)) (IsRefusalText Sheets (Some bytes.now))
        (K.state sink.old) (K.state sink.new) result }
{
    match view_of(alloc, bytes) {
        Ok(view) => {
            write_sheets(alloc, sink, &view)?;
            Ok(Ending::Done)
        }
        Err(error) => write_refusal(alloc, sink, &error),
    }
}

/// Writes the properties that the bytes hold, as both property streams.
fn write_properties_of<K: Sink>(alloc: Global, sink: &mut K, bytes: &[u8]) -> Result<Ending, Stop>
    requires within { length bytes.now ≤ default_options.max_bytes }
    ensures { EndsWithEither (IsOutput Props (Some bytes.now)) (IsRefusalText Props (Some bytes.now))
        (K.state sink.old) (K.state sink.new) result }
{
    let properties = workbook_properties_of(alloc, Some(bytes), Some(bytes))?;
    write_properties(alloc, sink, Form::Exact, &properties)?;
    Ok(Ending::Done)
}

/// Writes the cells that the formulas of the bytes' workbook cite, or the first fault of the bytes.
fn write_cited<K: Sink>(alloc: Global, sink: &mut K, bytes: &[u8]) -> Result<Ending, Stop>
    requires within { length bytes.now ≤ default_options.max_bytes }
    ensures { EndsWithEither (IsOutput Refs (Some bytes.now)) (IsRefusalText Refs (Some bytes.now))
        (K.state sink.old) (K.state sink.new) result }
{
    match view_of(alloc, bytes) {
        Ok(view) => {
            write_ref_list(alloc, sink, &Form::Exact, &view)?;
            Ok(Ending::Done)
        }
        Err(error) => write_refusal(alloc, sink, &error),
    }
}

/// Writes that the bytes have no fault, or which is the first. Nothing is kept but the bytes.
fn write_check<K: Sink>(alloc: Global, sink: &mut K, bytes: &[u8]) -> Result<Ending, Stop>
    requires within { length bytes.now ≤ default_options.max_bytes }
    ensures { EndsWithEither (IsOutput Check (Some bytes.now)) (IsRefusalText Check (Some bytes.now))
        (K.state sink.old) (K.state sink.new) result }
{
    match check_stream(bytes, None, MAX_CELLS) {
        Ok(()) => {
            write_sound(alloc, sink)?;
            Ok(Ending::Done)
        }
        Err(error) => {
            write_fault(alloc, sink, &error)?;
            Ok(Ending::Refused)
        }
    }
}

/// Writes the cells of the last sheet of a name in the bytes' workbook as CSV, or that no sheet has the name, or
/// the first fault of the bytes.
fn write_named<K: Sink>(
    alloc: Global,
    sink: &mut K,
    bytes: &[u8],
    name: &str,
) -> Result<Ending, Stop>
    requires within { length bytes.now ≤ default_options.max_bytes }
    ensures { EndsWithEither (IsOutput (Csv name.entry) (Some bytes.now)) (IsRefusalText (Csv name.entry) (Some bytes.now))
        (K.state sink.old) (K.state sink.new) result }
{
    match view_of(alloc, bytes) {
        Ok(view) => write_csv(alloc, sink, &view, name),
        Err(error) => write_refusal(alloc, sink, &error),
    }
}

/// Makes a stream of so many rows, opens it, and writes what its range holds.
fn generate<K: Sink>(alloc: Global, rows: u32, sink: &mut K) -> Result<Ending, Stop>
    requires least { 1 ≤ rows }
    requires most { rows ≤ max_rows }
    ensures { EndsWithEither (IsOutput (Generate rows) None) (IsRefusalText (Generate rows) None)
        (K.state sink.old) (K.state sink.new) result }
{
    let summary = summary_of(alloc, rows)?;
    write_summary(alloc, sink, summary)?;
    Ok(Ending::Done)
}

/// Writes what a command writes of bytes; one that reads nothing writes the same of any.
fn write<K: Sink>(
    alloc: Global,
    command: Command<'_>,
    sink: &mut K,
    bytes: StreamBytes,
) -> Result<Ending, Stop>
    requires possible { IsPossible command }
    requires within { length bytes ≤ default_options.max_bytes }
    ensures { EndsWithEither (IsOutput command.entry (Some bytes)) (IsRefusalText command.entry (Some bytes))
        (K.state sink.old) (K.state sink.new) result }
{
    match command {
        Command::Dump => write_dump(alloc, sink, bytes.as_slice()),
        Command::Sheets => write_sheet_lines(alloc, sink, bytes.as_slice()),
        Command::Props => write_properties_of(alloc, sink, bytes.as_slice()),
        Command::Check => write_check(alloc, sink, bytes.as_slice()),
        Command::Refs => write_cited(alloc, sink, bytes.as_slice()),
        Command::Remake => write_remake(alloc, sink, bytes),
        Command::Csv(name) => write_named(alloc, sink, bytes.as_slice(), name),
        Command::Generate(rows) => generate(alloc, rows, sink),
    }
}

/// Writes the line of an error that the bytes have.
fn refuse<K: Sink>(alloc: Global, sink: &mut K, error: &XlsError) -> Result<Ending, Stop>
    ensures { EndsWithError error.now (K.state sink.old) (K.state sink.new) result }
{
    match error {
        XlsError::Io => Err(Stop::Read),
        XlsError::Memory => Err(Stop::Memory),
        _ => {
            write_fault(alloc, sink, error)?;
            Ok(Ending::Refused)
        }
    }
}

/// Whether a command reads nothing.
fn reads_nothing(command: Command<'_>) -> bool
    ensures { IsTrue result ↔ ReadsNothing command.entry }
{
    match command {
        Command::Generate(_) => true,
        _ => false,
    }
}

/// Does what a command says.
pub fn perform<S: Source, K: Sink>(
    alloc: Global,
    command: Command<'_>,
    source: &mut S,
    sink: &mut K,
) -> Result<Ending, Stop>
    requires { IsPossible command }
    ensures reads { Reads command.entry (S.state source.old) (S.state source.new) result }
    ensures ends { Ends command.entry (S.state source.old).left (K.state sink.old) (K.state sink.new) result }
    ensures steady { TakesEach (K.state sink.old) (MayWrite command.entry (S.state source.old).left)
        → (K.state sink.new).faults ≡ (K.state sink.old).faults }
    ensures unread { ReadsNothing command.entry → source.new ≡ source.old }
{
    if reads_nothing(command) {
        return write(alloc, command, sink, StreamBytes::from_vec(Vec::new(alloc)));
    }
    match read_all(alloc, source, MAX_BYTES) {
        Ok(bytes) => write(alloc, command, sink, bytes),
        Err(error) => refuse(alloc, sink, &error),
    }
}
