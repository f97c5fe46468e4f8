//! Texts that are written into files.

ghost use Rattle.std.specs.Prelude.{◌≡◌, ◌<◌, true, Some, length, IfOk};
ghost use Rattle.std.specs.String.{string_bytes};
ghost use Rattle.xls_answers.specs.Answers.{HasNumber};
ghost use Rattle.xls_answers.specs.HiddenParts.{AreSkipped};
ghost use Rattle.xls_files.specs.Files.{Places};
ghost use Rattle.xls_files.specs.Paths.{IsInside};
ghost use Rattle.xls_tool.specs.Asked.{asked_by};
ghost use Rattle.xls_tool.specs.Outputs.{KeepsOutputs, is_table};
ghost use Rattle.xls_tool.specs.SheetFiles.{AreSheetFiles, IsAskedSheet};
ghost use Rattle.xls_tool.specs.declared.job.Asked.TheVariants as asked;
ghost use Rattle.xls_readable.specs.Choices.{IsNumbered};

use crate::file::{OpenedFile, Workbook};
use crate::job::{Beside, Job};
use crate::macros::write_macro_files;
use crate::problem::Problem;
use crate::say::say_of;
use crate::work::{write_beside, write_text, written};
use std::alloc::{AllocError, Global};
use xls_answers::{
    Answer, Failure, HiddenParts, chosen, skipped_at, skipped_parts, view_of, write_sheet_at,
};
use xls_cell_formats::CellFormats;
use xls_data::{Sheet, SheetType, SheetVisible};
use xls_files::{Host, begin, file_path, folder_of};
use xls_hidden_cells::Sight;
use xls_open::XlsOptions;
use xls_output::Stop;
use xls_readable::{Form, SheetChoice, Table};
use xls_tables::file_name;
use xls_view::View;
use xls_words::Folder;

/// Ends a file into which a text was written, or a part of it: it is given its path, or taken away.
pub(crate) fn end<H: Host>(
    host: &mut H,
    path: String,
    writes_over: bool,
    file: H::File,
    done: Result<(), Problem>,
) -> Result<(), Problem>
    ensures { Places (record { file = file; path = string_bytes path; over = writes_over }) (H.files host.old) (H.files host.new) done }
{
    match done {
        Ok(()) => match host.close(file, path.as_str(), writes_over) {
            Ok(()) => Ok(()),
            Err(reason) => Err(Problem::Unwritten(path, reason)),
        },
        Err(Problem::Failure(Failure::Stopped(Stop::Write))) => {
            Err(Problem::Unwritten(path, host.give_up(file)))
        }
        Err(problem) => {
            host.give_up(file);
            Err(problem)
        }
    }
}

/// The path of the file for the text of a command, which is named by the command.
fn text_path(
    alloc: Global,
    job: &Job<'_>,
    folder: &Folder<'_>,
    file: &str,
) -> Result<String, AllocError>
    ensures { IfOk result (λ path. IsInside folder.now.path.now (string_bytes path)) }
{
    let below = folder_of(alloc, folder.path, file)?;
    let command = &job.request.command;
    file_path(
        alloc,
        below.as_str(),
        command.word().name(),
        command.ending(),
    )
}

/// Writes what is asked for of a workbook into a file of its own.
fn write_text_file<H: Host>(
    alloc: Global,
    host: &mut H,
    job: &Job<'_>,
    folder: &Folder<'_>,
    answer: &Answer<'_>,
    book: &Workbook<'_>,
) -> Result<(), Problem>
    requires number { HasNumber answer.now }
    requires out { job.now.request.out ≡ Some folder.now }
    requires asked { asked_by job.now.request.command ≡ asked.Workbook answer.now }
    ensures outputs { KeepsOutputs H.tells H.File.state job.now.request job.now.reading.options (H.files host.old) (H.files host.new) }
{
    let path = text_path(alloc, job, folder, book.path)?;
    let mut file = match begin(alloc, host, path.as_str(), folder.writes_over) {
        Ok(file) => file,
        Err(reason) => return Err(Problem::Unwritten(path, reason)),
    };
    let done = write_text(alloc, &mut file, answer, &job.reading.options, book.stream);
    end(host, path, folder.writes_over, file, done)
}

/// Writes what stands beside the workbook into a file of its own.
fn write_whole_file<H: Host>(
    alloc: Global,
    host: &mut H,
    job: &Job<'_>,
    folder: &Folder<'_>,
    beside: &Beside<'_>,
    file: &OpenedFile<'_>,
) -> Result<(), Problem>
    requires out { job.now.request.out ≡ Some folder.now }
    requires asked { asked_by job.now.request.command ≡ asked.Other beside.now }
    ensures outputs { KeepsOutputs H.tells H.File.state job.now.request job.now.reading.options (H.files host.old) (H.files host.new) }
{
    let path = text_path(alloc, job, folder, file.path)?;
    let mut out = match begin(alloc, host, path.as_str(), folder.writes_over) {
        Ok(out) => out,
        Err(reason) => return Err(Problem::Unwritten(path, reason)),
    };
    let done = write_beside(
        alloc,
        &mut out,
        beside,
        &job.reading.options,
        &file.container,
    );
    end(host, path, folder.writes_over, out, done)
}

/// Writes what stands beside the workbook into a file of its own, or each source of a macro project into one.
pub(crate) fn write_beside_file<H: Host>(
    alloc: Global,
    host: &mut H,
    job: &Job<'_>,
    folder: &Folder<'_>,
    beside: &Beside<'_>,
    file: &OpenedFile<'_>,
) -> Result<(), Problem>
    requires out { job.now.request.out ≡ Some folder.now }
    requires asked { asked_by job.now.request.command ≡ asked.Other beside.now }
    ensures outputs { KeepsOutputs H.tells H.File.state job.now.request job.now.reading.options (H.files host.old) (H.files host.new) }
{
    match beside {
        Beside::Macros(Form::Text) => write_macro_files(alloc, host, job, folder, file),
        Beside::Properties
        | Beside::Project
        | Beside::Macros(Form::Json | Form::Exact)
        | Beside::Stream(_)
        | Beside::Streams => write_whole_file(alloc, host, job, folder, beside, file),
    }
}

/// The files that the sheets of a workbook are written into.
#[derive(Drop)]
struct SheetFiles<'f, 's> {
    job: &'f Job<'f>,
    /// The folder for all files, and the one for the files of this workbook.
    out: &'f Folder<'f>,
    folder: &'f str,
    /// Which sheet is asked for, where all aren't, and how the cells of each are written.
    choice: &'f SheetChoice<'f>,
    table: &'f Table,
    /// How much of each sheet is written, and what is needed to leave out the rest.
    sight: Sight,
    parts: &'f Option<HiddenParts<'s>>,
    book: &'f Workbook<'f>,
}

/// The path of the file for the sheet of an index.
fn sheet_path(
    alloc: Global,
    files: &SheetFiles<'_, '_>,
    view: &View<'_>,
    index: usize,
) -> Result<String, AllocError>
    requires within { index < length view.now.book.sheets }
    requires folder { IsInside files.now.out.now.path.now files.now.folder.now }
    ensures { IfOk result (λ path. IsInside files.now.out.now.path.now (string_bytes path)) }
{
    let sheet = &view.sheets()[index];
    let name = file_name(alloc, index + 1, sheet.name.as_str())?;
    file_path(alloc, files.folder, name.as_str(), "csv")
}

/// Writes the sheet of an index into a file of its own.
fn write_sheet_file<H: Host>(
    alloc: Global,
    host: &mut H,
    files: &SheetFiles<'_, '_>,
    formats: &CellFormats<'_>,
    index: usize,
) -> Result<(), Problem>
    requires within { index < length formats.now.book.sheets }
    requires sheets { length formats.now.book.contents ≡ length formats.now.book.sheets }
    requires files { AreSheetFiles files.now formats.now }
    requires asked { IsAskedSheet files.now formats.now index }
    ensures outputs { KeepsOutputs H.tells H.File.state files.now.job.now.request files.now.job.now.reading.options
        (H.files host.old) (H.files host.new) }
{
    let parts = files.parts.as_ref();
    let hidden = skipped_at(alloc, parts, formats.view(), index)?;
    let path = sheet_path(alloc, files, formats.view(), index)?;
    let mut file = match begin(alloc, host, path.as_str(), files.out.writes_over) {
        Ok(file) => file,
        Err(reason) => return Err(Problem::Unwritten(path, reason)),
    };
    let left_out = hidden.as_ref();
    let done = written(write_sheet_at(alloc, &mut file, files.table, formats, left_out, index));
    end(host, path, files.out.writes_over, file, done)
}

/// Tells that a sheet is hidden.
fn tell_hidden<H: Host>(
    alloc: Global,
    host: &mut H,
    file: &str,
    sheet: &Sheet,
) -> Result<(), AllocError>
    ensures { H.files host.new ≡ H.files host.old }
{
    if sheet.visible == SheetVisible::Visible {
        return Ok(());
    }
    let text = format!(in alloc; "sheet '{}' is hidden", sheet.name)?;
    say_of(alloc, host, file, text.as_str())
}

/// Whether all sheets have it among them.
pub(crate) fn is_table(sheet: &Sheet) -> bool
    ensures { result ≡ is_table sheet.now.typ }
{
    matches!(sheet.typ, SheetType::WorkSheet | SheetType::MacroSheet)
}

/// How it went with files so far, where a file that exists ends the work only at its end, if it is to be left.
pub(crate) fn unless_passed(
    folder: &Folder<'_>,
    done: Result<(), Problem>,
    written: Result<(), Problem>,
) -> Result<Result<(), Problem>, Problem> {
    match written {
        Ok(()) => Ok(done),
        Err(problem) if folder.skips_existing && problem.is_existing() => Ok(Err(problem)),
        Err(problem) => Err(problem),
    }
}

/// Writes each worksheet and each macro sheet into a file of its own, or finds one that exists and is to be left.
fn write_all_sheets<H: Host>(
    alloc: Global,
    host: &mut H,
    files: &SheetFiles<'_, '_>,
    formats: &CellFormats<'_>,
) -> Result<(), Problem>
    requires sheets { length formats.now.book.contents ≡ length formats.now.book.sheets }
    requires files { AreSheetFiles files.now formats.now }
    requires asked { files.now.out.now.takes_all_sheets ≡ true }
    ensures outputs { KeepsOutputs H.tells H.File.state files.now.job.now.request files.now.job.now.reading.options
        (H.files host.old) (H.files host.new) }
{
    let sheets = formats.view().sheets();
    let mut done = Ok(());
    for index in 0..sheets.len() {
        let sheet = &sheets[index];
        if is_table(sheet) {
            let written = write_sheet_file(alloc, host, files, formats, index);
            done = unless_passed(files.out, done, written)?;
            tell_hidden(alloc, host, files.book.path, sheet)?;
        }
    }
    done
}

/// Writes the sheet that is chosen into a file of its own.
fn write_chosen_sheet<H: Host>(
    alloc: Global,
    host: &mut H,
    files: &SheetFiles<'_, '_>,
    formats: &CellFormats<'_>,
) -> Result<(), Problem>
    requires number { IsNumbered files.now.choice.now }
    requires sheets { length formats.now.book.contents ≡ length formats.now.book.sheets }
    requires files { AreSheetFiles files.now formats.now }
    ensures outputs { KeepsOutputs H.tells H.File.state files.now.job.now.request files.now.job.now.reading.options
        (H.files host.old) (H.files host.new) }
{
    let index = chosen(alloc, formats.view(), files.choice)?;
    write_sheet_file(alloc, host, files, formats, index)
}

/// Writes the sheet that is chosen into a file of its own, or all sheets where they are asked for.
fn write_sheet_files<H: Host>(
    alloc: Global,
    host: &mut H,
    files: &SheetFiles<'_, '_>,
    formats: &CellFormats<'_>,
) -> Result<(), Problem>
    requires number { IsNumbered files.now.choice.now }
    requires sheets { length formats.now.book.contents ≡ length formats.now.book.sheets }
    requires files { AreSheetFiles files.now formats.now }
    ensures outputs { KeepsOutputs H.tells H.File.state files.now.job.now.request files.now.job.now.reading.options
        (H.files host.old) (H.files host.new) }
{
    if files.out.takes_all_sheets {
        return write_all_sheets(alloc, host, files, formats);
    }
    write_chosen_sheet(alloc, host, files, formats)
}

/// What is needed to leave out what is hidden, where that is asked for.
fn parts_of<'s>(
    alloc: Global,
    sight: Sight,
    options: &XlsOptions,
    stream: &'s [u8],
) -> Result<Option<HiddenParts<'s>>, Failure>
    ensures { IfOk result (AreSkipped sight options.now stream.entry.now) }
{
    Ok(skipped_parts(alloc, sight, options, stream)?)
}

/// Writes what is asked for of a workbook into files below a folder.
pub(crate) fn write_workbook_files<H: Host>(
    alloc: Global,
    host: &mut H,
    job: &Job<'_>,
    out: &Folder<'_>,
    answer: &Answer<'_>,
    book: &Workbook<'_>,
) -> Result<(), Problem>
    requires number { HasNumber answer.now }
    requires out { job.now.request.out ≡ Some out.now }
    requires asked { asked_by job.now.request.command ≡ asked.Workbook answer.now }
    ensures outputs { KeepsOutputs H.tells H.File.state job.now.request job.now.reading.options (H.files host.old) (H.files host.new) }
{
    match answer {
        Answer::Sheet(choice, table, sight) => {
            let view = view_of(alloc, &job.reading.options, book.stream)?;
            let formats = CellFormats::new(alloc, &view)?;
            let parts = parts_of(alloc, *sight, &job.reading.options, book.stream)?;
            let folder = folder_of(alloc, out.path, book.path)?;
            let files = SheetFiles {
                job,
                out,
                folder: folder.as_str(),
                choice,
                table,
                sight: *sight,
                parts: &parts,
                book,
            };
            write_sheet_files(alloc, host, &files, &formats)
        }
        Answer::Lines(..)
        | Answer::Shown(_)
        | Answer::Exact
        | Answer::Check
        | Answer::Beside(..)
        | Answer::Remade
        | Answer::Bytes => { write_text_file(alloc, host, job, out, answer, book) }
    }
}
