//! The sources of macros that are written into files.

ghost use Rattle.std.specs.Prelude.{◌≡◌, Some, IfOk, OnOk};
ghost use Rattle.std.specs.String.{string_bytes};
ghost use Rattle.xls_files.specs.Paths.{HasNoSlash, IsInside};
ghost use Rattle.xls_macros.specs.Macros.{HasMacros};
ghost use Rattle.xls_output.specs.Gathering.{Wrote};
ghost use Rattle.xls_readable.specs.declared.forms.Form.TheVariants.{Text};
ghost use Rattle.xls_tool.specs.Asked.{asked_by};
ghost use Rattle.xls_tool.specs.ModuleFiles.{AreModuleFiles};
ghost use Rattle.xls_tool.specs.Outputs.{IsSourceIn, KeepsOutputs};
ghost use Rattle.xls_tool.specs.declared.job.Asked.TheVariants as asked;
ghost use Rattle.xls_tool.specs.declared.job.Beside.TheVariants as beside;

use crate::file::OpenedFile;
use crate::job::Job;
use crate::problem::{Absent, Problem};
use crate::say::say_of;
use crate::sheets::{end, unless_passed};
use crate::work::written;
use std::alloc::{AllocError, Global};
use xls_files::{Host, begin, file_path, folder_of};
use xls_macros::{Macros, ModuleFault, ModuleKind, macros_of};
use xls_output::{Sink, Stop, write_all};
use xls_tables::file_name;
use xls_words::Folder;

/// The files that the modules of a macro project are written into.
#[derive(Drop)]
pub(crate) struct ModuleFiles<'f> {
    job: &'f Job<'f>,
    /// The folder for all files, and the one for the files of this project.
    out: &'f Folder<'f>,
    folder: &'f str,
    file: &'f OpenedFile<'f>,
}

/// What stands behind the first dash.
fn behind_dash(text: &str) -> &str
    ensures { HasNoSlash text.now → HasNoSlash result.now }
{
    match text.split_once('-') {
        Some((_, name)) => name,
        None => text,
    }
}

/// A module's name as that of a file, without an ending: as `file_name` has the name of a sheet, but without a number.
fn plain_name(alloc: Global, name: &str) -> Result<String, AllocError>
    ensures { IfOk result (λ text. HasNoSlash (string_bytes text)) }
{
    let numbered = file_name(alloc, 0, name)?;
    String::from_str(alloc, behind_dash(numbered.as_str()))
}

/// The name of a module's file, with its number where it has one.
fn module_name(alloc: Global, number: Option<usize>, name: &str) -> Result<String, AllocError>
    ensures { IfOk result (λ text. HasNoSlash (string_bytes text)) }
{
    match number {
        Some(number) => file_name(alloc, number, name),
        None => plain_name(alloc, name),
    }
}

/// The path of the file of a module.
fn module_path(
    alloc: Global,
    files: &ModuleFiles<'_>,
    number: Option<usize>,
    name: &str,
    kind: ModuleKind,
) -> Result<String, AllocError>
    requires { IsInside files.now.out.now.path.now files.now.folder.now }
    ensures { IfOk result (λ path. IsInside files.now.out.now.path.now (string_bytes path)) }
{
    let name = module_name(alloc, number, name)?;
    file_path(alloc, files.folder, name.as_str(), kind.ending())
}

/// Writes a source.
fn write_source<K: Sink>(sink: &mut K, source: &str) -> Result<(), Problem>
    ensures { OnOk result (Wrote (K.state sink.old) (K.state sink.new) source.now) }
{
    match write_all(sink, source.as_bytes()) {
        Ok(()) => Ok(()),
        Err(fault) => written(Err(Stop::from(fault))),
    }
}

/// Writes a source into a file of its own.
fn write_source_file<H: Host>(
    alloc: Global,
    host: &mut H,
    files: &ModuleFiles<'_>,
    path: String,
    source: &str,
) -> Result<(), Problem>
    requires files { AreModuleFiles files.now }
    requires path { IsInside files.now.out.now.path.now (string_bytes path) }
    requires source { IsSourceIn files.now.file.now.container source.now }
    ensures outputs { KeepsOutputs H.tells H.File.state files.now.job.now.request files.now.job.now.reading.options
        (H.files host.old) (H.files host.new) }
{
    let mut file = match begin(alloc, host, path.as_str(), files.out.writes_over) {
        Ok(file) => file,
        Err(reason) => return Err(Problem::Unwritten(path, reason)),
    };
    let done = write_source(&mut file, source);
    end(host, path, files.out.writes_over, file, done)
}

/// Tells that something of a project is damaged.
fn tell_damaged<H: Host>(
    alloc: Global,
    host: &mut H,
    files: &ModuleFiles<'_>,
    what: &str,
    name: &str,
    why: &str,
) -> Result<(), AllocError>
    ensures { H.files host.new ≡ H.files host.old }
{
    let text = format!(in alloc; "{what} '{name}' is damaged: {why}")?;
    say_of(alloc, host, files.file.path, text.as_str())
}

/// Writes the last module of a name into a file of its own, or tells why it isn't read.
fn write_module<H: Host>(
    alloc: Global,
    host: &mut H,
    files: &ModuleFiles<'_>,
    macros: &Macros<'_, '_>,
    number: Option<usize>,
    name: &str,
) -> Result<(), Problem>
    requires files { AreModuleFiles files.now }
    requires macros { HasMacros files.now.file.now.container (Some macros.now) }
    ensures outputs { KeepsOutputs H.tells H.File.state files.now.job.now.request files.now.job.now.reading.options
        (H.files host.old) (H.files host.new) }
{
    let Ok(m) = macros.module(alloc, name) else {
        return written(Err(Stop::Memory));
    };
    match macros.source(alloc, &m) {
        Ok(source) => {
            let path = module_path(alloc, files, number, name, macros.kind(name))?;
            write_source_file(alloc, host, files, path, source.as_str())
        }
        Err(ModuleFault::Memory) => written(Err(Stop::Memory)),
        Err(fault) => {
            let why = fault.to_string(alloc)?;
            tell_damaged(alloc, host, files, "module", name, why.as_str())?;
            Ok(())
        }
    }
}

/// Names of files as they stand where upper and lower case are the same, in order.
fn folded_names(alloc: Global, names: &[&str]) -> Result<Vec<String>, AllocError> {
    let mut folded = Vec::new(alloc);
    for name in names {
        let mut text = plain_name(alloc, name)?;
        text.make_ascii_lowercase();
        folded.push(text)?;
    }
    folded.sort_unstable();
    Ok(folded)
}

/// Whether two of the files would have one name where upper and lower case are the same, so that each has its number.
fn are_numbered(alloc: Global, names: &[&str]) -> Result<bool, AllocError> {
    let folded = folded_names(alloc, names)?;
    for index in 1..folded.len() {
        if folded[index - 1].as_str() == folded[index].as_str() {
            return Ok(true);
        }
    }
    Ok(false)
}

/// Writes the modules of these names, or finds a file that exists and is to be left.
fn write_modules<H: Host>(
    alloc: Global,
    host: &mut H,
    files: &ModuleFiles<'_>,
    macros: &Macros<'_, '_>,
    names: &[&str],
) -> Result<(), Problem>
    requires files { AreModuleFiles files.now }
    requires macros { HasMacros files.now.file.now.container (Some macros.now) }
    ensures outputs { KeepsOutputs H.tells H.File.state files.now.job.now.request files.now.job.now.reading.options
        (H.files host.old) (H.files host.new) }
{
    let has_numbers = are_numbered(alloc, names)?;
    let mut done = Ok(());
    for index in 0..names.len() {
        let number = if has_numbers { Some(index + 1) } else { None };
        let written = write_module(alloc, host, files, macros, number, names[index]);
        done = unless_passed(files.out, done, written)?;
    }
    done
}

/// Writes the sources of the macro project of a file, each into a file of its own.
pub(crate) fn write_macro_files<H: Host>(
    alloc: Global,
    host: &mut H,
    job: &Job<'_>,
    out: &Folder<'_>,
    file: &OpenedFile<'_>,
) -> Result<(), Problem>
    requires out { job.now.request.out ≡ Some out.now }
    requires asked { asked_by job.now.request.command ≡ asked.Other (beside.Macros Text) }
    ensures outputs { KeepsOutputs H.tells H.File.state job.now.request job.now.reading.options (H.files host.old) (H.files host.new) }
{
    let Some(macros) = macros_of(alloc, &file.container)? else {
        return Err(Problem::Absent(Absent::Project));
    };
    let folder = folder_of(alloc, out.path, file.path)?;
    let files = ModuleFiles {
        job,
        out,
        folder: folder.as_str(),
        file,
    };
    if let Some(error) = macros.damage() {
        let why = error.to_string(alloc)?;
        tell_damaged(alloc, host, &files, "stream", "PROJECT", why.as_str())?;
    }
    let names = macros.names(alloc)?;
    write_modules(alloc, host, &files, &macros, &names)
}
