//! What is written of one file.

ghost use Rattle.std.specs.Prelude.{◌≡◌, ◌⊎◌, Some, None, IfOk, IfErr};
ghost use Rattle.xls_compound.specs.Items.{Item};
ghost use Rattle.xls_compound.specs.Entries.{IsItem};
ghost use Rattle.xls_container.specs.Files.{compound_in};
ghost use Rattle.xls_output.specs.declared.stop.Stop.TheVariants.{Memory};
ghost use Rattle.xls_answers.specs.declared.failure.Failure.TheVariants.{Stopped};
ghost use Rattle.xls_answers.specs.Answers.{HasNumber};
ghost use Rattle.xls_tool.specs.Beside.{IsStreamAt, OfContainer, OfMacros, OfProject, OfProperties, OfStreamAt, OfStreamIn, OfStreams, as_failure, as_problem};
ghost use Rattle.xls_tool.specs.Texts.{OfWorkbook};
ghost use Rattle.xls_tool.specs.declared.problem.Absent.TheVariants as absent;
ghost use Rattle.xls_tool.specs.declared.problem.Problem.TheVariants as problems;

use crate::job::Beside;
use crate::problem::{Absent, Problem};
use std::alloc::Global;
use xls_answers::{Answer, write_stream, write_workbook};
use xls_compound::{Compound, Entry};
use xls_container::{Container, FileFault};
use xls_documents::{project_of, properties_of, write_project, write_properties, write_streams};
use xls_files::names_of;
use xls_macros::{macros_of, write_macros};
use xls_open::XlsOptions;
use xls_output::{Sink, Stop};
use xls_readable::Form;

/// How writing went, as the work of a file tells it.
pub(crate) fn written(done: Result<(), Stop>) -> Result<(), Problem>
    ensures { result ≡ as_problem (as_failure done) }
{
    Ok(done?)
}

/// Writes the properties of a compound file.
fn write_properties_of<K: Sink>(
    alloc: Global,
    sink: &mut K,
    container: &Container<'_>,
) -> Result<(), Problem>
    ensures { OfProperties container.now (K.state sink.old) (K.state sink.new) result }
{
    match properties_of(alloc, container)? {
        Some(properties) => written(write_properties(alloc, sink, Form::Text, &properties)),
        None => Err(Problem::Absent(Absent::Properties)),
    }
}

/// Writes the macro project of a compound file.
fn write_project_of<K: Sink>(
    alloc: Global,
    sink: &mut K,
    container: &Container<'_>,
) -> Result<(), Problem>
    ensures { OfProject container.now (K.state sink.old) (K.state sink.new) result }
{
    match project_of(alloc, container)? {
        Some(project) => written(write_project(alloc, sink, Form::Text, &project)),
        None => Err(Problem::Absent(Absent::Project)),
    }
}

/// Writes the sources of the macro project of a compound file.
fn write_macros_of<K: Sink>(
    alloc: Global,
    sink: &mut K,
    form: Form,
    container: &Container<'_>,
) -> Result<(), Problem>
    ensures { OfMacros form container.now (K.state sink.old) (K.state sink.new) result }
{
    match macros_of(alloc, container)? {
        Some(macros) => written(write_macros(alloc, sink, form, &macros)),
        None => Err(Problem::Absent(Absent::Project)),
    }
}

/// The compound file that a file is.
fn compound_in<'c, 'a>(container: &'c Container<'a>) -> Result<&'c Compound<'a>, Problem>
    ensures ok { IfOk result (λ compound. compound_in container.now ≡ Some compound.now) }
    ensures err { IfErr result (λ p. (p ≡ problems.Absent absent.Compound) × (compound_in container.now ≡ None)) }
{
    match container.compound() {
        Some(compound) => Ok(compound),
        None => Err(Problem::Absent(Absent::Compound)),
    }
}

/// Writes a line for each stream of a compound file.
fn write_streams_of<K: Sink>(
    alloc: Global,
    sink: &mut K,
    container: &Container<'_>,
) -> Result<(), Problem>
    ensures { OfStreams container.now (K.state sink.old) (K.state sink.new) result }
{
    let compound = compound_in(container)?;
    written(write_streams(alloc, sink, Form::Text, compound))
}

/// The stream of a path.
fn stream_at<'c>(
    alloc: Global,
    compound: &'c Compound<'_>,
    path: &str,
) -> Result<Entry<'c>, Problem>
    ensures ok { IfOk result (λ entry. (item : Item) × IsStreamAt compound.now path.now item × IsItem entry item) }
    ensures err { IfErr result (λ p. ((p ≡ problems.Absent absent.Stream) × ((item : Item) → IsStreamAt compound.now path.now item → ⊥))
        ⊎ (p ≡ problems.Failure (Stopped Memory))) }
{
    let names = names_of(alloc, path)?;
    match compound.find(names.as_slice()) {
        Some(entry) if entry.is_stream() => Ok(entry),
        _ => Err(Problem::Absent(Absent::Stream)),
    }
}

/// Writes the bytes of the stream of a path.
fn write_stream_in<K: Sink>(
    alloc: Global,
    sink: &mut K,
    options: &XlsOptions,
    compound: &Compound<'_>,
    path: &str,
) -> Result<(), Problem>
    ensures { OfStreamIn path.now compound.now (K.state sink.old) (K.state sink.new) result }
{
    let entry = stream_at(alloc, compound, path)?;
    let bytes = match compound.stream(alloc, &entry) {
        Ok(bytes) => bytes,
        Err(error) => return Err(Problem::from(FileFault::from(error))),
    };
    match write_stream(alloc, sink, &Answer::Bytes, options, bytes.as_slice()) {
        Ok(()) => Ok(()),
        Err(failure) => Err(Problem::from(failure)),
    }
}

/// Writes the bytes of the stream of a path in a compound file.
fn write_stream_at<K: Sink>(
    alloc: Global,
    sink: &mut K,
    options: &XlsOptions,
    container: &Container<'_>,
    path: &str,
) -> Result<(), Problem>
    ensures { OfStreamAt path.now container.now (K.state sink.old) (K.state sink.new) result }
{
    let compound = compound_in(container)?;
    write_stream_in(alloc, sink, options, compound, path)
}

/// Writes what stands beside the workbook in a file.
pub(crate) fn write_beside<K: Sink>(
    alloc: Global,
    sink: &mut K,
    beside: &Beside<'_>,
    options: &XlsOptions,
    container: &Container<'_>,
) -> Result<(), Problem>
    ensures { OfContainer beside.now container.now (K.state sink.old) (K.state sink.new) result }
{
    match beside {
        Beside::Properties => write_properties_of(alloc, sink, container),
        Beside::Project => write_project_of(alloc, sink, container),
        Beside::Macros(form) => write_macros_of(alloc, sink, *form, container),
        Beside::Stream(path) => write_stream_at(alloc, sink, options, container, path),
        Beside::Streams => write_streams_of(alloc, sink, container),
    }
}

/// Writes what is asked for of a workbook's stream.
pub(crate) fn write_text<K: Sink>(
    alloc: Global,
    sink: &mut K,
    answer: &Answer<'_>,
    options: &XlsOptions,
    stream: &[u8],
) -> Result<(), Problem>
    requires { HasNumber answer.now }
    ensures { OfWorkbook answer.now options.now stream.now (K.state sink.old) (K.state sink.new) result }
{
    Ok(write_workbook(alloc, sink, answer, options, stream)?)
}
