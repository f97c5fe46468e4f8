//! The work of a file that is opened.

ghost use Rattle.std.specs.Prelude.{◌≡◌, ℕ, List, None};
ghost use Rattle.xls_answers.specs.Answers.{HasNumber};
ghost use Rattle.xls_words.specs.Requests as requests;
ghost use Rattle.xls_container.specs.Files.{OpensContainer};
ghost use Rattle.xls_tool.specs.Asked.{asked_by};
ghost use Rattle.xls_tool.specs.Beside.{OfContainer};
ghost use Rattle.xls_tool.specs.Outputs.{KeepsOutputs};
ghost use Rattle.xls_tool.specs.Texts.{OfWorkbook};
ghost use Rattle.xls_tool.specs.Steps.{EndsAnswer, EndsText};
ghost use Rattle.xls_tool.specs.declared.job.Asked.TheVariants as asked;

use crate::file::{OpenedFile, Workbook};
use crate::job::{Asked, Beside, Job, asked_by};
use crate::problem::Problem;
use crate::sheets::{write_beside_file, write_workbook_files};
use crate::unlock::plain_of;
use crate::unseen::tell_unseen;
use crate::work::{write_beside, write_text};
use std::alloc::Global;
use xls_answers::Answer;
use xls_container::Container;
use xls_files::Host;
use xls_output::Sink;

/// Writes what is asked for of a workbook to the sink, or into files below the folder, if there is one.
fn put_answer<H: Host, K: Sink>(
    alloc: Global,
    host: &mut H,
    sink: &mut K,
    job: &Job<'_>,
    answer: &Answer<'_>,
    book: &Workbook<'_>,
) -> Result<(), Problem>
    requires number { HasNumber answer.now }
    requires asked { asked_by job.now.request.command ≡ asked.Workbook answer.now }
    ensures written { job.now.request.out ≡ None → OfWorkbook answer.now job.now.reading.options book.now.stream.now
        (K.state sink.old) (K.state sink.new) result }
    ensures outputs { KeepsOutputs H.tells H.File.state job.now.request job.now.reading.options (H.files host.old) (H.files host.new) }
{
    match &job.request.out {
        Some(folder) => write_workbook_files(alloc, host, job, folder, answer, book),
        None => write_text(alloc, sink, answer, &job.reading.options, book.stream),
    }
}

/// The same, and then it is told how many cells of the sheets that were written can't be seen.
fn write_answer<H: Host, K: Sink>(
    alloc: Global,
    host: &mut H,
    sink: &mut K,
    job: &Job<'_>,
    answer: &Answer<'_>,
    book: &Workbook<'_>,
) -> Result<(), Problem>
    requires number { HasNumber answer.now }
    requires asked { asked_by job.now.request.command ≡ asked.Workbook answer.now }
    ensures written { job.now.request.out ≡ None → OfWorkbook answer.now job.now.reading.options book.now.stream.now
        (K.state sink.old) (K.state sink.new) result }
    ensures outputs { KeepsOutputs H.tells H.File.state job.now.request job.now.reading.options (H.files host.old) (H.files host.new) }
{
    let done = put_answer(alloc, host, sink, job, answer, book);
    tell_unseen(alloc, host, job, answer, book, done.is_ok());
    done
}

/// Does the work of a file's workbook, which is made plain where it is encrypted: its text is written.
fn do_workbook<H: Host, K: Sink>(
    alloc: Global,
    host: &mut H,
    sink: &mut K,
    job: &Job<'_>,
    answer: &Answer<'_>,
    file: &OpenedFile<'_>,
) -> Result<(), Problem>
    requires number { HasNumber answer.now }
    requires asked { asked_by job.now.request.command ≡ asked.Workbook answer.now }
    ensures written { job.now.request.out ≡ None → (bytes : List ℕ) → OpensContainer bytes file.now.container
        → EndsAnswer answer.now job.now.reading bytes (K.state sink.old) (K.state sink.new) result }
    ensures outputs { KeepsOutputs H.tells H.File.state job.now.request job.now.reading.options (H.files host.old) (H.files host.new) }
{
    let stream = file.container.workbook(alloc)?;
    let stream = plain_of(alloc, stream, &job.reading.passwords)?;
    let book = Workbook {
        path: file.path,
        stream: stream.as_slice(),
    };
    write_answer(alloc, host, sink, job, answer, &book)
}

/// Writes what stands beside the workbook to the sink, or into a file below the folder, if there is one.
fn do_beside<H: Host, K: Sink>(
    alloc: Global,
    host: &mut H,
    sink: &mut K,
    job: &Job<'_>,
    beside: &Beside<'_>,
    file: &OpenedFile<'_>,
) -> Result<(), Problem>
    requires asked { asked_by job.now.request.command ≡ asked.Other beside.now }
    ensures written { job.now.request.out ≡ None → OfContainer beside.now file.now.container (K.state sink.old) (K.state sink.new) result }
    ensures outputs { KeepsOutputs H.tells H.File.state job.now.request job.now.reading.options (H.files host.old) (H.files host.new) }
{
    match &job.request.out {
        Some(folder) => write_beside_file(alloc, host, job, folder, beside, file),
        None => write_beside(alloc, sink, beside, &job.reading.options, &file.container),
    }
}

/// Does the work of a file that is opened.
fn do_opened<H: Host, K: Sink>(
    alloc: Global,
    host: &mut H,
    sink: &mut K,
    job: &Job<'_>,
    file: &OpenedFile<'_>,
) -> Result<(), Problem>
    requires number { requests.CommandHasNumber job.now.request.command }
    ensures written { job.now.request.out ≡ None → (bytes : List ℕ) → OpensContainer bytes file.now.container
        → EndsText job.now.request.command job.now.reading bytes (K.state sink.old) (K.state sink.new) result }
    ensures outputs { KeepsOutputs H.tells H.File.state job.now.request job.now.reading.options (H.files host.old) (H.files host.new) }
{
    match asked_by(&job.request.command) {
        Asked::Workbook(answer) => do_workbook(alloc, host, sink, job, &answer, file),
        Asked::Other(beside) => do_beside(alloc, host, sink, job, &beside, file),
    }
}

/// Does the work of a file's bytes, which are opened once.
pub(crate) fn do_bytes<H: Host, K: Sink>(
    alloc: Global,
    host: &mut H,
    sink: &mut K,
    job: &Job<'_>,
    path: &str,
    bytes: &[u8],
) -> Result<(), Problem>
    requires number { requests.CommandHasNumber job.now.request.command }
    ensures written { job.now.request.out ≡ None → EndsText job.now.request.command job.now.reading bytes.now
        (K.state sink.old) (K.state sink.new) result }
    ensures outputs { KeepsOutputs H.tells H.File.state job.now.request job.now.reading.options (H.files host.old) (H.files host.new) }
{
    let container = Container::open(alloc, bytes)?;
    do_opened(alloc, host, sink, job, &OpenedFile { path, container })
}
