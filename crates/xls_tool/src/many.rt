//! Many files, one after another.

ghost use Rattle.std.specs.Prelude.{◌≡◌, max, IfOk, None};
ghost use Rattle.xls_tool.specs.Outputs.{KeepsOutputs};
ghost use Rattle.xls_tool.specs.Problems.{IsStatus, counted_status, problem_status};
ghost use Rattle.xls_tool.specs.Steps.{EndsPath};
ghost use Rattle.xls_words.specs.Requests as requests;

use crate::file::read;
use crate::job::Job;
use crate::opened::do_bytes;
use crate::problem::Problem;
use crate::tell::Report;
use std::alloc::{AllocError, Global};
use xls_files::{Host, Name, Next, Queue, Reason};
use xls_output::{Sink, Stop, WriteFault};

/// A sink that keeps nothing.
#[derive(Drop)]
struct Nowhere;

impl Sink for Nowhere {
    ghost use Rattle.std.specs.Prelude.{ℕ};

    ghost state = { λ _. record { written = None; faults = 0; takes = λ _. ⊥ } };

    fn write(&mut self, piece: &[u8]) -> Result<usize, WriteFault> {
        Ok(piece.len())
    }
}

/// Does the work of a file: reads it, writes its text, and tells of its formats.
pub(crate) fn do_file<H: Host, K: Sink>(
    alloc: Global,
    host: &mut H,
    sink: &mut K,
    job: &Job<'_>,
    path: &str,
) -> Result<(), Problem>
    requires number { requests.CommandHasNumber job.now.request.command }
    ensures written { job.now.request.out ≡ None → EndsPath (H.reads host.old path.now)
        job.now.request.command job.now.reading (K.state sink.old) (K.state sink.new) result }
    ensures outputs { KeepsOutputs H.tells H.File.state job.now.request job.now.reading.options (H.files host.old) (H.files host.new) }
{
    let bytes = read(host, path)?;
    do_bytes(alloc, host, sink, job, path, bytes.as_slice())
}

/// That a name isn't UTF-8.
fn unnamed(alloc: Global) -> Result<Problem, AllocError>
    ensures { IfOk result (λ problem. problem_status problem ≡ 10) }
{
    let text = String::from_str(alloc, "the name isn't UTF-8")?;
    Ok(Problem::Unread(Reason::Reported(text)))
}

/// Tells how it went with a file, where nothing is shown.
fn tell<H: Host, K: Sink>(
    alloc: Global,
    host: &mut H,
    report: &mut Report<'_, K>,
    file: &str,
    done: &Result<(), Problem>,
) -> Result<(), Stop>
    ensures files { H.files host.new ≡ H.files host.old }
    ensures status { report.new.counts ≡ max report.old.counts (counted_status report.old.skips done.now) }
{
    host.show("");
    report.tell(alloc, file, done)
}

/// Tells that a name isn't UTF-8, of the folder or the list in which it stands.
fn tell_unnamed<H: Host, K: Sink>(
    alloc: Global,
    host: &mut H,
    report: &mut Report<'_, K>,
    place: &str,
) -> Result<(), Stop>
    ensures { H.files host.new ≡ H.files host.old }
{
    let result = Err(unnamed(alloc)?);
    tell(alloc, host, report, place, &result)
}

/// Tells why a file, a folder or a list isn't read.
fn tell_unread<H: Host, K: Sink>(
    alloc: Global,
    host: &mut H,
    report: &mut Report<'_, K>,
    file: &str,
    reason: Reason,
) -> Result<(), Stop>
    ensures { H.files host.new ≡ H.files host.old }
{
    let result = Err(Problem::Unread(reason));
    tell(alloc, host, report, file, &result)
}

/// Does the work of what comes next, and tells how it went.
fn do_next<H: Host, K: Sink>(
    alloc: Global,
    host: &mut H,
    report: &mut Report<'_, K>,
    job: &Job<'_>,
    next: Next,
) -> Result<(), Stop>
    requires number { requests.CommandHasNumber job.now.request.command }
    ensures { KeepsOutputs H.tells H.File.state job.now.request job.now.reading.options (H.files host.old) (H.files host.new) }
{
    match next {
        Next::File(path) => {
            let result = do_file(alloc, host, &mut Nowhere, job, path.as_str());
            tell(alloc, host, report, path.as_str(), &result)
        }
        Next::Irregular(path) => {
            let result = Err(Problem::Irregular);
            tell(alloc, host, report, path.as_str(), &result)
        }
        Next::Unread(path, reason) => tell_unread(alloc, host, report, path.as_str(), reason),
        Next::Unnamed(folder) => tell_unnamed(alloc, host, report, folder.as_str()),
    }
}

/// Shows how far the work is, where that is seen.
fn show<H: Host, K: Sink>(
    alloc: Global,
    host: &mut H,
    report: &Report<'_, K>,
) -> Result<(), AllocError>
    ensures { H.files host.new ≡ H.files host.old }
{
    if !host.shows() {
        return Ok(());
    }
    let progress = report.progress(alloc)?;
    host.show(progress.as_str());
    Ok(())
}

/// Does the work of all files of a queue.
fn do_queue<H: Host, K: Sink>(
    alloc: Global,
    host: &mut H,
    report: &mut Report<'_, K>,
    job: &Job<'_>,
    queue: &mut Queue,
) -> Result<(), Stop>
    requires number { requests.CommandHasNumber job.now.request.command }
    ensures { KeepsOutputs H.tells H.File.state job.now.request job.now.reading.options (H.files host.old) (H.files host.new) }
{
    for _ in 0..u64::MAX {
        let Some(next) = queue.next(host)? else {
            return Ok(());
        };
        do_next(alloc, host, report, job, next)?;
        show(alloc, host, report)?;
    }
    Ok(())
}

/// Files and folders that are all to be answered.
fn queue_of(alloc: Global, paths: &[&str]) -> Result<Queue, AllocError> {
    let mut queue = Queue::new(alloc);
    for path in paths.iter().rev() {
        queue.give(path)?;
    }
    Ok(queue)
}

/// How many files there are.
fn count_files<H: Host>(alloc: Global, host: &mut H, paths: &[&str]) -> Result<u64, AllocError>
    ensures { H.files host.new ≡ H.files host.old }
{
    let mut queue = queue_of(alloc, paths)?;
    for count in 0..u64::MAX {
        if queue.next(host)?.is_none() {
            return Ok(count);
        }
    }
    Ok(u64::MAX)
}

/// How many files there are, where that is shown.
fn displayed_count<H: Host>(
    alloc: Global,
    host: &mut H,
    paths: &[&str],
) -> Result<Option<u64>, AllocError>
    ensures { H.files host.new ≡ H.files host.old }
{
    if host.shows() {
        Ok(Some(count_files(alloc, host, paths)?))
    } else {
        Ok(None)
    }
}

/// Does the work of files and folders, and tells how many files there were. The greatest exit status of theirs.
pub(crate) fn do_many<H: Host, K: Sink>(
    alloc: Global,
    host: &mut H,
    out: &mut K,
    job: &Job<'_>,
    paths: &[&str],
) -> Result<u8, Stop>
    requires number { requests.CommandHasNumber job.now.request.command }
    ensures status { IfOk result IsStatus }
    ensures outputs { KeepsOutputs H.tells H.File.state job.now.request job.now.reading.options (H.files host.old) (H.files host.new) }
{
    let all = displayed_count(alloc, host, paths)?;
    let mut queue = queue_of(alloc, paths)?;
    let mut report = Report::new(out, job.form(), all, job.skips_existing());
    do_queue(alloc, host, &mut report, job, &mut queue)?;
    host.show("");
    report.write_last_line(alloc)?;
    Ok(report.status())
}

/// A list of the names of files: a file of this path, or standard input where that is `-`.
#[derive(Drop)]
pub(crate) struct NameList<'l> {
    pub path: &'l str,
    /// Whether a NUL ends each name, in place of a newline.
    pub by_nul: bool,
}

/// Does the work of the files of a path. An empty line of a list names none.
fn do_name<H: Host, K: Sink>(
    alloc: Global,
    host: &mut H,
    report: &mut Report<'_, K>,
    job: &Job<'_>,
    path: &str,
) -> Result<(), Stop>
    requires number { requests.CommandHasNumber job.now.request.command }
    ensures { KeepsOutputs H.tells H.File.state job.now.request job.now.reading.options (H.files host.old) (H.files host.new) }
{
    if path.is_empty() {
        return Ok(());
    }
    let mut queue = queue_of(alloc, &[path])?;
    do_queue(alloc, host, report, job, &mut queue)
}

/// Does the work of all files whose names stand in a list, each before the next name is read.
fn do_names<H: Host, K: Sink>(
    alloc: Global,
    host: &mut H,
    report: &mut Report<'_, K>,
    job: &Job<'_>,
    list: NameList<'_>,
) -> Result<(), Stop>
    requires number { requests.CommandHasNumber job.now.request.command }
    ensures { KeepsOutputs H.tells H.File.state job.now.request job.now.reading.options (H.files host.old) (H.files host.new) }
{
    for _ in 0..u64::MAX {
        match host.next_name(list.path, list.by_nul) {
            Ok(Some(Name::Text(path))) => do_name(alloc, host, report, job, path.as_str())?,
            Ok(Some(Name::Unnamed)) => tell_unnamed(alloc, host, report, list.path)?,
            Ok(None) => return Ok(()),
            Err(reason) => return tell_unread(alloc, host, report, list.path, reason),
        }
    }
    Ok(())
}

/// Does the work of all files whose names stand in a list, and tells on standard error how many files there were.
/// The greatest exit status of theirs.
pub(crate) fn do_list<H: Host, K: Sink>(
    alloc: Global,
    host: &mut H,
    out: &mut K,
    job: &Job<'_>,
    list: NameList<'_>,
) -> Result<u8, Stop>
    requires number { requests.CommandHasNumber job.now.request.command }
    ensures status { IfOk result IsStatus }
    ensures outputs { KeepsOutputs H.tells H.File.state job.now.request job.now.reading.options (H.files host.old) (H.files host.new) }
{
    let mut report = Report::new(out, job.form(), None, job.skips_existing());
    do_names(alloc, host, &mut report, job, list)?;
    let line = report.last_line(alloc)?;
    host.say(line.trim_end());
    Ok(report.status())
}
