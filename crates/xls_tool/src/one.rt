//! One file by itself.

ghost use Rattle.std.specs.Prelude.{◌≡◌, ◌≢◌, ◌⊎◌, None, IfOk, IfErr};
ghost use Rattle.xls_files.specs.declared.host.Place.TheVariants.{File};
ghost use Rattle.xls_files.specs.declared.host.Reason.TheVariants.{Memory};
ghost use Rattle.xls_tool.specs.Outputs.{KeepsOutputs};
ghost use Rattle.xls_tool.specs.Problems.{IsStatus, problem_status, status_of_work};
ghost use Rattle.xls_tool.specs.Steps.{EndsPath};
ghost use Rattle.xls_tool.specs.Texts.{HasCause};
ghost use Rattle.xls_words.specs.Requests as requests;

use crate::job::Job;
use crate::many::do_file;
use crate::misplaced::say_advice;
use crate::problem::Problem;
use crate::say::say_problem;
use std::alloc::Global;
use xls_answers::Failure;
use xls_files::{Host, Place, Reason};
use xls_output::{Sink, Stop};

/// A path, and what stands there.
#[derive(Drop)]
pub(crate) struct Placed<'p> {
    pub path: &'p str,
    pub place: Result<Place, Reason>,
}

/// Does the work of what stands at a path, if that is a file.
fn do_placed<H: Host, K: Sink>(
    alloc: Global,
    host: &mut H,
    out: &mut K,
    job: &Job<'_>,
    placed: Placed<'_>,
) -> Result<(), Problem>
    requires number { requests.CommandHasNumber job.now.request.command }
    requires place { IfOk placed.place (λ place. place ≢ File → H.reads host.old placed.path.now None) }
    requires reason { IfErr placed.place (λ reason. reason ≢ Memory → H.reads host.old placed.path.now None) }
    ensures ends { job.now.request.out ≡ None → EndsPath (H.reads host.old placed.entry.path.now)
        job.now.request.command job.now.reading (K.state out.old) (K.state out.new) result }
    ensures outputs { KeepsOutputs H.tells H.File.state job.now.request job.now.reading.options (H.files host.old) (H.files host.new) }
{
    match placed.place {
        Ok(Place::File) => do_file(alloc, host, out, job, placed.path),
        Ok(Place::Folder) => Err(Problem::Folder),
        Ok(Place::Other) => Err(Problem::Irregular),
        Err(reason) => Err(Problem::Unread(reason)),
    }
}

/// Tells a problem of what stands at a path, but for a write that failed, which ends the work. The exit status.
fn tell_problem<H: Host>(
    alloc: Global,
    host: &mut H,
    path: &str,
    problem: &Problem,
) -> Result<u8, Stop>
    ensures status { IfOk result IsStatus }
    ensures exact { (status_of_work result ≡ problem_status problem.now) ⊎ (status_of_work result ≡ 5) }
    ensures files { H.files host.new ≡ H.files host.old }
{
    if let Problem::Failure(Failure::Stopped(Stop::Write)) = problem {
        return Err(Stop::Write);
    }
    say_problem(alloc, host, path, problem)?;
    say_advice(alloc, host, path, problem)?;
    Ok(problem.status())
}

/// Does the work of what stands at a path: its text goes to the sink, or into files below the folder, if there is
/// one. The exit status; a problem is told.
pub(crate) fn do_one<H: Host, K: Sink>(
    alloc: Global,
    host: &mut H,
    out: &mut K,
    job: &Job<'_>,
    placed: Placed<'_>,
) -> Result<u8, Stop>
    requires number { requests.CommandHasNumber job.now.request.command }
    requires place { IfOk placed.place (λ place. place ≢ File → H.reads host.old placed.path.now None) }
    requires reason { IfErr placed.place (λ reason. reason ≢ Memory → H.reads host.old placed.path.now None) }
    ensures status { IfOk result IsStatus }
    ensures cause { job.now.request.out ≡ None → HasCause (H.reads host.old placed.entry.path.now)
        job.now.request.command job.now.reading (K.state out.old) (K.state out.new) (status_of_work result) }
    ensures outputs { KeepsOutputs H.tells H.File.state job.now.request job.now.reading.options (H.files host.old) (H.files host.new) }
{
    let path = placed.path;
    match do_placed(alloc, host, out, job, placed) {
        Ok(()) => Ok(0),
        Err(problem) if job.skips_existing() && problem.is_existing() => Ok(0),
        Err(problem) => tell_problem(alloc, host, path, &problem),
    }
}
