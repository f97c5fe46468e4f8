//! The top call of the program.

ghost use Rattle.std.specs.Prelude.{◌≡◌, ℕ, true, false, List, [], ◌∷◌, map, None, Err, IfOk, IfErr};
ghost use Rattle.std.specs.String.{string_bytes};
ghost use Rattle.xls_answers.specs.Views.{options_under};
ghost use Rattle.xls_output.specs.declared.stop.Stop.TheVariants.{Memory};
ghost use Rattle.xls_tool.specs.Outputs.{KeepsNamedOutputs, KeepsOutputs};
ghost use Rattle.xls_tool.specs.Problems.{Ends, IsStatus, status_of_work};
ghost use Rattle.xls_tool.specs.Steps.{OfPath};
ghost use Rattle.xls_tool.specs.Texts.{HasCause, reading_under};
ghost use Rattle.xls_words.specs.Requests as requests;
ghost use Rattle.xls_words.specs.Requests.{AreNamed, AreWordsOf, are_plain, is_exact, no_passwords, plain_command};
ghost use Rattle.xls_words.specs.declared.displayed.Displayed.TheVariants as displays;
ghost use Rattle.xls_words.specs.declared.request.Command.TheVariants as commands;
ghost use Rattle.xls_words.specs.declared.word.Word.{Word};
ghost use Rattle.xls_words.specs.declared.word.Word.TheVariants as names;

use crate::job::{Job, job_of};
use crate::many::{NameList, do_list, do_many};
use crate::misplaced::{WANTS_FOLDER, say_many};
use crate::one::{Placed, do_one};
use crate::problem::Problem;
use crate::say::say_problem;
use crate::unlock::{PasswordList, passwords_of};
use std::alloc::Global;
use xls_files::{Host, Place, place_of};
use xls_output::{Sink, Stop, write_all};
use xls_words::{Command, Displayed, Files, Request, request_of};

/// Whether the texts of many files have a place: a folder, or for `check` none is needed.
fn takes_many_files(job: &Job<'_>) -> bool
    ensures { result ≡ true → job.now.request.out ≡ None → job.now.request.command ≡ commands.Check }
{
    job.request.out.is_some() || matches!(job.request.command, Command::Check)
}

/// Does the work of one file, or of a folder.
fn do_path<H: Host, K: Sink>(
    alloc: Global,
    host: &mut H,
    out: &mut K,
    job: &Job<'_>,
    path: &str,
) -> Result<u8, Stop>
    requires { requests.CommandHasNumber job.now.request.command }
    ensures ends { IfOk result (Ends out.old out.new) }
    ensures cause { OfPath (H.reads host.old path.now) job.now.request job.now.reading (K.state out.old) (K.state out.new) result }
    ensures outputs { KeepsOutputs H.tells H.File.state job.now.request job.now.reading.options (H.files host.old) (H.files host.new) }
{
    let place = place_of(host, path);
    let is_many = matches!(place, Ok(Place::Folder)) && job.request.command.word().takes_many();
    if is_many && !takes_many_files(job) {
        host.say(WANTS_FOLDER);
        return Ok(2);
    }
    if is_many {
        return do_many(alloc, host, out, job, &[path]);
    }
    do_one(alloc, host, out, job, Placed { path, place })
}

/// Does the work of files and folders.
fn do_paths<H: Host, K: Sink>(
    alloc: Global,
    host: &mut H,
    out: &mut K,
    job: &Job<'_>,
    paths: &[&str],
) -> Result<u8, Stop>
    requires { requests.CommandHasNumber job.now.request.command }
    ensures ends { IfOk result (Ends out.old out.new) }
    ensures cause { (path : List ℕ) → map (λ it. it.now) paths.now ≡ (path ∷ [])
        → OfPath (H.reads host.old path) job.now.request job.now.reading (K.state out.old) (K.state out.new) result }
    ensures outputs { KeepsOutputs H.tells H.File.state job.now.request job.now.reading.options (H.files host.old) (H.files host.new) }
{
    if let [path] = paths {
        return do_path(alloc, host, out, job, path);
    }
    if !takes_many_files(job) {
        say_many(alloc, host, &job.request.command, paths)?;
        return Ok(2);
    }
    do_many(alloc, host, out, job, paths)
}

/// Does the work of the files of a list.
fn do_listed<H: Host, K: Sink>(
    alloc: Global,
    host: &mut H,
    out: &mut K,
    job: &Job<'_>,
    list: NameList<'_>,
) -> Result<u8, Stop>
    requires { requests.CommandHasNumber job.now.request.command }
    ensures ends { IfOk result (Ends out.old out.new) }
    ensures outputs { KeepsOutputs H.tells H.File.state job.now.request job.now.reading.options (H.files host.old) (H.files host.new) }
{
    if !takes_many_files(job) {
        host.say(WANTS_FOLDER);
        return Ok(2);
    }
    do_list(alloc, host, out, job, list)
}

/// Does what is asked for, by these passwords.
fn do_job<H: Host, K: Sink>(
    alloc: Global,
    host: &mut H,
    out: &mut K,
    request: Request<'_>,
    passwords: PasswordList,
) -> Result<u8, Stop>
    requires { requests.CommandHasNumber request.command }
    ensures ends { IfOk result (Ends out.old out.new) }
    ensures cause { passwords ≡ [] → (path : List ℕ) → AreNamed (path ∷ []) request.entry.files
        → OfPath (H.reads host.old path) request.entry (reading_under request.entry.page (is_exact request.entry.command))
        (K.state out.old) (K.state out.new) result }
    ensures outputs { KeepsOutputs H.tells H.File.state request.entry (options_under request.entry.page (is_exact request.entry.command))
        (H.files host.old) (H.files host.new) }
{
    let job = job_of(alloc, request, passwords)?;
    match &job.request.files {
        Files::Named(paths) => do_paths(alloc, host, out, &job, paths.as_slice()),
        Files::Listed { list, by_nul } => {
            let list = NameList {
                path: list,
                by_nul: *by_nul,
            };
            do_listed(alloc, host, out, &job, list)
        }
    }
}

/// Tells why the passwords of a list aren't read.
fn tell_passwords<H: Host>(
    alloc: Global,
    host: &mut H,
    list: Option<&str>,
    problem: &Problem,
) -> Result<u8, Stop>
    ensures status { IfOk result IsStatus }
    ensures files { H.files host.new ≡ H.files host.old }
{
    say_problem(alloc, host, list.unwrap_or(""), problem)?;
    Ok(problem.status())
}

/// Does what is asked for.
fn do_request<H: Host, K: Sink>(
    alloc: Global,
    host: &mut H,
    out: &mut K,
    request: Request<'_>,
) -> Result<u8, Stop>
    requires { requests.CommandHasNumber request.command }
    ensures ends { IfOk result (Ends out.old out.new) }
    ensures cause { request.entry.passwords ≡ no_passwords → (path : List ℕ) → AreNamed (path ∷ []) request.entry.files
        → OfPath (H.reads host.old path) request.entry (reading_under request.entry.page (is_exact request.entry.command))
        (K.state out.old) (K.state out.new) result }
    ensures outputs { KeepsOutputs H.tells H.File.state request.entry (options_under request.entry.page (is_exact request.entry.command))
        (H.files host.old) (H.files host.new) }
{
    let asked = request.passwords;
    match passwords_of(alloc, host, asked) {
        Ok(passwords) => do_job(alloc, host, out, request, passwords),
        Err(problem) => tell_passwords(alloc, host, asked.list, &problem),
    }
}

/// Tells a mistake in the words; writes help or the version.
fn do_displayed<H: Host, K: Sink>(
    host: &mut H,
    out: &mut K,
    displayed: &Displayed,
) -> Result<u8, Stop>
    ensures ends { IfOk result (Ends out.old out.new) }
    ensures memory { displayed.now ≡ displays.Memory → result ≡ Err Memory }
    ensures files { H.files host.new ≡ H.files host.old }
{
    match displayed {
        Displayed::Memory => Err(Stop::Memory),
        Displayed::Mistake(text) => {
            host.say(text.as_str());
            Ok(2)
        }
        Displayed::Help(text) => {
            write_all(out, text.as_bytes())?;
            Ok(0)
        }
    }
}

/// Does what the words of the command line ask for.
fn do_words<H: Host, K: Sink>(
    alloc: Global,
    host: &mut H,
    out: &mut K,
    words: &[String],
) -> Result<u8, Stop>
    ensures ends { IfOk result (Ends out.old out.new) }
    ensures cause { (word : Word) (path : List ℕ) → AreWordsOf word (path ∷ []) (map string_bytes words.now)
        → are_plain word (path ∷ []) ≡ true → (word ≡ names.Check → H.reads host.old path None → ⊥)
        → HasCause (H.reads host.old path) (plain_command word) (reading_under None false)
        (K.state out.old) (K.state out.new) (status_of_work result) }
    ensures outputs { KeepsNamedOutputs H.tells H.File.state (map string_bytes words.now) (H.files host.old) (H.files host.new) }
{
    match request_of(alloc, words) {
        Ok(request) => do_request(alloc, host, out, request),
        Err(displayed) => do_displayed(host, out, &displayed),
    }
}

/// The exit status of work that was stopped, which is told.
fn status_of<H: Host>(host: &mut H, done: Result<u8, Stop>) -> u8
    ensures exact { result ≡ status_of_work done }
    ensures stopped { IfErr done (λ _. IsStatus result) }
    ensures files { H.files host.new ≡ H.files host.old }
{
    match done {
        Ok(status) => status,
        Err(Stop::Memory) => {
            host.say("xls: out of memory");
            5
        }
        Err(Stop::Write | Stop::Read) => {
            host.say("xls: standard output can't be written");
            4
        }
    }
}

/// Does what the words of the command line ask for, which stand behind the program's name, and answers the exit
/// status. Texts go to `out`, or into files of the host; what is wrong is told on the host's standard error.
pub fn run<H: Host, K: Sink>(alloc: Global, host: &mut H, out: &mut K, words: &[String]) -> u8
    // 2 comes only where nothing is written to `out`. Each other status is that of a file, or of what is written.
    ensures ends { Ends out.old out.new result }

    // Each status of a command without options over one path has its cause in what the host may find there: 0 comes
    // only where the whole answer to bytes of that path is written, 1 and most others only where the answer to them is
    // a failure that has this status. A path where `check` may find no file is left out: a folder is many files.
    ensures cause { (word : Word) (path : List ℕ) → AreWordsOf word (path ∷ []) (map string_bytes words.now)
        → are_plain word (path ∷ []) ≡ true → (word ≡ names.Check → H.reads host.old path None → ⊥)
        → HasCause (H.reads host.old path) (plain_command word) (reading_under None false)
        (K.state out.old) (K.state out.new) result }

    // Files are made only inside the folder that the words name, by the command that they name, and one that exists is
    // written over only where they say so. Each file that is ended has the whole text that else goes to `out`.
    ensures outputs { KeepsNamedOutputs H.tells H.File.state (map string_bytes words.now) (H.files host.old) (H.files host.new) }
{
    let done = do_words(alloc, host, out, words);
    status_of(host, done)
}
