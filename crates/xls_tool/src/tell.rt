//! The lines that tell of many files.

ghost use Rattle.std.specs.Prelude.{◌≡◌, map, max, Err, IfOk};
ghost use Rattle.std.specs.String.{string_bytes};
ghost use Rattle.xls_readable.specs.Items as items;
ghost use Rattle.xls_readable.specs.Items.{named_of};
ghost use Rattle.xls_readable.specs.Lines.{IsLine};
ghost use Rattle.xls_tool.specs.Displayed.{outcome_word};
ghost use Rattle.xls_tool.specs.Problems.{IsStatus, counted_status};

use crate::problem::{Outcome, Problem};
use std::alloc::{AllocError, Global};
use std::marker::Model;
use xls_output::{Sink, Stop, write_all};
use xls_readable::{Field, Form, Member, push_line};

/// How many files went how, and the greatest exit status of theirs. Contracts see the status.
#[derive(Drop)]
struct Counts {
    ok: u64,
    refused: u64,
    unread: u64,
    failed: u64,
    existing: u64,
    status: u8,
}

impl Model for Counts {
    ghost use Rattle.std.specs.Prelude.{ℕ};
    ghost use Rattle.xls_tool.specs.Problems.{IsStatus};

    ghost Value = { ℕ };

    ghost view = { λ counts. counts.status };

    ghost invariant = { λ counts. IsStatus counts.status };
}

/// The word for how it went with a file.
fn word_of(outcome: Outcome) -> &'static str
    ensures { result.now ≡ outcome_word outcome }
{
    match outcome {
        Outcome::Ok => "ok",
        Outcome::Refused => "refused",
        Outcome::Unread => "unread",
        Outcome::Exists => "exists",
        Outcome::Failed => "failed",
    }
}

impl Counts {
    /// No file.
    fn new() -> Counts
        ensures { result ≡ 0 }
    {
        Counts {
            ok: 0,
            refused: 0,
            unread: 0,
            failed: 0,
            existing: 0,
            status: 0,
        }
    }

    /// One file more.
    fn count(&mut self, outcome: Outcome, status: u8)
        requires { IsStatus status }
        ensures { self.new ≡ max self.old status }
    {
        match outcome {
            Outcome::Ok => self.ok = self.ok.saturating_add(1),
            Outcome::Refused => self.refused = self.refused.saturating_add(1),
            Outcome::Unread => self.unread = self.unread.saturating_add(1),
            Outcome::Failed => self.failed = self.failed.saturating_add(1),
            Outcome::Exists => self.existing = self.existing.saturating_add(1),
        }
        if self.status < status {
            self.status = status;
        }
    }

    /// The greatest exit status.
    fn status(&self) -> u8
        ensures exact { result ≡ self.now }
        ensures status { IsStatus result }
    {
        self.status
    }

    /// How many files there were.
    fn all(&self) -> u64 {
        self.ok
            .saturating_add(self.refused)
            .saturating_add(self.unread)
            .saturating_add(self.failed)
            .saturating_add(self.existing)
    }
}

/// A field of text under a name.
fn text<'t>(name: &'static str, text: &'t str) -> Member<'t>
    ensures { named_of result ≡ (name.now, items.text text.now) }
{
    Member {
        name,
        field: Field::Text(text),
    }
}

/// A count under a name.
fn count<'t>(name: &'static str, count: u64) -> Member<'t>
    ensures { named_of result ≡ (name.now, items.count count) }
{
    Member {
        name,
        field: Field::Count(count),
    }
}

/// A line of these fields.
fn line_of(
    alloc: Global,
    form: Form,
    word: &str,
    members: &[Member<'_>],
) -> Result<String, AllocError>
    ensures { IfOk result (λ line. IsLine form word.now (map named_of members.now) (string_bytes line)) }
{
    let mut room = String::new(alloc);
    let mut line = String::new(alloc);
    push_line(form, word, members, &mut room, &mut line)?;
    Ok(line)
}

/// The counts as a line of JSON.
fn counts_json(alloc: Global, counts: &Counts) -> Result<String, AllocError> {
    let members = [
        count("count", counts.all()),
        count("ok", counts.ok),
        count("refused", counts.refused),
        count("unread", counts.unread),
        count("failed", counts.failed),
        count("exists", counts.existing),
    ];
    line_of(alloc, Form::Json, "files", &members)
}

/// The counts as a line of text.
fn counts_text(alloc: Global, counts: &Counts) -> Result<String, AllocError> {
    format!(in alloc;
        "files\t{}\t{} ok\t{} refused\t{} unread\t{} failed\t{} exists\n",
        counts.all(),
        counts.ok,
        counts.refused,
        counts.unread,
        counts.failed,
        counts.existing
    )
}

/// The last line: how many files there were, and how it went with them.
fn counts_line(alloc: Global, form: Form, counts: &Counts) -> Result<String, AllocError> {
    match form {
        Form::Json => counts_json(alloc, counts),
        Form::Text | Form::Exact => counts_text(alloc, counts),
    }
}

/// The exit status that the line of a problem counts with.
fn counted_status(skips: bool, problem: &Problem) -> u8
    ensures exact { result ≡ counted_status skips (Err problem.now) }
    ensures status { IsStatus result }
{
    if skips && problem.is_existing() {
        return 0;
    }
    problem.status()
}

/// What is told of many files.
#[derive(Drop)]
pub(crate) struct Report<'r, K> {
    /// Where it is written, and in which form.
    out: &'r mut K,
    form: Form,
    /// How many files there are, where that is known.
    all: Option<u64>,
    /// Files that exist are no fault.
    skips: bool,
    /// Of the files that were told of.
    counts: Counts,
}

impl<'r, K: Sink> Report<'r, K> {
    /// No file was told of.
    pub(crate) fn new(out: &'r mut K, form: Form, all: Option<u64>, skips: bool) -> Report<'r, K>
        ensures counts { result.counts ≡ 0 }
        ensures skips { result.skips ≡ skips }
    {
        Report {
            out,
            form,
            all,
            skips,
            counts: Counts::new(),
        }
    }

    /// Writes a line of these fields.
    fn write_line(&mut self, alloc: Global, word: &str, members: &[Member<'_>]) -> Result<(), Stop>
        ensures { self.new.counts ≡ self.old.counts }
    {
        let line = line_of(alloc, self.form, word, members)?;
        write_all(self.out, line.as_bytes())?;
        Ok(())
    }

    /// Tells that the text of a file is written.
    fn tell_ok(&mut self, alloc: Global, file: &str) -> Result<(), Stop>
        ensures { self.new.counts ≡ self.old.counts }
    {
        self.write_line(alloc, "ok", &[text("file", file)])
    }

    /// Tells why the text of a file isn't written.
    fn tell_why(
        &mut self,
        alloc: Global,
        outcome: Outcome,
        file: &str,
        why: &str,
    ) -> Result<(), Stop>
        ensures { self.new.counts ≡ self.old.counts }
    {
        let members = [text("file", file), text("why", why)];
        self.write_line(alloc, word_of(outcome), &members)
    }

    /// Tells the problem of a file.
    fn tell_problem(&mut self, alloc: Global, file: &str, problem: &Problem) -> Result<(), Stop>
        ensures { self.new.counts ≡ self.old.counts }
    {
        let why = format!(in alloc; "{problem}")?;
        self.tell_why(alloc, problem.outcome(), file, why.as_str())
    }

    /// Tells how it went with a file, and counts it.
    pub(crate) fn tell(
        &mut self,
        alloc: Global,
        file: &str,
        done: &Result<(), Problem>,
    ) -> Result<(), Stop>
        ensures { self.new.counts ≡ max self.old.counts (counted_status self.old.skips done.now) }
    {
        match done {
            Ok(()) => {
                self.counts.count(Outcome::Ok, 0);
                self.tell_ok(alloc, file)
            }
            Err(problem) => {
                self.counts
                    .count(problem.outcome(), counted_status(self.skips, problem));
                self.tell_problem(alloc, file, problem)
            }
        }
    }

    /// How many files were told of, and of how many, where that is known.
    pub(crate) fn progress(&self, alloc: Global) -> Result<String, AllocError> {
        let done = self.counts.all();
        match self.all {
            Some(all) => format!(in alloc; "{done} of {all}"),
            None => format!(in alloc; "{done}"),
        }
    }

    /// The last line: how many files there were, and how it went with them.
    pub(crate) fn last_line(&self, alloc: Global) -> Result<String, AllocError> {
        counts_line(alloc, self.form, &self.counts)
    }

    /// Writes the last line.
    pub(crate) fn write_last_line(&mut self, alloc: Global) -> Result<(), Stop>
        ensures { self.new.counts ≡ self.old.counts }
    {
        let line = self.last_line(alloc)?;
        write_all(self.out, line.as_bytes())?;
        Ok(())
    }

    /// The greatest exit status of the files.
    pub(crate) fn status(&self) -> u8
        ensures exact { result ≡ self.now.counts }
        ensures status { IsStatus result }
    {
        self.counts.status()
    }
}
