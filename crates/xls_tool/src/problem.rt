//! Why the text of a file isn't written.

ghost use Rattle.std.specs.Prelude.{◌≡◌, ◌≢◌};
ghost use Rattle.xls_tool.specs.Problems.{IsStatus, is_existing, outcome_of, problem_of_project, problem_status};
ghost use Rattle.xls_answers.specs.Failures.{failure_of_fault};
ghost use Rattle.xls_tool.specs.declared.problem.Problem.TheVariants as problems;
ghost use Rattle.xls_answers.specs.declared.failure.Failure.TheVariants.{Stopped};
ghost use Rattle.xls_output.specs.declared.stop.Stop.TheVariants.{Memory};

use std::alloc::AllocError;
use std::fmt;
use xls_answers::Failure;
use xls_container::FileFault;
use xls_documents::ProjectFault;
use xls_files::Reason;
use xls_output::Stop;
use xls_passwords::{FilePassFault, Refusal};

/// How it went with a file.
#[derive(Clone, Copy, Debug, PartialEq, Eq)]
pub enum Outcome {
    Ok,
    /// Its stream has a fault, or no such sheet.
    Refused,
    /// It can't be read, or gives no workbook.
    Unread,
    /// A file for its text exists, which is left as it was.
    Exists,
    /// Its text can't be written, or memory ran out.
    Failed,
}

/// What a file has not.
#[derive(Clone, Copy, Debug, PartialEq, Eq)]
pub enum Absent {
    Properties,
    Project,
    /// No stream of this path.
    Stream,
    /// A bare stream has no other ones.
    Compound,
}

/// Why the text of a file isn't written.
#[derive(Debug, Drop)]
pub enum Problem {
    /// It can't be read.
    Unread(Reason),
    /// It is a folder, and the command reads one file.
    Folder,
    /// It is no regular file.
    Irregular,
    /// The text of its workbook isn't written.
    Failure(Failure),
    /// It hasn't what is asked for.
    Absent(Absent),
    /// Its macro project is damaged.
    Project(ProjectFault),
    /// Its workbook is encrypted, and no password makes it plain.
    Encrypted(Refusal),
    /// A file of this path can't be written.
    Unwritten(String, Reason),
}

impl Problem {
    /// The exit status that tells it.
    pub fn status(&self) -> u8
        ensures exact { result ≡ problem_status self.now }
        ensures status { IsStatus result }
        ensures fails { result ≢ 0 }
    {
        match self {
            Problem::Unread(Reason::Memory) | Problem::Unwritten(_, Reason::Memory) => 5,
            Problem::Unread(_) | Problem::Folder | Problem::Irregular => 10,
            Problem::Failure(failure) => failure.status(),
            Problem::Absent(_) => 12,
            Problem::Project(_) => 11,
            Problem::Encrypted(Refusal::FilePass(FilePassFault::Length { .. })) => 1,
            Problem::Encrypted(_) => 17,
            Problem::Unwritten(..) => 16,
        }
    }

    /// Whether it is that a file for the text exists.
    pub(crate) fn is_existing(&self) -> bool
        ensures { result ≡ is_existing self.now }
    {
        matches!(self, Problem::Unwritten(_, Reason::Exists))
    }

    /// How it went with a file that has the problem.
    pub(crate) fn outcome(&self) -> Outcome
        ensures { result ≡ outcome_of self.now }
    {
        if self.is_existing() {
            return Outcome::Exists;
        }
        match self.status() {
            1 => Outcome::Refused,
            10 | 11 | 12 | 17 => Outcome::Unread,
            _ => Outcome::Failed,
        }
    }
}

impl fmt::Display for Absent {
    ghost use Rattle.std.specs.Prelude.{Some};
    ghost use Rattle.xls_tool.specs.Displayed.{absent_text};

    ghost output = { λ absent. Some (absent_text absent) };

    fn fmt<W: fmt::Write>(&self, f: &mut fmt::Formatter<W>) -> fmt::Result {
        f.write_str(match self {
            Absent::Properties => "it has no property streams",
            Absent::Project => "it has no macro project (no stream VBA/dir)",
            Absent::Stream => "it has no such stream",
            Absent::Compound => "it is a workbook's stream alone, without other streams",
        })
    }
}

impl fmt::Display for Problem {
    ghost use Rattle.std.specs.Prelude.{Some};
    ghost use Rattle.xls_tool.specs.Displayed.{problem_text};

    ghost output = { λ problem. Some (problem_text problem) };

    fn fmt<W: fmt::Write>(&self, f: &mut fmt::Formatter<W>) -> fmt::Result {
        match self {
            Problem::Unread(reason) => write!(f, "{reason}"),
            Problem::Folder => f.write_str("it is a folder"),
            Problem::Irregular => f.write_str("it is no regular file"),
            Problem::Failure(failure) => write!(f, "{failure}"),
            Problem::Absent(what) => write!(f, "{what}"),
            Problem::Project(fault) => write!(f, "{fault}"),
            Problem::Encrypted(refusal) => write!(f, "{refusal}"),
            Problem::Unwritten(path, reason) => write!(f, "{path}: {reason}"),
        }
    }
}

impl From<Failure> for Problem {
    ghost from_gives = { λ failure e. e ≡ problems.Failure failure };

    fn from(failure: Failure) -> Problem {
        Problem::Failure(failure)
    }
}

impl From<FileFault> for Problem {
    ghost from_gives = { λ fault e. e ≡ problems.Failure (failure_of_fault fault) };

    fn from(fault: FileFault) -> Problem {
        Problem::Failure(Failure::from(fault))
    }
}

impl From<Stop> for Problem {
    ghost from_gives = { λ stop e. e ≡ problems.Failure (Stopped stop) };

    fn from(stop: Stop) -> Problem {
        Problem::Failure(Failure::Stopped(stop))
    }
}

impl From<AllocError> for Problem {
    ghost from_gives = { λ _ e. e ≡ problems.Failure (Stopped Memory) };

    fn from(_: AllocError) -> Problem {
        Problem::Failure(Failure::Stopped(Stop::Memory))
    }
}

impl From<ProjectFault> for Problem {
    ghost from_gives = { λ fault e. e ≡ problem_of_project fault };

    fn from(fault: ProjectFault) -> Problem {
        match fault {
            ProjectFault::File(fault) => Problem::from(fault),
            ProjectFault::Memory => Problem::from(Stop::Memory),
            fault => Problem::Project(fault),
        }
    }
}
