//! What is done with each file.

ghost use Rattle.std.specs.Prelude.{◌≡◌, false, None, IfOk};
ghost use Rattle.xls_words.specs.Requests as requests;
ghost use Rattle.xls_words.specs.Requests.{is_exact};
ghost use Rattle.xls_answers.specs.Answers.{HasNumber};
ghost use Rattle.xls_answers.specs.Views.{options_under};
ghost use Rattle.xls_tool.specs.Asked.{AskedHasNumber, asked_by, form_of_many, exact_lines, lines_of, skips_existing};

use crate::unlock::PasswordList;
use std::alloc::{AllocError, Global};
use xls_answers::{Answer, options_of};
use xls_open::XlsOptions;
use xls_readable::{Form, Listing};
use xls_words::{Command, Request};

/// How workbooks are read.
#[derive(Drop)]
pub struct Reading {
    pub(crate) options: XlsOptions,
    /// The passwords that are tried on encrypted ones.
    pub(crate) passwords: PasswordList,
}

/// What is asked for of each file, and how workbooks are read.
#[derive(Drop)]
pub(crate) struct Job<'w> {
    pub(crate) request: Request<'w>,
    pub(crate) reading: Reading,
}

impl Job<'_> {
    /// The form of the lines that tell of many files.
    pub(crate) fn form(&self) -> Form
        ensures { result ≡ form_of_many self.now.request.tells_json }
    {
        if self.request.tells_json {
            Form::Json
        } else {
            Form::Text
        }
    }

    /// Whether each worksheet and each macro sheet of a workbook is written.
    pub(crate) fn takes_all_sheets(&self) -> bool {
        match &self.request.out {
            Some(folder) => folder.takes_all_sheets,
            None => false,
        }
    }

    /// Whether files that exist are left as they are, and that is no fault.
    pub(crate) fn skips_existing(&self) -> bool
        ensures exact { result ≡ skips_existing self.now.request.out }
        ensures none { self.now.request.out ≡ None → result ≡ false }
    {
        match &self.request.out {
            Some(folder) => folder.skips_existing,
            None => false,
        }
    }
}

/// What stands beside the workbook in a file.
#[derive(Clone, Copy, Debug, PartialEq, Eq)]
pub enum Beside<'w> {
    Properties,
    Project,
    /// The sources of the macro project, in a form.
    Macros(Form),
    /// The stream of a path, its names separated by `/`.
    Stream(&'w str),
    Streams,
}

/// What a command writes of a file.
#[derive(Clone, Copy, Debug, PartialEq, Eq)]
pub enum Asked<'w> {
    Workbook(Answer<'w>),
    Other(Beside<'w>),
}

/// Lines as `xls_dump` has them: its own where all are asked for.
fn exact_lines<'w>(listing: Listing) -> Answer<'w>
    ensures exact { result ≡ exact_lines listing }
    ensures number { HasNumber result }
{
    match listing {
        Listing::Dump => Answer::Exact,
        Listing::Sheets => Answer::Lines(Listing::Sheets, Form::Text),
        Listing::Formulas => Answer::Lines(Listing::Formulas, Form::Text),
        Listing::Refs => Answer::Lines(Listing::Refs, Form::Text),
    }
}

/// Lines of the workbook in a form.
fn lines_of<'w>(listing: Listing, form: Form) -> Answer<'w>
    ensures exact { result ≡ lines_of listing form }
    ensures number { HasNumber result }
{
    match form {
        Form::Text => Answer::Lines(listing, Form::Text),
        Form::Json => Answer::Lines(listing, Form::Json),
        Form::Exact => exact_lines(listing),
    }
}

/// What a command writes of a file.
pub(crate) fn asked_by<'w>(command: &Command<'w>) -> Asked<'w>
    requires { requests.CommandHasNumber command.now }
    ensures exact { result ≡ asked_by command.now }
    ensures number { AskedHasNumber result }
{
    match command {
        Command::Lines(listing, form) => Asked::Workbook(lines_of(*listing, *form)),
        Command::Shown(form) => Asked::Workbook(Answer::Shown(*form)),
        Command::Check => Asked::Workbook(Answer::Check),
        Command::Beside(topic, form) => Asked::Workbook(Answer::Beside(*topic, *form)),
        Command::Csv(choice, table, sight) => {
            Asked::Workbook(Answer::Sheet(*choice, *table, *sight))
        }
        Command::Remake => Asked::Workbook(Answer::Remade),
        Command::Stream(None) => Asked::Workbook(Answer::Bytes),
        Command::Stream(Some(path)) => Asked::Other(Beside::Stream(path)),
        Command::Props => Asked::Other(Beside::Properties),
        Command::Vba => Asked::Other(Beside::Project),
        Command::Macros(form) => Asked::Other(Beside::Macros(*form)),
        Command::Streams => Asked::Other(Beside::Streams),
    }
}

/// What a request asks for of each file, by these passwords.
pub(crate) fn job_of<'w>(
    alloc: Global,
    request: Request<'w>,
    passwords: PasswordList,
) -> Result<Job<'w>, AllocError>
    ensures request { IfOk result (λ job. job.request ≡ request.entry) }
    ensures options { IfOk result (λ job. job.reading.options ≡ options_under request.entry.page (is_exact request.entry.command)) }
    ensures passwords { IfOk result (λ job. job.reading.passwords ≡ passwords) }
{
    let options = options_of(alloc, request.page, request.command.is_exact())?;
    Ok(Job {
        request,
        reading: Reading { options, passwords },
    })
}
