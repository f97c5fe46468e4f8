//! What the words ask for.

ghost use Rattle.std.specs.Prelude.{◌≡◌};
ghost use Rattle.xls_words.specs.Requests.{ending_of, is_exact, word_of};

use crate::word::Word;
use xls_beside::Topic;
use xls_hidden_cells::Sight;
use xls_readable::{Form, Listing, SheetChoice, Table};

/// What is done with each file.
#[derive(Clone, Copy, Debug, PartialEq, Eq)]
pub enum Command<'w> {
    /// Lines of the workbook, in a form.
    Lines(Listing, Form),
    /// All that the workbook holds, each cell with what Excel shows, in a form.
    Shown(Form),
    Check,
    /// What stands beside the workbook's values, in a form.
    Beside(Topic, Form),
    Props,
    Vba,
    /// The sources of a macro project, in a form.
    Macros(Form),
    /// A sheet as CSV, or what can be seen of it.
    Csv(SheetChoice<'w>, Table, Sight),
    Remake,
    /// The stream of a path, its names separated by `/`, or else the workbook's.
    Stream(Option<&'w str>),
    Streams,
}

impl Command<'_> {
    /// The name of the command.
    pub fn word(&self) -> Word
        ensures { result ≡ word_of self.now }
    {
        match self {
            Command::Lines(listing, _) => Word::Lines(*listing),
            Command::Shown(_) => Word::Lines(Listing::Dump),
            Command::Check => Word::Check,
            Command::Beside(topic, _) => Word::Beside(*topic),
            Command::Props => Word::Props,
            Command::Vba => Word::Vba,
            Command::Macros(_) => Word::Macros,
            Command::Csv(..) => Word::Csv,
            Command::Remake => Word::Remake,
            Command::Stream(_) => Word::Stream,
            Command::Streams => Word::Streams,
        }
    }

    /// Whether numbers are written as the workbook has them.
    pub fn is_exact(&self) -> bool
        ensures { result ≡ is_exact self.now }
    {
        match self {
            Command::Lines(_, form) => *form == Form::Exact,
            Command::Csv(_, table, _) => table.is_exact,
            Command::Shown(_)
            | Command::Check
            | Command::Beside(..)
            | Command::Props
            | Command::Vba
            | Command::Macros(_)
            | Command::Remake
            | Command::Stream(_)
            | Command::Streams => false,
        }
    }

    /// The ending of the name of a text's file.
    pub fn ending(&self) -> &'static str
        ensures { result.now ≡ ending_of self.now }
    {
        match self {
            Command::Lines(_, Form::Json)
            | Command::Shown(Form::Json)
            | Command::Beside(_, Form::Json)
            | Command::Macros(Form::Json) => "json",
            _ => self.word().row().ending,
        }
    }
}

/// Which files are read.
#[derive(Debug, Drop)]
pub enum Files<'w> {
    /// These files and folders; `-` is standard input.
    Named(Vec<&'w str>),
    /// Those whose names stand in a file, or on standard input where that is `-`.
    Listed {
        list: &'w str,
        /// The names are ended by NUL, and not by newlines.
        by_nul: bool,
    },
}

/// The folder into which the texts of files are written.
#[derive(Clone, Copy, Debug, PartialEq, Eq)]
pub struct Folder<'w> {
    pub path: &'w str,
    /// Files that exist are written over.
    pub writes_over: bool,
    /// Files that exist are left as they are, and that is no fault.
    pub skips_existing: bool,
    /// Of a workbook whose sheet is asked for each worksheet and each macro sheet is written.
    pub takes_all_sheets: bool,
}

/// The passwords that are tried on encrypted workbooks, before the one that Excel tries by itself.
#[derive(Clone, Copy, Debug, PartialEq, Eq)]
pub struct Passwords<'w> {
    /// One that is given.
    pub given: Option<&'w str>,
    /// The path of a file with one a line.
    pub list: Option<&'w str>,
}

/// What the words of the command line ask for.
#[derive(Debug, Drop)]
pub struct Request<'w> {
    pub command: Command<'w>,
    pub files: Files<'w>,
    /// The lines that many files are told in are objects of JSON.
    pub tells_json: bool,
    /// Nothing is said on standard error of what is hidden or damaged.
    pub is_quiet: bool,
    /// The page that texts of single bytes are read by, in place of the one that a workbook says: 1200, 1252,
    /// 28591 or 65001.
    pub page: Option<u16>,
    /// Where the texts of files are written, if not to standard output.
    pub out: Option<Folder<'w>>,
    pub passwords: Passwords<'w>,
}
