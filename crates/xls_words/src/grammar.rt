//! What commands take, and the grammar that their table gives.

use crate::word::{ALL, FileCount, Row};
use clap::{Arg, ArgAction, Command, value_parser};
use std::alloc::{AllocError, Global};

/// The version of the program and of its libraries.
pub const VERSION: &str = "0.45.0";

/// How an argument is given.
#[derive(Clone, Copy)]
enum ArgumentKind {
    /// Any number of words.
    Words,
    /// One word, which there must be.
    Word,
    /// One word, if any.
    LastWord,
    /// An option with a value, which help calls by this name.
    Value(&'static str),
    /// An option with a number, from 1.
    Number,
    /// An option without a value.
    Flag,
    /// The same, which has a short form.
    ShortFlag(char),
}

/// A word or an option that a command takes.
#[derive(Clone, Copy)]
pub(crate) struct Argument {
    name: &'static str,
    kind: ArgumentKind,
    help: &'static str,
    /// The options that it isn't given together with.
    without: &'static [&'static str],
}

const FILES: Argument = Argument {
    name: "FILE",
    kind: ArgumentKind::Words,
    help: "Files, folders, or - for a file on standard input",
    without: &[],
};

const FILE: Argument = Argument {
    name: "FILE",
    kind: ArgumentKind::Word,
    help: "A file, or - for one on standard input",
    without: &[],
};

const PATH: Argument = Argument {
    name: "NAME",
    kind: ArgumentKind::LastWord,
    help: "The path of a stream, its names separated by /",
    without: &[],
};

const LIST: Argument = Argument {
    name: "files-from",
    kind: ArgumentKind::Value("LIST"),
    help: "Read the files whose names stand in LIST (- for standard input), one a line",
    without: &[],
};

const NULL: Argument = Argument {
    name: "null",
    kind: ArgumentKind::ShortFlag('0'),
    help: "The names in LIST are ended by NUL",
    without: &[],
};

const OUT: Argument = Argument {
    name: "out",
    kind: ArgumentKind::Value("DIR"),
    help: "Write into DIR/FILE.out, a folder for each file",
    without: &[],
};

const FORCE: Argument = Argument {
    name: "force",
    kind: ArgumentKind::Flag,
    help: "Write over files that exist",
    without: &["skip-existing"],
};

const SKIP: Argument = Argument {
    name: "skip-existing",
    kind: ArgumentKind::Flag,
    help: "Leave files that exist as they are: only what is missing is written",
    without: &[],
};

const PAGE: Argument = Argument {
    name: "codepage",
    kind: ArgumentKind::Value("N"),
    help: "Read texts of single bytes by this page: 1200, 1252, 28591 or 65001",
    without: &[],
};

const PASSWORD_FILE: Argument = Argument {
    name: "password-file",
    kind: ArgumentKind::Value("FILE"),
    help: "Try the passwords that stand in FILE, one a line, on encrypted workbooks",
    without: &[],
};

const PASSWORD: Argument = Argument {
    name: "password",
    kind: ArgumentKind::Value("P"),
    help: "Try this password; other users can see it while xls runs",
    without: &[],
};

const JSON: Argument = Argument {
    name: "json",
    kind: ArgumentKind::Flag,
    help: "Write each line as an object of JSON",
    without: &[],
};

// The exact texts of lines.
const EXACT: Argument = Argument {
    name: "exact",
    kind: ArgumentKind::Flag,
    help: "Write numbers by their bits, as xls_dump does",
    without: &["json"],
};

// The exact texts of CSV.
const EXACT_CSV: Argument = Argument {
    without: &["delimiter", "bom"],
    ..EXACT
};

const AS_SHOWN: Argument = Argument {
    name: "as-shown",
    kind: ArgumentKind::Flag,
    help: "Tell of each cell what Excel shows, as the last field",
    without: &["exact"],
};

const AS_SHOWN_CSV: Argument = Argument {
    help: "Write each field as Excel shows it",
    ..AS_SHOWN
};

const SHEET: Argument = Argument {
    name: "sheet",
    kind: ArgumentKind::Value("NAME"),
    help: "The last sheet of this name",
    without: &[],
};

const NUMBER: Argument = Argument {
    name: "number",
    kind: ArgumentKind::Number,
    help: "The sheet of this number, from 1",
    without: &["sheet"],
};

const ALL_SHEETS: Argument = Argument {
    name: "all",
    kind: ArgumentKind::Flag,
    help: "Each worksheet and macro sheet; wants --out",
    without: &["sheet", "number"],
};

const DELIMITER: Argument = Argument {
    name: "delimiter",
    kind: ArgumentKind::Value("C"),
    help: "The character between fields, in place of a comma; tab for a tab",
    without: &[],
};

const MARK: Argument = Argument {
    name: "bom",
    kind: ArgumentKind::Flag,
    help: "Begin with a byte order mark, as Excel wants it",
    without: &[],
};

const FROM_A1: Argument = Argument {
    name: "from-a1",
    kind: ArgumentKind::Flag,
    help: "Begin with row 1 and column A, in place of the first that hold a cell",
    without: &["exact"],
};

const SKIP_HIDDEN: Argument = Argument {
    name: "skip-hidden",
    kind: ArgumentKind::Flag,
    help: "Leave out the rows and columns that can't be seen",
    without: &["exact"],
};

const QUIET: Argument = Argument {
    name: "quiet",
    kind: ArgumentKind::ShortFlag('q'),
    help: "Don't say on standard error what is hidden or damaged",
    without: &[],
};

/// The files of a command that reads many, and what it takes for them.
static MANY_FILES: [Argument; 6] = [FILES, LIST, NULL, OUT, FORCE, SKIP];

static ONE_FILE: [Argument; 1] = [FILE];

static ONE_STREAM: [Argument; 2] = [FILE, PATH];

/// The options of a command whose lines have all three forms.
pub(crate) static THREE_FORMS: [Argument; 5] = [JSON, EXACT, PAGE, PASSWORD_FILE, PASSWORD];

/// Those of one that tells of cells too.
pub(crate) static DUMP_OPTIONS: [Argument; 7] = [
    JSON,
    EXACT,
    AS_SHOWN,
    QUIET,
    PAGE,
    PASSWORD_FILE,
    PASSWORD,
];

/// Those of one whose lines have two.
pub(crate) static TWO_FORMS: [Argument; 4] = [JSON, PAGE, PASSWORD_FILE, PASSWORD];

/// Those of one that tells of damaged things too.
pub(crate) static BESIDE_OPTIONS: [Argument; 5] = [JSON, QUIET, PAGE, PASSWORD_FILE, PASSWORD];

/// Those of one whose lines have two, and that reads no workbook.
pub(crate) static JSON_FORM: [Argument; 1] = [JSON];

/// Those of one that writes a workbook's stream.
pub(crate) static STREAM_OPTIONS: [Argument; 2] = [PASSWORD_FILE, PASSWORD];

/// Those of a sheet as CSV.
pub(crate) static SHEET_OPTIONS: [Argument; 13] = [
    SHEET,
    NUMBER,
    ALL_SHEETS,
    DELIMITER,
    MARK,
    AS_SHOWN_CSV,
    FROM_A1,
    SKIP_HIDDEN,
    EXACT_CSV,
    QUIET,
    PAGE,
    PASSWORD_FILE,
    PASSWORD,
];

/// The files that a command takes, and what it takes for them.
fn files_of(files: FileCount) -> &'static [Argument] {
    match files {
        FileCount::Many => &MANY_FILES,
        FileCount::One => &ONE_FILE,
        FileCount::OneAndPath => &ONE_STREAM,
    }
}

/// Any number of words.
fn words<'a>(alloc: Global, name: &'a str) -> Arg<'a> {
    Arg::new(alloc, name)
        .num_args(0..)
        .action(ArgAction::Append)
}

/// One word.
fn word<'a>(alloc: Global, name: &'a str, is_required: bool) -> Arg<'a> {
    Arg::new(alloc, name)
        .action(ArgAction::Set)
        .required(is_required)
}

/// An option with a value.
fn option<'a>(alloc: Global, name: &'a str, value: &'a str) -> Arg<'a> {
    Arg::new(alloc, name)
        .action(ArgAction::Set)
        .long(name)
        .value_name(value)
}

/// An option with a number, from 1.
fn number<'a>(alloc: Global, name: &'a str) -> Arg<'a> {
    option(alloc, name, "N").value_parser(value_parser!(u32).range(1..))
}

/// An option without a value.
fn flag<'a>(alloc: Global, name: &'a str) -> Arg<'a> {
    Arg::new(alloc, name).action(ArgAction::SetTrue).long(name)
}

/// An argument of this kind.
fn of_kind<'a>(alloc: Global, name: &'a str, kind: ArgumentKind) -> Arg<'a> {
    match kind {
        ArgumentKind::Words => words(alloc, name),
        ArgumentKind::Word => word(alloc, name, true),
        ArgumentKind::LastWord => word(alloc, name, false),
        ArgumentKind::Value(value) => option(alloc, name, value),
        ArgumentKind::Number => number(alloc, name),
        ArgumentKind::Flag => flag(alloc, name),
        ArgumentKind::ShortFlag(letter) => flag(alloc, name).short(letter),
    }
}

/// An argument of the grammar.
fn arg_of<'a>(alloc: Global, it: &Argument) -> Result<Arg<'a>, AllocError> {
    of_kind(alloc, it.name, it.kind)
        .help(it.help)
        .conflicts_with_all(it.without)
}

/// Adds what a command takes, as clap reads it.
fn push_args<'a>(
    args: &mut Vec<Arg<'a>>,
    alloc: Global,
    arguments: &[Argument],
) -> Result<(), AllocError> {
    for it in arguments {
        args.push(arg_of(alloc, it)?)?;
    }
    Ok(())
}

/// How the words of a command are read.
pub(crate) fn grammar_of<'a>(alloc: Global, row: Row) -> Result<Command<'a>, AllocError> {
    let mut args = Vec::new(alloc);
    push_args(&mut args, alloc, files_of(row.files))?;
    push_args(&mut args, alloc, row.options)?;
    Command::new(alloc, row.title).about(row.about).args(args)
}

/// Adds a command's line of help.
fn push_summary<'a>(
    commands: &mut Vec<Command<'a>>,
    alloc: Global,
    name: &'a str,
    about: &'a str,
) -> Result<(), AllocError> {
    Ok(commands.push(Command::new(alloc, name).about(about))?)
}

/// A line of help for each command.
fn summaries<'a>(alloc: Global) -> Result<Vec<Command<'a>>, AllocError> {
    let mut commands = Vec::new(alloc);
    for word in ALL {
        let row = word.row();
        push_summary(&mut commands, alloc, row.name, row.about)?;
    }
    Ok(commands)
}

/// The commands together, which only help and the version are asked of.
pub(crate) fn overview<'a>(alloc: Global) -> Result<Command<'a>, AllocError> {
    let commands = summaries(alloc)?;
    Command::new(alloc, "xls")
        .version(VERSION)
        .about("Reads old Excel workbooks (.xls): xls [COMMAND] FILE.. | help [COMMAND] | version")
        .arg_required_else_help(true)
        .disable_help_subcommand(true)
        .subcommands(commands)
}
