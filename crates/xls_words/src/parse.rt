//! Words, and what they ask for.

ghost use Rattle.std.specs.Prelude.{◌≡◌, ℕ, List, true, IfOk, IfSome, MatchResult, map};
ghost use Rattle.std.specs.String.{string_bytes};
ghost use Rattle.xls_readable.specs.Choices.{IsNumbered};
ghost use Rattle.xls_words.specs.Requests.{AreWordsOf, CommandHasNumber, IsAsked, IsPage, IsPlainRequest, IsNamedFolder, are_plain, ends_one, is_among, word_of};
ghost use Rattle.xls_words.specs.declared.displayed.Displayed.TheVariants as displayed;
ghost use Rattle.xls_words.specs.declared.parse.Refusal.TheVariants as refusals;
ghost use Rattle.xls_words.specs.declared.word.Word.{Word};
ghost use Rattle.xls_words.specs.declared.word.Word.TheVariants as words;

use crate::displayed::{Displayed, displayed_of};
use crate::grammar::{grammar_of, overview};
use crate::plain::{are_plain, plain_request};
use crate::request::{Command, Files, Folder, Passwords, Request};
use crate::word::Word;
use clap::error::ErrorKind;
use clap::{ArgMatches, Error};
use std::alloc::{AllocError, Global};
use xls_hidden_cells::Sight;
use xls_readable::{Delimiter, FieldStyle, Form, Listing, Origin, SheetChoice, Table};

/// How the lines of a command are written.
fn form_in(matches: &ArgMatches<'_>) -> Form {
    if matches.get_flag("exact") {
        return Form::Exact;
    }
    if matches.get_flag("json") {
        return Form::Json;
    }
    Form::Text
}

/// The delimiter of a text, if it is one.
fn delimiter_of(text: &str) -> Option<Delimiter> {
    match text.as_bytes() {
        b"tab" | b"\\t" => Delimiter::new(b'\t'),
        [byte] => Delimiter::new(*byte),
        _ => None,
    }
}

/// The page of a number, if it is one that is read.
fn page_of(text: &str) -> Option<u16>
    ensures { IfSome result IsPage }
{
    match text {
        "1200" => Some(1200),
        "1252" => Some(1252),
        "28591" => Some(28_591),
        "65001" => Some(65_001),
        _ => None,
    }
}

/// The sheet that is chosen.
fn choice_in<'w>(matches: &ArgMatches<'w>) -> SheetChoice<'w>
    ensures { IsNumbered result }
{
    if let Some(name) = matches.get_str("sheet") {
        return SheetChoice::Named(name);
    }
    match matches.get_one::<u32>("number") {
        Some(number) if number > 0 => SheetChoice::Number(number),
        _ => SheetChoice::First,
    }
}

/// Why words that the grammar takes are refused.
#[derive(Clone, Copy)]
enum Refusal {
    Memory,
    /// The delimiter is none.
    Delimiter,
    /// There is no file.
    NoFile,
    /// There are files and a list of files.
    FilesAndList,
    /// The page is none that is read.
    Page,
    /// All sheets are asked for, and no folder for them is given.
    NoFolder,
    /// The folder has no name.
    EmptyFolder,
    /// Files that exist are to be written over, or left, and no folder for them is given.
    NothingWritten,
    /// The names in a list are ended by NUL, and there is no list.
    NoList,
}

impl Refusal {
    /// What is wrong with the words.
    fn text(self) -> &'static str {
        match self {
            Refusal::Memory => "out of memory",
            Refusal::Delimiter => {
                "the delimiter is one character of ASCII, and no quote, newline or return"
            }
            Refusal::NoFile => "no file is given",
            Refusal::FilesAndList => "give files, or --files-from, and not both",
            Refusal::Page => "the pages are 1200, 1252, 28591 and 65001",
            Refusal::NoFolder => "error: --all wants --out DIR",
            Refusal::EmptyFolder => "error: --out wants the name of a folder; . is this one",
            Refusal::NothingWritten => "error: --force and --skip-existing want --out DIR",
            Refusal::NoList => "error: -0 wants --files-from LIST",
        }
    }
}

impl From<AllocError> for Refusal {
    ghost from_gives = { λ _ refusal. refusal ≡ refusals.Memory };

    fn from(_: AllocError) -> Refusal {
        Refusal::Memory
    }
}

/// The refusal as the grammar tells its own.
fn error_of(grammar: &mut clap::Command<'_>, refusal: Refusal) -> Error {
    if let Refusal::Memory = refusal {
        return Error::from(AllocError);
    }
    match grammar.error(ErrorKind::ValueValidation, refusal.text()) {
        Ok(error) => error,
        Err(error) => Error::from(error),
    }
}

/// What is wrong with the words, as it stands.
fn mistake(alloc: Global, text: &str) -> Displayed {
    match String::from_str(alloc, text) {
        Ok(text) => Displayed::Mistake(text),
        Err(_) => Displayed::Memory,
    }
}

/// What a user is shown of a refusal. How the command is used is shown with it, but where an option is missing.
fn refused(alloc: Global, grammar: &mut clap::Command<'_>, refusal: Refusal) -> Displayed {
    match refusal {
        Refusal::NoFolder | Refusal::EmptyFolder | Refusal::NothingWritten | Refusal::NoList =>
            mistake(alloc, refusal.text()),
        Refusal::Memory
        | Refusal::Delimiter
        | Refusal::NoFile
        | Refusal::FilesAndList
        | Refusal::Page => displayed_of(alloc, &error_of(grammar, refusal)),
    }
}

/// The character between fields, if what is given is one.
fn delimiter_in(matches: &ArgMatches<'_>) -> Option<Delimiter> {
    match matches.get_str("delimiter") {
        None => Some(Delimiter::comma()),
        Some(text) => delimiter_of(text),
    }
}

/// What the fields of a table are.
fn style_in(matches: &ArgMatches<'_>) -> FieldStyle {
    if matches.get_flag("as-shown") {
        FieldStyle::Shown
    } else {
        FieldStyle::Values
    }
}

/// Where a table begins.
fn origin_in(matches: &ArgMatches<'_>) -> Origin {
    if matches.get_flag("from-a1") {
        Origin::A1
    } else {
        Origin::Box
    }
}

/// Which rows and columns of a table are written.
fn sight_in(matches: &ArgMatches<'_>) -> Sight {
    if matches.get_flag("skip-hidden") {
        Sight::Seen
    } else {
        Sight::All
    }
}

/// How a sheet is written as CSV. None where the delimiter is none.
fn table_in(matches: &ArgMatches<'_>) -> Option<Table> {
    Some(Table {
        delimiter: delimiter_in(matches)?,
        begins_with_mark: matches.get_flag("bom"),
        is_exact: matches.get_flag("exact"),
        style: style_in(matches),
        origin: origin_in(matches),
    })
}

/// The command whose lines are asked for.
fn lines_in<'w>(listing: Listing, matches: &ArgMatches<'_>) -> Command<'w>
    ensures named { word_of result ≡ words.Lines listing }
    ensures numbered { CommandHasNumber result }
{
    if listing == Listing::Dump && matches.get_flag("as-shown") {
        return Command::Shown(form_in(matches));
    }
    Command::Lines(listing, form_in(matches))
}

/// The command of some words. None where the delimiter is none.
fn command_in<'w>(word: Word, matches: &ArgMatches<'w>) -> Option<Command<'w>>
    ensures named { IfSome result (λ c. word_of c ≡ word) }
    ensures numbered { IfSome result (λ c. CommandHasNumber c) }
{
    Some(match word {
        Word::Lines(listing) => lines_in(listing, matches),
        Word::Check => Command::Check,
        Word::Beside(topic) => Command::Beside(topic, form_in(matches)),
        Word::Props => Command::Props,
        Word::Vba => Command::Vba,
        Word::Macros => Command::Macros(form_in(matches)),
        Word::Csv => Command::Csv(choice_in(matches), table_in(matches)?, sight_in(matches)),
        Word::Remake => Command::Remake,
        Word::Stream => Command::Stream(matches.get_str("NAME")),
        Word::Streams => Command::Streams,
    })
}

/// The files of some words.
fn files_in<'w>(alloc: Global, matches: &ArgMatches<'w>) -> Result<Files<'w>, Refusal> {
    let list = matches.get_str("files-from");
    if list.is_none() && matches.get_flag("null") {
        return Err(Refusal::NoList);
    }
    let names = matches.get_strs("FILE").unwrap_or(&[]);
    match (list, names) {
        (None, []) => Err(Refusal::NoFile),
        (None, names) => Ok(Files::Named(Vec::from_slice(alloc, names)?)),
        (Some(list), []) => Ok(Files::Listed {
            list,
            by_nul: matches.get_flag("null"),
        }),
        (Some(_), _) => Err(Refusal::FilesAndList),
    }
}

/// The page that is asked for.
fn page_in(matches: &ArgMatches<'_>) -> Result<Option<u16>, Refusal>
    ensures { IfOk result (λ page. IfSome page IsPage) }
{
    match matches.get_str("codepage") {
        None => Ok(None),
        Some(text) => match page_of(text) {
            Some(page) => Ok(Some(page)),
            None => Err(Refusal::Page),
        },
    }
}

/// Whether a text is one of the words.
fn is_among(words: &[String], text: &str) -> bool
    ensures { result ≡ is_among text.now (map string_bytes words.now) }
{
    'words: for word in words {
        if word.as_str() == text {
            return true;
        }
    }
    false
}

/// Whether a text ends one of the words.
fn ends_one(words: &[String], text: &str) -> bool
    ensures { result ≡ ends_one text.now (map string_bytes words.now) }
{
    'words: for word in words {
        if word.as_bytes().ends_with(text.as_bytes()) {
            return true;
        }
    }
    false
}

/// The folder into which texts are written, if there is one. What the grammar took of the words is looked for among
/// them: nothing else tells that it stands there.
fn folder_in<'w>(matches: &ArgMatches<'w>, words: &[String]) -> Result<Option<Folder<'w>>, Refusal>
    ensures { IfOk result (λ out. IfSome out (IsNamedFolder (map string_bytes words.now))) }
{
    let takes_all_sheets = matches.get_flag("all");
    let writes_over = matches.get_flag("force");
    let skips_existing = matches.get_flag("skip-existing");
    match matches.get_str("out") {
        Some("") => Err(Refusal::EmptyFolder),
        Some(path) if ends_one(words, path) => Ok(Some(Folder {
            path,
            writes_over: writes_over && is_among(words, "--force"),
            skips_existing,
            takes_all_sheets,
        })),
        None if writes_over || skips_existing => Err(Refusal::NothingWritten),
        None if !takes_all_sheets => Ok(None),
        _ => Err(Refusal::NoFolder),
    }
}

/// The passwords that are tried.
fn passwords_in<'w>(matches: &ArgMatches<'w>) -> Passwords<'w> {
    Passwords {
        given: matches.get_str("password"),
        list: matches.get_str("password-file"),
    }
}

/// What the words ask for that the grammar took.
fn request_taken<'w>(
    alloc: Global,
    word: Word,
    matches: &ArgMatches<'w>,
    words: &[String],
) -> Result<Request<'w>, Refusal>
    ensures named { IfOk result (λ r. word_of r.command ≡ word) }
    ensures numbered { IfOk result (λ r. CommandHasNumber r.command) }
    ensures page { IfOk result (λ r. IfSome r.page IsPage) }
    ensures out { IfOk result (λ r. IfSome r.out (IsNamedFolder (map string_bytes words.now))) }
{
    let Some(command) = command_in(word, matches) else {
        return Err(Refusal::Delimiter);
    };
    let files = files_in(alloc, matches)?;
    Ok(Request {
        command,
        files,
        tells_json: matches.get_flag("json"),
        is_quiet: matches.get_flag("quiet"),
        page: page_in(matches)?,
        out: folder_in(matches, words)?,
        passwords: passwords_in(matches),
    })
}

/// What the words after a command's name ask for.
fn request_in<'w>(alloc: Global, word: Word, words: &'w [String]) -> Result<Request<'w>, Displayed>
    ensures named { IfOk result (λ r. word_of r.command ≡ word) }
    ensures numbered { IfOk result (λ r. CommandHasNumber r.command) }
    ensures page { IfOk result (λ r. IfSome r.page IsPage) }
    ensures out { IfOk result (λ r. IfSome r.out (IsNamedFolder (map string_bytes words.now))) }
{
    let mut grammar = grammar_of(alloc, word.row())?.no_binary_name(true);
    let matches = match grammar.try_get_matches_from_mut(words) {
        Ok(matches) => matches,
        Err(error) => return Err(displayed_of(alloc, &error)),
    };
    match request_taken(alloc, word, &matches, words) {
        Ok(request) => Ok(request),
        Err(refusal) => Err(refused(alloc, &mut grammar, refusal)),
    }
}

/// What a grammar answers to words that ask for help or the version, or to none.
fn answer_of<'w>(alloc: Global, grammar: clap::Command<'w>, words: &'w [&'w str]) -> Displayed {
    match grammar.no_binary_name(true).try_get_matches_from(words) {
        Ok(_) => Displayed::Memory,
        Err(error) => displayed_of(alloc, &error),
    }
}

/// Help of all commands, the version, or that there are no words.
fn help_of(alloc: Global, words: &[&str]) -> Displayed {
    match overview(alloc) {
        Ok(grammar) => answer_of(alloc, grammar, words),
        Err(_) => Displayed::Memory,
    }
}

/// Help of a command.
fn command_help(alloc: Global, word: Word) -> Displayed {
    match grammar_of(alloc, word.row()) {
        Ok(grammar) => answer_of(alloc, grammar, &["--help"]),
        Err(_) => Displayed::Memory,
    }
}

/// Help of the command that the words behind `help` name, or of all.
fn help_for(alloc: Global, words: &[String]) -> Displayed {
    let Some((name, others)) = words.split_first() else {
        return help_of(alloc, &["--help"]);
    };
    match Word::of(name.as_str()) {
        Some(word) if others.is_empty() => command_help(alloc, word),
        _ => mistake(alloc, "error: help is of one command: xls help [COMMAND]"),
    }
}

// What a command's words ask for.
fn request_for<'w>(alloc: Global, word: Word, words: &'w [String]) -> Result<Request<'w>, Displayed>
    ensures named { IfOk result (λ r. word_of r.command ≡ word) }
    ensures numbered { IfOk result (λ r. CommandHasNumber r.command) }
    ensures page { IfOk result (λ r. IfSome r.page IsPage) }
    ensures out { IfOk result (λ r. IfSome r.out (IsNamedFolder (map string_bytes words.now))) }
    ensures plain { are_plain word (map string_bytes words.now) ≡ true
        → MatchResult result (IsPlainRequest word (map string_bytes words.now)) (λ s. s ≡ displayed.Memory) }
{
    if are_plain(word, words) {
        return Ok(plain_request(alloc, word, words)?);
    }
    request_in(alloc, word, words)
}

/// What the words of a command line ask for, which stand behind the program's name. The first may be a command's
/// name; else the command is `dump`. What is shown in place of that is help or the version, or a mistake.
pub fn request_of<'w>(alloc: Global, words: &'w [String]) -> Result<Request<'w>, Displayed>
    ensures named { IfOk result (λ r. IsAsked (map string_bytes words.now) (word_of r.command)) }
    ensures numbered { IfOk result (λ r. CommandHasNumber r.command) }
    ensures page { IfOk result (λ r. IfSome r.page IsPage) }
    ensures out { IfOk result (λ r. IfSome r.out (IsNamedFolder (map string_bytes words.now))) }

    // Files alone are read by the command without options, unless memory runs out.
    ensures plain { (word : Word) (paths : List (List ℕ)) → AreWordsOf word paths (map string_bytes words.now)
        → are_plain word paths ≡ true → MatchResult result (IsPlainRequest word paths) (λ s. s ≡ displayed.Memory) }
{
    let Some((first, others)) = words.split_first() else {
        return Err(help_of(alloc, &[]));
    };
    match first.as_str() {
        "-h" | "--help" => Err(help_of(alloc, &["--help"])),
        "-V" | "--version" | "version" => Err(help_of(alloc, &["--version"])),
        "help" => Err(help_for(alloc, others)),
        name => match Word::of(name) {
            Some(word) => request_for(alloc, word, others),
            None => request_for(alloc, Word::Lines(Listing::Dump), words),
        },
    }
}
