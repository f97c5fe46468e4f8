//! Words without options, which are read without `clap`.

ghost use Rattle.std.specs.Prelude.{◌≡◌, IfOk, map};
ghost use Rattle.std.specs.String.{string_bytes};
ghost use Rattle.xls_words.specs.Requests.{CommandHasNumber, IsPlainRequest, are_plain, is_option, plain_command, takes, word_of};

use crate::request::{Command, Files, Passwords, Request};
use crate::word::{FileCount, Word};
use std::alloc::{AllocError, Global};
use xls_hidden_cells::Sight;
use xls_readable::{Delimiter, FieldStyle, Form, Origin, SheetChoice, Table};

// A `-` with something after it.
fn is_option(word: &str) -> bool
    ensures { result ≡ is_option word.now }
{
    let bytes = word.as_bytes();
    bytes.len() > 1 && bytes[0] == b'-'
}

// Whether a command reads so many files. Behind one a path may stand, which is no file.
fn takes(word: Word, count: usize) -> bool
    ensures { result ≡ takes word count }
{
    match word.row().files {
        FileCount::Many => count > 0,
        FileCount::One => count == 1,
        FileCount::OneAndPath => false,
    }
}

/// Whether these words name files alone, and as many as the command takes.
pub(crate) fn are_plain(word: Word, words: &[String]) -> bool
    ensures { result ≡ are_plain word (map string_bytes words.now) }
{
    'words: for text in words {
        if is_option(text.as_str()) {
            return false;
        }
    }
    takes(word, words.len())
}

// A command without options.
fn plain_command<'w>(word: Word) -> Command<'w>
    ensures command { result ≡ plain_command word }
    ensures named { word_of result ≡ word }
    ensures numbered { CommandHasNumber result }
{
    match word {
        Word::Lines(listing) => Command::Lines(listing, Form::Text),
        Word::Check => Command::Check,
        Word::Beside(topic) => Command::Beside(topic, Form::Text),
        Word::Props => Command::Props,
        Word::Vba => Command::Vba,
        Word::Macros => Command::Macros(Form::Text),
        Word::Csv => Command::Csv(
            SheetChoice::First,
            Table {
                delimiter: Delimiter::comma(),
                begins_with_mark: false,
                is_exact: false,
                style: FieldStyle::Values,
                origin: Origin::Box,
            },
            Sight::All,
        ),
        Word::Remake => Command::Remake,
        Word::Stream => Command::Stream(None),
        Word::Streams => Command::Streams,
    }
}

// The words as names of files.
fn names_in<'w>(alloc: Global, words: &'w [String]) -> Result<Vec<&'w str>, AllocError>
    ensures { IfOk result (λ names. map (λ name. name.now) names.items ≡ map string_bytes words.now) }
{
    let mut names = Vec::new(alloc);
    'words: for text in words {
        names.push(text.as_str())?;
    }
    Ok(names)
}

/// What a command without options asks for, of these files.
pub(crate) fn plain_request<'w>(
    alloc: Global,
    word: Word,
    words: &'w [String],
) -> Result<Request<'w>, AllocError>
    ensures plain { IfOk result (IsPlainRequest word (map string_bytes words.now)) }
    ensures named { IfOk result (λ r. word_of r.command ≡ word) }
    ensures numbered { IfOk result (λ r. CommandHasNumber r.command) }
{
    Ok(Request {
        command: plain_command(word),
        files: Files::Named(names_in(alloc, words)?),
        tells_json: false,
        is_quiet: false,
        page: None,
        out: None,
        passwords: Passwords {
            given: None,
            list: None,
        },
    })
}
