//! The commands, as a table: what each is called, what it does, and what it takes.

ghost use Rattle.std.specs.Prelude.{◌≡◌, true, MatchOption};
ghost use Rattle.xls_words.specs.declared.word.Word.{Word};
ghost use Rattle.xls_words.specs.Words.{ending_text, file_count, takes_many, word_text};

use crate::grammar::{
    Argument, BESIDE_OPTIONS, DUMP_OPTIONS, JSON_FORM, SHEET_OPTIONS, STREAM_OPTIONS, THREE_FORMS,
    TWO_FORMS,
};
use std::alloc::{AllocError, Global};
use strsim::osa_distance;
use xls_beside::Topic;
use xls_readable::Listing;

/// A command by its name.
#[derive(Clone, Copy, Debug, PartialEq, Eq)]
pub enum Word {
    /// Lines of the workbook.
    Lines(Listing),
    Check,
    /// What stands beside its values.
    Beside(Topic),
    Props,
    Vba,
    /// The sources of a macro project.
    Macros,
    Csv,
    Remake,
    Stream,
    Streams,
}

/// All commands, in the order of help.
pub(crate) const ALL: [Word; 17] = [
    Word::Lines(Listing::Dump),
    Word::Lines(Listing::Sheets),
    Word::Check,
    Word::Lines(Listing::Formulas),
    Word::Lines(Listing::Refs),
    Word::Beside(Topic::Hidden),
    Word::Beside(Topic::Books),
    Word::Beside(Topic::Comments),
    Word::Beside(Topic::Links),
    Word::Beside(Topic::Styles),
    Word::Props,
    Word::Vba,
    Word::Macros,
    Word::Csv,
    Word::Remake,
    Word::Stream,
    Word::Streams,
];

/// No text of more bytes is near a command's name.
const LONGEST_NEAR: usize = 16;

/// How many files a command reads.
#[derive(Clone, Copy, Debug, PartialEq, Eq)]
pub(crate) enum FileCount {
    /// Any number, at least one, folders among them.
    Many,
    /// One.
    One,
    /// One, and maybe the path of a stream in it.
    OneAndPath,
}

/// A row of the table of commands.
#[derive(Clone, Copy)]
pub(crate) struct Row {
    pub(crate) name: &'static str,
    /// The command line that help shows.
    pub(crate) title: &'static str,
    /// What help says of it.
    pub(crate) about: &'static str,
    pub(crate) files: FileCount,
    /// The options that it takes beside those of many files, which say the forms of its lines too.
    pub(crate) options: &'static [Argument],
    /// The ending of the files that its texts are written into.
    pub(crate) ending: &'static str,
}

impl Word {
    /// The row of a command.
    pub(crate) fn row(self) -> Row
        ensures name { result.name.now ≡ word_text self }
        ensures files { result.files ≡ file_count self }
        ensures ending { result.ending.now ≡ ending_text self }
    {
        match self {
            Word::Lines(Listing::Dump) => Row {
                name: "dump",
                title: "xls dump",
                about: "What each workbook holds, line by line: sheets, cells, formulas, merged regions, names",
                files: FileCount::Many,
                options: &DUMP_OPTIONS,
                ending: "txt",
            },
            Word::Lines(Listing::Sheets) => Row {
                name: "sheets",
                title: "xls sheets",
                about: "The name, the kind and the visibility of each sheet",
                files: FileCount::Many,
                options: &THREE_FORMS,
                ending: "txt",
            },
            Word::Check => Row {
                name: "check",
                title: "xls check",
                about: "Whether a workbook is whole, or the first thing that is wrong",
                files: FileCount::Many,
                options: &TWO_FORMS,
                ending: "txt",
            },
            Word::Lines(Listing::Formulas) => Row {
                name: "formulas",
                title: "xls formulas",
                about: "The formulas of each sheet",
                files: FileCount::Many,
                options: &TWO_FORMS,
                ending: "txt",
            },
            Word::Lines(Listing::Refs) => Row {
                name: "refs",
                title: "xls refs",
                about: "The cells that each formula cites",
                files: FileCount::Many,
                options: &THREE_FORMS,
                ending: "txt",
            },
            Word::Beside(Topic::Hidden) => Row {
                name: "hidden",
                title: "xls hidden",
                about: "Rows and columns that can't be seen, frozen panes, zeros that aren't shown",
                files: FileCount::Many,
                options: &BESIDE_OPTIONS,
                ending: "txt",
            },
            Word::Beside(Topic::Books) => Row {
                name: "books",
                title: "xls books",
                about: "The other workbooks that a workbook refers to, and the formulas that cite them",
                files: FileCount::Many,
                options: &BESIDE_OPTIONS,
                ending: "txt",
            },
            Word::Beside(Topic::Comments) => Row {
                name: "comments",
                title: "xls comments",
                about: "The comments of each sheet's cells",
                files: FileCount::Many,
                options: &BESIDE_OPTIONS,
                ending: "txt",
            },
            Word::Beside(Topic::Links) => Row {
                name: "links",
                title: "xls links",
                about: "The hyperlinks of each sheet",
                files: FileCount::Many,
                options: &BESIDE_OPTIONS,
                ending: "txt",
            },
            Word::Beside(Topic::Styles) => Row {
                name: "styles",
                title: "xls styles",
                about: "How each cell looks: font, number format, fill, alignment, borders",
                files: FileCount::Many,
                options: &BESIDE_OPTIONS,
                ending: "txt",
            },
            Word::Props => Row {
                name: "props",
                title: "xls props",
                about: "Title, author, dates and custom properties",
                files: FileCount::Many,
                options: &[],
                ending: "txt",
            },
            Word::Vba => Row {
                name: "vba",
                title: "xls vba",
                about: "What a macro project refers to, and its modules",
                files: FileCount::Many,
                options: &[],
                ending: "txt",
            },
            Word::Macros => Row {
                name: "macros",
                title: "xls macros",
                about: "The sources of a macro project, module by module",
                files: FileCount::Many,
                options: &JSON_FORM,
                ending: "txt",
            },
            Word::Csv => Row {
                name: "csv",
                title: "xls csv",
                about: "A sheet as CSV: the first worksheet, unless one is chosen",
                files: FileCount::Many,
                options: &SHEET_OPTIONS,
                ending: "csv",
            },
            Word::Remake => Row {
                name: "remake",
                title: "xls remake",
                about: "The workbook's stream once more in its canonical form",
                files: FileCount::One,
                options: &STREAM_OPTIONS,
                ending: "txt",
            },
            Word::Stream => Row {
                name: "stream",
                title: "xls stream",
                about: "The bytes of a stream: the workbook's, unless a path is given",
                files: FileCount::OneAndPath,
                options: &STREAM_OPTIONS,
                ending: "txt",
            },
            Word::Streams => Row {
                name: "streams",
                title: "xls streams",
                about: "The size and the path of each stream of a file",
                files: FileCount::One,
                options: &[],
                ending: "txt",
            },
        }
    }

    /// The command of this name.
    pub fn of(name: &str) -> Option<Word>
        ensures { MatchOption result ((w : Word) → word_text w ≡ name.now → ⊥) (λ w. word_text w ≡ name.now) }
    {
        match name {
            "dump" => Some(Word::Lines(Listing::Dump)),
            "sheets" => Some(Word::Lines(Listing::Sheets)),
            "check" => Some(Word::Check),
            "formulas" => Some(Word::Lines(Listing::Formulas)),
            "refs" => Some(Word::Lines(Listing::Refs)),
            "hidden" => Some(Word::Beside(Topic::Hidden)),
            "books" => Some(Word::Beside(Topic::Books)),
            "comments" => Some(Word::Beside(Topic::Comments)),
            "links" => Some(Word::Beside(Topic::Links)),
            "styles" => Some(Word::Beside(Topic::Styles)),
            "props" => Some(Word::Props),
            "vba" => Some(Word::Vba),
            "macros" => Some(Word::Macros),
            "csv" => Some(Word::Csv),
            "remake" => Some(Word::Remake),
            "stream" => Some(Word::Stream),
            "streams" => Some(Word::Streams),
            _ => None,
        }
    }

    /// The command whose name a text nearly is: at most one letter is missing, is too many or another one, or has
    /// changed places with the next.
    pub fn near(alloc: Global, text: &str) -> Result<Option<Word>, AllocError> {
        if text.len() > LONGEST_NEAR {
            return Ok(None);
        }
        for word in ALL {
            if osa_distance(alloc, word.name(), text)? <= 1 {
                return Ok(Some(word));
            }
        }
        Ok(None)
    }

    /// Its name.
    pub fn name(self) -> &'static str
        ensures { result.now ≡ word_text self }
    {
        self.row().name
    }

    /// Whether it reads any number of files.
    pub fn takes_many(self) -> bool
        ensures { result ≡ takes_many self }
    {
        self.row().files == FileCount::Many
    }
}
