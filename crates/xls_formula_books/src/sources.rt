//! What a SupBook, or before BIFF8 an ExternSheet, refers to.

ghost use Rattle.std.specs.Prelude.{◌≡◌};
ghost use Rattle.xls_strings.specs.Texts.{text_of};
ghost use Rattle.xls_formula_books.specs.Sources as specs;
ghost use Rattle.xls_formula_books.specs.Sources.{source_view};

use crate::extern_names::ExternName;
use crate::texts::no_text;
use std::alloc::Global;

/// The kind of what is referred to.
#[derive(Clone, Copy, Debug, PartialEq, Eq)]
pub enum Kind {
    /// This workbook, whose sheets are told by their numbers; before BIFF8 its names alone.
    This,
    /// Before BIFF8 the sheet in which the formula stands.
    Own,
    /// Before BIFF8 a sheet of this workbook, by its name.
    Sheet,
    /// Added functions.
    Functions,
    /// Another program, with a topic.
    Program,
    /// Another workbook.
    Workbook,
    /// What couldn't be read.
    Nothing,
}

/// What is referred to. Texts and lists that its kind doesn't speak of are empty.
#[derive(Drop)]
pub struct Source {
    pub kind: Kind,
    /// The folder of another workbook, with its last separator.
    pub dir: String,
    /// The file of another workbook.
    pub file: String,
    /// The program.
    pub app: String,
    /// The topic of the program.
    pub topic: String,
    /// The sheets of another workbook, before BIFF8 the one of the reference, if it has one; or the sheet of this workbook.
    pub sheets: Vec<String>,
    /// Its names, in the order of their ExternName records.
    pub names: Vec<ExternName>,
}

/// One of a kind that has no text.
pub(crate) fn bare(alloc: Global, kind: Kind) -> Source
    ensures { source_view result ≡ specs.bare kind }
{
    Source {
        kind,
        dir: no_text(alloc),
        file: no_text(alloc),
        app: no_text(alloc),
        topic: no_text(alloc),
        sheets: Vec::new(alloc),
        names: Vec::new(alloc),
    }
}

/// A program and its topic.
pub(crate) fn program(alloc: Global, app: String, topic: String) -> Source
    ensures { source_view result ≡ specs.program (text_of app) (text_of topic) }
{
    Source {
        kind: Kind::Program,
        dir: no_text(alloc),
        file: no_text(alloc),
        app,
        topic,
        sheets: Vec::new(alloc),
        names: Vec::new(alloc),
    }
}

/// Another workbook by its folder and file.
pub(crate) fn workbook(alloc: Global, dir: String, file: String) -> Source
    ensures { source_view result ≡ specs.workbook (text_of dir) (text_of file) }
{
    Source {
        kind: Kind::Workbook,
        dir,
        file,
        app: no_text(alloc),
        topic: no_text(alloc),
        sheets: Vec::new(alloc),
        names: Vec::new(alloc),
    }
}
