//! What a reference to sheets names: what stands before its `!`, and what it cites.

ghost use Rattle.std.specs.Prelude.{◌≡◌, ◌++◌, ◌∷◌, [], OnOk};
ghost use Rattle.std.specs.Str.{chars};
ghost use Rattle.xls_strings.specs.Texts.{text_of};
ghost use Rattle.xls_formula_names.specs.Prefixes.{named, sheets_text};
ghost use Rattle.xls_formula_books.specs.Places as specs;
ghost use Rattle.xls_formula_books.specs.Places.{place_view};

use crate::texts::{push_gone, push_text};
use std::alloc::AllocError;
use xls_formula_names::{Sheets, push_book, push_file, push_link, push_sheets};

/// What a reference to sheets names.
#[derive(Clone, Copy, Debug)]
pub enum SheetPlace<'a> {
    /// Sheets of this workbook.
    Here(Sheets<'a>),
    /// Sheets of another workbook: its folder, with its last separator, and its file.
    Book(&'a str, &'a str, Sheets<'a>),
    /// Another workbook alone, likewise.
    File(&'a str, &'a str),
    /// A program and its topic.
    Link(&'a str, &'a str),
}

/// Whether sheets are there.
fn are_there(sheets: Sheets<'_>) -> bool
    ensures { result ≡ specs.are_there (named sheets.entry) }
{
    !matches!(sheets, Sheets::Gone)
}

/// Appends a colon.
#[tactic(auto, unfolding(std::specs::Prelude::chars))]
fn push_colon(out: &mut String) -> Result<(), AllocError>
    ensures { OnOk result (text_of out.new ≡ text_of out.old ++ 0x3A ∷ []) }
{
    push_text(":", out)
}

/// Appends the names of sheets without apostrophes.
fn push_plain(sheets: Sheets<'_>, out: &mut String) -> Result<(), AllocError>
    ensures { OnOk result (text_of out.new ≡ text_of out.old ++ sheets_text (named sheets.entry)) }
{
    match sheets {
        Sheets::Gone => push_gone(out),
        Sheets::One(name) => push_text(name, out),
        Sheets::Range(first, last) => {
            push_text(first, out)?;
            push_colon(out)?;
            push_text(last, out)
        }
    }
}

/// Appends an opening bracket.
#[tactic(auto, unfolding(std::specs::Prelude::chars))]
fn push_opening(out: &mut String) -> Result<(), AllocError>
    ensures { OnOk result (text_of out.new ≡ text_of out.old ++ 0x5B ∷ []) }
{
    push_text("[", out)
}

/// Appends a closing bracket.
#[tactic(auto, unfolding(std::specs::Prelude::chars))]
fn push_closing(out: &mut String) -> Result<(), AllocError>
    ensures { OnOk result (text_of out.new ≡ text_of out.old ++ 0x5D ∷ []) }
{
    push_text("]", out)
}

/// Appends a file in brackets behind its folder.
fn push_bracketed(dir: &str, file: &str, out: &mut String) -> Result<(), AllocError>
    ensures { OnOk result (text_of out.new ≡ text_of out.old ++ specs.bracketed (chars dir.now) (chars file.now)) }
{
    push_text(dir, out)?;
    push_opening(out)?;
    push_text(file, out)?;
    push_closing(out)
}

impl<'a> SheetPlace<'a> {
    /// Appends what stands before the `!`: `Sheet`, `First:Last`, `DIR[FILE]Sheet`, `APP|TOPIC`, between apostrophes where needed, or
    /// `#REF`. Only running out of memory refuses.
    pub fn append(&self, out: &mut String) -> Result<(), AllocError>
        ensures { OnOk result (text_of out.new ≡ text_of out.old ++ specs.place_prefix (place_view self.now)) }
    {
        match *self {
            SheetPlace::Here(sheets) => push_sheets(sheets, out),
            SheetPlace::Book(dir, file, sheets) => push_book(dir, file, sheets, out),
            SheetPlace::File(dir, file) => push_file(dir, file, out),
            SheetPlace::Link(app, topic) => push_link(app, topic, out),
        }
    }

    /// Whether cells on it are cited: only on sheets that are there. Takes no memory.
    pub fn is_cited(&self) -> bool
        ensures { result ≡ specs.is_cited (place_view self.now) }
    {
        match *self {
            SheetPlace::Here(sheets) => are_there(sheets),
            SheetPlace::Book(_, _, sheets) => are_there(sheets),
            SheetPlace::File(_, _) | SheetPlace::Link(_, _) => false,
        }
    }

    /// Appends the sheets that are cited, without apostrophes: `Sheet`, `First:Last`, `DIR[FILE]Sheet`; nothing where none are. Where
    /// memory runs out, which alone refuses, a part may be left.
    pub fn append_cited(&self, out: &mut String) -> Result<(), AllocError>
        ensures { OnOk result (text_of out.new ≡ text_of out.old ++ specs.cited_text (place_view self.now)) }
    {
        if !self.is_cited() {
            return Ok(());
        }
        match *self {
            SheetPlace::Here(sheets) => push_plain(sheets, out),
            SheetPlace::Book(dir, file, sheets) => {
                push_bracketed(dir, file, out)?;
                push_plain(sheets, out)
            }
            SheetPlace::File(_, _) | SheetPlace::Link(_, _) => Ok(()),
        }
    }
}
