//! What every opened workbook tells.

ghost use Rattle.std.specs.Prelude.{◌≡◌, ◌≤◌, ℕ, List, Option, Some, None, Result, IfOk, IfErr, IfSome, MatchOption, map, length, slice_get};
ghost use Rattle.xls_data.specs.Data.{is_nothing};
ghost use Rattle.std.specs.Option.{option_map};
ghost use Rattle.std.specs.Str.{chars};
ghost use Rattle.xls_data.specs.Sheets.{SheetContent, sheet_content};
ghost use Rattle.xls_data.specs.declared.regions.HeaderRow.TheVariants.{FirstNonEmptyRow};
ghost use Rattle.xls_strings.specs.Texts.{text_of};
ghost use Rattle.xls_record.specs.declared.error.XlsError.TheVariants.{Memory};
ghost use Rattle.xls_meaning.specs.Reading.{SheetView};
ghost use Rattle.xls_open.specs.Workbook.{Workbook, name_texts, view_named};
ghost use Rattle.xls_book.specs.LookUps.{AreWorksheets, IsRangeOf, IsTextBox, NameCause, is_empty_text, sheet_names_in, under_header};
ghost use Rattle.xls_record.specs.SourceState.{SourceState};
ghost use Rattle.xls_open.specs.Opening.{Opens, default_options};

use crate::ranges::{range_of, text_box_of};
use crate::xls::{Metadata, Xls, not_found};
use std::alloc::{AllocError, Global};
use xls_biff::XlsError;
use xls_data::{Data, HeaderRow, Sheet};
use xls_open::XlsOptions;
use xls_range::Range;
use xls_record::Source;

/// A workbook that was opened from a stream.
pub trait Reader: Sized {
    /// Why a stream is refused, or a look-up.
    type Error;

    /// What a workbook shows.
    ghost shows: { Self → Workbook };

    /// Why a look-up by a name is refused, where this is shown of the name.
    ghost refuses: { Option SheetView → List ℕ → Self.Error → Type 0 };

    /// That memory ran out.
    ghost runs_out: { Self.Error → Type 0 };

    /// What opening answers, by the states of the source before and after it.
    ghost opens: { SourceState → SourceState → Result Self Self.Error → Type 0 };

    /// Reads the source to its end and opens its bytes, with the options by default.
    fn new<S: Source>(alloc: Global, source: &mut S) -> Result<Self, Self::Error>
        ensures { opens (S.state source.old) (S.state source.new) result };

    /// Sets the first row of the ranges. Takes no memory.
    fn with_header_row(&mut self, header_row: HeaderRow) -> &mut Self
        ensures same { result.ghost_name ≡ self.entry.ghost_name }
        ensures value { shows result.now ≡ under_header (shows self.entry.now) header_row };

    /// What is told of the whole workbook. Takes no memory.
    fn metadata(&self) -> &Metadata
        ensures sheets { map sheet_content result.now.sheets.items ≡ (shows self.now).sheets }
        ensures names { map name_texts result.now.names.items ≡ (shows self.now).names };

    /// Name, kind and visibility of each sheet, in workbook order. Takes no memory.
    fn sheets_metadata(&self) -> &[Sheet]
        ensures { map sheet_content result.now ≡ (shows self.now).sheets };

    /// The defined names and their texts, in workbook order. Takes no memory.
    fn defined_names(&self) -> &[(String, String)]
        ensures { map name_texts result.now ≡ (shows self.now).names };

    /// The names of the sheets, in workbook order.
    fn sheet_names(&self, alloc: Global) -> Result<Vec<String>, Self::Error>
        ensures names { IfOk result (λ names. map text_of names.items ≡ sheet_names_in (shows self.now)) }
        ensures refused { IfErr result runs_out };

    /// The range of the last sheet of a name, from the header row on: the smallest box with its cells,
    /// blanks elsewhere. It is refused exactly where no sheet has the name, or where memory runs out.
    fn worksheet_range(&self, alloc: Global, name: &str) -> Result<Range<Data>, Self::Error>
        ensures range { IfOk result (λ range. (view : SheetView)
            × (view_named (shows self.now) (chars name.now) ≡ Some view)
            × IsRangeOf ⟦<Data as PartialEq>⟧.eq is_nothing (shows self.now).options.header_row view.cells range) }
        ensures refused { IfErr result (refuses (view_named (shows self.now) (chars name.now)) name.now) };

    /// Each name once, in the order of its bytes, with the smallest box of the cells of its last sheet;
    /// the header row is ignored.
    fn worksheets(&self, alloc: Global) -> Result<Vec<(String, Range<Data>)>, Self::Error>
        ensures ranges { IfOk result (λ list.
            AreWorksheets ⟦<Data as PartialEq>⟧.eq is_nothing (view_named (shows self.now)) (shows self.now).sheets list.items) }
        ensures refused { IfErr result runs_out };

    /// The range of the formula texts of the last sheet of a name: the smallest box with all of them,
    /// the empty ones too, and empty texts elsewhere. The header row is ignored. It is refused exactly
    /// where no sheet has the name, or where memory runs out.
    fn worksheet_formula(&self, alloc: Global, name: &str) -> Result<Range<String>, Self::Error>
        ensures range { IfOk result (λ range. (view : SheetView)
            × (view_named (shows self.now) (chars name.now) ≡ Some view)
            × IsTextBox ⟦<String as PartialEq>⟧.eq is_empty_text view.formulas range) }
        ensures refused { IfErr result (refuses (view_named (shows self.now) (chars name.now)) name.now) };

    /// The range of the name of the sheet at an index. `None` exactly where no sheet has the index.
    fn worksheet_range_at(
        &self,
        alloc: Global,
        n: usize,
    ) -> Option<Result<Range<Data>, Self::Error>>
        ensures { MatchOption result (length (shows self.now).contents ≤ n) (λ answer.
            (view : SheetView) × (slice_get (shows self.now).contents n ≡ Some view)
            × IfOk answer (IsRangeOf ⟦<Data as PartialEq>⟧.eq is_nothing (shows self.now).options.header_row view.cells)
            × IfErr answer runs_out) };
}

/// Opens a workbook by `Reader::new`, whose relation it promises.
pub fn open_workbook_from_rs<R: Reader, S: Source>(
    alloc: Global,
    source: &mut S,
) -> Result<R, R::Error>
    ensures { R.opens (S.state source.old) (S.state source.new) result }
{
    R::new(alloc, source)
}

/// The names of these sheets.
fn names_of(alloc: Global, sheets: &[Sheet]) -> Result<Vec<String>, AllocError>
    ensures { IfOk result (λ names. map text_of names.items ≡ map (λ (s : SheetContent). s.name) (map sheet_content sheets.now)) }
{
    let mut names = Vec::new(alloc);
    for sheet in sheets {
        let name = String::from_str(alloc, sheet.name.as_str())?;
        names.push(name)?;
    }
    Ok(names)
}

impl Reader for Xls {
    type Error = XlsError;

    ghost shows = { λ book. book };

    ghost refuses = { NameCause };

    ghost runs_out = { λ e. e ≡ Memory };

    ghost opens = { Opens default_options };

    fn new<S: Source>(alloc: Global, source: &mut S) -> Result<Self, XlsError> {
        let options = XlsOptions::defaults(alloc)?;
        Xls::new_with_options(alloc, source, options)
    }

    fn with_header_row(&mut self, header_row: HeaderRow) -> &mut Self {
        self.set_header_row(header_row);
        self
    }

    fn metadata(&self) -> &Metadata {
        self.reported()
    }

    fn sheets_metadata(&self) -> &[Sheet] {
        self.sheets()
    }

    fn defined_names(&self) -> &[(String, String)] {
        self.names()
    }

    fn sheet_names(&self, alloc: Global) -> Result<Vec<String>, XlsError> {
        Ok(names_of(alloc, self.sheets())?)
    }

    /// `WorksheetNotFound` exactly where no sheet has the name, `Memory`.
    fn worksheet_range(&self, alloc: Global, name: &str) -> Result<Range<Data>, XlsError> {
        match self.content_named(name) {
            Some(content) => Ok(range_of(alloc, content, self.options().header_row)?),
            None => Err(not_found(alloc, name)),
        }
    }

    /// Answers `Memory` alone.
    fn worksheets(&self, alloc: Global) -> Result<Vec<(String, Range<Data>)>, XlsError> {
        Ok(self.named_boxes(alloc)?)
    }

    /// `WorksheetNotFound` exactly where no sheet has the name, `Memory`.
    fn worksheet_formula(&self, alloc: Global, name: &str) -> Result<Range<String>, XlsError> {
        match self.content_named(name) {
            Some(content) => Ok(text_box_of(alloc, content)?),
            None => Err(not_found(alloc, name)),
        }
    }

    /// Never `WorksheetNotFound`.
    fn worksheet_range_at(&self, alloc: Global, n: usize) -> Option<Result<Range<Data>, XlsError>> {
        match self.content_at(n) {
            Some(content) => Some(range_of(alloc, content, self.options().header_row).map_err(
                |_| XlsError::Memory,
            )),
            None => None,
        }
    }
}
