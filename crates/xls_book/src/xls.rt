//! The workbook.

ghost use Rattle.std.specs.Prelude.{◌≡◌, ◌+◌, ◌≤◌, ℕ, List, [], Some, None, IfErr, IfOk, OnOk, IfSome, MatchOption, length, map, slice_get};
ghost use Rattle.std.specs.Option.{option_copied, option_map};
ghost use Rattle.std.specs.Str.{chars};
ghost use Rattle.xls_data.specs.Data.{is_nothing};
ghost use Rattle.xls_data.specs.Sheets.{SheetContent, sheet_content};
ghost use Rattle.xls_range.specs.Positions.{IsAscending};
ghost use Rattle.xls_biff.specs.Cells.{CellEntry};
ghost use Rattle.xls_props.specs.Properties.{IsProperties};
ghost use Rattle.xls_open.specs.Opening.{Opens};
ghost use Rattle.xls_meaning.specs.Reading.{SheetView};
ghost use Rattle.xls_book.specs.LookUps.{AreWorksheets, GivesMerges, NameCause, out_of_range, under_header};
ghost use Rattle.xls_open.specs.Workbook.{IsOrdered, name_texts, view_named};
ghost use Rattle.xls_meaning.specs.SheetTable.{nonempty_formulas};
ghost use Rattle.xls_book.specs.Steps.{OpensBytes};
ghost use Rattle.xls_record.specs.Bounded.{AnswersAtEnd};

use crate::collect::{Content, contents_of};
use crate::formulas::Formulas;
use crate::ranges::list_worksheets;
use crate::values::Values;
use std::alloc::{AllocError, Global};
use std::collections::BTreeMap;
use std::marker::Model;
use xls_biff::XlsError;
use xls_data::{CellFormat, Data, Dimensions, HeaderRow, Sheet};
use xls_formula::NumberStyle;
use xls_open::XlsOptions;
use xls_props::{WorkbookProperties, workbook_properties_of};
use xls_range::Range;
use xls_record::{Source, StreamBytes, read_all};
use xls_view::{View, ViewParts, find_named};

/// What is told of a whole workbook.
#[derive(Drop)]
pub struct Metadata {
    /// The sheets in workbook order.
    pub sheets: Vec<Sheet>,
    /// The defined names and their texts in workbook order.
    pub names: Vec<(String, String)>,
}

/// A workbook: its sheets in order, and the values of each. Contracts see what it shows.
#[derive(Drop)]
pub struct Xls {
    options: XlsOptions,
    metadata: Metadata,
    /// What each index shows.
    contents: Vec<Content>,
    /// The place of the last sheet of each name.
    index: BTreeMap<String, usize>,
    is_1904: bool,
    /// The class of each XF.
    classes: Vec<CellFormat>,
}

impl Model for Xls {
    ghost use Rattle.std.specs.Prelude.{◌≡◌, length, map};
    ghost use Rattle.xls_data.specs.Sheets.{sheet_content};
    ghost use Rattle.xls_open.specs.Workbook.{Workbook, name_texts, IsOrdered};
    ghost use Rattle.std.specs.List.{AllByRecursion};
    ghost use Rattle.xls_view.specs.Index.{IsIndex};

    ghost Value = { Workbook };

    ghost view = { λ b. record {
      options = b.options;
      sheets = map sheet_content b.metadata.sheets.items;
      names = map name_texts b.metadata.names.items;
      contents = b.contents.items;
      is_1904 = b.is_1904;
      classes = b.classes.items;
    } };

    ghost invariant = { λ b. (length b.contents.items ≡ length b.metadata.sheets.items)
        × IsIndex b.index b.metadata.sheets.items × AllByRecursion IsOrdered b.contents.items };
}

/// The workbook of bytes within the limit, or their first fault.
fn open_bytes(alloc: Global, bytes: &[u8], options: XlsOptions) -> Result<Xls, XlsError>
    ensures { OpensBytes options bytes.now result }
{
    let view = View::new(alloc, bytes, &options, NumberStyle::Bits)?;
    let contents = contents_of(alloc, &view)?;
    let ViewParts {
        sheets,
        names,
        index,
        is_1904,
        classes,
    } = view.into_parts();
    Ok(Xls {
        options,
        metadata: Metadata { sheets, names },
        contents,
        index,
        is_1904,
        classes,
    })
}

/// A copy of some regions.
fn copy_of(alloc: Global, regions: &[Dimensions]) -> Result<Vec<Dimensions>, AllocError>
    ensures { IfOk result (λ copy. copy.items ≡ regions.now) }
{
    let mut copy = Vec::new(alloc);
    copy.extend_from_slice(regions)?;
    Ok(copy)
}

/// The bytes of a stream that may be missing.
fn slice_of(stream: &Option<StreamBytes>) -> Option<&[u8]>
    ensures { option_copied result ≡ stream.now }
{
    match stream {
        Some(bytes) => Some(bytes.as_slice()),
        None => None,
    }
}

/// That no sheet has a name.
pub(crate) fn not_found(alloc: Global, name: &str) -> XlsError
    ensures { NameCause None name.now result }
{
    match String::from_str(alloc, name) {
        Ok(name) => XlsError::WorksheetNotFound(name),
        Err(_) => XlsError::Memory,
    }
}

/// That no sheet has an index.
fn no_index(alloc: Global, id: usize) -> XlsError
    ensures { NameCause None (out_of_range id) result }
{
    match format!(in alloc; "Sheet index {id} out of range") {
        Ok(text) => XlsError::WorksheetNotFound(text),
        Err(_) => XlsError::Memory,
    }
}

impl Xls {
    /// Reads the source to its end, and opens its bytes.
    ///
    /// `Io` where a read fails, `TooLarge` for more than `max_bytes` bytes, `Memory`, and else the
    /// first fault of the bytes in reading order.
    pub fn new_with_options<S: Source>(
        alloc: Global,
        source: &mut S,
        options: XlsOptions,
    ) -> Result<Xls, XlsError>
        ensures opens { Opens options (S.state source.old) (S.state source.new) result }

        // Another answer than `Io`, `TooLarge` and `Memory` comes only at the end of the source.
        ensures ended { AnswersAtEnd options.max_bytes (S.ended source.new) result }
    {
        let bytes = read_all(alloc, source, options.max_bytes)?;
        open_bytes(alloc, bytes.as_slice(), options)
    }

    /// The values of the sheet at an index, which are those of the last sheet of its name. `None`
    /// where no sheet has the index. Takes no memory.
    pub fn values_at(&self, n: usize) -> Option<Values<'_>>
        ensures { result ≡ option_map (λ (v : SheetView). v.cells) (slice_get self.now.contents n) }
    {
        match self.content_at(n) {
            Some(content) => Some(Values::new(&content.cells)),
            None => None,
        }
    }

    /// The values of the last sheet of a name, by row, then column. `None` where no sheet has the name.
    /// Takes no memory.
    pub fn values_named(&self, name: &str) -> Option<Values<'_>>
        ensures found { result ≡ option_map (λ (v : SheetView). v.cells) (view_named self.now (chars name.now)) }
        ensures ordered { IfSome result (λ cells. IsAscending (map (λ (c : CellEntry). c.0) cells)) }
    {
        match self.content_named(name) {
            Some(content) => Some(Values::new(&content.cells)),
            None => None,
        }
    }

    /// The formulas of the sheet at an index whose text isn't empty; they are those of the last sheet of
    /// its name. A formula that is refused has a text that says why. `None` where no sheet has the
    /// index. Takes no memory.
    pub fn formulas_at(&self, n: usize) -> Option<Formulas<'_>>
        ensures { result ≡ option_map (λ (v : SheetView). nonempty_formulas v.formulas) (slice_get self.now.contents n) }
    {
        match self.content_at(n) {
            Some(content) => Some(Formulas::new(&content.formulas)),
            None => None,
        }
    }

    /// The merged regions of the sheet at an index, in the order of the stream; they are those of the
    /// last sheet of its name. `None` where no sheet has the index. Takes no memory.
    pub fn merges_at(&self, n: usize) -> Option<&[Dimensions]>
        ensures { option_copied result ≡ option_map (λ (v : SheetView). v.merges) (slice_get self.now.contents n) }
    {
        match self.content_at(n) {
            Some(content) => Some(&content.merges),
            None => None,
        }
    }

    /// The merged regions of the last sheet of a name, in the order of the stream. `None` where no
    /// sheet has the name.
    pub fn worksheet_merge_cells(
        &self,
        alloc: Global,
        name: &str,
    ) -> Result<Option<Vec<Dimensions>>, AllocError>
        ensures { IfOk result (GivesMerges (view_named self.now (chars name.now))) }
    {
        match self.content_named(name) {
            Some(content) => Ok(Some(copy_of(alloc, &content.merges)?)),
            None => Ok(None),
        }
    }

    /// The merged regions of the sheet at an index, in the order of the stream. `None` where no sheet
    /// has the index.
    pub fn worksheet_merge_cells_at(
        &self,
        alloc: Global,
        n: usize,
    ) -> Result<Option<Vec<Dimensions>>, AllocError>
        ensures { IfOk result (GivesMerges (slice_get self.now.contents n)) }
    {
        match self.content_at(n) {
            Some(content) => Ok(Some(copy_of(alloc, &content.merges)?)),
            None => Ok(None),
        }
    }

    /// The merged regions of the last sheet of a name, in the order of the stream.
    /// `WorksheetNotFound` exactly where no sheet has the name, `Memory`.
    pub fn merge_cells_by_sheet_name(
        &self,
        alloc: Global,
        name: &str,
    ) -> Result<Vec<Dimensions>, XlsError>
        ensures ok { IfOk result (λ regions. GivesMerges (view_named self.now (chars name.now)) (Some regions)) }
        ensures refused { IfErr result (NameCause (view_named self.now (chars name.now)) name.now) }
    {
        match self.content_named(name) {
            Some(content) => Ok(copy_of(alloc, &content.merges)?),
            None => Err(not_found(alloc, name)),
        }
    }

    /// The merged regions of the sheet at an index, in the order of the stream. `WorksheetNotFound`
    /// of `Sheet index {id} out of range` exactly where no sheet has the index, `Memory`.
    pub fn merge_cells_by_sheet_id(
        &self,
        alloc: Global,
        id: usize,
    ) -> Result<Vec<Dimensions>, XlsError>
        ensures ok { IfOk result (λ regions. GivesMerges (slice_get self.now.contents id) (Some regions)) }
        ensures refused { IfErr result (NameCause (slice_get self.now.contents id) (out_of_range id)) }
    {
        match self.content_at(id) {
            Some(content) => Ok(copy_of(alloc, &content.merges)?),
            None => Err(no_index(alloc, id)),
        }
    }

    /// Whether dates count from 1904.
    pub fn has_1904_epoch(&self) -> bool
        ensures { result ≡ self.now.is_1904 }
    {
        self.is_1904
    }

    /// The format class of each XF record, in order.
    pub fn formats(&self) -> &[CellFormat]
        ensures { result.now ≡ self.now.classes }
    {
        &self.classes
    }

    /// The properties of the workbook, by the property streams of the options. Answers `Memory` alone.
    pub fn workbook_properties(&self, alloc: Global) -> Result<WorkbookProperties, XlsError>
        ensures ok { IfOk result (IsProperties self.now.options.summary self.now.options.document_summary) }
        ensures refused { IfErr result (λ e. e ≡ XlsError.Memory) }
    {
        let summary = slice_of(&self.options.summary);
        let document = slice_of(&self.options.document_summary);
        Ok(workbook_properties_of(alloc, summary, document)?)
    }

    /// The options that the workbook was opened with, the header row as last set.
    pub fn options(&self) -> &XlsOptions
        ensures { result.now ≡ self.now.options }
    {
        &self.options
    }

    /// Each name once, in byte order, with the box of the cells of its last sheet.
    pub(crate) fn named_boxes(
        &self,
        alloc: Global,
    ) -> Result<Vec<(String, Range<Data>)>, AllocError>
        ensures { IfOk result (λ list. AreWorksheets ⟦<Data as PartialEq>⟧.eq is_nothing (view_named self.now) self.now.sheets list.items) }
    {
        list_worksheets(alloc, &self.metadata.sheets, &self.contents, &self.index)
    }

    /// The content of the last sheet of a name, if a sheet has it.
    pub(crate) fn content_named(&self, name: &str) -> Option<&Content>
        ensures found { option_copied result ≡ view_named self.now (chars name.now) }
        ensures ordered { IfSome result (λ content. IsOrdered content.now) }
    {
        find_named(&self.metadata.sheets, &self.contents, &self.index, name)
    }

    /// What an index shows.
    pub(crate) fn content_at(&self, n: usize) -> Option<&Content>
        ensures found { option_copied result ≡ slice_get self.now.contents n }
        ensures ordered { IfSome result (λ content. IsOrdered content.now) }
    {
        self.contents.get(n)
    }

    /// The sheets in order.
    pub(crate) fn sheets(&self) -> &[Sheet]
        ensures { map sheet_content result.now ≡ self.now.sheets }
    {
        &self.metadata.sheets
    }

    /// The defined names in order.
    pub(crate) fn names(&self) -> &[(String, String)]
        ensures { map name_texts result.now ≡ self.now.names }
    {
        &self.metadata.names
    }

    /// What is told of the whole workbook.
    pub(crate) fn reported(&self) -> &Metadata
        ensures sheets { map sheet_content result.now.sheets.items ≡ self.now.sheets }
        ensures names { map name_texts result.now.names.items ≡ self.now.names }
    {
        &self.metadata
    }

    /// Sets the header row.
    pub(crate) fn set_header_row(&mut self, header_row: HeaderRow)
        ensures { self.new ≡ under_header self.old header_row }
    {
        self.options.header_row = header_row;
    }
}
