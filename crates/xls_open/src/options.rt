//! The options of opening.

ghost use Rattle.std.specs.Prelude.{◌≡◌, [], IfOk, Some, None, MatchResult};
ghost use Rattle.xls_open.specs.Opening.{default_options};
ghost use Rattle.xls_open.specs.Workbook.{rules_of};
ghost use Rattle.xls_meaning.specs.GlobalsTable.{forced_fault};
ghost use Rattle.xls_meaning.specs.Settings.{page_in};

use std::alloc::{AllocError, Global};
use xls_biff::XlsError;
use xls_data::HeaderRow;
use xls_formula::FunctionTable;
use xls_record::StreamBytes;
use xls_text::XlsEncoding;

/// How many bytes a stream may have by default.
pub const MAX_BYTES: u64 = 268_435_456;

/// How many cells the records of one sheet may give by default.
pub const MAX_CELLS: u64 = 33_554_432;

/// How a stream is opened, and which rows of a sheet its range has.
#[derive(Drop)]
pub struct XlsOptions {
    /// The code page of the texts of a stream before BIFF8, whatever the stream says: 1200, 1252, 28591 or
    /// 65001. A text of BIFF8 has its own units, and no page.
    pub force_codepage: Option<u16>,
    /// The first row of the range of a sheet.
    pub header_row: HeaderRow,
    /// How many bytes a stream may have.
    pub max_bytes: u64,
    /// How many cells the records of one sheet may give.
    pub max_cells: u64,
    /// The functions that formulas name by their index.
    pub functions: FunctionTable,
    /// The stream `\x05SummaryInformation` of the file, for the properties of the workbook.
    pub summary: Option<StreamBytes>,
    /// The stream `\x05DocumentSummaryInformation` of the file, likewise.
    pub document_summary: Option<StreamBytes>,
}

impl XlsOptions {
    /// No forced page, the first row that isn't empty, at most [`MAX_BYTES`] bytes and at most
    /// [`MAX_CELLS`] cells in a sheet, the functions whose names are shipped, and no property streams.
    pub fn defaults(alloc: Global) -> Result<XlsOptions, AllocError>
        ensures { IfOk result (λ options. options ≡ default_options) }
    {
        Ok(XlsOptions {
            force_codepage: None,
            header_row: HeaderRow::FirstNonEmptyRow,
            max_bytes: MAX_BYTES,
            max_cells: MAX_CELLS,
            functions: FunctionTable::shipped(alloc)?,
            summary: None,
            document_summary: None,
        })
    }

    /// The page before the first record: the forced one, or else 1200. `Cfb` where the forced page
    /// isn't kept.
    pub fn first_page(&self) -> Result<XlsEncoding, XlsError>
        ensures { MatchResult result
            (λ page. (forced_fault self.now.force_codepage ≡ None) × (page ≡ page_in (rules_of self.now) []))
            (λ e. forced_fault self.now.force_codepage ≡ Some e) }
    {
        match self.force_codepage {
            Some(number) => Ok(XlsEncoding::from_codepage(number)?),
            None => Ok(XlsEncoding::Utf16),
        }
    }
}
