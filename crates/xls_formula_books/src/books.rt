//! What a workbook's formulas may refer to.

ghost use Rattle.std.specs.Prelude.{◌≡◌, ◌<◌, ◌+◌, ◌^◌, length, IfOk};
ghost use Rattle.std.specs.Option.{option_map};
ghost use Rattle.xls_parts.specs.PartRecords.{globals_records, own_records};
ghost use Rattle.xls_formula_books.specs.Books as specs;
ghost use Rattle.xls_formula_books.specs.Sources.{source_view, sources_view};

use crate::lists::{read_own_refs, read_sheet_refs, read_sup_books};
use crate::sources::Source;
use std::alloc::{AllocError, Global};
use std::marker::Model;
use xls_other_books::{Entry, read_entries};
use xls_record::{Biff, is_biff8};
use xls_text::XlsEncoding;

/// What a workbook's formulas may refer to, with each path and name once, and six bytes for each entry of ExternSheet.
///
/// Contracts see all of it.
#[derive(Drop)]
pub struct FormulaBooks {
    version: Biff,
    sources: Vec<Source>,
    entries: Vec<Entry>,
}

impl Model for FormulaBooks {
    ghost use Rattle.xls_formula_books.specs.Books.{Books};
    ghost use Rattle.xls_formula_books.specs.Sources.{sources_view};

    ghost Value = { Books };

    ghost view = { λ s. record { version = s.version; sources = sources_view s.sources.items; entries = s.entries.items } };
}

impl FormulaBooks {
    /// What the globals that a workbook's stream begins with say, under a version and a page: of BIFF8 SupBook ([MS-XLS] 2.4.271),
    /// ExternName and ExternSheet records, before it ExternSheet and ExternName records. Only running out of memory refuses.
    pub fn read(
        alloc: Global,
        stream: &[u8],
        version: Biff,
        encoding: &XlsEncoding,
    ) -> Result<FormulaBooks, AllocError>
        ensures { IfOk result (λ books. books ≡ specs.books_of version encoding.now (globals_records stream.now)) }
    {
        if is_biff8(version) {
            return Ok(FormulaBooks {
                version,
                sources: read_sup_books(alloc, stream, encoding)?,
                entries: read_entries(alloc, stream)?,
            });
        }
        Ok(FormulaBooks {
            version,
            sources: read_sheet_refs(alloc, stream, encoding)?,
            entries: Vec::new(alloc),
        })
    }

    /// Before BIFF8: what the ExternSheet records of a sheet's own say, whose part begins with the first byte, which stands at this offset
    /// of the stream. Its formulas refer by these, and by those of the globals where there are none. Only running out of memory refuses.
    pub fn read_own(
        alloc: Global,
        part: &[u8],
        offset: u64,
        version: Biff,
        encoding: &XlsEncoding,
    ) -> Result<Option<FormulaBooks>, AllocError>
        requires { offset + length part.now < 2 ^ 64 }
        ensures { IfOk result (λ found. option_map (λ books. books) found
            ≡ specs.own_books version encoding.now (own_records offset part.now)) }
    {
        if is_biff8(version) {
            return Ok(None);
        }
        let sources = read_own_refs(alloc, part, offset, encoding)?;
        if sources.is_empty() {
            return Ok(None);
        }
        Ok(Some(FormulaBooks {
            version,
            sources,
            entries: Vec::new(alloc),
        }))
    }

    /// What formulas may refer to: of BIFF8 the SupBook records, before it the ExternSheet records. Takes no memory.
    pub fn sources(&self) -> &[Source]
        ensures { sources_view result.now ≡ self.now.sources }
    {
        &self.sources
    }

    /// The version.
    pub(crate) fn version(&self) -> Biff
        ensures { result ≡ self.now.version }
    {
        self.version
    }

    /// An entry of ExternSheet by its number (ixti).
    pub(crate) fn entry(&self, number: u16) -> Option<Entry>
        ensures { result ≡ specs.entry_at self.now number }
    {
        match self.entries.get(usize::from(number)) {
            Some(entry) => Some(*entry),
            None => None,
        }
    }

    /// What stands in this place among the sources.
    pub(crate) fn source(&self, number: usize) -> Option<&Source>
        ensures { option_map (λ s. source_view s.now) result ≡ specs.source_at self.now number }
    {
        self.sources.get(number)
    }
}
