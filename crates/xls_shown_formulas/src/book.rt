//! The defined names of a workbook, and what all of its formulas are read by.

ghost use Rattle.std.specs.Prelude.{◌≡◌, ◌<◌, ◌+◌, ◌^◌, ◌++◌, IfOk, map, length, true};
ghost use Rattle.std.specs.Option.{option_map};
ghost use Rattle.std.specs.Str.{chars};
ghost use Rattle.xls_formula.specs.Functions.{shipped};
ghost use Rattle.xls_formula.specs.Table.{from_index_72};
ghost use Rattle.xls_shared_formulas.specs.Contents.{bytes_view};
ghost use Rattle.xls_formula_shown.specs.Scope.{scope_of};
ghost use Rattle.xls_formula_shown.specs.Steps.{Tells};
ghost use Rattle.xls_defined_names.specs.Names as names;
ghost use Rattle.xls_defined_names.specs.Names.{name_view};
ghost use Rattle.xls_shown_formulas.specs.Books as specs;
ghost use Rattle.xls_shown_formulas.specs.Refusals.{told_of_name};
ghost use Rattle.xls_shown_formulas.specs.Sheets.{sheet_of};

use crate::buffer::ShownBuffer;
use crate::sheet::ShownSheet;
use std::alloc::{AllocError, Global};
use std::marker::Model;
use xls_defined_names::{DefinedName, DefinedNames, name_bytes, name_formula, scope_of};
use xls_formula::{FunctionTable, push_functions};
use xls_formula_books::{FormulaBooks, Here};
use xls_formula_leaves::Place;
use xls_formula_shown::Scope;
use xls_record::Biff;
use xls_shared_formulas::{CellPlace, FormulaBytes};
use xls_shown_ptg::Fault;
use xls_strings::Strings;
use xls_text::XlsEncoding;

/// A workbook whose formulas are shown: what they may name, read once. Contracts see that, and its stream.
#[derive(Drop)]
pub struct ShownBook<'a> {
    version: Biff,
    encoding: XlsEncoding,
    stream: &'a [u8],
    sheets: &'a Strings,
    books: FormulaBooks,
    names: DefinedNames,
    functions: FunctionTable,
}

impl<'a> Model for ShownBook<'a> {
    ghost use Rattle.std.specs.Prelude.{◌≡◌, ◌++◌};
    ghost use Rattle.xls_formula.specs.Functions.{shipped};
    ghost use Rattle.xls_formula.specs.Table.{from_index_72};
    ghost use Rattle.xls_shown_formulas.specs.Books.{Book};

    ghost Value = { Book };

    ghost view = { λ s. record {
      version = s.version;
      page = s.encoding;
      stream = s.stream.now;
      sheets = s.sheets.now;
      books = s.books;
      names = s.names;
    } };

    ghost invariant = { λ s. s.functions ≡ shipped ++ from_index_72 };
}

/// All functions that a token may name.
fn all_functions(alloc: Global) -> Result<FunctionTable, AllocError>
    ensures { IfOk result (λ table. table ≡ shipped ++ from_index_72) }
{
    let mut table = FunctionTable::shipped(alloc)?;
    push_functions(&mut table)?;
    Ok(table)
}

impl<'a> ShownBook<'a> {
    /// Reads what the formulas of a workbook may name: by the globals that its stream begins with, under a version and a page, and the
    /// names of its sheets, in the order of their records. Only running out of memory refuses.
    pub fn read(
        alloc: Global,
        stream: &'a [u8],
        version: Biff,
        encoding: XlsEncoding,
        sheets: &'a Strings,
    ) -> Result<ShownBook<'a>, AllocError>
        ensures { IfOk result (λ book. book ≡ specs.book_of version encoding stream.entry.now sheets.entry.now) }
    {
        Ok(ShownBook {
            version,
            encoding,
            stream,
            sheets,
            books: FormulaBooks::read(alloc, stream, version, &encoding)?,
            names: DefinedNames::read(alloc, stream, version, &encoding)?,
            functions: all_functions(alloc)?,
        })
    }

    /// The version.
    pub fn version(&self) -> Biff
        ensures { result ≡ self.now.version }
    {
        self.version
    }

    /// The page.
    pub(crate) fn encoding(&self) -> XlsEncoding
        ensures { result ≡ self.now.page }
    {
        self.encoding
    }

    /// The stream.
    pub fn stream(&self) -> &'a [u8]
        ensures { result.now ≡ self.now.stream }
    {
        self.stream
    }

    /// Other books by the records of the globals, by which the formulas of defined names refer.
    pub fn books(&self) -> &FormulaBooks
        ensures { result.now ≡ self.now.books }
    {
        &self.books
    }

    /// What a formula may name in the sheet of this number from 1, 0 for a name of the workbook: by the records of the sheet's own, where
    /// it has some.
    pub(crate) fn here<'b>(&'b self, own: Option<&'b FormulaBooks>, sheet: usize) -> Here<'b>
        ensures { result ≡ specs.here_by self.now (specs.or_books self.now.books (option_map (λ books. books.now) own.entry)) sheet }
    {
        Here {
            books: match own {
                Some(books) => books,
                None => &self.books,
            },
            names: &self.names,
            sheets: self.sheets,
            sheet,
        }
    }

    /// What the tokens of a formula are read by, and the cell from which its offsets count.
    pub(crate) fn scope<'b>(&'b self, here: Here<'b>, is_name: bool, at: CellPlace) -> Scope<'b>
        ensures { scope_of result ≡ specs.scope self.now here.entry is_name at }
    {
        Scope {
            biff: self.version,
            encoding: self.encoding,
            place: Place {
                row: at.row,
                column: at.column,
            },
            is_name,
            functions: &self.functions,
            here,
        }
    }

    /// The defined names, in the order of their records. Takes no memory.
    pub fn names(&self) -> &[DefinedName]
        ensures { map name_view result.now ≡ self.now.names }
    {
        self.names.all()
    }

    /// The scope of a defined name: the name of its sheet, `#REF` where there is no such sheet, and nothing for the workbook. Takes no
    /// memory.
    pub fn scope_of(&self, name: &DefinedName) -> &str
        ensures { chars result.now ≡ names.scope_of name.now.sheet self.now.sheets }
    {
        scope_of(name.sheet, self.sheets)
    }

    /// Writes the text of the tokens of a defined name; none where there are no tokens.
    fn write_text(
        &self,
        buffer: &mut ShownBuffer,
        sheet: usize,
        bytes: FormulaBytes<'_>,
    ) -> Result<(), Fault>
        ensures { Tells (λ u. buffer.new) result
            (specs.text_of_tokens (specs.scope self.now (specs.name_here self.now sheet) true specs.first_cell) (bytes_view bytes.entry)) }
    {
        if bytes.tokens.is_empty() {
            buffer.clear();
            return Ok(());
        }
        let first = CellPlace { row: 0, column: 0 };
        let scope = self.scope(self.here(None, sheet), true, first);
        buffer.write_own(&scope, bytes)
    }

    /// Writes the text of a defined name.
    fn write_name(&self, buffer: &mut ShownBuffer, name: &DefinedName) -> Result<(), Fault>
        ensures { Tells (λ u. buffer.new) result (specs.name_text self.now (name_view name.now)) }
    {
        let record = name_bytes(buffer.allocator(), self.stream, name)?;
        let bytes = name_formula(self.version, record.as_slice())?;
        self.write_text(buffer, usize::from(name.sheet), bytes)
    }

    /// The text of a defined name, one of `names`, made in a buffer in place of the one before: that of its tokens, or why it isn't spelled.
    /// Only running out of memory refuses.
    pub fn name_text<'b>(
        &self,
        buffer: &'b mut ShownBuffer,
        name: &DefinedName,
    ) -> Result<&'b str, AllocError>
        ensures { IfOk result (λ text. chars text.now ≡ told_of_name (specs.name_text self.now (name_view name.now))) }
    {
        let done = self.write_name(buffer, name);
        buffer.told_of_name(done)
    }

    /// The formulas of the sheet of this number from 1, whose part begins with the first byte, which stands at this offset of the stream.
    /// Only running out of memory refuses.
    pub fn sheet(
        &'a self,
        alloc: Global,
        number: usize,
        part: &'a [u8],
        offset: u64,
    ) -> Result<ShownSheet<'a>, AllocError>
        requires { offset + length part.now < 2 ^ 64 }
        ensures { IfOk result (λ s. s ≡ sheet_of self.entry.now number offset part.entry.now) }
    {
        ShownSheet::read(alloc, self, number, part, offset)
    }
}
