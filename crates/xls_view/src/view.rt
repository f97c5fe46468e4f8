//! The view of a stream.

ghost use Rattle.std.specs.Prelude.{◌≡◌, ℕ, Err, IfErr, IfOk, IfSome, List, None, map, slice_get};
ghost use Rattle.std.specs.Option.{option_map};
ghost use Rattle.std.specs.Str.{chars};
ghost use Rattle.xls_data.specs.Sheets.{sheet_content};
ghost use Rattle.xls_open.specs.Workbook.{code_texts, rules_of, rules_under, name_texts};
ghost use Rattle.xls_open.specs.Globals.{AreGlobals};
ghost use Rattle.xls_meaning.specs.GlobalsTable.{forced_fault};
ghost use Rattle.xls_biff.specs.Cells.{CellEntry};
ghost use Rattle.xls_range.specs.Positions.{IsAscending};
ghost use Rattle.xls_meaning.specs.Reading.{SheetView, displayed_of};
ghost use Rattle.xls_view.specs.Displayed.{DisplayedSheet, sheet_view_of};
ghost use Rattle.xls_view.specs.Codes.{identifier_at};
ghost use Rattle.xls_view.specs.Viewing.{IsViewFault, IsViewed, ViewCause, formatted_named, formulas_named};
ghost use Rattle.xls_view.specs.Walking.{NamedContext};
ghost use Rattle.xls_view.specs.Placing.{IsPartOf, settings_viewed};
ghost use Rattle.xls_view.specs.Formulas.{text_entry};
ghost use Rattle.xls_view.specs.Index.{IsIndex};
ghost use Rattle.xls_view.specs.Naming.{context_in};
ghost use Rattle.xls_record.specs.declared.error.XlsError.{XlsError};
ghost use Rattle.xls_data.specs.Sheets.{SheetContent};
ghost use Rattle.xls_open.specs.Globals.{listed_of};

use crate::index::{find_named, index_of};
use crate::naming::ViewNaming;
use crate::{Merges, SheetCells, SheetFormulas, ViewSheet, part_at};
use std::alloc::{AllocError, Global};
use std::collections::BTreeMap;
use std::marker::Model;
use xls_biff::{Biff, Strings, XlsError};
use xls_data::{CellFormat, Sheet};
use xls_formula::{FunctionTable, NumberStyle};
use xls_open::{
    Globals, Listed, Naming, Settings, XlsOptions, check_sheets_of, check_stream, classes_of,
    naming_of, read_globals,
};
use xls_text::XlsEncoding;

/// A workbook that is looked at where it stands, in the bytes of its stream: what is in force at the end of
/// the globals, its sheets and their names, and where the part of each sheet begins. Contracts see what it
/// shows.
#[derive(Drop)]
pub struct View<'a> {
    alloc: Global,
    bytes: &'a [u8],
    page: XlsEncoding,
    version: Biff,
    is_1904: bool,
    /// The class of each XF.
    classes: Vec<CellFormat>,
    /// The format identifier of each XF.
    identifiers: Vec<u16>,
    /// The identifier and the code of each Format.
    codes: Vec<(u16, String)>,
    strings: Strings,
    naming: Naming,
    functions: FunctionTable,
    numbers: NumberStyle,
    /// The sheets in workbook order, and where the part of each begins.
    sheets: Vec<Sheet>,
    offsets: Vec<usize>,
    /// The place of the last sheet of each name.
    index: BTreeMap<String, usize>,
}

impl<'a> Model for View<'a> {
    ghost use Rattle.std.specs.Prelude.{◌≡◌, length, map};
    ghost use Rattle.xls_data.specs.Sheets.{sheet_content};
    ghost use Rattle.xls_stream.specs.Walks.{IsBytes};
    ghost use Rattle.xls_open.specs.Workbook.{code_texts, name_texts};
    ghost use Rattle.xls_view.specs.Contents.{AreReadable, viewed};
    ghost use Rattle.xls_view.specs.Index.{IsIndex};
    ghost use Rattle.xls_view.specs.Viewing.{Viewed};

    ghost Value = { Viewed };

    ghost view = { λ v. viewed v.bytes.now (record {
      cells = record {
        page = v.page;
        version = v.version;
        classes = v.classes.items;
        strings = v.strings;
        is_1904 = v.is_1904;
      };
      formulas = record {
        sheets = v.naming.sheets;
        names = v.naming.names;
        refs = v.naming.refs;
        page = v.page;
        biff = v.version;
        functions = v.functions;
        numbers = v.numbers;
      };
    }) (map sheet_content v.sheets.items) v.offsets.items (map name_texts v.naming.reported.items)
        v.identifiers.items (map code_texts v.codes.items) };

    ghost invariant = { λ v. IsBytes v.bytes.now × (length v.offsets.items ≡ length v.sheets.items)
        × IsIndex v.index v.sheets.items
        × AreReadable (record {
          page = v.page;
          version = v.version;
          classes = v.classes.items;
          strings = v.strings;
          is_1904 = v.is_1904;
        }) v.bytes.now v.offsets.items };
}

/// What a view keeps of its globals.
#[derive(Drop)]
pub struct ViewParts {
    /// The sheets in workbook order.
    pub sheets: Vec<Sheet>,
    /// The defined names and their texts in workbook order.
    pub names: Vec<(String, String)>,
    /// The place of the last sheet of each name.
    pub index: BTreeMap<String, usize>,
    /// Whether dates count from 1904.
    pub is_1904: bool,
    /// The format class of each XF.
    pub classes: Vec<CellFormat>,
}

/// The sheets, and where the part of each begins.
fn split_listed(alloc: Global, listed: Vec<Listed>) -> Result<(Vec<Sheet>, Vec<usize>), AllocError>
    ensures { IfOk result (λ x. (map sheet_content x.0.items ≡ map (λ (q : ℕ × SheetContent). q.1) (map listed_of listed.items))
        × (x.1.items ≡ map (λ (q : ℕ × SheetContent). q.0) (map listed_of listed.items))) }
{
    let mut sheets = Vec::new(alloc);
    let mut offsets = Vec::new(alloc);
    for next in listed {
        sheets.push(next.sheet)?;
        offsets.push(next.offset)?;
    }
    Ok((sheets, offsets))
}

/// The view of bytes without a fault, by their globals.
fn view_of<'a>(
    alloc: Global,
    bytes: &'a [u8],
    globals: Globals,
    options: &XlsOptions,
    numbers: NumberStyle,
) -> Result<View<'a>, AllocError>
    requires sound { (e : XlsError) → IsViewFault (rules_of options.now) bytes.now e → ⊥ }
    requires forced { forced_fault options.now.force_codepage ≡ None }
    requires globals { AreGlobals (rules_of options.now) bytes.now globals }
    ensures { IfOk result (λ view. IsViewed (rules_under numbers options.now) bytes.entry.now view) }
{
    let Globals {
        page,
        version,
        is_1904,
        codes,
        identifiers,
        strings,
        refs,
        names,
        listed,
    } = globals;
    let classes = classes_of(alloc, &codes, &identifiers)?;
    let naming = naming_of(alloc, version, &listed, refs, names)?;
    let functions = options.functions.try_copy()?;
    let (sheets, offsets) = split_listed(alloc, listed)?;
    let index = index_of(alloc, &sheets)?;
    Ok(View {
        alloc,
        bytes,
        page,
        version,
        is_1904,
        classes,
        identifiers,
        codes,
        strings,
        naming,
        functions,
        numbers,
        sheets,
        offsets,
        index,
    })
}

impl<'a> View<'a> {
    /// The view of a stream's bytes, under the forced page, the bound of cells and the functions of the options;
    /// its formulas show doubles in this style. The first fault of the bytes is the one that `check_stream`
    /// answers; there is no limit of bytes. Otherwise only running out of memory refuses.
    pub fn new(
        alloc: Global,
        bytes: &'a [u8],
        options: &XlsOptions,
        numbers: NumberStyle,
    ) -> Result<View<'a>, XlsError>
        ensures ok { IfOk result (λ view. IsViewed (rules_under numbers options.now) bytes.now view) }
        ensures fault { (e : XlsError) → IsViewFault (rules_of options.now) bytes.now e → result ≡ Err e }
        ensures cause { IfErr result (ViewCause (rules_of options.now) bytes.now) }
    {
        let page = options.first_page()?;
        match read_globals(alloc, bytes, page, options) {
            Ok(globals) => {
                check_sheets_of(
                    bytes,
                    globals.version,
                    options.force_codepage,
                    options.max_cells,
                )?;
                Ok(view_of(alloc, bytes, globals, options, numbers)?)
            }
            Err(error) => {
                // A fault comes before running out of memory.
                check_stream(bytes, options.force_codepage, options.max_cells)?;
                Err(error)
            }
        }
    }

    /// What it keeps of the globals, without a copy. Takes no memory.
    pub fn into_parts(self) -> ViewParts
        ensures sheets { map sheet_content result.sheets.items ≡ self.entry.book.sheets }
        ensures names { map name_texts result.names.items ≡ self.entry.book.names }
        ensures index { IsIndex result.index result.sheets.items }
        ensures date_system { result.is_1904 ≡ self.entry.book.is_1904 }
        ensures classes { result.classes.items ≡ self.entry.book.classes }
    {
        let View {
            sheets,
            naming,
            index,
            is_1904,
            classes,
            ..
        } = self;
        ViewParts {
            sheets,
            names: naming.reported,
            index,
            is_1904,
            classes,
        }
    }

    /// Name, kind and visibility of each sheet, in workbook order. Takes no memory.
    pub fn sheets(&self) -> &[Sheet]
        ensures { map sheet_content result.now ≡ self.now.book.sheets }
    {
        &self.sheets
    }

    /// The defined names and their texts, in workbook order. Takes no memory.
    pub fn defined_names(&self) -> &[(String, String)]
        ensures { map name_texts result.now ≡ self.now.book.names }
    {
        &self.naming.reported
    }

    /// Whether dates count from 1904. Takes no memory.
    pub fn has_1904_epoch(&self) -> bool
        ensures { result ≡ self.now.book.is_1904 }
    {
        self.is_1904
    }

    /// The format class of each XF record, in order. Takes no memory.
    pub fn formats(&self) -> &[CellFormat]
        ensures { result.now ≡ self.now.book.classes }
    {
        &self.classes
    }

    /// The format identifier of the XF record of an index, as cells have it, and 0, which is General, where no XF
    /// record has the index. Takes no memory.
    pub fn identifier_of(&self, xf: u16) -> u16
        ensures { result ≡ identifier_at self.now.identifiers xf }
    {
        match self.identifiers.get(usize::from(xf)) {
            Some(identifier) => *identifier,
            None => 0,
        }
    }

    /// The format identifier of each XF record, in order. Takes no memory.
    pub fn identifiers(&self) -> &[u16]
        ensures { result.now ≡ self.now.identifiers }
    {
        &self.identifiers
    }

    /// Identifier and code of each Format record, in order; of those with one identifier the last counts. Takes no
    /// memory.
    pub fn codes(&self) -> &[(u16, String)]
        ensures { map code_texts result.now ≡ self.now.codes }
    {
        &self.codes
    }

    /// What formulas may name. Takes no memory.
    pub fn naming(&self) -> ViewNaming<'_>
        ensures { context_in result ≡ self.now.context }
    {
        ViewNaming {
            sheets: &self.naming.sheets,
            names: &self.naming.names,
            refs: &self.naming.refs,
            page: self.page,
            biff: self.version,
            functions: &self.functions,
            numbers: self.numbers,
        }
    }

    /// What the records of the sheets are read under.
    pub(crate) fn settings(&self) -> Settings<'_>
        ensures { result ≡ settings_viewed self.now }
    {
        Settings {
            page: self.page,
            version: self.version,
            classes: &self.classes,
            strings: &self.strings,
            is_1904: self.is_1904,
            sheets: &self.naming.sheets,
            names: &self.naming.names,
            refs: &self.naming.refs,
            functions: &self.functions,
            numbers: self.numbers,
        }
    }

    /// The bytes from the part of the last sheet of a name on.
    fn part_named(&self, name: &str) -> Option<&[u8]>
        ensures { IsPartOf self.now (displayed_of self.now.book (chars name.now)) (formulas_named self.now (chars name.now))
            (formatted_named self.now (chars name.now)) result }
    {
        match find_named(&self.sheets, &self.offsets, &self.index, name) {
            Some(offset) => Some(part_at(self.bytes, *offset)),
            None => None,
        }
    }

    /// Likewise of the name that the sheet at an index has.
    fn part_at(&self, n: usize) -> Option<&[u8]>
        ensures { IsPartOf self.now (slice_get self.now.book.contents n) (slice_get self.now.formulas n)
            (slice_get self.now.formatted n) result }
    {
        match self.sheets.get(n) {
            Some(sheet) => self.part_named(sheet.name.as_str()),
            None => None,
        }
    }

    /// The last sheet of a name. `None` exactly where no sheet has the name. Takes no memory; its records are
    /// walked once.
    pub fn sheet_named(&self, name: &str) -> Option<ViewSheet<'_>>
        ensures content { option_map sheet_view_of result ≡ displayed_of self.now.book (chars name.now) }
        ensures formulas { option_map (λ (s : DisplayedSheet). s.formulas) result ≡ formulas_named self.now (chars name.now) }
        ensures formatted { option_map (λ (s : DisplayedSheet). s.formatted) result ≡ formatted_named self.now (chars name.now) }
        ensures context { IfSome result (λ s. s.context ≡ self.now.context) }
    {
        match self.part_named(name) {
            Some(part) => Some(ViewSheet::new(self.alloc, self.settings(), part)),
            None => None,
        }
    }

    /// The last sheet of the name that the sheet at an index has. `None` exactly where no sheet has the index.
    /// Takes no memory; its records are walked once.
    pub fn sheet_at(&self, n: usize) -> Option<ViewSheet<'_>>
        ensures content { option_map sheet_view_of result ≡ slice_get self.now.book.contents n }
        ensures formulas { option_map (λ (s : DisplayedSheet). s.formulas) result ≡ slice_get self.now.formulas n }
        ensures formatted { option_map (λ (s : DisplayedSheet). s.formatted) result ≡ slice_get self.now.formatted n }
        ensures context { IfSome result (λ s. s.context ≡ self.now.context) }
    {
        match self.part_at(n) {
            Some(part) => Some(ViewSheet::new(self.alloc, self.settings(), part)),
            None => None,
        }
    }

    /// The cells of the last sheet of a name. `None` exactly where no sheet has the name. Only running out
    /// of memory refuses.
    pub fn cells_named(&self, name: &str) -> Result<Option<SheetCells<'_>>, AllocError>
        ensures found { IfOk result (λ found. found
            ≡ option_map (λ (v : SheetView). v.cells) (displayed_of self.now.book (chars name.now))) }
        ensures ordered { IfOk result (λ found. IfSome found (λ cells. IsAscending (map (λ (c : CellEntry). c.0) cells))) }
    {
        match self.sheet_named(name) {
            Some(sheet) => Ok(Some(sheet.cells()?)),
            None => Ok(None),
        }
    }

    /// The cells of the last sheet of the name that the sheet at an index has. `None` exactly where no sheet
    /// has the index. Only running out of memory refuses.
    pub fn cells_at(&self, n: usize) -> Result<Option<SheetCells<'_>>, AllocError>
        ensures found { IfOk result (λ found. found
            ≡ option_map (λ (v : SheetView). v.cells) (slice_get self.now.book.contents n)) }
        ensures ordered { IfOk result (λ found. IfSome found (λ cells. IsAscending (map (λ (c : CellEntry). c.0) cells))) }
    {
        match self.sheet_at(n) {
            Some(sheet) => Ok(Some(sheet.cells()?)),
            None => Ok(None),
        }
    }

    /// The formulas of the last sheet of a name. `None` exactly where no sheet has the name. Only running
    /// out of memory refuses.
    pub fn formulas_named(&self, name: &str) -> Result<Option<SheetFormulas<'_>>, AllocError>
        ensures tokens { IfOk result (λ found. found
            ≡ option_map (λ fs. record { context = self.now.context; left = fs }) (formulas_named self.now (chars name.now))) }
        ensures texts { IfOk result (λ found. option_map (λ (f : NamedContext). map (text_entry f.context) f.left) found
            ≡ option_map (λ (v : SheetView). v.formulas) (displayed_of self.now.book (chars name.now))) }
    {
        match self.sheet_named(name) {
            Some(sheet) => Ok(Some(sheet.formulas()?)),
            None => Ok(None),
        }
    }

    /// The formulas of the last sheet of the name that the sheet at an index has. `None` exactly where no
    /// sheet has the index. Only running out of memory refuses.
    pub fn formulas_at(&self, n: usize) -> Result<Option<SheetFormulas<'_>>, AllocError>
        ensures tokens { IfOk result (λ found. found
            ≡ option_map (λ fs. record { context = self.now.context; left = fs }) (slice_get self.now.formulas n)) }
        ensures texts { IfOk result (λ found. option_map (λ (f : NamedContext). map (text_entry f.context) f.left) found
            ≡ option_map (λ (v : SheetView). v.formulas) (slice_get self.now.book.contents n)) }
    {
        match self.sheet_at(n) {
            Some(sheet) => Ok(Some(sheet.formulas()?)),
            None => Ok(None),
        }
    }

    /// The merged regions of the last sheet of a name, in the order of the stream. `None` exactly where no
    /// sheet has the name. Takes no memory.
    pub fn merges_named(&self, name: &str) -> Option<Merges<'_>>
        ensures { result ≡ option_map (λ (v : SheetView). v.merges) (displayed_of self.now.book (chars name.now)) }
    {
        match self.part_named(name) {
            Some(part) => Some(Merges::new(part)),
            None => None,
        }
    }

    /// The merged regions of the last sheet of the name that the sheet at an index has. `None` exactly where
    /// no sheet has the index. Takes no memory.
    pub fn merges_at(&self, n: usize) -> Option<Merges<'_>>
        ensures { result ≡ option_map (λ (v : SheetView). v.merges) (slice_get self.now.book.contents n) }
    {
        match self.part_at(n) {
            Some(part) => Some(Merges::new(part)),
            None => None,
        }
    }
}
