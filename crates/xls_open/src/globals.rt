//! The globals: what is in force, and the sheets that they list.

ghost use Rattle.std.specs.Prelude.{◌≡◌, [], Ok, IfErr, IfOk, OnOk};
ghost use Rattle.xls_meaning.specs.Settings.{page_in};
ghost use Rattle.xls_open.specs.Globals.{ReadsGlobals};
ghost use Rattle.xls_open.specs.Steps.{first_state};
ghost use Rattle.xls_open.specs.RecordSteps.{IsFaultlessRecord, IsTaken};
ghost use Rattle.xls_open.specs.Workbook.{rules_of};

use crate::globals_record::{GlobalsRecord, read_globals_record};
use crate::listed::{Lbl, Listed};
use crate::options::XlsOptions;
use std::alloc::{AllocError, Global};
use std::marker::Model;
use xls_biff::{
    Biff, Record, RecordIter, Refs, Strings, XlsError, parse_extern_sheet, parse_format_code,
    parse_sheet_metadata, parse_sst,
};
use xls_formula::parse_lbl;
use xls_stream::types::EOF;
use xls_text::XlsEncoding;

/// What the globals give up to some record.
#[derive(Drop)]
pub struct Globals {
    /// The page in force.
    pub page: XlsEncoding,
    /// The version in force.
    pub version: Biff,
    pub is_1904: bool,
    /// The identifier and the code of each Format.
    pub codes: Vec<(u16, String)>,
    /// The format identifier of each XF.
    pub identifiers: Vec<u16>,
    /// The last string table.
    pub strings: Strings,
    /// The first sheets of the references of all ExternSheets.
    pub refs: Refs,
    /// The name of each Lbl, and what it names.
    pub names: Vec<Lbl>,
    /// The sheets, and where their parts begin.
    pub listed: Vec<Listed>,
}

impl Model for Globals {
    ghost use Rattle.std.specs.Prelude.{map};
    ghost use Rattle.xls_formula.specs.Defined.{named_of};
    ghost use Rattle.xls_open.specs.Globals.{State, listed_of};
    ghost use Rattle.xls_open.specs.Workbook.{code_texts};

    ghost Value = { State };

    ghost view = { λ g. record {
      page = g.page;
      version = g.version;
      is_1904 = g.is_1904;
      codes = map code_texts g.codes.items;
      identifiers = g.identifiers.items;
      strings = g.strings;
      refs = g.refs;
      names = map named_of g.names.items;
      sheets = map listed_of g.listed.items;
    } };
}

/// What a reader gives of a record that has no fault, unless memory ran out.
fn read_again<T>(read: Result<T, XlsError>) -> Result<T, AllocError>
    requires { IfErr read (λ e. e ≡ XlsError.Memory) }
    ensures { IfOk result (λ x. read ≡ Ok x) }
{
    match read {
        Ok(value) => Ok(value),
        Err(_) => Err(AllocError),
    }
}

impl Globals {
    /// Before the first record, under this page.
    fn new(alloc: Global, page: XlsEncoding) -> Globals
        ensures { result ≡ first_state page }
    {
        Globals {
            page,
            version: Biff::Biff8,
            is_1904: false,
            codes: Vec::new(alloc),
            identifiers: Vec::new(alloc),
            strings: Strings::new(alloc),
            refs: Refs::new(alloc),
            names: Vec::new(alloc),
            listed: Vec::new(alloc),
        }
    }

    /// Keeps a format, unless its record is too short for its code.
    fn take_format(&mut self, alloc: Global, r: &Record<'_>) -> Result<(), AllocError>
        ensures { OnOk result (IsTaken self.old (GlobalsRecord.Format r.entry) self.new) }
    {
        match parse_format_code(alloc, r, &self.page, self.version) {
            Ok(format) => {
                self.codes.push(format)?;
                Ok(())
            }
            Err(error) if error.is_memory() => Err(AllocError),
            Err(_) => Ok(()),
        }
    }

    fn take_references(&mut self, alloc: Global, r: &Record<'_>) -> Result<(), AllocError>
        requires { IsFaultlessRecord self.now (GlobalsRecord.References r) }
        ensures { OnOk result (IsTaken self.old (GlobalsRecord.References r.entry) self.new) }
    {
        let refs = read_again(parse_extern_sheet(alloc, r, self.version))?;
        self.refs.extend(&refs)
    }

    fn take_name(&mut self, alloc: Global, r: &Record<'_>) -> Result<(), AllocError>
        requires { IsFaultlessRecord self.now (GlobalsRecord.Name r) }
        ensures { OnOk result (IsTaken self.old (GlobalsRecord.Name r.entry) self.new) }
    {
        let name = read_again(parse_lbl(alloc, r, &self.page, self.version))?;
        self.names.push(name)?;
        Ok(())
    }

    fn take_table(&mut self, alloc: Global, r: &Record<'_>) -> Result<(), AllocError>
        requires { IsFaultlessRecord self.now (GlobalsRecord.Table r) }
        ensures { OnOk result (IsTaken self.old (GlobalsRecord.Table r.entry) self.new) }
    {
        self.strings = read_again(parse_sst(alloc, r))?;
        Ok(())
    }

    fn take_sheet(&mut self, alloc: Global, r: &Record<'_>) -> Result<(), AllocError>
        requires { IsFaultlessRecord self.now (GlobalsRecord.Sheet r) }
        ensures { OnOk result (IsTaken self.old (GlobalsRecord.Sheet r.entry) self.new) }
    {
        let (offset, sheet) = read_again(parse_sheet_metadata(alloc, r, &self.page, self.version))?;
        self.listed.push(Listed { offset, sheet })?;
        Ok(())
    }

    /// Keeps what a record gives.
    fn take(&mut self, alloc: Global, next: GlobalsRecord<'_>) -> Result<(), AllocError>
        requires { IsFaultlessRecord self.now next }
        ensures { OnOk result (IsTaken self.old next.entry self.new) }
    {
        match next {
            GlobalsRecord::Other => {}
            GlobalsRecord::Version(biff) => self.version = biff,
            GlobalsRecord::Page(page) => self.page = page,
            GlobalsRecord::Date(is_1904) => self.is_1904 = self.is_1904 || is_1904,
            GlobalsRecord::Format(r) => self.take_format(alloc, r)?,
            GlobalsRecord::Xf(identifier) => self.identifiers.push(identifier)?,
            GlobalsRecord::References(r) => self.take_references(alloc, r)?,
            GlobalsRecord::Name(r) => self.take_name(alloc, r)?,
            GlobalsRecord::Table(r) => self.take_table(alloc, r)?,
            GlobalsRecord::Sheet(r) => self.take_sheet(alloc, r)?,
        }
        Ok(())
    }
}

/// What the globals of a stream give, up to their EOF or the end. They begin under this page, which is
/// `first_page` of the options. `Memory`, and else their first fault.
pub fn read_globals(
    alloc: Global,
    stream: &[u8],
    page: XlsEncoding,
    options: &XlsOptions,
) -> Result<Globals, XlsError>
    requires { page ≡ page_in (rules_of options.now) [] }
    ensures { ReadsGlobals (rules_of options.now) stream.now result }
{
    let mut globals = Globals::new(alloc, page);
    for record in RecordIter::new(stream) {
        let record = record?;
        if record.typ == EOF {
            return Ok(globals);
        }
        let read = read_globals_record(&record, globals.version, options.force_codepage)?;
        globals.take(alloc, read)?;
    }
    Ok(globals)
}
