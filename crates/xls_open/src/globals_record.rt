//! A record of the globals, read without memory.

ghost use Rattle.std.specs.Prelude.{◌≡◌, ℕ, true, length};
ghost use Rattle.xls_text.specs.declared.encoding.XlsEncoding.{XlsEncoding};
ghost use Rattle.xls_stream.specs.Listing.{Shared, IsShared, is_plain_type};
ghost use Rattle.xls_stream.specs.declared.types.TheConstants as types;
ghost use Rattle.xls_data.specs.Sheets.{SheetContent};
ghost use Rattle.xls_record.specs.Reading.{gives};
ghost use Rattle.xls_biff.specs.Walking.{group_of};
ghost use Rattle.xls_biff.specs.Records.BoundSheet.{bound_sheet_at};
ghost use Rattle.xls_meaning.specs.GlobalsTable.{strings_record, sheet_record, shared_texts, plain_record_at};
ghost use Rattle.xls_open.specs.RecordSteps.{ReadsAsType, ReadsLine, version_by};

use xls_biff::{
    Biff, Record, XlsError, check_extern_sheet, check_sheet_metadata, parse_bof, parse_code_page,
    parse_date_mode, parse_file_pass, parse_xf, skip_sst,
};
use xls_formula::check_lbl;
use xls_stream::types::{
    BOF, BOUND_SHEET_8, CODE_PAGE, DATE_MODE, EXTERN_SHEET, FILE_PASS, FORMAT, LBL, SST, XF,
};
use xls_text::XlsEncoding;

/// A record of the globals that has no fault. What takes memory to be read is left in its record.
#[derive(Clone, Copy)]
pub(crate) enum GlobalsRecord<'a> {
    /// It gives nothing.
    Other,
    Version(Biff),
    Page(XlsEncoding),
    /// Whether it sets the date system of 1904.
    Date(bool),
    /// A Format, which may be too short for its code.
    Format(&'a Record<'a>),
    /// The format identifier of an XF.
    Xf(u16),
    References(&'a Record<'a>),
    Name(&'a Record<'a>),
    Table(&'a Record<'a>),
    Sheet(&'a Record<'a>),
}

impl GlobalsRecord<'_> {
    /// The version in force after this record.
    pub(crate) fn version_after(&self, biff: Biff) -> Biff
        ensures { result ≡ version_by self.now biff }
    {
        match self {
            GlobalsRecord::Version(input) => *input,
            _ => biff,
        }
    }
}

/// A record of the globals, under a version and a forced page. Its methods read it as one of a type.
#[derive(Clone, Copy)]
struct RecordUnder<'a> {
    record: &'a Record<'a>,
    biff: Biff,
    forced: Option<u16>,
}

impl<'a> RecordUnder<'a> {
    fn bof(&self) -> Result<GlobalsRecord<'a>, XlsError>
        ensures { ReadsAsType self.now.forced self.now.biff types.BOF self.now.record.now result }
    {
        let bof = parse_bof(self.record)?;
        Ok(GlobalsRecord::Version(bof.biff))
    }

    fn file_pass(&self) -> Result<GlobalsRecord<'a>, XlsError>
        ensures { ReadsAsType self.now.forced self.now.biff types.FILE_PASS self.now.record.now result }
    {
        parse_file_pass(self.record)?;
        Ok(GlobalsRecord::Other)
    }

    fn code_page(&self) -> Result<GlobalsRecord<'a>, XlsError>
        ensures { ReadsAsType self.now.forced self.now.biff types.CODE_PAGE self.now.record.now result }
    {
        if self.forced.is_some() {
            return Ok(GlobalsRecord::Other);
        }
        Ok(GlobalsRecord::Page(parse_code_page(self.record)?))
    }

    fn date_mode(&self) -> Result<GlobalsRecord<'a>, XlsError>
        ensures { ReadsAsType self.now.forced self.now.biff types.DATE_MODE self.now.record.now result }
    {
        Ok(GlobalsRecord::Date(parse_date_mode(self.record)?))
    }

    fn format(&self) -> Result<GlobalsRecord<'a>, XlsError>
        ensures { ReadsAsType self.now.forced self.now.biff types.FORMAT self.now.record.now result }
    {
        Ok(GlobalsRecord::Format(self.record))
    }

    fn xf(&self) -> Result<GlobalsRecord<'a>, XlsError>
        ensures { ReadsAsType self.now.forced self.now.biff types.XF self.now.record.now result }
    {
        Ok(GlobalsRecord::Xf(parse_xf(self.record)?))
    }

    fn extern_sheet(&self) -> Result<GlobalsRecord<'a>, XlsError>
        ensures { ReadsAsType self.now.forced self.now.biff types.EXTERN_SHEET self.now.record.now result }
    {
        check_extern_sheet(self.record, self.biff)?;
        Ok(GlobalsRecord::References(self.record))
    }

    fn lbl(&self) -> Result<GlobalsRecord<'a>, XlsError>
        ensures { ReadsAsType self.now.forced self.now.biff types.LBL self.now.record.now result }
    {
        check_lbl(self.record, self.biff)?;
        Ok(GlobalsRecord::Name(self.record))
    }

    fn sst(&self) -> Result<GlobalsRecord<'a>, XlsError>
        ensures { ReadsAsType self.now.forced self.now.biff types.SST self.now.record.now result }
    {
        skip_sst(self.record)?;
        Ok(GlobalsRecord::Table(self.record))
    }

    fn bound_sheet(&self) -> Result<GlobalsRecord<'a>, XlsError>
        ensures { ReadsAsType self.now.forced self.now.biff types.BOUND_SHEET_8 self.now.record.now result }
    {
        check_sheet_metadata(self.record, self.biff)?;
        Ok(GlobalsRecord::Sheet(self.record))
    }

    /// Whatever the type.
    fn read(&self, typ: u16) -> Result<GlobalsRecord<'a>, XlsError>
        ensures { ReadsAsType self.now.forced self.now.biff typ self.now.record.now result }
    {
        match typ {
            BOF => self.bof(),
            FILE_PASS => self.file_pass(),
            CODE_PAGE => self.code_page(),
            DATE_MODE => self.date_mode(),
            FORMAT => self.format(),
            XF => self.xf(),
            EXTERN_SHEET => self.extern_sheet(),
            LBL => self.lbl(),
            SST => self.sst(),
            BOUND_SHEET_8 => self.bound_sheet(),
            _ => Ok(GlobalsRecord::Other),
        }
    }
}

/// What a record of the globals is under a version and a forced page, or its fault. A CodePage has none
/// under a forced page, and a Format that is too short for its code is none.
pub(crate) fn read_globals_record<'a>(
    r: &'a Record<'a>,
    biff: Biff,
    forced: Option<u16>,
) -> Result<GlobalsRecord<'a>, XlsError>
    ensures plain { is_plain_type r.now.typ ≡ true → (page : XlsEncoding)
        → ReadsLine page biff r.now.body.now (plain_record_at forced page biff r.now.typ r.now.body.now) result }
    ensures table { r.now.typ ≡ types.SST → (page : XlsEncoding) (shared : Shared) → IsShared (group_of r.now) shared
        → ReadsLine page biff r.now.body.now (gives strings_record (shared_texts (length r.now.body.now) shared)) result }
    ensures sheet { r.now.typ ≡ types.BOUND_SHEET_8 → (page : XlsEncoding)
        → ReadsLine page biff r.now.body.now (gives (λ (q : ℕ × SheetContent). sheet_record q.1) (bound_sheet_at page biff r.now.body.now)) result }
{
    let record = RecordUnder {
        record: r,
        biff,
        forced,
    };
    record.read(r.typ)
}
