//! A record of a sheet, read once and without memory: its first fault, or what it holds.

ghost use Rattle.std.specs.Prelude.{◌≡◌, ◌≢◌, Ok, IsErr, IfOk};
ghost use Rattle.xls_record.specs.Reading.{Exactly, fault_in};
ghost use Rattle.xls_biff.specs.SheetTable.{CellContext, sheet_record_at, weight_of, weight_of_type, formula_position, HasItems, ReadsByType, stands_for};
ghost use Rattle.xls_biff.specs.SheetTable as table;
ghost use Rattle.xls_biff.specs.Records.Rk.{mul_rk_count};
ghost use Rattle.xls_stream.specs.Substreams.{is_among, sheet_types};
ghost use Rattle.xls_stream.specs.declared.types.TheConstants as types;

use crate::records::bool_err::{Bes, read_bool_err};
use crate::records::dimensions::parse_dimensions;
use crate::records::formula::{FormulaParts, read_formula};
use crate::records::label::read_label;
use crate::records::label_sst::read_label_sst;
use crate::records::merge_cells::count_merges;
use crate::records::number::{NumberCell, read_number};
use crate::records::rk::{RkCell, count_mul_rk, read_rk, weight_of_mul_rk};
use crate::records::string::read_string;
use xls_data::Dimensions;
use xls_stream::types::{
    BOOL_ERR, DIMENSIONS, FORMULA, LABEL, LABEL_SST, MERGE_CELLS, MUL_RK, NUMBER, R_STRING, RK,
    STRING,
};
use xls_strings::{Biff, Record, XlsError};

/// Whether a record is one of a sheet's, by its type.
#[inline]
pub(crate) fn is_sheet_type(typ: u16) -> bool
    ensures { result ≡ is_among typ sheet_types }
{
    matches!(
        typ,
        NUMBER
            | DIMENSIONS
            | LABEL
            | R_STRING
            | BOOL_ERR
            | STRING
            | RK
            | LABEL_SST
            | MUL_RK
            | MERGE_CELLS
            | FORMULA
    )
}

/// A record of a sheet that has no fault, as far as it can be read without what is in force.
#[derive(Clone, Copy)]
pub enum SheetRecord<'a> {
    /// A record of another type, which gives nothing.
    Other,
    Number(NumberCell),
    Rk(RkCell),
    /// The body of a MulRk, and how many cells it has.
    MulRk {
        body: &'a [u8],
        count: usize,
    },
    BoolErr {
        position: (u32, u32),
        value: Bes,
    },
    /// A Label or an RString: its string isn't decoded.
    Label {
        position: (u32, u32),
        string: &'a [u8],
    },
    /// The index of a string of the table, which may have none there.
    LabelSst {
        position: (u32, u32),
        index: u32,
    },
    /// The text of the Formula before it, which isn't decoded.
    String(&'a [u8]),
    Formula(FormulaParts<'a>),
    /// The body of a MergeCells, and how many regions it has.
    MergeCells {
        body: &'a [u8],
        count: usize,
    },
    Dimensions(Dimensions),
}

impl SheetRecord<'_> {
    /// How many cells it gives at most: those of a MulRk, and one for each other type that gives cells.
    /// Takes no memory.
    #[inline(always)]
    pub fn weight(&self) -> u64
        ensures { (settings : CellContext) → result ≡ weight_of (stands_for settings self.now) }
    {
        match self {
            SheetRecord::MulRk { count, .. } => *count as u64,
            SheetRecord::Other | SheetRecord::MergeCells { .. } | SheetRecord::Dimensions(_) => 0,
            _ => 1,
        }
    }

    /// Where a Formula stands, and `None` for every other record. Takes no memory.
    #[inline(always)]
    pub fn formula_position(&self) -> Option<(u32, u32)>
        ensures { (settings : CellContext) → result ≡ formula_position (stands_for settings self.now) }
    {
        match self {
            SheetRecord::Formula(formula) => Some(formula.position),
            _ => None,
        }
    }
}

/// The body of a sheet's record, under a version. Its methods read it as one of a type.
#[derive(Clone, Copy)]
struct Body<'a> {
    bytes: &'a [u8],
    biff: Biff,
}

impl<'a> Body<'a> {
    #[inline(always)]
    fn number(&self) -> Result<SheetRecord<'a>, XlsError>
        ensures { ReadsByType types.NUMBER self.now.biff self.now.bytes.now result }
    {
        Ok(SheetRecord::Number(read_number(self.bytes)?))
    }

    #[inline(always)]
    fn rk(&self) -> Result<SheetRecord<'a>, XlsError>
        ensures { ReadsByType types.RK self.now.biff self.now.bytes.now result }
    {
        Ok(SheetRecord::Rk(read_rk(self.bytes)?))
    }

    #[inline(always)]
    fn label_sst(&self) -> Result<SheetRecord<'a>, XlsError>
        ensures { ReadsByType types.LABEL_SST self.now.biff self.now.bytes.now result }
    {
        let (position, index) = read_label_sst(self.bytes)?;
        Ok(SheetRecord::LabelSst { position, index })
    }

    #[inline(always)]
    fn mul_rk(&self) -> Result<SheetRecord<'a>, XlsError>
        ensures { ReadsByType types.MUL_RK self.now.biff self.now.bytes.now result }
    {
        let body = self.bytes;
        let count = count_mul_rk(body)?;
        Ok(SheetRecord::MulRk { body, count })
    }

    #[inline(always)]
    fn bool_err(&self) -> Result<SheetRecord<'a>, XlsError>
        ensures { ReadsByType types.BOOL_ERR self.now.biff self.now.bytes.now result }
    {
        let (position, value) = read_bool_err(self.bytes)?;
        Ok(SheetRecord::BoolErr { position, value })
    }

    /// Of a Label or an RString.
    #[inline(always)]
    fn label(&self) -> Result<SheetRecord<'a>, XlsError>
        ensures label { ReadsByType types.LABEL self.now.biff self.now.bytes.now result }
        ensures r_string { ReadsByType types.R_STRING self.now.biff self.now.bytes.now result }
    {
        let (position, string) = read_label(self.bytes, self.biff)?;
        Ok(SheetRecord::Label { position, string })
    }

    #[inline(always)]
    fn string(&self) -> Result<SheetRecord<'a>, XlsError>
        ensures { ReadsByType types.STRING self.now.biff self.now.bytes.now result }
    {
        Ok(SheetRecord::String(read_string(self.bytes, self.biff)?))
    }

    #[inline(always)]
    fn formula(&self) -> Result<SheetRecord<'a>, XlsError>
        ensures { ReadsByType types.FORMULA self.now.biff self.now.bytes.now result }
    {
        Ok(SheetRecord::Formula(read_formula(self.bytes)?))
    }

    #[inline(always)]
    fn merge_cells(&self) -> Result<SheetRecord<'a>, XlsError>
        ensures { ReadsByType types.MERGE_CELLS self.now.biff self.now.bytes.now result }
    {
        let body = self.bytes;
        let count = count_merges(body)?;
        Ok(SheetRecord::MergeCells { body, count })
    }

    #[inline(always)]
    fn dimensions(&self) -> Result<SheetRecord<'a>, XlsError>
        ensures { ReadsByType types.DIMENSIONS self.now.biff self.now.bytes.now result }
    {
        Ok(SheetRecord::Dimensions(parse_dimensions(self.bytes)?))
    }

    /// Whatever the type.
    #[inline(always)]
    fn read(&self, typ: u16) -> Result<SheetRecord<'a>, XlsError>
        ensures { ReadsByType typ self.now.biff self.now.bytes.now result }
    {
        match typ {
            NUMBER => self.number(),
            RK => self.rk(),
            LABEL_SST => self.label_sst(),
            MUL_RK => self.mul_rk(),
            BOOL_ERR => self.bool_err(),
            LABEL | R_STRING => self.label(),
            STRING => self.string(),
            FORMULA => self.formula(),
            MERGE_CELLS => self.merge_cells(),
            DIMENSIONS => self.dimensions(),
            _ => Ok(SheetRecord::Other),
        }
    }
}

/// What a record of a sheet holds, or its first fault: the error that its reader answers, out of memory
/// apart, whatever page, classes, strings and date system are in force, and of a Formula `Len` and the
/// errors of its value. Takes no memory.
#[inline(always)]
pub fn read_sheet_record<'a>(r: &Record<'a>, biff: Biff) -> Result<SheetRecord<'a>, XlsError>
    ensures exact { (settings : CellContext) → settings.version ≡ biff →
        Exactly (stands_for settings) result (sheet_record_at settings r.now.typ r.now.body.now) }
    ensures items { IfOk result (HasItems r.now.typ r.now.body.now) }
{
    let body = Body {
        bytes: r.body,
        biff,
    };
    body.read(r.typ)
}

/// The first fault of a sheet's record, as `read_sheet_record` finds it. Takes no memory.
#[inline(always)]
pub fn check_sheet_record(r: &Record<'_>, biff: Biff) -> Result<(), XlsError>
    ensures { (settings : CellContext) → settings.version ≡ biff →
        Exactly (λ u. u) result (fault_in (sheet_record_at settings r.now.typ r.now.body.now)) }
{
    read_sheet_record(r, biff)?;
    Ok(())
}

/// How many cells a record of a type gives at most, whatever its body, if it isn't a MulRk.
fn weight_by_type(typ: u16) -> u64
    ensures { result ≡ weight_of_type typ }
{
    match typ {
        MUL_RK | MERGE_CELLS | DIMENSIONS => 0,
        _ => u64::from(is_sheet_type(typ)),
    }
}

/// How many cells a sheet's record without a fault gives at most: those of a MulRk, one for a Number,
/// Label, RString, BoolErr, String, RK, LabelSst or Formula, and none for every other record and for a
/// MulRk with a fault. Takes no memory.
pub fn sheet_record_weight(r: &Record<'_>) -> u64
    ensures table { (settings : CellContext) (g : table.SheetRecord) →
        sheet_record_at settings r.now.typ r.now.body.now ≡ Ok g → result ≡ weight_of g }

    // Whatever the body; a MulRk has its cells, or none where it has a fault.
    ensures typed { r.now.typ ≢ types.MUL_RK → result ≡ weight_of_type r.now.typ }
    ensures faulty { r.now.typ ≡ types.MUL_RK → IsErr (mul_rk_count r.now.body.now) → result ≡ 0 }
{
    if r.typ == MUL_RK {
        return weight_of_mul_rk(r.body);
    }
    weight_by_type(r.typ)
}
