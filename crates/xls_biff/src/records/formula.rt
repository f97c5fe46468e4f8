//! Formula, without its tokens.

ghost use Rattle.std.specs.Prelude.{◌≡◌, ◌≤◌, [], Bool, List, Option, Ok, length};
ghost use Rattle.std.specs.Option.{option_copied};
ghost use Rattle.xls_data.specs.Content.{text};
ghost use Rattle.xls_data.specs.Data.{content_of};
ghost use Rattle.xls_dates.specs.declared.formats.CellFormat.{CellFormat};
ghost use Rattle.xls_record.specs.Reading.{Exactly};
ghost use Rattle.xls_biff.specs.Cells.{value_of};
ghost use Rattle.xls_biff.specs.Records.Formula.{formula_at, formula_parts, formula_value_at, special_value, value_content};
ghost use Rattle.xls_biff.specs.SheetTable.{CellContext, SheetRecord, sheet_record_at, formula_position};

use crate::cells::{cell_position, class_of, error_of_code, position_of};
use crate::fields::u16_at;
use std::alloc::Global;
use xls_bytes::read_bits;
use xls_data::{CellErrorType, CellFormat, Data, Number, Numeric};
use xls_stream::types::FORMULA;
use xls_strings::{Part, Record, XlsError, need};

/// The empty text, which takes no memory.
fn empty_text(alloc: Global) -> Data
    ensures { content_of result ≡ text [] }
{
    Data::String(String::new(alloc))
}

/// The value of a formula, FormulaValue of [MS-XLS], without the text of a String record.
#[derive(Clone, Copy)]
pub enum FormulaValue {
    /// A number by the bits of its double, which may be a date or a duration.
    Number(u64),
    /// A truth value.
    Bool(bool),
    /// An error value.
    Error(CellErrorType),
    /// The empty text.
    EmptyText,
    /// The text of the String record that follows.
    Text,
}

impl FormulaValue {
    /// The same as a value that owns its text, a number in the form `Bits` under a class and a date
    /// system; `None` where a String record has it. Takes no memory.
    fn into_data(self, alloc: Global, class: Option<&CellFormat>, is_1904: bool) -> Option<Data>
        ensures { value_of result ≡ value_content (option_copied class.entry) is_1904 self }
    {
        match self {
            FormulaValue::Number(bits) => {
                Some(Numeric::of_number(Number::Bits(bits), class, is_1904).into_data())
            }
            FormulaValue::Bool(truth) => Some(Data::Bool(truth)),
            FormulaValue::Error(error) => Some(Data::Error(error)),
            FormulaValue::EmptyText => Some(empty_text(alloc)),
            FormulaValue::Text => None,
        }
    }
}

/// A value that is no number, by the bytes 0 and 2.
fn special(kind: u8, byte: u8) -> Result<FormulaValue, XlsError>
    ensures { (class : Option CellFormat) (is_1904 : Bool) →
        Exactly (value_content class is_1904) result (special_value kind byte) }
{
    match kind {
        0 => Ok(FormulaValue::Text),
        1 => Ok(FormulaValue::Bool(byte != 0)),
        2 => Ok(FormulaValue::Error(error_of_code(byte)?)),
        3 => Ok(FormulaValue::EmptyText),
        _ => Err(XlsError::Unrecognized {
            typ: Part::CellError,
            val: kind,
        }),
    }
}

/// The value of a formula, FormulaValue ([MS-XLS] 2.5.133), in 8 bytes: a double, a truth value, an error
/// value, an empty text, or none where a String record follows with the text. `Unrecognized` for another
/// kind and for the code of no error value. Takes no memory.
fn read_formula_value(r: &[u8]) -> Result<FormulaValue, XlsError>
    requires { 8 ≤ length r.now }
    ensures { (class : Option CellFormat) (is_1904 : Bool) →
        Exactly (value_content class is_1904) result (formula_value_at class is_1904 r.now) }
{
    if u16_at(r, 6) == 0xFFFF {
        return special(r[0], r[2]);
    }
    Ok(FormulaValue::Number(read_bits(r)))
}

/// The value of a formula in 8 bytes, as `read_formula_value` reads it; `None` where a String record
/// follows with the text. Takes no memory.
pub fn parse_formula_value(
    alloc: Global,
    r: &[u8],
    format: Option<&CellFormat>,
    is_1904: bool,
) -> Result<Option<Data>, XlsError>
    requires { 8 ≤ length r.now }
    ensures { Exactly value_of result (formula_value_at (option_copied format.entry) is_1904 r.now) }
{
    let value = read_formula_value(r)?;
    Ok(value.into_data(alloc, format, is_1904))
}

/// What a Formula record holds: its position, its value, if the record has it, and the tokens.
#[derive(Drop)]
pub struct FormulaRecord<'a> {
    pub position: (u32, u32),
    pub value: Option<Data>,
    pub rgce: &'a [u8],
}

/// The same with an XF index, under whose class the value stands, and a value that owns nothing.
#[derive(Clone, Copy)]
pub struct FormulaParts<'a> {
    pub position: (u32, u32),
    pub xf: u16,
    pub value: FormulaValue,
    pub rgce: &'a [u8],
}

/// What a Formula record's body holds: row, column, XF index, a FormulaValue in bytes 6 to 13, and from
/// byte 20 on the tokens, with their length before them. `Len` for fewer than 20 bytes, and the value's
/// errors. Takes no memory.
pub fn read_formula(r: &[u8]) -> Result<FormulaParts<'_>, XlsError>
    ensures { (formats : List CellFormat) (is_1904 : Bool) →
        Exactly (formula_parts formats is_1904) result (formula_at formats is_1904 r.now) }
{
    need(r, 20, Part::Formula)?;
    let value = read_formula_value(&r[6..14])?;
    let (_, rgce) = r.split_at(20);
    Ok(FormulaParts {
        position: position_of(r),
        xf: u16_at(r, 4),
        value,
        rgce,
    })
}

/// What a Formula record's body holds, as `read_formula` reads it. The class is that of the XF index, and
/// `Other` where `formats` ends before it. Takes no memory.
pub fn parse_formula_record<'a>(
    alloc: Global,
    r: &'a [u8],
    formats: &[CellFormat],
    is_1904: bool,
) -> Result<FormulaRecord<'a>, XlsError>
    ensures { Exactly (λ f. (f.position, value_of f.value, f.rgce.now)) result (formula_at formats.now is_1904 r.now) }
{
    let read = read_formula(r)?;
    let class = class_of(formats, read.xf);
    Ok(FormulaRecord {
        position: read.position,
        value: read.value.into_data(alloc, class, is_1904),
        rgce: read.rgce,
    })
}

/// Where a Formula record without a fault stands, and `None` for a record of another type. Takes no
/// memory.
#[inline(always)]
pub fn formula_position(r: &Record<'_>) -> Option<(u32, u32)>
    ensures { (settings : CellContext) (g : SheetRecord) →
        sheet_record_at settings r.now.typ r.now.body.now ≡ Ok g → result ≡ formula_position g }
{
    if r.typ != FORMULA {
        return None;
    }
    cell_position(r.body)
}
