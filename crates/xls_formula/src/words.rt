//! The texts that tokens print, appended to one text.

ghost use Rattle.std.specs.Prelude.{◌≡◌, false, ◌++◌, codes, OnOk};
ghost use Rattle.std.specs.Fmt.{decimal, digits};
ghost use Rattle.std.specs.Str.{IsAscii, chars};
ghost use Rattle.xls_bytes.specs.Columns.{column_name};
ghost use Rattle.xls_strings.specs.Texts.{text_of};
ghost use Rattle.xls_dates.specs.Numbers.{bits_text};
ghost use Rattle.xls_rounding.specs.FormulaNumbers.{formula_number};
ghost use Rattle.xls_text.specs.Pages.{string_text};
ghost use Rattle.xls_formula.specs.Effects.{str_text};
ghost use Rattle.xls_formula.specs.Holding.{lent_text, tree_of};
ghost use Rattle.xls_formula.specs.Tree.{area_text, corner_text, dollar, on_sheet, render};
ghost use Rattle.xls_data.specs.Errors.{error_text};
ghost use Rattle.xls_formula.specs.Words.{bool_word, err_text, number_word, operator_text, space_mark};

use crate::numbers::NumberStyle;
use std::alloc::AllocError;
use std::str::from_utf8;
use xls_bytes::push_column;
use xls_data::{CellErrorType, Number};
use xls_operands::Appended;
use xls_ptg::{Corner, Operator};
use xls_rounding::push_formula_number;
use xls_text::XlsEncoding;

/// An operand without operands of its own.
#[derive(Clone, Copy)]
pub enum Word<'a> {
    /// A text as it stands.
    Plain(&'a str),
    /// A whole number.
    Int(u16),
    /// The double with these bits.
    Num(NumberStyle, u64),
    /// An error value.
    Err(CellErrorType),
    /// A string in quotes.
    Str {
        encoding: XlsEncoding,
        high_byte: Option<bool>,
        units: &'a [u8],
        cch: u8,
    },
    /// A cell, on the sheet of this name if there is one.
    Ref {
        sheet: Option<&'a str>,
        corner: Corner,
    },
    /// An area, likewise.
    Area {
        sheet: Option<&'a str>,
        first: Corner,
        last: Corner,
    },
    /// Cells that are gone, on the sheet of this name.
    Err3d(&'a str),
}

/// A binary operator. `Ge` and `Gt` are exchanged, as in the crate calamine.
#[tactic(auto, unfolding(std::specs::Prelude::chars))]
pub(crate) fn operator_text(operator: Operator) -> &'static str
    ensures { chars result.now ≡ operator_text operator }
{
    match operator {
        Operator::Add => "+",
        Operator::Sub => "-",
        Operator::Mul => "*",
        Operator::Div => "/",
        Operator::Power => "^",
        Operator::Concat => "&",
        Operator::Lt => "<",
        Operator::Le => "<=",
        Operator::Eq => "=",
        Operator::Ge => ">",
        Operator::Gt => ">=",
        Operator::Ne => "<>",
        Operator::Isect => " ",
        Operator::Union => ",",
        Operator::Range => ":",
    }
}

/// A truth value.
#[tactic(auto, unfolding(std::specs::Prelude::chars))]
pub(crate) fn bool_text(truth: bool) -> &'static str
    ensures { chars result.now ≡ bool_word truth }
{
    if truth { "TRUE" } else { "FALSE" }
}

/// ASCII, which is text as it stands.
pub(crate) fn ascii(bytes: &[u8]) -> &str
    requires { IsAscii bytes.now }
    ensures { result.now ≡ bytes.now }
{
    from_utf8(bytes).unwrap()
}

/// Appends a text.
pub(crate) fn push_text(out: &mut String, text: &str) -> Result<(), AllocError>
    ensures { OnOk result (text_of out.new ≡ text_of out.old ++ chars text.now) }
{
    out.push_str(text)?;
    Ok(())
}

/// Appends a whole number in decimal.
pub(crate) fn push_number(out: &mut String, n: u32) -> Result<(), AllocError>
    ensures { OnOk result (text_of out.new ≡ text_of out.old ++ decimal n) }
{
    write!(out, "{n}")?;
    Ok(())
}

/// Appends a byte in lower hexadecimal.
pub(crate) fn push_hex(out: &mut String, n: u8) -> Result<(), AllocError>
    ensures { OnOk result (text_of out.new ≡ text_of out.old ++ digits 16 false n) }
{
    write!(out, "{n:x}")?;
    Ok(())
}

/// Appends a double, a whole number in decimal or else by its bits.
fn push_bits(out: &mut String, bits: u64) -> Result<(), AllocError>
    ensures { OnOk result (text_of out.new ≡ text_of out.old ++ bits_text bits) }
{
    let number = Number::Bits(bits);
    write!(out, "{number}")?;
    Ok(())
}

/// Appends a double as Excel shows it in a formula.
fn push_decimal(out: &mut String, bits: u64) -> Result<(), AllocError>
    ensures { OnOk result (text_of out.new ≡ text_of out.old ++ formula_number bits) }
{
    push_formula_number(bits, out)?;
    Ok(())
}

/// Appends the double with these bits.
fn push_double(out: &mut String, style: NumberStyle, bits: u64) -> Result<(), AllocError>
    ensures { OnOk result (text_of out.new ≡ text_of out.old ++ number_word style bits) }
{
    match style {
        NumberStyle::Bits => push_bits(out, bits),
        NumberStyle::Decimal => push_decimal(out, bits),
    }
}

/// Appends an error value as a cell prints it.
fn push_cell_error(out: &mut String, error: CellErrorType) -> Result<(), AllocError>
    ensures { OnOk result (text_of out.new ≡ text_of out.old ++ error_text error) }
{
    write!(out, "{error}")?;
    Ok(())
}

/// Appends an error value, as a cell prints it but for one.
#[tactic(auto, unfolding(std::specs::Prelude::chars))]
fn push_error(out: &mut String, error: CellErrorType) -> Result<(), AllocError>
    ensures { OnOk result (text_of out.new ≡ text_of out.old ++ err_text error) }
{
    match error {
        CellErrorType::GettingData => push_text(out, "#GETTING_DATA"),
        _ => push_cell_error(out, error),
    }
}

/// Appends the text of a string.
pub(crate) fn push_decoded(
    out: &mut String,
    encoding: XlsEncoding,
    high_byte: Option<bool>,
    bytes: &[u8],
    count: usize,
) -> Result<(), AllocError>
    ensures { OnOk result (text_of out.new
        ≡ text_of out.old ++ string_text encoding high_byte bytes.now count) }
{
    encoding.decode_to(bytes, count, out, high_byte)?;
    Ok(())
}

/// Appends a string in quotes.
#[tactic(auto, unfolding(std::specs::Prelude::chars))]
fn push_quoted(
    out: &mut String,
    encoding: XlsEncoding,
    high_byte: Option<bool>,
    bytes: &[u8],
    count: usize,
) -> Result<(), AllocError>
    ensures { OnOk result (text_of out.new
        ≡ text_of out.old ++ str_text encoding high_byte bytes.now count) }
{
    push_text(out, "\"")?;
    push_decoded(out, encoding, high_byte, bytes, count)?;
    push_text(out, "\"")
}

/// A space or a return.
pub(crate) fn space_mark(is_return: bool) -> u8
    ensures { result ≡ space_mark is_return }
{
    if is_return { b'\r' } else { b' ' }
}

#[tactic(auto, unfolding(std::specs::Prelude::chars))]
fn fixed_mark(is_relative: bool) -> &'static str
    ensures { chars result.now ≡ dollar is_relative }
{
    if is_relative { "" } else { "$" }
}

fn push_letters(out: &mut String, column: u32) -> Result<(), AllocError>
    ensures { OnOk result (text_of out.new ≡ text_of out.old ++ column_name column) }
{
    push_column(column, out)?;
    Ok(())
}

/// Appends a cell, with `$` before what isn't relative.
pub(crate) fn push_corner(out: &mut String, corner: Corner) -> Result<(), AllocError>
    ensures { OnOk result (text_of out.new ≡ text_of out.old ++ corner_text corner) }
{
    push_text(out, fixed_mark(corner.is_column_relative))?;
    push_letters(out, u32::from(corner.column))?;
    push_text(out, fixed_mark(corner.is_row_relative))?;
    push_number(out, u32::from(corner.row) + 1)
}

/// Appends an area by its first and its last cell.
#[tactic(auto, unfolding(std::specs::Prelude::chars))]
pub(crate) fn push_area(out: &mut String, first: Corner, last: Corner) -> Result<(), AllocError>
    ensures { OnOk result (text_of out.new ≡ text_of out.old ++ area_text first last) }
{
    push_corner(out, first)?;
    push_text(out, ":")?;
    push_corner(out, last)
}

/// Appends the sheet and `!`, where one is told.
#[tactic(auto, unfolding(std::specs::Prelude::chars))]
fn push_sheet(out: &mut String, sheet: Option<&str>) -> Result<(), AllocError>
    ensures { OnOk result (text_of out.new
        ≡ text_of out.old ++ on_sheet (lent_text sheet.entry)) }
{
    if let Some(name) = sheet {
        push_text(out, name)?;
        push_text(out, "!")?;
    }
    Ok(())
}

fn push_ref(out: &mut String, sheet: Option<&str>, corner: Corner) -> Result<(), AllocError>
    ensures { OnOk result (text_of out.new ≡ text_of out.old
        ++ (on_sheet (lent_text sheet.entry) ++ corner_text corner)) }
{
    push_sheet(out, sheet)?;
    push_corner(out, corner)
}

fn push_range(
    out: &mut String,
    sheet: Option<&str>,
    first: Corner,
    last: Corner,
) -> Result<(), AllocError>
    ensures { OnOk result (text_of out.new ≡ text_of out.old
        ++ (on_sheet (lent_text sheet.entry) ++ area_text first last)) }
{
    push_sheet(out, sheet)?;
    push_area(out, first, last)
}

/// Appends cells that are gone, on a sheet.
#[tactic(auto, unfolding(std::specs::Prelude::chars))]
fn push_err3d(out: &mut String, sheet: &str) -> Result<(), AllocError>
    ensures { OnOk result (text_of out.new
        ≡ text_of out.old ++ (chars sheet.now ++ codes "!#REF!")) }
{
    push_text(out, sheet)?;
    push_text(out, "!#REF!")
}

/// Appends the text of an operand.
fn push_word(out: &mut String, word: Word<'_>) -> Result<(), AllocError>
    ensures { OnOk result (text_of out.new ≡ text_of out.old ++ render (tree_of word.entry)) }
{
    match word {
        Word::Plain(text) => push_text(out, text),
        Word::Int(n) => push_number(out, u32::from(n)),
        Word::Num(style, bits) => push_double(out, style, bits),
        Word::Err(error) => push_error(out, error),
        Word::Str {
            encoding,
            high_byte,
            units,
            cch,
        } => push_quoted(out, encoding, high_byte, units, usize::from(cch)),
        Word::Ref { sheet, corner } => push_ref(out, sheet, corner),
        Word::Area { sheet, first, last } => push_range(out, sheet, first, last),
        Word::Err3d(sheet) => push_err3d(out, sheet),
    }
}

impl Appended for Word<'_> {
    ghost use Rattle.xls_formula.specs.Holding.{tree_of};
    ghost use Rattle.xls_formula.specs.Tree.{render};

    ghost text = { λ word. render (tree_of word) };

    fn append(&self, out: &mut String) -> Result<(), AllocError> {
        push_word(out, *self)
    }
}
