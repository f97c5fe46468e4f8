//! What the record of a formula of a range holds.

ghost use Rattle.std.specs.Prelude.{◌≡◌, ◌≤◌, ◌+◌, length};
ghost use Rattle.xls_shown_ptg.specs.Reading.{Exactly};
ghost use Rattle.xls_shared_formulas.specs.Contents as contents;

use crate::fields::{CellPlace, FormulaKind, least_size};
use xls_ptg::word_at;
use xls_record::{Part, XlsError};
use xls_shown_ptg::Fault;

/// The tokens of a formula, and the extra bytes behind them.
#[derive(Clone, Copy)]
pub struct FormulaBytes<'a> {
    pub tokens: &'a [u8],
    pub extra: &'a [u8],
}

/// A cell whose value a data table varies.
#[derive(Clone, Copy, Debug, PartialEq, Eq)]
pub enum TableInput {
    Cell(CellPlace),
    /// It is gone: `#REF!`.
    Gone,
}

/// The cells whose values a data table varies, at least one: `TABLE(row,column)`.
#[derive(Clone, Copy, Debug, PartialEq, Eq)]
pub struct TableInputs {
    pub row: Option<TableInput>,
    pub column: Option<TableInput>,
}

/// What a record holds.
#[derive(Clone, Copy)]
pub enum Contents<'a> {
    /// ShrFmla and Array.
    Formula(FormulaBytes<'a>),
    /// Table.
    Table(TableInputs),
}

/// A part of a record that is too short.
fn short(expected: usize, found: usize, typ: Part) -> Fault
    ensures { result ≡ contents.short typ expected found }
{
    Fault::Xls(XlsError::Len {
        expected,
        found,
        typ,
    })
}

/// The tokens, so many bytes, that some bytes begin with, and the extra bytes behind them. `Len` of this part where fewer bytes are
/// there.
pub fn split_tokens(size: usize, bytes: &[u8], typ: Part) -> Result<FormulaBytes<'_>, Fault>
    ensures { Exactly contents.bytes_view result (contents.tokens_in typ size bytes.now) }
{
    if bytes.len() < size {
        return Err(short(size, bytes.len(), typ));
    }
    let (tokens, extra) = bytes.split_at(size);
    Ok(FormulaBytes { tokens, extra })
}

/// The tokens, whose count of bytes stands in the two bytes before them at a place, and what is behind them.
fn formula_at(body: &[u8], place: usize) -> Result<FormulaBytes<'_>, Fault>
    requires { place + 2 ≤ length body.now }
    ensures { Exactly contents.bytes_view result (contents.formula_at place body.now) }
{
    let (_, bytes) = body.split_at(place + 2);
    split_tokens(word_at(body, place) as usize, bytes, Part::Rgce)
}

/// The input at a place.
fn input_at(body: &[u8], place: usize, is_gone: bool) -> TableInput
    requires { place + 4 ≤ length body.now }
    ensures { result ≡ contents.input_at place is_gone body.now }
{
    if is_gone {
        return TableInput::Gone;
    }
    TableInput::Cell(CellPlace {
        row: word_at(body, place),
        column: word_at(body, place + 2),
    })
}

/// The inputs of a table.
fn inputs_at(body: &[u8]) -> TableInputs
    requires { 16 ≤ length body.now }
    ensures { result ≡ contents.inputs_at body.now }
{
    let flags = word_at(body, 6);
    let first = input_at(body, 8, flags / 0x10 % 2 == 1);
    if flags / 0x08 % 2 == 1 {
        let second = input_at(body, 12, flags / 0x20 % 2 == 1);
        return TableInputs {
            row: Some(first),
            column: Some(second),
        };
    }
    if flags / 0x04 % 2 == 1 {
        return TableInputs {
            row: Some(first),
            column: None,
        };
    }
    TableInputs {
        row: None,
        column: Some(first),
    }
}

/// What the record of a formula holds, by its bytes, `SheetFormulas::bytes_of`: the tokens and their extra bytes, or a table's
/// inputs. `Len` where the tokens are cut, which tells how many bytes they have; and where the head is, as in no formula that
/// `SheetFormulas` knows.
pub fn contents_of(kind: FormulaKind, body: &[u8]) -> Result<Contents<'_>, Fault>
    ensures { Exactly contents.contents_view result (contents.contents_of kind body.now) }
{
    let least = least_size(kind);
    if body.len() < least {
        return Err(short(least, body.len(), Part::Rgce));
    }
    match kind {
        FormulaKind::Shared => Ok(Contents::Formula(formula_at(body, 8)?)),
        FormulaKind::Array => Ok(Contents::Formula(formula_at(body, 12)?)),
        FormulaKind::Table => Ok(Contents::Table(inputs_at(body))),
    }
}
