//! Shared formulas, arrays and tables, in the bytes of records, and where tokens point to them.

use std::alloc::{AllocError, Global};
use std::test::Fail;
use xls_record::Biff;
use xls_shared_formulas::{
    CellPlace, Contents, FormulaKind, FormulaStart, RangeFormula, SheetFormulas, TableInput,
    TableInputs, contents_of, read_start,
};
use xls_shown_ptg::Fault;

/// A shared formula of B2 for B2:B4, two tokens; an array of C1, whose record goes on in a Continue record: three tokens and an extra byte;
/// and a table of A1 for A1:A2 by the row input D5.
static PART: [u8; 94] = [
    9, 8, 0, 0, // BOF
    6, 0, 4, 0, 1, 0, 1, 0, // Formula
    188, 4, 12, 0, 1, 0, 3, 0, 1, 1, 0, 3, 2, 0, 22, 18, // ShrFmla
    6, 0, 4, 0, 0, 0, 2, 0, // Formula
    33, 2, 11, 0, 0, 0, 0, 0, 2, 2, 0, 0, 0, 0, 0, // Array
    60, 0, 7, 0, 0, 3, 0, 30, 7, 0, 9, // Continue
    6, 0, 4, 0, 0, 0, 0, 0, // Formula
    54, 2, 16, 0, 0, 0, 1, 0, 0, 0, 4, 0, 4, 0, 3, 0, 0, 0, 0, 0, // Table
    10, 0, 0, 0, // EOF
];

fn at(row: u16, column: u16) -> CellPlace {
    CellPlace { row, column }
}

/// Whether a formula's record holds these tokens and extra bytes.
fn has_tokens(
    alloc: Global,
    known: &SheetFormulas<'_>,
    formula: &RangeFormula,
    tokens: &[u8],
    extra: &[u8],
) -> Result<bool, AllocError> {
    let bytes = known.bytes_of(alloc, formula)?;
    Ok(match contents_of(formula.kind, bytes.as_slice()) {
        Ok(Contents::Formula(found)) => found.tokens == tokens && found.extra == extra,
        _ => false,
    })
}

#[test]
fn finds_formulas_by_tokens(rt: HostRuntime) -> Result<(), Fail> {
    let known = SheetFormulas::read(rt.alloc(), &PART, 1000, Biff::Biff8)?;
    let shared = known.formula_for(at(1, 1), at(3, 1))?;
    assert!(rt; shared.kind == FormulaKind::Shared && shared.offset == 1012);
    assert!(rt; has_tokens(rt.alloc(), &known, &shared, &[0x16, 0x12], &[])?);
    let array = known.formula_for(at(0, 2), at(0, 2))?;
    assert!(rt; array.kind == FormulaKind::Array && array.offset == 1036);
    assert!(rt; has_tokens(rt.alloc(), &known, &array, &[0x1E, 7, 0], &[9])?);
    let past = known.formula_for(at(1, 1), at(4, 1));
    assert!(rt; matches!(past, Err(Fault::NoFormula { row: 1, column: 1 })));
    Ok(())
}

#[test]
fn finds_tables(rt: HostRuntime) -> Result<(), Fail> {
    let known = SheetFormulas::read(rt.alloc(), &PART, 1000, Biff::Biff8)?;
    let table = known.table_for(at(0, 0), at(1, 0))?;
    let bytes = known.bytes_of(rt.alloc(), &table)?;
    let inputs = match contents_of(table.kind, bytes.as_slice())? {
        Contents::Table(inputs) => Some(inputs),
        Contents::Formula(_) => None,
    };
    let row = TableInputs {
        row: Some(TableInput::Cell(at(4, 3))),
        column: None,
    };
    assert!(rt; inputs == Some(row));
    assert!(rt;
        matches!(
            known.table_for(at(1, 1), at(1, 1)),
            Err(Fault::NoTable { .. })
        )
    );
    Ok(())
}

#[test]
fn tells_arrays_and_tables(rt: HostRuntime) -> Result<(), Fail> {
    let known = SheetFormulas::read(rt.alloc(), &PART, 1000, Biff::Biff8)?;
    let mut lines = known.lines();
    assert!(rt; matches!(lines.next(), Some(line) if line.kind == FormulaKind::Array));
    assert!(rt; matches!(lines.next(), Some(line) if line.kind == FormulaKind::Table));
    assert!(rt; lines.next().is_none());
    Ok(())
}

#[test]
fn reads_how_tokens_begin(rt: HostRuntime) -> Result<(), Fail> {
    assert!(rt; read_start(&[1, 3, 0, 1, 0, 9])? == FormulaStart::Exp(at(3, 1)));
    assert!(rt; read_start(&[2, 3, 0, 1, 0])? == FormulaStart::Tbl(at(3, 1)));
    assert!(rt; read_start(&[0x16])? == FormulaStart::Own);
    assert!(rt; read_start(&[1, 3, 0]).is_err());
    Ok(())
}
