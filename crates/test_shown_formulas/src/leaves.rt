//! The leaves of formulas, as Excel shows them.

use std::alloc::{AllocError, Global};
use std::test::Fail;
use xls_data::CellErrorType;
use xls_formula_leaves::{
    Place, bool_text, error_text, operator_text, placed, push_area, push_array, push_cell,
    push_int, push_number, push_string,
};
use xls_ptg::{Corner, Operator};
use xls_record::Biff;
use xls_text::XlsEncoding;

/// Doubles by their bits, as Excel shows them in formulas.
static NUMBERS: [(u64, &str); 13] = [
    (0x3FF0_0068_DB8B_AC71, "1.0001"),
    (0x405E_DD3C_07FB_4C99, "123.456789012346"),
    (0x3EE9_E409_3026_78BA, "1.23456789012346E-05"),
    (0x3EE9_E409_301B_5A02, "0.0000123456789"),
    (0x43E5_6A95_319D_63E1, "12345678901234600000"),
    (0x441A_C53A_7E04_BCDA, "1.23456789012346E+20"),
    (0x5482_0FE0_BA17_F46D, "1.2345678901235E+99"),
    (0x3C32_725D_D1D2_43AB, "0.000000000000000001"),
    (0x3BFD_83C9_4FB6_D2AB, "1E-19"),
    (0x7FEF_FFFF_FFFF_FFFF, "1.7976931348623E+308"),
    (0x7FF8_0000_0000_0000, "2.6965397022935E+308"),
    (0x8000_0000_0000_0000, "-0"),
    (0xB59D_EE7A_4AD4_B81F, "-2E-50"),
];

fn number(alloc: Global, bits: u64) -> Result<String, AllocError> {
    let mut text = String::new(alloc);
    push_number(bits, &mut text)?;
    Ok(text)
}

#[test]
fn shows_numbers_as_excel_does(rt: HostRuntime) -> Result<(), Fail> {
    for (bits, expected) in NUMBERS.iter() {
        assert!(rt; number(rt.alloc(), *bits)?.as_str() == *expected);
    }
    Ok(())
}

fn corner(row: u16, column: u16, is_row_relative: bool, is_column_relative: bool) -> Corner {
    Corner {
        row,
        column,
        is_row_relative,
        is_column_relative,
    }
}

fn area(alloc: Global, biff: Biff, first: Corner, last: Corner) -> Result<String, AllocError> {
    let mut text = String::from_str(alloc, "=")?;
    push_area(biff, first, last, &mut text)?;
    Ok(text)
}

#[test]
fn shows_whole_rows_and_columns(rt: HostRuntime) -> Result<(), Fail> {
    let top = corner(0, 0, false, true);
    let rows = area(rt.alloc(), Biff::Biff8, top, corner(2, 255, true, true))?;
    assert!(rt; rows.as_str() == "=$1:3");
    let columns = area(rt.alloc(), Biff::Biff5, top, corner(16383, 2, true, false))?;
    assert!(rt; columns.as_str() == "=A:$C");
    let cells = area(rt.alloc(), Biff::Biff8, top, corner(16383, 2, true, false))?;
    assert!(rt; cells.as_str() == "=A$1:$C16384");
    Ok(())
}

#[test]
fn counts_from_the_place(rt: HostRuntime) -> Result<(), Fail> {
    let place = Place { row: 1, column: 0 };
    let mut text = String::new(rt.alloc());
    let before = corner(0xFFFF, 0x3FFF, true, true);
    push_cell(placed(Biff::Biff8, place, before), &mut text)?;
    assert!(rt; text.as_str() == "IV1");
    Ok(())
}

#[test]
fn shows_constants(rt: HostRuntime) -> Result<(), Fail> {
    let mut text = String::new(rt.alloc());
    push_int(65535, &mut text)?;
    text.push_str(operator_text(Operator::Ge))?;
    text.push_str(bool_text(true))?;
    text.push_str(operator_text(Operator::Gt))?;
    text.push_str(error_text(CellErrorType::GettingData))?;
    push_string(
        rt.alloc(),
        XlsEncoding::Windows1252,
        None,
        &[0x22, 0x80],
        2,
        &mut text,
    )?;
    assert!(rt; text.as_str() == "65535>=TRUE>#GETTING_DATA\"\"\"€\"");
    Ok(())
}

fn array(alloc: Global, extra: &[u8]) -> Result<String, AllocError> {
    let mut text = String::from_str(alloc, "=")?;
    match push_array(alloc, XlsEncoding::Utf16, Biff::Biff8, extra, &mut text) {
        Ok(left) => {
            push_int(left.len().min(9) as u16, &mut text)?;
        }
        Err(fault) => {
            let reason = format!(in alloc; "{fault}")?;
            text.push_str(reason.as_str())?;
        }
    }
    Ok(text)
}

#[test]
fn shows_constant_arrays(rt: HostRuntime) -> Result<(), Fail> {
    let extra = [
        1, 1, 0, 0, 0, 0, 0, 0, 0, 0, 0, 0, 2, 1, 0, 0, 0x61, 4, 1, 0, 0, 0, 0, 0, 0, 0, 16, 42, 0,
        0, 0, 0, 0, 0, 0, 7,
    ];
    assert!(rt; array(rt.alloc(), &extra)?.as_str() == "={,\"a\";TRUE,#N/A}1");
    assert!(rt;
        array(rt.alloc(), &extra[..30])?.as_str()
            == "=Invalid PtgExtraArray length, expected at least 8, found 3"
    );
    Ok(())
}
