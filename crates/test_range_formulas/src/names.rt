//! Defined names, in the bytes of records.

use std::alloc::{AllocError, Global};
use std::test::Fail;
use xls_defined_names::{DefinedNames, kinds_text, name_bytes, name_formula, scope_of};
use xls_record::Biff;
use xls_shown_ptg::Fault;
use xls_strings::Strings;
use xls_text::XlsEncoding;

/// Two names; the tokens of the first go on in a Continue record, with an extra byte behind them.
static STREAM: [u8; 59] = [
    9, 8, 0, 0, // BOF
    24, 0, 21, 0, 0, 0, 0, 4, 3, 0, 0, 0, 0, 0, 0, 0, 0, 0, 0, 82, 97, 116, 101, 30, 7, // Lbl: Rate, 7
    60, 0, 2, 0, 0, 9, // Continue
    24, 0, 16, 0, 33, 0, 0, 1, 0, 0, 0, 0, 2, 0, 0, 0, 0, 0, 0, 6, // Lbl: Print_Area of the second sheet, hidden
    10, 0, 0, 0, // EOF
];

fn names_of(alloc: Global) -> Result<DefinedNames, AllocError> {
    DefinedNames::read(alloc, &STREAM, Biff::Biff8, &XlsEncoding::Utf16)
}

#[test]
fn reads_names_by_numbers(rt: HostRuntime) -> Result<(), Fail> {
    let names = names_of(rt.alloc())?;
    assert!(rt; names.all().len() == 2);
    assert!(rt; names.numbered(0).is_none() && names.numbered(3).is_none());
    assert!(rt;
        matches!(names.numbered(1), Some(name) if name.name.as_str() == "Rate" && name.sheet == 0)
    );
    assert!(rt;
        matches!(names.numbered(2), Some(name) if name.name.as_str() == "Print_Area" && name.sheet == 2)
    );
    Ok(())
}

#[test]
fn tells_kinds_and_scopes(rt: HostRuntime) -> Result<(), Fail> {
    let names = names_of(rt.alloc())?;
    let mut sheets = Strings::new(rt.alloc());
    sheets.push("Data")?;
    let Some(last) = names.numbered(2) else {
        return Err(Fail::from("no second name"));
    };
    assert!(rt; kinds_text(rt.alloc(), last.kinds)?.as_str() == "hidden builtin");
    assert!(rt; scope_of(last.sheet, &sheets) == "#REF");
    assert!(rt; scope_of(1, &sheets) == "Data");
    assert!(rt; scope_of(0, &sheets) == "");
    Ok(())
}

#[test]
fn lends_the_tokens_of_a_name(rt: HostRuntime) -> Result<(), Fail> {
    let names = names_of(rt.alloc())?;
    let Some(first) = names.numbered(1) else {
        return Err(Fail::from("no first name"));
    };
    let bytes = name_bytes(rt.alloc(), &STREAM, first)?;
    let formula = name_formula(Biff::Biff8, bytes.as_slice())?;
    assert!(rt; formula.tokens == [0x1E, 7, 0].as_slice());
    assert!(rt; formula.extra == [9].as_slice());
    assert!(rt; matches!(name_formula(Biff::Biff8, &[0; 13]), Err(Fault::Xls(_))));
    Ok(())
}
