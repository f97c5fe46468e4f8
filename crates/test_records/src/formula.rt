//! Expected values come from [MS-XLS] and from the rules of this project for older layouts.

use std::alloc::{AllocError, Global};
use std::test::*;
use xls_biff::{Biff, Part, Record, RecordIter, Refs, Strings, XlsError};
use xls_formula::*;
use xls_text::XlsEncoding;

const UTF16: XlsEncoding = XlsEncoding::Utf16;

const WINDOWS: XlsEncoding = XlsEncoding::Windows1252;

/// The name of one sheet, `A`.
fn one_sheet(alloc: Global) -> Result<Strings, AllocError> {
    let mut sheets = Strings::new(alloc);
    sheets.push("A")?;
    Ok(sheets)
}

/// One reference, to the first sheet.
fn one_reference(alloc: Global) -> Result<Refs, AllocError> {
    let mut refs = Refs::new(alloc);
    refs.push(0)?;
    Ok(refs)
}

/// The text of a formula in a workbook of one sheet, `A`, which reference 0 names.
fn text_by(
    alloc: Global,
    rgce: &[u8],
    biff: Biff,
    names: &Names,
    functions: &FunctionTable,
) -> Result<String, XlsError> {
    let encoding = if biff == Biff::Biff8 { UTF16 } else { WINDOWS };
    let sheets = one_sheet(alloc)?;
    let refs = one_reference(alloc)?;
    parse_formula(
        alloc, rgce, &sheets, names, &refs, &encoding, biff, functions,
    )
}

/// The same in one without names, with the functions of the table.
fn text_in(alloc: Global, rgce: &[u8], biff: Biff) -> Result<String, XlsError> {
    let functions = FunctionTable::shipped(alloc)?;
    text_by(alloc, rgce, biff, &Names::new(alloc), &functions)
}

fn is_text(answer: Result<String, XlsError>, text: &str) -> bool {
    match answer {
        Ok(printed) => printed.as_str() == text,
        Err(_) => false,
    }
}

fn is_refused(answer: Result<String, XlsError>, error: &XlsError) -> bool {
    match answer {
        Ok(_) => false,
        Err(e) => e == *error,
    }
}

/// Formulas with their texts.
static PRINTED: [(Biff, &[u8], &str); 17] = [
    // Each operator.
    (
        Biff::Biff8,
        b"\x43\0\x1E\x01\0\x1E\x02\0\x03\x1E\x03\0\x04\x1E\x04\0\x05\x1E\x05\0\x06\x1E\x06\0\x07\x1E\x07\0\x08\x1E\x08\0\x09\x1E\x09\0\x0A\x1E\x0A\0\x0B\x1E\x0B\0\x0C\x1E\x0C\0\x0D\x1E\x0D\0\x0E\x1E\x0E\0\x0F\x1E\x0F\0\x10\x1E\x10\0\x11\x12\x13\x14\x15",
        "(-+1+2-3*4/5^6&7<8<=9=10>11>=12<>13 14,15:16%)",
    ),
    // Cells on a sheet: the last row of BIFF8, an area.
    (Biff::Biff8, b"\x07\0\x3A\0\0\xFF\xFF\0\xC0", "A!A65536"),
    (
        Biff::Biff8,
        b"\x0B\0\x3B\0\0\0\0\x09\0\x01\xC0\x02\x40",
        "A!$B$1:$C$10",
    ),
    // Names outside the list.
    (Biff::Biff8, b"\x05\0\x23\0\0\0\0", "#REF!"),
    (
        Biff::Biff5,
        b"\x0F\0\x23\0\0\0\0\0\0\0\0\0\0\0\0\0\0",
        "#REF!",
    ),
    // Strings of both layouts.
    (Biff::Biff5, b"\x08\0\x17\x06SCHUCH", "\"SCHUCH\""),
    (Biff::Biff8, b"\x09\0\x17\x06\0SCHUCH", "\"SCHUCH\""),
    // The doubles 1 and 2.5.
    (Biff::Biff8, b"\x09\0\x1F\0\0\0\0\0\0\xF0\x3F", "1"),
    (
        Biff::Biff8,
        b"\x09\0\x1F\0\0\0\0\0\0\x04\x40",
        "0x4004000000000000",
    ),
    // Operators: PtgGe prints as in the crate calamine.
    (Biff::Biff8, b"\x07\0\x1E\x01\0\x1E\x05\0\x03", "1+5"),
    (Biff::Biff8, b"\x07\0\x1E\x01\0\x1E\x05\0\x0C", "1>5"),
    // A space before no operand.
    (Biff::Biff8, b"\x07\0\x19\x40\0\x01\x1E\x05\0", "5"),
    // An error value as in a cell, and the one that prints otherwise; words.
    (Biff::Biff8, b"\x02\0\x1C\x2A", "#N/A"),
    (Biff::Biff8, b"\x02\0\x1C\x2B", "#GETTING_DATA"),
    (Biff::Biff8, b"\x02\0\x1D\x01", "TRUE"),
    (Biff::Biff8, b"\x07\0\x39\0\0\0\0\0\0", "[PtgNameX]"),
    (Biff::Biff8, b"\x07\0\x3C\0\0\0\0\0\0", "A!#REF!"),
];

#[test]
fn prints_formulas(rt: HostRuntime) {
    for (biff, rgce, text) in PRINTED.iter() {
        assert!(rt; is_text(text_in(rt.alloc(), rgce, *biff), text));
    }
}

fn refuses(alloc: Global, rgce: &[u8], biff: Biff, error: &XlsError) -> bool {
    is_refused(text_in(alloc, rgce, biff), error)
}

#[test]
fn refuses_formulas(rt: HostRuntime) {
    let none = XlsError::InvalidFormula { stack_size: 0 };
    assert!(rt; refuses(rt.alloc(), &[0, 0], Biff::Biff8, &none));
    let cut = XlsError::Len {
        expected: 7,
        found: 4,
        typ: Part::PtgStr,
    };
    assert!(rt; refuses(rt.alloc(), b"\x05\0\x17\x06SCH", Biff::Biff5, &cut));
    for rgce in [&[1, 0, 3][..], &[7, 0, 0x1E, 1, 0, 3, 0x1E, 5, 0]] {
        assert!(rt; refuses(rt.alloc(), rgce, Biff::Biff8, &XlsError::StackLen));
    }
}

/// Whether a call of function 72 is refused by the functions of the table, and printed where it has a name.
fn calls_a_function_with_a_name(alloc: Global) -> Result<bool, AllocError> {
    let call = [0x07, 0x00, 0x1E, 0x01, 0x00, 0x22, 0x01, 0x48, 0x00];
    let names = Names::new(alloc);
    let mut functions = FunctionTable::shipped(alloc)?;
    let missing = text_by(alloc, &call, Biff::Biff8, &names, &functions);
    functions.push("X", 1)?;
    let text = text_by(alloc, &call, Biff::Biff8, &names, &functions);
    Ok(is_refused(missing, &XlsError::IfTab(72)) && is_text(text, "X(1)"))
}

#[test]
fn prints_the_functions_of_the_table(rt: HostRuntime) -> Result<(), Fail> {
    assert!(rt; calls_a_function_with_a_name(rt.alloc())?);
    Ok(())
}

fn is_shipped(functions: &FunctionTable) -> bool {
    functions.len() == FTAB_LEN
        && functions.name(0) == Some("COUNT")
        && functions.argc(11) == Some(254)
        && functions.name(71) == Some("HOUR")
        && functions.name(72).is_none()
        && functions.argc(72).is_none()
}

#[test]
fn ships_functions(rt: HostRuntime) -> Result<(), Fail> {
    assert!(rt; is_shipped(&FunctionTable::shipped(rt.alloc())?));
    assert!(rt; FTAB[60] == "RATE" && FTAB_ARGC[60] == 6);
    Ok(())
}

fn two_names(alloc: Global) -> Result<Names, AllocError> {
    let mut names = Names::new(alloc);
    names.push("Total", "A!$A$1")?;
    names.push("M", "A!$A$2")?;
    Ok(names)
}

fn has_two_names(names: &Names) -> bool {
    names.len() == 2
        && names.name(0) == Some("Total")
        && names.name(1) == Some("M")
        && names.name(2).is_none()
}

fn keeps_a_function(alloc: Global) -> Result<bool, AllocError> {
    let mut functions = FunctionTable::new(alloc);
    functions.push("X", 1)?;
    Ok(functions.len() == 1)
}

#[test]
fn keeps_lists(rt: HostRuntime) -> Result<(), Fail> {
    assert!(rt; has_two_names(&two_names(rt.alloc())?) && keeps_a_function(rt.alloc())?);
    Ok(())
}

// ---- defined names

fn names(alloc: Global, rgce: &[u8], index: Option<usize>, text: &str) -> bool {
    match parse_defined_names(alloc, rgce, Biff::Biff8) {
        Ok((found, printed)) => found == index && printed.as_str() == text,
        Err(_) => false,
    }
}

/// Tokens of a name, with the index of the reference and the text.
static NAMED: [(&[u8], Option<usize>, &str); 5] = [
    (&[0x3A, 0x00, 0x00, 0x01, 0x00, 0x01, 0x00], Some(0), "$B$2"),
    (&[], None, "empty rgce"),
    (&[0x17], None, "Unsupported ptg: 17"),
    (&[0x01], None, "Unsupported ptg: 1"),
    (&[0x5C, 0x02, 0x00], Some(2), "#REF!"),
];

#[test]
fn reads_what_a_name_names(rt: HostRuntime) {
    for (rgce, index, text) in NAMED.iter() {
        assert!(rt; names(rt.alloc(), rgce, *index, text));
    }
}

const TOTAL: &[u8] =
    b"\x18\x00\x1B\x00\x00\x00\x00\x05\x07\x00\x00\x00\x00\x00\x00\x00\x00\x00\x00Total\x3A\x00\x00\x01\x00\x01\x00";

fn record_of(bytes: &[u8]) -> Result<Record<'_>, XlsError> {
    match RecordIter::new(bytes).next() {
        Some(r) => r,
        None => Err(XlsError::Password),
    }
}

fn defines_total(alloc: Global, r: &Record<'_>) -> bool {
    match parse_lbl(alloc, r, &UTF16, Biff::Biff8) {
        Ok((name, (index, text))) => {
            name.as_str() == "Total" && index == Some(0) && text.as_str() == "$B$2"
        }
        Err(_) => false,
    }
}

#[test]
fn reads_a_defined_name(rt: HostRuntime) -> Result<(), Fail> {
    let r = record_of(TOTAL)?;
    assert!(rt; defines_total(rt.alloc(), &r) && check_lbl(&r, Biff::Biff8).is_ok());
    Ok(())
}

/// Whether a record is refused since its head has 13 of 14 bytes.
fn has_13_bytes(r: &Record<'_>) -> bool {
    let error = XlsError::Len {
        expected: 14,
        found: 13,
        typ: Part::Lbl,
    };
    check_lbl(r, Biff::Biff8).err() == Some(error)
}

#[test]
fn refuses_a_name_that_is_cut(rt: HostRuntime) -> Result<(), Fail> {
    let r = record_of(b"\x18\x00\x0D\x00\x00\x00\x00\x00\x00\x00\x00\x00\x00\x00\x00\x00\x00")?;
    assert!(rt; has_13_bytes(&r));
    Ok(())
}

// ---- nesting

/// A formula of 5,000 pairs of parentheses around 1.
fn nested_tokens(alloc: Global) -> Result<Vec<u8>, AllocError> {
    let mut rgce = Vec::new(alloc);
    rgce.extend_from_slice(&[0x8B, 0x13, 0x1E, 0x01, 0x00])?;
    for _ in 0..5_000 {
        rgce.push(0x15)?;
    }
    Ok(rgce)
}

/// Its text.
fn nested_text(alloc: Global) -> Result<String, AllocError> {
    let mut text = String::new(alloc);
    for _ in 0..5_000 {
        text.push('(')?;
    }
    text.push('1')?;
    for _ in 0..5_000 {
        text.push(')')?;
    }
    Ok(text)
}

/// Whether a formula is printed so, in a workbook with two names.
fn prints(alloc: Global, rgce: &[u8], text: &str) -> Result<bool, AllocError> {
    let names = two_names(alloc)?;
    let functions = FunctionTable::shipped(alloc)?;
    let printed = text_by(alloc, rgce, Biff::Biff8, &names, &functions);
    Ok(is_text(printed, text))
}

#[test]
fn prints_what_nests_5000_deep(rt: HostRuntime) -> Result<(), Fail> {
    let rgce = nested_tokens(rt.alloc())?;
    let text = nested_text(rt.alloc())?;
    assert!(rt; prints(rt.alloc(), &rgce, text.as_str())?);
    Ok(())
}

// ---- memory

/// A leaf of each kind, with its text.
static LEAVES: [(&[u8], &str); 24] = [
    (b"\x16", ""),
    (b"\x16\x19\x40\0\x02", "  "),
    (b"\x17\x02\0AB", "\"AB\""),
    (b"\x17\x01\x01\xAC\x20", "\"€\""),
    (b"\x1C\x2A", "#N/A"),
    (b"\x1C\x2B", "#GETTING_DATA"),
    (b"\x1D\x01", "TRUE"),
    (b"\x1E\xFF\xFF", "65535"),
    (b"\x1F\0\0\0\0\0\0\xF0\x3F", "1"),
    (b"\x1F\0\0\0\0\0\0\x04\x40", "0x4004000000000000"),
    (b"\x20\0\0\0\0\0\0\0", "{PtgArray}"),
    (b"\x21\x13\0", "PI()"),
    (b"\x22\0\x04\0", "SUM()"),
    (b"\x23\x01\0\0\0", "Total"),
    (b"\x23\x02\0\0\0", "M"),
    (b"\x24\xFF\xFF\xFF\x3F", "$XFD$65536"),
    (b"\x25\0\0\x01\0\0\xC0\x01\xC0", "A1:B2"),
    (b"\x2A\0\0\0\0", "#REF!"),
    (b"\x2B\0\0\0\0\0\0\0\0", "#REF!"),
    (b"\x39\0\0\0\0\0\0", "[PtgNameX]"),
    (b"\x3A\0\0\0\0\0\xC0", "A!A1"),
    (b"\x3B\0\0\0\0\x01\0\0\0\x01\0", "A!$A$1:$B$2"),
    (b"\x3C\0\0\0\0\0\0", "A!#REF!"),
    (b"\x3D\0\0\0\0\0\0\0\0\0\0", "A!#REF!"),
];

/// A formula of 5,000 such leaves with `+` between them.
fn sum_tokens(alloc: Global, leaf: &[u8]) -> Result<Vec<u8>, AllocError> {
    let len = leaf.len().saturating_mul(5_000).saturating_add(4_999);
    let mut rgce = Vec::new(alloc);
    rgce.extend_from_slice(&[(len % 256) as u8, (len / 256 % 256) as u8])?;
    rgce.extend_from_slice(leaf)?;
    for _ in 1..5_000 {
        rgce.extend_from_slice(leaf)?;
        rgce.push(0x03)?;
    }
    Ok(rgce)
}

/// Its text.
fn sum_text(alloc: Global, word: &str) -> Result<String, AllocError> {
    let mut text = String::new(alloc);
    text.push_str(word)?;
    for _ in 1..5_000 {
        text.push('+')?;
        text.push_str(word)?;
    }
    Ok(text)
}

#[test]
fn prints_5000_leaves_of_each_kind(rt: HostRuntime) -> Result<(), Fail> {
    for (leaf, word) in LEAVES.iter() {
        let rgce = sum_tokens(rt.alloc(), leaf)?;
        let text = sum_text(rt.alloc(), word)?;
        assert!(rt; prints(rt.alloc(), &rgce, text.as_str())?);
    }
    Ok(())
}
