//! Tokens by their bytes, [MS-XLS] 2.5.198, and the rules of this project for older layouts.

use std::alloc::{AllocError, Global};
use std::test::Fail;
use xls_record::Biff;
use xls_shown_ptg::{
    Fault, SerAr, ShownPtg, after_elf, after_mem_area, operand_count, read_array_size, read_ser_ar,
    read_shown_ptg,
};

/// Tokens in BIFF8 and before, each with the bytes behind its first, or 255 where it is refused.
static SIZES: [(&[u8], u8, u8); 10] = [
    (&[0x02, 0, 0, 0, 0], 255, 255),
    (&[0x0C], 0, 0),
    (&[0x18, 0x0B, 0, 0, 0, 0], 5, 5),
    (&[0x18, 0x1D, 0, 0, 0, 0], 255, 255),
    (&[0x19, 0x00, 0, 0], 3, 3),
    (&[0x42, 0x82, 0x04, 0x00], 3, 3),
    (&[0x4E, 0, 0], 2, 2),
    (&[0x6C, 0, 0, 0, 0], 4, 3),
    (&[0x79, 0, 0, 0, 0, 0, 0], 6, 255),
    (&[0x80, 0, 0], 255, 255),
];

fn size_of(token: &[u8], biff: Biff) -> u8 {
    if token.is_empty() {
        return 255;
    }
    match read_shown_ptg(token, biff) {
        Ok((_, more)) => more.min(254) as u8,
        Err(_) => 255,
    }
}

#[test]
fn reads_each_token_by_its_size(rt: HostRuntime) -> Result<(), Fail> {
    for (token, size, early) in SIZES.iter() {
        assert!(rt; size_of(token, Biff::Biff8) == *size);
        assert!(rt; size_of(token, Biff::Biff5) == *early);
    }
    Ok(())
}

#[test]
fn knows_commands_and_calls_by_name(rt: HostRuntime) -> Result<(), Fail> {
    let command = read_shown_ptg(&[0x22, 0x83, 0x05, 0x80], Biff::Biff8);
    assert!(rt; matches!(command, Ok((ShownPtg::Command { count: 3, cetab: 5 }, 3))));
    let call = read_shown_ptg(&[0x22, 0x02, 0xFF, 0x00], Biff::Biff8);
    assert!(rt; matches!(call, Ok((ShownPtg::UserFunc { count: 2 }, 3))));
    assert!(rt; operand_count(79, 255) == 2);
    assert!(rt; operand_count(4, 255) == 255);
    Ok(())
}

#[test]
fn passes_the_extra_bytes_of_tokens(rt: HostRuntime) -> Result<(), Fail> {
    assert!(rt; after_elf(&[1, 0, 0, 0xC0, 1, 2, 3, 4, 7]) == [7].as_slice());
    assert!(rt; after_mem_area(&[1, 0, 1, 2, 3, 4, 5, 6, 7], Biff::Biff5) == [7].as_slice());
    Ok(())
}

// The columns of an array of BIFF8, whether it holds a string of one unit and TRUE, and the bytes behind them.
fn two_values(extra: &[u8]) -> Result<(u16, bool, &[u8]), Fault> {
    let (size, values) = read_array_size(extra, Biff::Biff8)?;
    let (first, rest) = read_ser_ar(values, Biff::Biff8)?;
    let (second, left) = read_ser_ar(rest, Biff::Biff8)?;
    let are = matches!(first, SerAr::Str { cch: 1, .. }) && matches!(second, SerAr::Bool(true));
    Ok((size.columns, are, left))
}

#[test]
fn lends_the_values_of_arrays(rt: HostRuntime) -> Result<(), Fail> {
    let extra = [1, 0, 0, 2, 1, 0, 0, 0x41, 4, 1, 0, 0, 0, 0, 0, 0, 0, 9];
    assert!(rt; matches!(two_values(&extra), Ok((2, true, left)) if left == [9].as_slice()));
    Ok(())
}

fn text_of(alloc: Global, fault: Fault) -> Result<String, AllocError> {
    let text = format!(in alloc; "{fault}")?;
    Ok(text)
}

#[test]
fn tells_why_in_words(rt: HostRuntime) -> Result<(), Fail> {
    let text = text_of(rt.alloc(), Fault::Eptg(0x1D))?;
    assert!(rt; text.as_str() == "Unrecognized eptg: 0x1D");
    let text = text_of(
        rt.alloc(),
        Fault::ExtraArray {
            expected: 8,
            found: 7,
        },
    )?;
    assert!(rt; text.as_str() == "Invalid PtgExtraArray length, expected at least 8, found 7");
    Ok(())
}
