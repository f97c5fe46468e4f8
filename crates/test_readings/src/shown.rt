//! Values as Excel shows them under a code. Expected texts are Excel's own.

use std::alloc::{AllocError, Global};
use std::test::Fail;
use xls_shown::ShownFormat;

const FRACTION: u64 = 1 << 52;

const INFINITE: u64 = 2047;

static NUMBERS: [(&str, u64, bool, &str); 24] = [
    ("#,##0_);(#,##0)", 0xC093_4800_0000_0000, false, "$(1,234)"),
    (
        "_(* #,##0.00_);_(* \\(#,##0.00\\);_(* \"-\"??_);_(@_)",
        0x0000_0000_0000_0000,
        false,
        "$ -   ",
    ),
    ("# ?/?", 0x3FD3_3333_3333_3333, false, "$ 2/7"),
    ("# ?/?", 0x3FE6_6666_6666_6666, false, "$ 2/3"),
    ("# ?/?", 0x3FEC_CCCC_CCCC_CCCD, false, "$ 8/9"),
    ("# ??/??", 0x4014_0000_0000_0000, false, "$5      "),
    ("#\\:?=/=#", 0x3FE8_0000_0000_0000, false, "$ 3=/=4"),
    ("#\\:?=/=#", 0x3FF0_0000_0000_0000, false, "$1      "),
    ("0.00", 0xBF50_624D_D2F1_A9FC, false, "$-0.00"),
    ("General", 0x54B6_9387_8AAE_8F8A, false, "$1.2345E+100"),
    ("##0.0E+0", 0x40C8_1CD6_C8B4_3958, false, "$12.3E+3"),
    ("##0.0E+0", 0x412E_8430_0000_0000, false, "$1.0E+6"),
    ("##0.0E+0", 0x0000_0000_0000_0000, false, "$000.0E+0"),
    ("m/d/yyyy", 0x404E_0000_0000_0000, false, "$2/29/1900"),
    ("m/d/yyyy", 0xBFF0_0000_0000_0000, false, "$########"),
    ("h:mm:ss", 0x40C8_1CD6_E631_F8A1, false, "$16:17:37"),
    ("[<10]0\" Wow\"", 0x4026_0000_0000_0000, false, "$11"),
    (
        "[<0]\"minus \"0;0",
        0xBFF0_0000_0000_0000,
        false,
        "$minus 1",
    ),
    (
        "[$-409]d-mmm-yy;@",
        0x40E6_24E0_0000_0000,
        false,
        "$29-Feb-24",
    ),
    ("[<5]0;[>10]0", 0x401C_0000_0000_0000, false, "$########"),
    ("0;(0)", 0xC014_0000_0000_0000, false, "$(5)"),
    ("", 0xBFF8_0000_0000_0000, false, "$-1.5"),
    (";;;", 0x3FF0_0000_0000_0000, false, "$"),
    (
        "dddd, mmmm d, yyyy",
        0x0000_0000_0000_0000,
        true,
        "$Friday, January 1, 1904",
    ),
];

static TEXTS: [(&str, &str, &str); 4] = [
    ("@", "a", "$a"),
    ("0;-0;0;\"<\"@\">\"", "a", "$<a>"),
    ("\"<\"@\">\"", "", "$"),
    (";;;", "TRUE", "$"),
];

fn is_number(
    alloc: Global,
    code: &str,
    bits: u64,
    is_1904: bool,
    expected: &str,
) -> Result<bool, AllocError> {
    if bits / FRACTION % 2048 == INFINITE {
        return Ok(false);
    }
    let mut text = String::from_str(alloc, "$")?;
    ShownFormat::new(alloc, code)?.push(bits, is_1904, &mut text)?;
    Ok(text.as_str() == expected)
}

fn is_text(alloc: Global, code: &str, shown: &str, expected: &str) -> Result<bool, AllocError> {
    let mut text = String::from_str(alloc, "$")?;
    ShownFormat::new(alloc, code)?.push_text(shown, &mut text)?;
    Ok(text.as_str() == expected)
}

#[test]
fn writes_values_by_their_code(rt: HostRuntime) -> Result<(), Fail> {
    for (code, bits, is_1904, expected) in NUMBERS.iter() {
        assert!(rt; is_number(rt.alloc(), code, *bits, *is_1904, expected)?);
    }
    for (code, shown, expected) in TEXTS.iter() {
        assert!(rt; is_text(rt.alloc(), code, shown, expected)?);
    }
    Ok(())
}
