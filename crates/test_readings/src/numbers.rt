//! Numbers as Excel shows them. Expected texts are Excel's own.

use std::alloc::{AllocError, Global};
use std::test::Fail;
use xls_number_formats::SectionItems;
use xls_rounding::to_15_digits;
use xls_shown_numbers::{push_general_double, push_plain, read_plain, shows_whole_numbers};

static GENERAL: [(u64, &str); 6] = [
    (0x3FD5_5555_5555_5555, "$0.333333333"),
    (0x4237_4876_E800_0000, "$1E+11"),
    (0x3EE9_E3FE_580F_5494, "$1.23456E-05"),
    (0x54B6_9387_8AAE_8F8A, "$1.2345E+100"),
    (0x0000_0000_0000_0000, "$0"),
    (0x41D2_6580_B480_0000, "$1234567890"),
];

static PLAIN: [(&str, u64, &str); 8] = [
    ("#,##0.00 €", 0x4093_4A00_0000_0000, "$1,234.50 €"),
    ("0.0%", 0x3FC0_0000_0000_0000, "$12.5%"),
    ("0.00", 0x3FF0_147A_E147_AE14, "$1.01"),
    ("0.00", 0x3FC0_0000_0000_0000, "$0.13"),
    ("#.##", 0x3FF0_0000_0000_0000, "$1."),
    ("0.0,,\"M\"", 0x4167_8C29_C000_0000, "$12.3M"),
    ("000-00", 0x40C8_1C80_0000_0000, "$123-45"),
    ("0", 0x43E5_6A95_319D_63E1, "$12345678901234600000"),
];

fn is_general(alloc: Global, bits: u64, expected: &str) -> Result<bool, AllocError> {
    let mut text = String::from_str(alloc, "$")?;
    push_general_double(bits, &mut text)?;
    Ok(text.as_str() == expected)
}

fn is_plain(alloc: Global, code: &str, bits: u64, expected: &str) -> Result<bool, AllocError> {
    let section = SectionItems::new(alloc, code)?;
    let plain = read_plain(&section);
    let mut text = String::from_str(alloc, "$")?;
    push_plain(&section, &plain, to_15_digits(bits), &mut text)?;
    Ok(text.as_str() == expected)
}

#[test]
fn writes_numbers_by_their_code(rt: HostRuntime) -> Result<(), Fail> {
    for (bits, expected) in GENERAL.iter() {
        assert!(rt; is_general(rt.alloc(), *bits, expected)?);
    }
    for (code, bits, expected) in PLAIN.iter() {
        assert!(rt; is_plain(rt.alloc(), code, *bits, expected)?);
    }
    shows_whole_numbers();
    Ok(())
}
