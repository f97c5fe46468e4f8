//! Expected values come from IEEE 754, from Rust's `as i64` and from Excel's column letters.

use std::alloc::{AllocError, Global};
use std::test::Fail;
use xls_bytes::{
    column_names, push_column, push_escaped, read_bits, read_i16, read_i32, read_u16, read_u32,
    read_u64, read_usize, to_u32, trunc_checked_of_bits, trunc_of_bits, whole_of_bits,
};

static BYTES: [u8; 8] = [0x41, 0x42, 0x43, 0x44, 0x45, 0x46, 0x47, 0xC8];

fn reads_unsigned() -> bool {
    let all = 0xC847_4645_4443_4241;
    read_u16(&BYTES) == 0x4241
        && read_u32(&BYTES) == 0x4443_4241
        && read_usize(&BYTES) == 0x4443_4241
        && read_u64(&BYTES) == all
        && read_bits(&BYTES) == all
}

fn reads_signed() -> bool {
    read_i16(&BYTES[6..]) == -0x37B9
        && read_i16(b"\xFF\xFF") == -1
        && read_i32(&BYTES[4..]) == -0x37B8_B9BB
        && read_i32(b"\0\0\0\x80") == i32::MIN
}

#[test]
fn reads_the_lowest_byte_first(rt: HostRuntime) {
    assert!(rt; reads_unsigned() && reads_signed());
}

// Two numbers, and behind them none.
fn gives_two_numbers() -> bool {
    let mut numbers = to_u32(b"ABCDEFGH");
    numbers.size_hint() == (2, Some(2))
        && numbers.next() == Some(0x4443_4241)
        && numbers.len() == 1
        && numbers.next() == Some(0x4847_4645)
        && numbers.next().is_none()
        && numbers.next().is_none()
}

#[test]
fn goes_over_numbers_of_four_bytes(rt: HostRuntime) {
    assert!(rt; gives_two_numbers() && to_u32(b"").len() == 0);
}

static COLUMNS: [(u32, &str); 13] = [
    (0, "$A"),
    (25, "$Z"),
    (26, "$AA"),
    (27, "$AB"),
    (51, "$AZ"),
    (53, "$BB"),
    (255, "$IV"),
    (701, "$ZZ"),
    (702, "$AAA"),
    (16_383, "$XFD"),
    (321_272_405, "$ZZZZZZ"),
    (321_272_406, "$AAAAAAA"),
    (u32::MAX, "$MWLQKWV"),
];

fn has_name(alloc: Global, column: u32, name: &str) -> Result<bool, AllocError> {
    let mut text = String::from_str(alloc, "$")?;
    push_column(column, &mut text)?;
    Ok(text.as_str() == name)
}

#[test]
fn names_columns_by_letters(rt: HostRuntime) -> Result<(), Fail> {
    for (column, name) in COLUMNS.iter() {
        assert!(rt; has_name(rt.alloc(), *column, name)?);
    }
    column_names();
    Ok(())
}

// 7, -7, -0, 2.5, 2 ^ 53 - 1 and 2 ^ 53
static WHOLES: [(u64, Option<i64>); 6] = [
    (0x401C_0000_0000_0000, Some(7)),
    (0xC01C_0000_0000_0000, Some(-7)),
    (0x8000_0000_0000_0000, Some(0)),
    (0x4004_0000_0000_0000, None),
    (0x433F_FFFF_FFFF_FFFF, Some(9_007_199_254_740_991)),
    (0x4340_0000_0000_0000, None),
];

#[test]
fn whole_numbers_of_doubles(rt: HostRuntime) {
    for (bits, whole) in WHOLES.iter() {
        assert_eq!(rt; whole_of_bits(*bits), *whole);
    }
}

// 2.5, -2.5, 250.0 and -299.0; the least double, -2 ^ 63, 2 ^ 63 and 2 ^ 69 over 100; no number
static CUT: [(u64, u8, Option<i64>); 9] = [
    (0x4004_0000_0000_0000, 1, Some(2)),
    (0xC004_0000_0000_0000, 1, Some(-2)),
    (0x406F_4000_0000_0000, 100, Some(2)),
    (0xC072_B000_0000_0000, 100, Some(-2)),
    (1, 1, Some(0)),
    (0xC3E0_0000_0000_0000, 1, Some(i64::MIN)),
    (0x43E0_0000_0000_0000, 1, None),
    (0x4440_0000_0000_0000, 100, Some(5_902_958_103_587_056_517)),
    (0x7FF8_0000_0000_0000, 1, None),
];

#[test]
fn cuts_toward_zero(rt: HostRuntime) {
    for (bits, divisor, cut) in CUT.iter() {
        assert_eq!(rt; trunc_checked_of_bits(*bits, *divisor), *cut);
    }
    assert_eq!(rt; trunc_of_bits(0xC072_B000_0000_0000, 100), -2);
}

static ENDS: [(u64, u8, i64); 6] = [
    (0x43E0_0000_0000_0000, 1, i64::MAX),
    (0x7FF0_0000_0000_0000, 1, i64::MAX),
    (0xFFF0_0000_0000_0000, 100, i64::MIN),
    (0xFE37_E43C_8800_759C, 1, i64::MIN),
    (0x7FF8_0000_0000_0000, 1, 0),
    (0xFFF8_0000_0000_0001, 100, 0),
];

#[test]
fn cuts_to_the_nearer_end(rt: HostRuntime) {
    for (bits, divisor, cut) in ENDS.iter() {
        assert_eq!(rt; trunc_of_bits(*bits, *divisor), *cut);
    }
}

// What a call wrote, or left where memory ran out.
fn column_or_nothing(alloc: Global) -> bool {
    let mut text = String::new(alloc);
    match push_column(702, &mut text) {
        Ok(()) => text.as_str() == "AAA",
        Err(_) => text.is_empty(),
    }
}

fn escaped_or_nothing(alloc: Global) -> bool {
    let mut text = String::new(alloc);
    match push_escaped("a\tb\n", &mut text) {
        Ok(()) => text.as_str() == "a\\tb\\n",
        Err(_) => text.is_empty(),
    }
}

// With memory refused at any number, what is written is all of the name or none of it.
#[test]
fn a_refusal_leaves_the_text(rt: HostRuntime) {
    assert!(rt; column_or_nothing(rt.alloc()));
    assert!(rt; escaped_or_nothing(rt.alloc()));
}

static ESCAPED: [(&str, &str); 4] = [
    ("", "$"),
    ("plain", "$plain"),
    ("a\tb\r\n", "$a\\tb\\r\\n"),
    ("\\\\ \u{e9}\t\u{20ac}", "$\\\\\\\\ \u{e9}\\t\u{20ac}"),
];

fn is_escaped(alloc: Global, text: &str, wanted: &str) -> Result<bool, AllocError> {
    let mut line = String::from_str(alloc, "$")?;
    push_escaped(text, &mut line)?;
    Ok(line.as_str() == wanted)
}

#[test]
fn escapes_what_ends_a_field(rt: HostRuntime) -> Result<(), Fail> {
    for (text, wanted) in ESCAPED.iter() {
        assert!(rt; is_escaped(rt.alloc(), text, wanted)?);
    }
    Ok(())
}
