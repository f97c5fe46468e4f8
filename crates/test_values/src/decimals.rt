//! Expected decimals are those of Python's `repr`, dates those of `datetime`, durations what Excel
//! shows under `[h]:mm:ss`.

use std::alloc::{AllocError, Global};
use std::test::Fail;
use xls_data::{ExcelDateTime, ExcelDateTimeType, Number};
use xls_decimals::{push_date, push_date_or_duration, push_decimal, push_double, push_duration};

static DECIMALS: [(Number, &str); 12] = [
    (Number::Bits(0x3FB9_9999_9999_999A), "$0.1"),
    (Number::Bits(0x3FD5_5555_5555_5555), "$0.3333333333333333"),
    (Number::Bits(0x3EE4_C305_A3AD_EF92), "$9.9e-6"),
    (Number::Bits(0x3EE4_F8B5_88E3_68F1), "$0.00001"),
    (Number::Bits(0x4341_C379_37E0_8000), "$1e16"),
    (Number::Bits(0x4340_0000_0000_0001), "$9007199254740994"),
    (Number::Bits(0x8000_0000_0000_0000), "$-0"),
    (Number::Bits(0xFFF0_0000_0000_0000), "$0xfff0000000000000"),
    (Number::Whole(-7), "$-7"),
    (Number::Hundredths(-5), "$-0.05"),
    (Number::BitsOver100(0x4004_0000_0000_0000), "$0.025"),
    (
        Number::BitsOver100(0x7FF0_0000_0000_0000),
        "$0x7ff0000000000000/100",
    ),
];

fn is_decimal(alloc: Global, number: Number, expected: &str) -> Result<bool, AllocError> {
    let mut text = String::from_str(alloc, "$")?;
    push_decimal(number, &mut text)?;
    Ok(text.as_str() == expected)
}

fn is_double(alloc: Global, bits: u64, expected: &str) -> Result<bool, AllocError> {
    let mut text = String::from_str(alloc, "$")?;
    push_double(bits, &mut text)?;
    Ok(text.as_str() == expected)
}

#[test]
fn writes_decimals_after_a_text(rt: HostRuntime) -> Result<(), Fail> {
    for (number, expected) in DECIMALS.iter() {
        assert!(rt; is_decimal(rt.alloc(), *number, expected)?);
    }
    assert!(rt; is_double(rt.alloc(), 0x3FF8_0000_0000_0000, "$1.5")?);
    Ok(())
}

static DATES: [(Number, bool, &str); 7] = [
    (Number::Whole(60), false, "1900-02-29"),
    (Number::Whole(61), false, "1900-03-01"),
    (Number::Whole(1), true, "1904-01-02"),
    (Number::Hundredths(50), false, "12:00:00"),
    (
        Number::Bits(0x40E6_2962_4C1C_71C7),
        false,
        "2024-04-05T01:43:22.734",
    ),
    (Number::Whole(2_958_466), false, "2958466"),
    (Number::Whole(-1), true, "-1"),
];

fn is_date(
    alloc: Global,
    number: Number,
    is_1904: bool,
    expected: &str,
) -> Result<bool, AllocError> {
    let mut text = String::new(alloc);
    push_date(number, is_1904, &mut text)?;
    Ok(text.as_str() == expected)
}

// As a date by its kind.
fn is_kind(alloc: Global, kind: ExcelDateTimeType, expected: &str) -> Result<bool, AllocError> {
    let mut text = String::new(alloc);
    let value = ExcelDateTime::new(Number::Hundredths(125), kind, true);
    push_date_or_duration(value, &mut text)?;
    Ok(text.as_str() == expected)
}

#[test]
fn writes_dates(rt: HostRuntime) -> Result<(), Fail> {
    for (number, is_1904, expected) in DATES.iter() {
        assert!(rt; is_date(rt.alloc(), *number, *is_1904, expected)?);
    }
    assert!(rt;
        is_kind(
            rt.alloc(),
            ExcelDateTimeType::DateTime,
            "1904-01-02T06:00:00"
        )?
    );
    assert!(rt; is_kind(rt.alloc(), ExcelDateTimeType::TimeDelta, "30:00:00")?);
    Ok(())
}

static DURATIONS: [(Number, &str); 4] = [
    (Number::Hundredths(125), "30:00:00"),
    (Number::Bits(0xBFB0_0000_0000_0000), "-1:30:00"),
    (Number::Bits(0x8000_0000_0000_0000), "0:00:00"),
    (Number::Whole(2_958_466), "2958466"),
];

fn is_duration(alloc: Global, number: Number, expected: &str) -> Result<bool, AllocError> {
    let mut text = String::new(alloc);
    push_duration(number, &mut text)?;
    Ok(text.as_str() == expected)
}

#[test]
fn writes_durations(rt: HostRuntime) -> Result<(), Fail> {
    for (number, expected) in DURATIONS.iter() {
        assert!(rt; is_duration(rt.alloc(), *number, expected)?);
    }
    Ok(())
}
