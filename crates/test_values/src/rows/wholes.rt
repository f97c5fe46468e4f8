//! Cells as whole numbers of the eight types.

use super::{Input, wrong_case};
use std::test::Fail;
use xls_data::{CellErrorType, Number};

static WHOLES: [(&str, Input, &str); 76] = [
    // For each type 7, the number below its least, its least, its greatest, and the number above.
    ("i8", Input::Int(7), "7"),
    ("i8", Input::Text("-129"), "Expecting i8, got '-129'"),
    ("i8", Input::Text("-128"), "-128"),
    ("i8", Input::Text("127"), "127"),
    ("i8", Input::Text("128"), "Expecting i8, got '128'"),
    ("i16", Input::Int(7), "7"),
    ("i16", Input::Text("-32769"), "Expecting i16, got '-32769'"),
    ("i16", Input::Text("-32768"), "-32768"),
    ("i16", Input::Text("32767"), "32767"),
    ("i16", Input::Text("32768"), "Expecting i16, got '32768'"),
    ("i32", Input::Int(7), "7"),
    (
        "i32",
        Input::Text("-2147483649"),
        "Expecting i32, got '-2147483649'",
    ),
    ("i32", Input::Text("-2147483648"), "-2147483648"),
    ("i32", Input::Text("2147483647"), "2147483647"),
    (
        "i32",
        Input::Text("2147483648"),
        "Expecting i32, got '2147483648'",
    ),
    ("i64", Input::Int(7), "7"),
    (
        "i64",
        Input::Text("-9223372036854775809"),
        "Expecting i64, got '-9223372036854775809'",
    ),
    (
        "i64",
        Input::Text("-9223372036854775808"),
        "-9223372036854775808",
    ),
    (
        "i64",
        Input::Text("9223372036854775807"),
        "9223372036854775807",
    ),
    (
        "i64",
        Input::Text("9223372036854775808"),
        "Expecting i64, got '9223372036854775808'",
    ),
    ("u8", Input::Int(7), "7"),
    ("u8", Input::Text("-1"), "Expecting u8, got '-1'"),
    ("u8", Input::Text("0"), "0"),
    ("u8", Input::Text("255"), "255"),
    ("u8", Input::Text("256"), "Expecting u8, got '256'"),
    ("u16", Input::Int(7), "7"),
    ("u16", Input::Text("-1"), "Expecting u16, got '-1'"),
    ("u16", Input::Text("0"), "0"),
    ("u16", Input::Text("65535"), "65535"),
    ("u16", Input::Text("65536"), "Expecting u16, got '65536'"),
    ("u32", Input::Int(7), "7"),
    ("u32", Input::Text("-1"), "Expecting u32, got '-1'"),
    ("u32", Input::Text("0"), "0"),
    ("u32", Input::Text("4294967295"), "4294967295"),
    (
        "u32",
        Input::Text("4294967296"),
        "Expecting u32, got '4294967296'",
    ),
    ("u64", Input::Int(7), "7"),
    ("u64", Input::Text("-1"), "Expecting u64, got '-1'"),
    ("u64", Input::Text("0"), "0"),
    (
        "u64",
        Input::Text("18446744073709551615"),
        "18446744073709551615",
    ),
    (
        "u64",
        Input::Text("18446744073709551616"),
        "Expecting u64, got '18446744073709551616'",
    ),
    // Whole numbers and numbers. The double 2.5 is 4004000000000000, 200 is 4069000000000000, 2^63 is
    // 43e0000000000000, 1e300 is 7e37e43c8800759c, infinity 7ff0000000000000.
    ("u8", Input::Int(255), "255"),
    ("u8", Input::Int(300), "Expecting u8, got 300"),
    ("u8", Input::Int(-1), "Expecting u8, got -1"),
    ("i8", Input::Int(-128), "-128"),
    ("i8", Input::Int(-129), "Expecting i8, got -129"),
    (
        "u32",
        Input::Int(4294967296),
        "Expecting u32, got 4294967296",
    ),
    (
        "u64",
        Input::Int(9223372036854775807),
        "9223372036854775807",
    ),
    ("u64", Input::Int(-7), "Expecting u64, got -7"),
    ("i8", Input::Float(Number::Hundredths(-199)), "-1"),
    ("u8", Input::Float(Number::Hundredths(-99)), "0"),
    (
        "u8",
        Input::Float(Number::Hundredths(-150)),
        "Expecting u8, got -1.5",
    ),
    (
        "u8",
        Input::Float(Number::Whole(256)),
        "Expecting u8, got 256",
    ),
    ("i32", Input::Float(Number::Bits(0x4004000000000000)), "2"),
    ("i32", Input::Float(Number::Bits(0xc004000000000000)), "-2"),
    (
        "u16",
        Input::Float(Number::BitsOver100(0x4069000000000000)),
        "2",
    ),
    ("u8", Input::Float(Number::Bits(0x8000000000000000)), "0"),
    (
        "u64",
        Input::Float(Number::Bits(0x43e0000000000000)),
        "Expecting u64, got 0x43e0000000000000",
    ),
    (
        "i64",
        Input::Float(Number::Bits(0x7e37e43c8800759c)),
        "Expecting i64, got 0x7e37e43c8800759c",
    ),
    (
        "i64",
        Input::Float(Number::Bits(0x7ff0000000000000)),
        "Expecting i64, got 0x7ff0000000000000",
    ),
    (
        "i64",
        Input::Float(Number::BitsOver100(0x7ff0000000000000)),
        "Expecting i64, got 0x7ff0000000000000/100",
    ),
    // Texts as std's `parse` reads them, and the cells that are no numbers.
    ("u8", Input::Text("+7"), "7"),
    ("i8", Input::Text("+7"), "7"),
    ("i8", Input::Text("-7"), "-7"),
    ("u8", Input::Text("007"), "7"),
    ("u8", Input::Text("-0"), "Expecting u8, got '-0'"),
    ("u8", Input::Text(" 7"), "Expecting u8, got ' 7'"),
    ("i64", Input::Text("7.0"), "Expecting i64, got '7.0'"),
    ("i64", Input::Text("-"), "Expecting i64, got '-'"),
    ("u16", Input::Text(""), "Expecting u16, got ''"),
    ("u64", Input::Text("x"), "Expecting u64, got 'x'"),
    ("u8", Input::Truth(true), "Expecting u8, got Bool"),
    (
        "i16",
        Input::Date(Number::Whole(7)),
        "Expecting i16, got DateTime",
    ),
    ("i32", Input::IsoDate("7"), "Expecting i32, got DateTimeIso"),
    (
        "u32",
        Input::IsoDuration("7"),
        "Expecting u32, got DurationIso",
    ),
    ("i64", Input::Nothing, "Expecting i64, got Empty"),
    (
        "u64",
        Input::Wrong(CellErrorType::NA),
        "Cell error at position '(1, 0)': #N/A",
    ),
];

#[test]
fn reads_whole_numbers(rt: HostRuntime) -> Result<(), Fail> {
    assert!(rt; wrong_case(rt.alloc(), &WHOLES)?.is_none());
    Ok(())
}
