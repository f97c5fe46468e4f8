//! Doubles by 15 digits, and the numbers of formulas. Expected texts are those that Excel shows of these bits.

use std::alloc::{AllocError, Global};
use std::test::Fail;
use xls_rounding::{
    Decimal, Rounded, at_place, halves_up, magnitude, push_formula_number, times_at_place,
    to_15_digits,
};

static NUMBERS: [(u64, &str); 14] = [
    (0x3FF0_0068_DB8B_AC71, "$1.0001"),
    (0x405E_DD3C_07FB_4C99, "$123.456789012346"),
    (0x3EE9_E409_3026_78BA, "$1.23456789012346E-05"),
    (0x3EE9_E409_301B_5A02, "$0.0000123456789"),
    (0x43E5_6A95_319D_63E1, "$12345678901234600000"),
    (0x441A_C53A_7E04_BCDA, "$1.23456789012346E+20"),
    (0x5482_0FE0_BA17_F46D, "$1.2345678901235E+99"),
    (0x3C32_725D_D1D2_43AB, "$0.000000000000000001"),
    (0x3BFD_83C9_4FB6_D2AB, "$1E-19"),
    (0x7FEF_FFFF_FFFF_FFFF, "$1.7976931348623E+308"),
    (0x7FF8_0000_0000_0000, "$2.6965397022935E+308"),
    (0x0000_0000_0000_0000, "$0"),
    (0x8000_0000_0000_0000, "$-0"),
    (0xBFF8_0000_0000_0000, "$-1.5"),
];

fn is_number(alloc: Global, bits: u64, expected: &str) -> Result<bool, AllocError> {
    let mut text = String::from_str(alloc, "$")?;
    push_formula_number(bits, &mut text)?;
    Ok(text.as_str() == expected)
}

#[test]
fn writes_the_numbers_of_formulas(rt: HostRuntime) -> Result<(), Fail> {
    for (bits, expected) in NUMBERS.iter() {
        assert!(rt; is_number(rt.alloc(), *bits, expected)?);
    }
    Ok(())
}

#[test]
fn rounds_first_to_15_digits_and_then_at_a_place(rt: HostRuntime) -> Result<(), Fail> {
    let decimal = to_15_digits(0x3FF0_147A_E147_AE14);
    let expected = Decimal {
        digits: 100_500_000_000_000,
        exponent: -14,
    };
    assert!(rt; decimal == expected);
    assert!(rt;
        at_place(decimal, 2)
            == Rounded {
                digits: 101,
                zeros: 0
            }
    );
    assert!(rt; times_at_place(decimal, 86_400, 0) == Some(86_832));
    assert!(rt; magnitude(decimal) == 0);
    halves_up();
    Ok(())
}
