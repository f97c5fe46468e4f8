//! Dates and times as Excel shows them. Expected texts are Excel's own.

use std::alloc::{AllocError, Global};
use std::test::Fail;
use xls_number_formats::SectionItems;
use xls_shown_dates::{moment_of, one_moment, push_moment, read_clock};

static DATES: [(&str, u64, bool, &str); 8] = [
    ("m/d/yyyy", 0x0000_0000_0000_0000, false, "$1/0/1900"),
    ("m/d/yyyy", 0x404E_0000_0000_0000, false, "$2/29/1900"),
    ("m/d/yyyy", 0xBFF0_0000_0000_0000, false, "none"),
    ("h:mm:ss", 0x40C8_1CD6_E631_F8A1, false, "$16:17:37"),
    ("[h]:mm", 0x3FF8_0000_0000_0000, false, "$36:00"),
    ("h:mm", 0x3FEF_FF2E_48E8_A71E, false, "$23:59"),
    (
        "[$-409]d-mmm-yy;@",
        0x40E6_24E0_0000_0000,
        false,
        "$29-Feb-24",
    ),
    (
        "dddd, mmmm d, yyyy",
        0x0000_0000_0000_0000,
        true,
        "$Friday, January 1, 1904",
    ),
];

fn is_date(
    alloc: Global,
    code: &str,
    bits: u64,
    is_1904: bool,
    expected: &str,
) -> Result<bool, AllocError> {
    let section = SectionItems::new(alloc, code)?;
    let clock = read_clock(&section);
    let Some(moment) = moment_of(bits, is_1904, clock.precision()) else {
        return Ok(expected == "none");
    };
    let mut text = String::from_str(alloc, "$")?;
    push_moment(&section, clock, &moment, &mut text)?;
    Ok(text.as_str() == expected)
}

#[test]
fn writes_dates_by_their_code(rt: HostRuntime) -> Result<(), Fail> {
    for (code, bits, is_1904, expected) in DATES.iter() {
        assert!(rt; is_date(rt.alloc(), code, *bits, *is_1904, expected)?);
    }
    one_moment();
    Ok(())
}
