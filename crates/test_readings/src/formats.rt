//! Number formats: items, sections, the one that applies, dates, built-in codes, texts.

use std::alloc::{AllocError, Global};
use std::test::Fail;
use xls_number_formats::{
    Choice, Class, Format, Item, Items, Kind, Place, SectionItems, built_in_code, class_of,
    items_spell_the_code, push_shown_text, read_section, texts_code,
};

const HALF: u64 = 0x3FE0_0000_0000_0000;

const ONE_BELOW_0: u64 = 0xBFF0_0000_0000_0000;

static CLASSES: [(&str, u64, Class); 7] = [
    ("0.00", HALF, Class::Number),
    ("m/d/yyyy", HALF, Class::Date),
    ("[h]:mm", HALF, Class::Elapsed),
    ("[<1]h:mm;0.00", HALF, Class::Date),
    ("[<1]h:mm;0.00", 0x4000_0000_0000_0000, Class::Number),
    ("\"day\" 0", HALF, Class::Number),
    ("[Red]yyyy;General", ONE_BELOW_0, Class::Number),
];

static TEXTS: [(&str, &str, &str); 4] = [
    ("@", "a", "$a"),
    ("0;-0;0;\"<\"@\">\"", "a", "$<a>"),
    (";;;", "a", "$"),
    ("0.00", "a", "$a"),
];

fn is_text(alloc: Global, code: &str, text: &str, expected: &str) -> Result<bool, AllocError> {
    let mut shown = String::from_str(alloc, "$")?;
    match texts_code(code) {
        Some(section) => push_shown_text(&SectionItems::new(alloc, section)?, text, &mut shown)?,
        None => shown.push_str(text)?,
    }
    Ok(shown.as_str() == expected)
}

#[test]
fn tells_dates_by_the_code_and_texts_by_their_section(rt: HostRuntime) -> Result<(), Fail> {
    for (code, bits, class) in CLASSES.iter() {
        assert!(rt; class_of(code, *bits) == *class);
    }
    for (code, text, expected) in TEXTS.iter() {
        assert!(rt; is_text(rt.alloc(), code, text, expected)?);
    }
    Ok(())
}

#[test]
fn chooses_a_section(rt: HostRuntime) -> Result<(), Fail> {
    let format = Format::new(built_in_code(37).unwrap_or(""));
    assert!(rt; format.sections().len() == 2);
    assert!(rt; format.choose(ONE_BELOW_0) == (Choice::Section(1), false));
    assert!(rt; format.class(ONE_BELOW_0) == Class::Number);
    assert!(rt; format.code(1) == Some("\\(#,##0\\)"));
    assert!(rt; format.texts_at().is_none());
    let (section, rest) = read_section("# ?/?;0");
    assert!(rt; section.kind == Kind::Fraction);
    assert!(rt; rest == Some("0"));
    assert!(rt;
        matches!(
            Items::new("0.00").next(),
            Some((Item::Place(Place::Zero), "0"))
        )
    );
    items_spell_the_code();
    Ok(())
}
