//! Whether a format shows a number as a date.

ghost use Rattle.std.specs.Prelude.{◌≡◌};
ghost use Rattle.std.specs.Str.{chars};
ghost use Rattle.xls_number_formats.specs.Classes.{class_of_section, class_by, class_of};

use crate::choices::Choice;
use crate::formats::Format;
use crate::sections::{Kind, Section};

/// What a number is, by the section that it is shown by.
#[derive(Clone, Copy, Debug, PartialEq, Eq)]
pub enum Class {
    /// Shown as a number, as General, or not at all.
    Number,
    /// A day, a time of day, or both.
    Date,
    /// An elapsed time: the section has a bracket such as `[h]`.
    Elapsed,
}

fn class_of_section(section: &Section) -> Class
    ensures { result ≡ class_of_section section.now }
{
    match section.kind {
        Kind::Date if section.has_elapsed => Class::Elapsed,
        Kind::Date => Class::Date,
        Kind::General | Kind::Fraction | Kind::Exponent | Kind::Plain => Class::Number,
    }
}

// That of the section which applies.
pub(crate) fn class_by(sections: &[Section], choice: Choice) -> Class
    ensures { result ≡ class_by sections.now choice }
{
    match choice {
        Choice::Section(place) => match sections.get(place) {
            Some(section) => class_of_section(section),
            None => Class::Number,
        },
        Choice::General | Choice::Hashes => Class::Number,
    }
}

/// Whether a number format's code shows the double with these bits as a date, as an elapsed time, or as
/// a number: the section that applies decides, by its kind. A section is a date that has one of the
/// letters y m d h s outside of quotes, escapes and brackets, elapsed time, AM/PM or A/P; or the letters
/// e or b and neither a place, General nor `@`. Infinities and what is no number are numbers. Takes no
/// memory. For many numbers under one code, `Format::class` reads the code once.
pub fn class_of(code: &str, bits: u64) -> Class
    ensures { result ≡ class_of (chars code.now) bits }
{
    Format::new(code).class(bits)
}
