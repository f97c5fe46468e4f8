//! A number format: its sections, and what a number is shown by.

ghost use Rattle.std.specs.Prelude.{◌≡◌, ◌<◌, ◌≤◌, ◌++◌, ◌∷◌, [], MatchOption, Some, None, length};
ghost use Rattle.std.specs.List.{slice_get};
ghost use Rattle.std.specs.Str.{chars};
ghost use Rattle.xls_bytes.specs.Doubles.{exponent_of};
ghost use Rattle.xls_number_formats.specs.Grammar.{items, after_section};
ghost use Rattle.xls_number_formats.specs.Sections.{section_of, kinds};
ghost use Rattle.xls_number_formats.specs.Choices.{texts_at, choice_of, counted};
ghost use Rattle.xls_number_formats.specs.Formats.{parts_of};
ghost use Rattle.xls_number_formats.specs.Classes.{class_in};

use crate::choices::{Choice, ZERO, choice_of, texts_at};
use crate::classes::{Class, class_by};
use crate::sections::{Kind, Section, read_section};
use std::marker::Model;

const FRACTION: u64 = 1 << 52;

const INFINITE: u64 = 2047;

const UNREAD: Section = Section {
    kind: Kind::Plain,
    condition: None,
    has_text: false,
    has_items: false,
    has_elapsed: false,
};

/// The sections of a number format's code, of which the first four count. It borrows the code and takes
/// no memory. Contracts see the list of the sections, and the codes from each of them on.
#[derive(Drop)]
pub struct Format<'a> {
    sections: [Section; 4],
    codes: [&'a str; 4],
    len: usize,
}

impl<'a> Model for Format<'a> {
    ghost use Rattle.std.specs.Prelude.{◌≡◌, ◌≤◌, length, map, take};
    ghost use Rattle.std.specs.Str.{chars};
    ghost use Rattle.xls_number_formats.specs.Formats.{Parts};

    ghost Value = { Parts };

    ghost view = { λ f. record { sections = take f.len f.sections; codes = map (λ c. chars c.now) (take f.len f.codes) } };

    ghost invariant = { λ f. (f.len ≤ 4) × (length f.sections ≡ 4) };
}

impl<'a> Format<'a> {
    // Without a section.
    fn unread() -> Format<'a>
        ensures sections { result.sections ≡ [] }
        ensures codes { result.codes ≡ [] }
    {
        Format {
            sections: [UNREAD; 4],
            codes: [""; 4],
            len: 0,
        }
    }

    // Reads a section more; what follows it.
    fn push(&mut self, code: &'a str) -> Option<&'a str>
        requires { length self.old.codes < 4 }
        ensures sections { self.new.sections ≡ self.old.sections ++ section_of (kinds (items (chars code.now))) ∷ [] }
        ensures codes { self.new.codes ≡ self.old.codes ++ chars code.now ∷ [] }
        ensures rest { MatchOption result (after_section (chars code.now) ≡ None)
            (λ rest. after_section (chars code.now) ≡ Some (chars rest.now)) }
    {
        let (section, rest) = read_section(code);
        self.sections[self.len] = section;
        self.codes[self.len] = code;
        self.len += 1;
        rest
    }

    /// The sections of a code. Every code has a meaning.
    pub fn new(code: &'a str) -> Format<'a>
        ensures { result ≡ parts_of (chars code.now) }
    {
        let mut format = Format::unread();
        let Some(second) = format.push(code) else {
            return format;
        };
        let Some(third) = format.push(second) else {
            return format;
        };
        let Some(fourth) = format.push(third) else {
            return format;
        };
        format.push(fourth);
        format
    }

    /// The sections, in order.
    pub fn sections(&self) -> &[Section]
        ensures { result.now ≡ self.now.sections }
    {
        &self.sections[..self.len]
    }

    /// The code from the section at this place on, whose items `Items::new` gives.
    pub fn code(&self, place: usize) -> Option<&'a str>
        ensures { MatchOption result (length self.now.codes ≤ place) (λ code. slice_get self.now.codes place ≡ Some (chars code.now)) }
    {
        if place < self.len {
            Some(self.codes[place])
        } else {
            None
        }
    }

    /// The place of the section for texts, if there is one: the last of four, or else the last, where
    /// it has `@` and is no date.
    pub fn texts_at(&self) -> Option<usize>
        ensures { result ≡ texts_at self.now.sections }
    {
        texts_at(self.sections())
    }

    /// What the finite double with these bits is shown by, and whether a minus stands before its text.
    /// The first section for numbers applies whose condition it meets, its own one or an implied one:
    /// of two `>=0` and none, of three `>0`, `<0` and none. Below 0 a minus stands before the text
    /// unless the section is for negative numbers anyway. Subnormal numbers count as 0.
    pub fn choose(&self, bits: u64) -> (Choice, bool)
        requires { exponent_of bits < 2047 }
        ensures { result ≡ choice_of self.now.sections (counted bits) }
    {
        choice_of(self.sections(), counted(bits))
    }

    /// Whether the double with these bits is shown as a date, as an elapsed time, or as a number, as
    /// `class_of` tells it.
    pub fn class(&self, bits: u64) -> Class
        ensures { result ≡ class_in self.now.sections bits }
    {
        if bits / FRACTION % 2048 == INFINITE {
            return Class::Number;
        }
        let (choice, _) = self.choose(bits);
        class_by(self.sections(), choice)
    }
}

// The finite double with these bits; 0 where it is subnormal.
fn counted(bits: u64) -> f64
    requires { exponent_of bits < 2047 }
    ensures { result ≡ counted bits }
{
    if bits / FRACTION % 2048 == 0 {
        ZERO
    } else {
        f64::from_bits(bits)
    }
}
