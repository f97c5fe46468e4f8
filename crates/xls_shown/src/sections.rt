//! A section of a code with what it needs of its items.

ghost use Rattle.std.specs.Prelude.{◌≡◌, ◌<◌, true, IfOk, OnOk};
ghost use Rattle.std.specs.String.{string_bytes};
ghost use Rattle.std.specs.Str.{chars};
ghost use Rattle.xls_bytes.specs.Doubles.{exponent_of};
ghost use Rattle.xls_bytes.specs.Growth.{IsGrown};
ghost use Rattle.xls_number_formats.specs.Grammar.{items};
ghost use Rattle.xls_number_formats.specs.Sections.{kinds, kind_of};
ghost use Rattle.xls_shown.specs.Shown.{Gains, IsSectionShown};
ghost use Rattle.xls_number_formats.specs.declared.sections.Kind.TheVariants.{General};
ghost use Rattle.xls_shown.specs.Shapes.{IsGeneralAlone, IsShapeOf};

use crate::numbers::{
    append_date, append_exponent, append_fraction, append_general, append_general_section,
    append_plain,
};
use std::alloc::{AllocError, Global};
use std::marker::Model;
use xls_number_formats::{Item, Kind, SectionItems, read_section};
use xls_shown_dates::{Clock, read_clock};
use xls_shown_fractions::{Fraction, read_fraction};
use xls_shown_numbers::{Exponent, Plain, read_exponent, read_plain};

// How a section shows numbers.
#[derive(Clone, Copy)]
enum Shape {
    Date(Clock),
    // Its only item is the word.
    GeneralAlone,
    General,
    Fraction(Fraction),
    Exponent(Exponent),
    Plain(Plain),
}

// A section's items, and how it shows numbers.
#[derive(Drop)]
pub(crate) struct ShownSection<'a> {
    items: SectionItems<'a>,
    shape: Shape,
}

impl<'a> Model for ShownSection<'a> {
    ghost use Rattle.std.specs.Prelude.{List};
    ghost use Rattle.xls_number_formats.specs.Grammar.{Token};
    ghost use Rattle.xls_shown.specs.Shapes.{IsShapeOf};

    ghost Value = { List Token };

    ghost view = { λ s. s.items };

    ghost invariant = { λ s. IsShapeOf s.shape s.items };
}

fn kind_of(code: &str) -> Kind
    ensures { result ≡ kind_of (kinds (items (chars code.now))) }
{
    let (section, _) = read_section(code);
    section.kind
}

// Whether the word is the only item.
fn is_general_alone(section: &SectionItems<'_>) -> bool
    ensures { result ≡ true → IsGeneralAlone section.now }
{
    let mut items = section.iter();
    let Some((Item::General, _)) = items.next() else {
        return false;
    };
    items.next().is_none()
}

// How a section with the word shows numbers.
fn read_general(section: &SectionItems<'_>) -> Shape
    requires { kind_of (kinds section.now) ≡ General }
    ensures { IsShapeOf result section.now }
{
    if is_general_alone(section) {
        Shape::GeneralAlone
    } else {
        Shape::General
    }
}

// How a section of this kind shows numbers.
fn read_shape(kind: Kind, section: &SectionItems<'_>) -> Shape
    requires { kind ≡ kind_of (kinds section.now) }
    ensures { IsShapeOf result section.now }
{
    match kind {
        Kind::Date => Shape::Date(read_clock(section)),
        Kind::General => read_general(section),
        Kind::Fraction => Shape::Fraction(read_fraction(section)),
        Kind::Exponent => Shape::Exponent(read_exponent(section)),
        Kind::Plain => Shape::Plain(read_plain(section)),
    }
}

impl<'a> ShownSection<'a> {
    // The first section of a code.
    pub(crate) fn new(alloc: Global, code: &'a str) -> Result<ShownSection<'a>, AllocError>
        ensures { IfOk result (λ section. section ≡ items (chars code.now)) }
    {
        let items = SectionItems::new(alloc, code)?;
        let shape = read_shape(kind_of(code), &items);
        Ok(ShownSection { items, shape })
    }

    // Appends what the section shows of a finite double; an error may leave a part.
    pub(crate) fn append(
        &self,
        minus: bool,
        bits: u64,
        is_1904: bool,
        text: &mut String,
    ) -> Result<(), AllocError>
        requires { exponent_of bits < 2047 }
        ensures ok { OnOk result (Gains
            (λ shown. IsSectionShown (kind_of (kinds self.now)) self.now minus is_1904 bits shown)
            (chars (string_bytes text.old)) (chars (string_bytes text.new))) }
        ensures grown { IsGrown (string_bytes text.old) (string_bytes text.new) }
    {
        let items = &self.items;
        match &self.shape {
            Shape::Date(clock) => append_date(items, *clock, minus, bits, is_1904, text),
            Shape::GeneralAlone => append_general(minus, bits, text),
            Shape::General => append_general_section(items, minus, bits, text),
            Shape::Fraction(fraction) => append_fraction(items, fraction, minus, bits, text),
            Shape::Exponent(exponent) => append_exponent(items, exponent, minus, bits, text),
            Shape::Plain(plain) => append_plain(items, plain, minus, bits, text),
        }
    }
}
