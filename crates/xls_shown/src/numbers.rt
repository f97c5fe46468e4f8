//! The texts of sections, with their signs.

ghost use Rattle.std.specs.Prelude.{◌≡◌, ◌<◌, [], ◌++◌, OnOk, OnErr};
ghost use Rattle.std.specs.String.{string_bytes};
ghost use Rattle.std.specs.Str.{chars};
ghost use Rattle.std.specs.List.{flat_map};
ghost use Rattle.xls_bytes.specs.Doubles.{exponent_of};
ghost use Rattle.xls_bytes.specs.Growth.{IsGrown};
ghost use Rattle.xls_rounding.specs.Rounding.{decimal_of};
ghost use Rattle.xls_number_formats.specs.Sections.{kinds};
ghost use Rattle.xls_number_formats.specs.Texts.{shown_by};
ghost use Rattle.xls_shown_dates.specs.Fields.{fields, clock_of};
ghost use Rattle.xls_shown_dates.specs.Texts.{section_text};
ghost use Rattle.xls_shown_numbers.specs.General.{general};
ghost use Rattle.xls_shown_numbers.specs.Plain.{plain_of, plain_text};
ghost use Rattle.xls_shown_numbers.specs.Exponent as exponents;
ghost use Rattle.xls_shown_numbers.specs.Exponent.{exponent_text};
ghost use Rattle.xls_shown_fractions.specs.Needs as fractions;
ghost use Rattle.xls_shown_fractions.specs.Texts.{fraction_text};
ghost use Rattle.xls_shown.specs.Shown.{Gains, sign, hashes, general_item, general_token, general_text, IsDateShown};

use std::alloc::AllocError;
use xls_number_formats::{Item, SectionItems};
use xls_rounding::to_15_digits;
use xls_shown_dates::{Clock, Moment, moment_of, push_moment};
use xls_shown_fractions::{Fraction, push_fraction};
use xls_shown_numbers::{Exponent, Plain, push_exponent, push_general_double, push_plain};

// Appends a text.
pub(crate) fn push_own(own: &str, text: &mut String) -> Result<(), AllocError>
    ensures ok { OnOk result (chars (string_bytes text.new) ≡ chars (string_bytes text.old) ++ chars own.now) }
    ensures err { OnErr result (string_bytes text.new ≡ string_bytes text.old) }
    ensures grown { IsGrown (string_bytes text.old) (string_bytes text.new) }
{
    text.push_str(own)
}

#[tactic(auto, using(crate::proofs::SignLemmas::no_chars, crate::proofs::SignLemmas::minus_alone))]
fn sign<'a>(minus: bool) -> &'a str
    ensures { chars result.now ≡ sign minus }
{
    if minus { "-" } else { "" }
}

// Appends a minus, or nothing.
fn append_sign(minus: bool, text: &mut String) -> Result<(), AllocError>
    ensures ok { OnOk result (chars (string_bytes text.new) ≡ chars (string_bytes text.old) ++ sign minus) }
    ensures grown { IsGrown (string_bytes text.old) (string_bytes text.new) }
{
    push_own(sign(minus), text)
}

#[tactic(auto, using(crate::proofs::SignLemmas::hashes_alone))]
fn hashes<'a>() -> &'a str
    ensures { chars result.now ≡ hashes }
{
    "########"
}

pub(crate) fn append_hashes(text: &mut String) -> Result<(), AllocError>
    ensures ok { OnOk result (chars (string_bytes text.new) ≡ chars (string_bytes text.old) ++ hashes) }
    ensures grown { IsGrown (string_bytes text.old) (string_bytes text.new) }
{
    push_own(hashes(), text)
}

// Appends the size of a number as `General` shows it.
fn append_size(bits: u64, text: &mut String) -> Result<(), AllocError>
    ensures ok { OnOk result (chars (string_bytes text.new) ≡ chars (string_bytes text.old) ++ general (decimal_of bits)) }
    ensures grown { IsGrown (string_bytes text.old) (string_bytes text.new) }
{
    push_general_double(bits, text)
}

// Appends a number without a section.
pub(crate) fn append_general(minus: bool, bits: u64, text: &mut String) -> Result<(), AllocError>
    ensures ok { OnOk result (chars (string_bytes text.new)
        ≡ chars (string_bytes text.old) ++ (sign minus ++ general (decimal_of bits))) }
    ensures grown { IsGrown (string_bytes text.old) (string_bytes text.new) }
{
    append_sign(minus, text)?;
    append_size(bits, text)
}

// What an item of a section with `General` shows, but the word.
#[tactic(auto, using(crate::proofs::SignLemmas::no_chars))]
fn own_text<'a>(item: Item, own: &'a str) -> &'a str
    ensures { chars result.now ≡ shown_by item (chars own.now) [] }
{
    match item {
        Item::Text | Item::Place(_) | Item::Elapsed(_) => "",
        _ => own,
    }
}

fn append_general_item(
    bits: u64,
    item: Item,
    own: &str,
    text: &mut String,
) -> Result<(), AllocError>
    ensures ok { OnOk result (chars (string_bytes text.new)
        ≡ chars (string_bytes text.old) ++ general_item (decimal_of bits) item (chars own.now)) }
    ensures grown { IsGrown (string_bytes text.old) (string_bytes text.new) }
{
    match item {
        Item::General => append_size(bits, text),
        _ => push_own(own_text(item, own), text),
    }
}

fn append_general_items(
    section: &SectionItems<'_>,
    bits: u64,
    text: &mut String,
) -> Result<(), AllocError>
    ensures ok { OnOk result (chars (string_bytes text.new)
        ≡ chars (string_bytes text.old) ++ general_text section.now (decimal_of bits)) }
    ensures grown { IsGrown (string_bytes text.old) (string_bytes text.new) }
{
    let mut items = section.iter();
    'items: while let Some((item, own)) = items.next() {
        append_general_item(bits, item, own, text)?;
    }
    Ok(())
}

// Appends a number under a section with `General`.
pub(crate) fn append_general_section(
    section: &SectionItems<'_>,
    minus: bool,
    bits: u64,
    text: &mut String,
) -> Result<(), AllocError>
    ensures ok { OnOk result (chars (string_bytes text.new)
        ≡ chars (string_bytes text.old) ++ (sign minus ++ general_text section.now (decimal_of bits))) }
    ensures grown { IsGrown (string_bytes text.old) (string_bytes text.new) }
{
    append_sign(minus, text)?;
    append_general_items(section, bits, text)
}

// Appends a number under a section of places.
pub(crate) fn append_plain(
    section: &SectionItems<'_>,
    plain: &Plain,
    minus: bool,
    bits: u64,
    text: &mut String,
) -> Result<(), AllocError>
    requires { plain.now ≡ plain_of (kinds section.now) }
    ensures ok { OnOk result (chars (string_bytes text.new)
        ≡ chars (string_bytes text.old) ++ (sign minus ++ plain_text section.now (decimal_of bits))) }
    ensures grown { IsGrown (string_bytes text.old) (string_bytes text.new) }
{
    append_sign(minus, text)?;
    push_plain(section, plain, to_15_digits(bits), text)
}

// Appends a number under a section with an exponent.
pub(crate) fn append_exponent(
    section: &SectionItems<'_>,
    exponent: &Exponent,
    minus: bool,
    bits: u64,
    text: &mut String,
) -> Result<(), AllocError>
    requires { exponent.now ≡ exponents.needs_of section.now }
    ensures ok { OnOk result (chars (string_bytes text.new)
        ≡ chars (string_bytes text.old) ++ (sign minus ++ exponent_text section.now (decimal_of bits))) }
    ensures grown { IsGrown (string_bytes text.old) (string_bytes text.new) }
{
    append_sign(minus, text)?;
    push_exponent(section, exponent, to_15_digits(bits), text)
}

// Appends a number under a section with a fraction.
pub(crate) fn append_fraction(
    section: &SectionItems<'_>,
    fraction: &Fraction,
    minus: bool,
    bits: u64,
    text: &mut String,
) -> Result<(), AllocError>
    requires finite { exponent_of bits < 2047 }
    requires fraction { fraction.now ≡ fractions.needs_of section.now }
    ensures ok { OnOk result (chars (string_bytes text.new)
        ≡ chars (string_bytes text.old) ++ (sign minus ++ fraction_text section.now bits)) }
    ensures grown { IsGrown (string_bytes text.old) (string_bytes text.new) }
{
    append_sign(minus, text)?;
    push_fraction(section, fraction, bits, text)
}

// Appends a moment under a date's section.
fn append_moment(
    section: &SectionItems<'_>,
    clock: Clock,
    minus: bool,
    moment: &Moment,
    text: &mut String,
) -> Result<(), AllocError>
    ensures ok { OnOk result (chars (string_bytes text.new)
        ≡ chars (string_bytes text.old) ++ (sign minus ++ section_text clock moment.now section.now)) }
    ensures grown { IsGrown (string_bytes text.old) (string_bytes text.new) }
{
    append_sign(minus, text)?;
    push_moment(section, clock, moment, text)
}

// Appends a number under a date's section.
pub(crate) fn append_date(
    section: &SectionItems<'_>,
    clock: Clock,
    minus: bool,
    bits: u64,
    is_1904: bool,
    text: &mut String,
) -> Result<(), AllocError>
    requires { clock ≡ clock_of (fields section.now) }
    ensures ok { OnOk result (Gains (λ shown. IsDateShown section.now minus is_1904 bits shown)
        (chars (string_bytes text.old)) (chars (string_bytes text.new))) }
    ensures grown { IsGrown (string_bytes text.old) (string_bytes text.new) }
{
    match moment_of(bits, is_1904, clock.precision()) {
        None => append_hashes(text),
        Some(moment) => append_moment(section, clock, minus, &moment, text),
    }
}
