//! A code, and what it shows.

ghost use Rattle.std.specs.Prelude.{◌≡◌, ◌<◌, ◌++◌, min, IfOk, OnOk, OnErr};
ghost use Rattle.std.specs.String.{string_bytes};
ghost use Rattle.std.specs.Str.{chars};
ghost use Rattle.xls_bytes.specs.Doubles.{exponent_of};
ghost use Rattle.xls_bytes.specs.Growth.{IsGrown};
ghost use Rattle.xls_number_formats.specs.Classes.{class_of};
ghost use Rattle.xls_number_formats.specs.Formats.{parts_of};
ghost use Rattle.xls_number_formats.specs.Grammar.{items};
ghost use Rattle.xls_shown.specs.Shown.{Gains, code_at, IsShown, text_shown};
ghost use Rattle.xls_shown.specs.Shapes.{IsTextsSection};

use crate::numbers::{append_general, append_hashes, push_own};
use crate::sections::ShownSection;
use std::alloc::{AllocError, Global};
use std::marker::Model;
use xls_bytes::first_char;
use xls_number_formats::{Choice, Class, Format, SectionItems, push_shown_text, texts_code};

/// A number format's code, whose items are told apart once. It borrows the code, and takes memory for
/// the items of four sections. Contracts see the characters of the code.
#[derive(Drop)]
pub struct ShownFormat<'a> {
    code: &'a str,
    format: Format<'a>,
    first: ShownSection<'a>,
    second: ShownSection<'a>,
    third: ShownSection<'a>,
    // The section for texts.
    texts: Option<SectionItems<'a>>,
}

impl<'a> Model for ShownFormat<'a> {
    ghost use Rattle.std.specs.Prelude.{◌≡◌, ℕ, List};
    ghost use Rattle.std.specs.Str.{chars};
    ghost use Rattle.xls_number_formats.specs.Formats.{parts_of};
    ghost use Rattle.xls_number_formats.specs.Grammar.{items};
    ghost use Rattle.xls_shown.specs.Shown.{code_at};
    ghost use Rattle.xls_shown.specs.Shapes.{IsTextsSection};

    ghost Value = { List ℕ };

    ghost view = { λ f. chars f.code.now };

    ghost invariant = { λ f. (f.format ≡ parts_of (chars f.code.now)) × (f.first ≡ items (code_at (chars f.code.now) 0))
        × (f.second ≡ items (code_at (chars f.code.now) 1)) × (f.third ≡ items (code_at (chars f.code.now) 2))
        × IsTextsSection (chars f.code.now) f.texts };
}

// The code from a section on; an empty one without that section.
#[tactic(auto, using(crate::proofs::SignLemmas::no_chars))]
fn code_at<'a>(format: &Format<'a>, code: &'a str, place: usize) -> &'a str
    requires { format.now ≡ parts_of (chars code.now) }
    ensures { chars result.now ≡ code_at (chars code.now) place }
{
    match format.code(place) {
        Some(section) => section,
        None => "",
    }
}

// The items of the section for texts, if there is one.
fn read_texts(alloc: Global, code: &str) -> Result<Option<SectionItems<'_>>, AllocError>
    ensures { IfOk result (IsTextsSection (chars code.now)) }
{
    match texts_code(code) {
        Some(section) => Ok(Some(SectionItems::new(alloc, section)?)),
        None => Ok(None),
    }
}

impl<'a> ShownFormat<'a> {
    /// Every code has a meaning. Only running out of memory refuses.
    pub fn new(alloc: Global, code: &'a str) -> Result<ShownFormat<'a>, AllocError>
        ensures { IfOk result (λ format. format ≡ chars code.now) }
    {
        let format = Format::new(code);
        let first = ShownSection::new(alloc, code_at(&format, code, 0))?;
        let second = ShownSection::new(alloc, code_at(&format, code, 1))?;
        let third = ShownSection::new(alloc, code_at(&format, code, 2))?;
        let texts = read_texts(alloc, code)?;
        Ok(ShownFormat {
            code,
            format,
            first,
            second,
            third,
            texts,
        })
    }

    /// Whether the code shows the double with these bits as a date, as an elapsed time, or as a number, as
    /// `class_of` tells it. Takes no memory.
    pub fn class(&self, bits: u64) -> Class
        ensures { result ≡ class_of self.now bits }
    {
        self.format.class(bits)
    }

    // The section for numbers at this place, of which there are at most three.
    fn section(&self, place: usize) -> &ShownSection<'a>
        ensures { result.now ≡ items (code_at self.now (min place 2)) }
    {
        match place {
            0 => &self.first,
            1 => &self.second,
            _ => &self.third,
        }
    }

    // As `push`, but an error may leave a part.
    fn append(&self, bits: u64, is_1904: bool, text: &mut String) -> Result<(), AllocError>
        requires { exponent_of bits < 2047 }
        ensures ok { OnOk result (Gains (λ shown. IsShown self.now is_1904 bits shown)
            (chars (string_bytes text.old)) (chars (string_bytes text.new))) }
        ensures grown { IsGrown (string_bytes text.old) (string_bytes text.new) }
    {
        let (choice, minus) = self.format.choose(bits);
        match choice {
            Choice::General => append_general(minus, bits, text),
            Choice::Hashes => append_hashes(text),
            Choice::Section(place) => self.section(place).append(minus, bits, is_1904, text),
        }
    }

    /// Appends what the code shows of the finite double with these bits, in the 1900 or the 1904 date
    /// system: by the section that applies, with a minus below 0 unless the section is for negative
    /// numbers anyway, in a column that is wide enough. `########` stands for a date without a moment,
    /// and for a number that no section is for. Only running out of memory refuses, and then the text is
    /// as it was.
    pub fn push(&self, bits: u64, is_1904: bool, text: &mut String) -> Result<(), AllocError>
        requires { exponent_of bits < 2047 }
        ensures ok { OnOk result (Gains (λ shown. IsShown self.now is_1904 bits shown)
            (chars (string_bytes text.old)) (chars (string_bytes text.new))) }
        ensures err { OnErr result (string_bytes text.new ≡ string_bytes text.old) }
    {
        let before = text.len();
        let done = self.append(bits, is_1904, text);
        if done.is_err() {
            text.truncate(before);
        }
        done
    }

    /// Appends what the code shows of a text, or of the words `TRUE` and `FALSE` for a truth, as
    /// `push_shown_text` does, and as it is where no section is for texts; of an empty text nothing.
    pub fn push_text(&self, shown: &str, text: &mut String) -> Result<(), AllocError>
        ensures ok { OnOk result (chars (string_bytes text.new)
            ≡ chars (string_bytes text.old) ++ text_shown self.now (chars shown.now)) }
        ensures err { OnErr result (string_bytes text.new ≡ string_bytes text.old) }
    {
        let Some(section) = &self.texts else {
            return push_own(shown, text);
        };
        match first_char(shown) {
            Some(_) => push_shown_text(section, shown, text),
            None => Ok(()),
        }
    }
}
