//! How the cells of a workbook look.

ghost use Rattle.std.specs.Prelude.{◌≡◌, IfOk, Some, length};
ghost use Rattle.std.specs.Option.{option_copied};
ghost use Rattle.xls_parts.specs.PartRecords.{globals_records};
ghost use Rattle.xls_styles.specs.Fonts.{font_view_if};
ghost use Rattle.xls_styles.specs.Styles as styles;
ghost use Rattle.xls_styles.specs.Styles.{font_style_view, style_view};

use crate::alignments::{Alignment, alignment_of};
use crate::borders::{Border, Borders, LineStyle, borders_of};
use crate::colors::{Color, color_of, read_palette};
use crate::damage::{Damage, read_damages};
use crate::fills::{Fill, fill_of};
use crate::fonts::{Font, FontMarks, NO_MARKS, font_at, read_fonts};
use crate::formats::Formats;
use crate::marks::{Protection, protection_of};
use crate::sizes::Size;
use crate::xfs::{Xf, read_xfs};
use std::alloc::{AllocError, Global};
use std::marker::Model;
use xls_record::Biff;
use xls_text::XlsEncoding;

/// A font of a workbook.
#[derive(Clone, Copy, Debug)]
pub struct FontStyle<'s> {
    pub marks: FontMarks,
    /// Empty where the font isn't there.
    pub name: &'s str,
    /// None where the font isn't there.
    pub size: Option<Size>,
    pub color: Color,
}

/// How a cell looks.
#[derive(Clone, Copy, Debug)]
pub struct CellStyle<'s> {
    pub font: FontStyle<'s>,
    pub protection: Protection,
    /// The code of its number format.
    pub code: &'s str,
    pub fill: Fill,
    pub alignment: Alignment,
    pub borders: Borders,
}

/// How the cells of a workbook look: of each Font its fields and its name, of each XF its fields, of each Format its code,
/// and the palette.
///
/// Contracts see what the records of the globals say.
#[derive(Drop)]
pub struct Styles {
    version: Biff,
    fonts: Vec<Font>,
    xfs: Vec<Xf>,
    formats: Formats,
    palette: Vec<u32>,
    damages: Vec<Damage>,
}

impl Model for Styles {
    ghost use Rattle.std.specs.Prelude.{map};
    ghost use Rattle.xls_styles.specs.Fonts.{font_view};
    ghost use Rattle.xls_styles.specs.Styles.{Styles as StylesContent};

    ghost Value = { StylesContent };

    ghost view = { λ s. record {
      version = s.version;
      fonts = map font_view s.fonts.items;
      xfs = s.xfs.items;
      formats = s.formats;
      palette = s.palette.items;
      damages = s.damages.items;
    } };
}

const NO_BORDER: Border = Border {
    line: LineStyle { number: 0 },
    color: Color::Auto,
};

/// In the place of a font that isn't there.
#[tactic(auto, using(crate::proofs::ColorLemmas::no_chars))]
fn no_font<'s>() -> FontStyle<'s>
    ensures { font_style_view result ≡ styles.no_font }
{
    FontStyle {
        marks: NO_MARKS,
        name: "",
        size: None,
        color: Color::Auto,
    }
}

/// In the place of a style that isn't there.
#[tactic(auto, using(crate::proofs::ColorLemmas::no_chars))]
fn no_style<'s>() -> CellStyle<'s>
    ensures { style_view result ≡ styles.no_style }
{
    CellStyle {
        font: no_font(),
        protection: Protection {
            is_unlocked: false,
            is_concealed: false,
        },
        code: "",
        fill: Fill {
            pattern: 0,
            color: Color::Auto,
            back: Color::Auto,
        },
        alignment: Alignment {
            across: 0,
            down: 2,
            is_wrapped: false,
            is_shrunk: false,
            indent: 0,
            turn: 0,
        },
        borders: Borders {
            left: NO_BORDER,
            right: NO_BORDER,
            top: NO_BORDER,
            bottom: NO_BORDER,
            diagonals: 0,
            diagonal: NO_BORDER,
        },
    }
}

impl Styles {
    /// What the globals that a workbook's stream begins with say of fonts ([MS-XLS] 2.4.122), formats of cells (2.4.353), codes
    /// of number formats (2.4.126) and the palette (2.4.188), under a version and a page. Refused where memory runs out.
    pub fn read(
        alloc: Global,
        stream: &[u8],
        version: Biff,
        page: &XlsEncoding,
    ) -> Result<Styles, AllocError>
        ensures { IfOk result (λ s. s ≡ styles.styles_of version page.now (globals_records stream.now)) }
    {
        Ok(Styles {
            version,
            fonts: read_fonts(alloc, stream, version, page)?,
            xfs: read_xfs(alloc, stream, version)?,
            formats: Formats::read(alloc, stream, version, page)?,
            palette: read_palette(alloc, stream)?,
            damages: read_damages(alloc, stream, version)?,
        })
    }

    /// The damaged records of the globals, in the order of the stream.
    pub fn damages(&self) -> &[Damage]
        ensures { result.now ≡ self.now.damages }
    {
        &self.damages
    }

    /// The colour of a number.
    fn color(&self, icv: u16) -> Color
        ensures { result ≡ styles.color_in self.now icv }
    {
        color_of(self.version, &self.palette, icv)
    }

    /// The font of an index; 4 is none.
    pub fn font(&self, index: u16) -> FontStyle<'_>
        ensures { font_style_view result ≡ styles.font_of self.now index }
    {
        match font_at(&self.fonts, index) {
            Some(font) => FontStyle {
                marks: font.marks,
                name: font.name.as_str(),
                size: Some(Size {
                    twentieths: font.height,
                }),
                color: self.color(font.color),
            },
            None => no_font(),
        }
    }

    /// How a cell looks that has an XF.
    fn xf_style(&self, xf: &Xf) -> CellStyle<'_>
        ensures { style_view result ≡ styles.xf_style self.now (Some xf.now) }
    {
        CellStyle {
            font: self.font(xf.font),
            protection: protection_of(xf),
            code: self.formats.code(xf.format),
            fill: fill_of(self.version, &self.palette, xf),
            alignment: alignment_of(xf),
            borders: borders_of(self.version, &self.palette, xf),
        }
    }

    /// How many XF records there are.
    pub fn count(&self) -> usize
        ensures { result ≡ length self.now.xfs }
    {
        self.xfs.len()
    }

    /// The style of the XF of an index, counted from 0. Of an index past the table nothing is told.
    pub fn style(&self, index: usize) -> CellStyle<'_>
        ensures { style_view result ≡ styles.style_of self.now index }
    {
        match self.xfs.get(index) {
            Some(xf) => self.xf_style(xf),
            None => no_style(),
        }
    }

    /// How a cell looks, by the index of its XF. Of an index past the table nothing is told.
    pub fn cell(&self, xf: u16) -> CellStyle<'_>
        ensures { style_view result ≡ styles.style_of self.now xf }
    {
        self.style(usize::from(xf))
    }
}
